//! Writing of commands.

ghost use Rattle.std.specs.Prelude.{◌≡◌, length, take, OnOk, OnErr};
ghost use Rattle.wire_tokens.specs.Writing.{Appended};
ghost use Rattle.imap_commands.specs.Commands.{Spelled};
ghost use Rattle.imap_commands.specs.Room.{Fitting, CommandsFit};
ghost use Rattle.imap_commands.specs.Waiting.{AppendsWait};
ghost use Rattle.imap_commands.specs.Writing.{Written};

use crate::append::append_word;
use crate::command::Command;
use crate::request_writing::append_request;
use std::alloc::AllocError;
use wire_tokens::appending::append;

/// Writes the command at the end, with its words in upper case. Mailboxes, users and passwords are quoted, or literals
/// where a byte of them cannot be quoted.
///
/// `AllocError`: memory ran out, and nothing is written.
pub fn write_command(command: &Command, out: &mut Vec<u8>) -> Result<(), AllocError>
    ensures ok { OnOk result (Appended (Spelled command.now) out.old.items out.new.items) }
    // In which form.
    ensures form { OnOk result (Appended (Written command.now) out.old.items out.new.items) }
    // With how many bytes outside the octets of literals.
    ensures fits { OnOk result (Appended (Fitting command.now) out.old.items out.new.items) }
    ensures err { OnErr result (out.new.items ≡ out.old.items) }
{
    let start = out.len();
    let written = append_command(command, out);
    if written.is_err() {
        out.truncate(start);
    }
    written
}

/// The same; where memory runs out, a part may be written.
fn append_command(command: &Command, out: &mut Vec<u8>) -> Result<(), AllocError>
    ensures ok { OnOk result (Appended (Written command.now) out.old.items out.new.items) }
    ensures kept { OnErr result (take (length out.old.items) out.new.items ≡ out.old.items) }
{
    command.tag.write(out)?;
    append(b" ", out)?;
    append_word(&command.request, out)?;
    append_request(&command.request, out)?;
    Ok(())
}

/// The message of an APPEND as it is written stands before its line end, and its sender waits before it.
pub fn append_waits_for_its_message()
    ensures { AppendsWait }
{}

/// A command as it is written has at most so many bytes outside the octets of literals as its parts say.
pub fn written_commands_fit()
    ensures { CommandsFit }
{}
