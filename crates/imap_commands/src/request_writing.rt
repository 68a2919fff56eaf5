//! Writing of what follows the word of a command. Where memory runs out, a part may be written.

ghost use Rattle.std.specs.Prelude.{◌≡◌, length, take, OnOk, OnErr};
ghost use Rattle.wire_reader.specs.Spelling.{◌⨾◌, Is, crlf};
ghost use Rattle.wire_tokens.specs.Writing.{Appended};
ghost use Rattle.imap_commands.specs.declared.command.Request.TheVariants as requests;
ghost use Rattle.imap_commands.specs.Writing.{WrittenText, WrittenRequest};

use crate::append::{append_items, append_mode};
use crate::command::{FetchItems, Request, StoreMode};
use crate::message::SentMessage;
use crate::pattern::ListPattern;
use std::alloc::AllocError;
use wire_strings::text::Text;
use wire_tokens::appending::append;
use wire_tokens::flag_list::FlagList;
use wire_tokens::names::NameList;
use wire_tokens::uid_set::UidSet;

/// Writes what follows the word of this request, with the line end.
pub(crate) fn append_request(request: &Request, out: &mut Vec<u8>) -> Result<(), AllocError>
    ensures ok { OnOk result (Appended (WrittenRequest request.now) out.old.items out.new.items) }
    ensures kept { OnErr result (take (length out.old.items) out.new.items ≡ out.old.items) }
{
    match request {
        Request::Capability => append(b"\r\n", out),
        Request::Noop => append(b"\r\n", out),
        Request::Logout => append(b"\r\n", out),
        Request::Login(user, password) => login(user, password, out),
        Request::Enable(names) => enable(names, out),
        Request::List(pattern) => list(pattern, out),
        Request::Create(mailbox) => mailbox_line(mailbox, out),
        Request::Select(mailbox) => mailbox_line(mailbox, out),
        Request::Append(mailbox, flags, message) => append_message(mailbox, flags, message, out),
        Request::Fetch(set, items) => fetch(set, *items, out),
        Request::Store(set, mode, flags) => store(set, *mode, flags, out),
        Request::Expunge(set) => expunge(set, out),
    }
}

fn login(user: &Text, password: &Text, out: &mut Vec<u8>) -> Result<(), AllocError>
    ensures ok { OnOk result (Appended (WrittenRequest (requests.Login user.now password.now)) out.old.items out.new.items) }
    ensures kept { OnErr result (take (length out.old.items) out.new.items ≡ out.old.items) }
{
    user.write(out)?;
    append(b" ", out)?;
    password.write(out)?;
    append(b"\r\n", out)?;
    Ok(())
}

fn enable(names: &NameList, out: &mut Vec<u8>) -> Result<(), AllocError>
    ensures ok { OnOk result (Appended (WrittenRequest (requests.Enable names.now)) out.old.items out.new.items) }
    ensures kept { OnErr result (take (length out.old.items) out.new.items ≡ out.old.items) }
{
    names.names().write(out)?;
    append(b"\r\n", out)?;
    Ok(())
}

fn list(pattern: &ListPattern, out: &mut Vec<u8>) -> Result<(), AllocError>
    ensures ok { OnOk result (Appended (WrittenRequest (requests.List pattern.now)) out.old.items out.new.items) }
    ensures kept { OnErr result (take (length out.old.items) out.new.items ≡ out.old.items) }
{
    pattern.write(out)?;
    append(b"\r\n", out)?;
    Ok(())
}

/// Writes the mailbox of a CREATE or SELECT.
fn mailbox_line(mailbox: &Text, out: &mut Vec<u8>) -> Result<(), AllocError>
    ensures ok { OnOk result (Appended (WrittenText mailbox.now ⨾ Is crlf) out.old.items out.new.items) }
    ensures kept { OnErr result (take (length out.old.items) out.new.items ≡ out.old.items) }
{
    mailbox.write(out)?;
    append(b"\r\n", out)?;
    Ok(())
}

/// Writes what follows APPEND.
fn append_message(
    mailbox: &Text,
    flags: &FlagList,
    message: &SentMessage,
    out: &mut Vec<u8>,
) -> Result<(), AllocError>
    ensures ok { OnOk result (Appended (WrittenRequest (requests.Append mailbox.now flags.now message.now)) out.old.items out.new.items) }
    ensures kept { OnErr result (take (length out.old.items) out.new.items ≡ out.old.items) }
{
    mailbox.write(out)?;
    append(b" ", out)?;
    flags.write(out)?;
    append(b" ", out)?;
    message.write(out)?;
    append(b"\r\n", out)?;
    Ok(())
}

fn fetch(set: &UidSet, items: FetchItems, out: &mut Vec<u8>) -> Result<(), AllocError>
    ensures ok { OnOk result (Appended (WrittenRequest (requests.Fetch set.now items)) out.old.items out.new.items) }
    ensures kept { OnErr result (take (length out.old.items) out.new.items ≡ out.old.items) }
{
    set.write(out)?;
    append(b" ", out)?;
    append_items(items, out)?;
    append(b"\r\n", out)?;
    Ok(())
}

fn store(
    set: &UidSet,
    mode: StoreMode,
    flags: &FlagList,
    out: &mut Vec<u8>,
) -> Result<(), AllocError>
    ensures ok { OnOk result (Appended (WrittenRequest (requests.Store set.now mode flags.now)) out.old.items out.new.items) }
    ensures kept { OnErr result (take (length out.old.items) out.new.items ≡ out.old.items) }
{
    set.write(out)?;
    append(b" ", out)?;
    append_mode(mode, out)?;
    flags.write(out)?;
    append(b"\r\n", out)?;
    Ok(())
}

fn expunge(set: &UidSet, out: &mut Vec<u8>) -> Result<(), AllocError>
    ensures ok { OnOk result (Appended (WrittenRequest (requests.Expunge set.now)) out.old.items out.new.items) }
    ensures kept { OnErr result (take (length out.old.items) out.new.items ≡ out.old.items) }
{
    set.write(out)?;
    append(b"\r\n", out)?;
    Ok(())
}
