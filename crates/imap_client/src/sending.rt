//! The texts of commands.

ghost use Rattle.std.specs.Prelude.{IfOk};
ghost use Rattle.imap_commands.specs.Writing.{Written};

use imap_commands::command::Command;
use imap_commands::writing::write_command;
use std::alloc::{AllocError, Global};

/// The text of a command.
///
/// `AllocError`: memory ran out.
pub(crate) fn text_of(alloc: Global, command: &Command) -> Result<Vec<u8>, AllocError>
    ensures { IfOk result (λ text. Written command.now text.items) }
{
    let mut text = Vec::new(alloc);
    write_command(command, &mut text)?;
    Ok(text)
}
