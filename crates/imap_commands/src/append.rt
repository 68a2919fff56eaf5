//! Writing of single parts of commands.

ghost use Rattle.std.specs.Prelude.{◌≡◌, OnOk, OnErr};
ghost use Rattle.wire_reader.specs.Spelling.{Is};
ghost use Rattle.wire_tokens.specs.Writing.{Appended};
ghost use Rattle.imap_commands.specs.Requests.{verb_of, items_word, mode_word};
ghost use Rattle.imap_commands.specs.Verbs.{word_of};

use crate::command::{FetchItems, Request, StoreMode};
use std::alloc::AllocError;
use wire_tokens::appending::append;

/// Writes the word that the request begins with.
pub(crate) fn append_word(request: &Request, out: &mut Vec<u8>) -> Result<(), AllocError>
    ensures ok { OnOk result (Appended (Is (word_of (verb_of request.now))) out.old.items out.new.items) }
    ensures err { OnErr result (out.new.items ≡ out.old.items) }
{
    append(request.verb().word(), out)
}

/// Writes which items are asked for.
pub(crate) fn append_items(items: FetchItems, out: &mut Vec<u8>) -> Result<(), AllocError>
    ensures ok { OnOk result (Appended (Is (items_word items)) out.old.items out.new.items) }
    ensures err { OnErr result (out.new.items ≡ out.old.items) }
{
    append(items.word(), out)
}

/// Writes what is to be done with flags.
pub(crate) fn append_mode(mode: StoreMode, out: &mut Vec<u8>) -> Result<(), AllocError>
    ensures ok { OnOk result (Appended (Is (mode_word mode)) out.old.items out.new.items) }
    ensures err { OnErr result (out.new.items ≡ out.old.items) }
{
    append(mode.word(), out)
}
