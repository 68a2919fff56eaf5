//! Writing of what a message has. Where memory runs out, a part may be written.

ghost use Rattle.std.specs.Prelude.{◌≡◌, ◌<◌, length, take, codes, OnOk, OnErr};
ghost use Rattle.wire_reader.specs.declared.side.Speaker.TheVariants.{Replies};
ghost use Rattle.wire_reader.specs.Spelling.{◌⨾◌, Is, Word, ItemsText};
ghost use Rattle.wire_tokens.specs.Writing.{Appended};
ghost use Rattle.wire_strings.specs.Strings.{NStringText};
ghost use Rattle.imap_replies.specs.Forms.{AsWritten};
ghost use Rattle.imap_replies.specs.declared.fetch.FetchItem.TheVariants as items;
ghost use Rattle.imap_replies.specs.Fetches.{ItemIn, FetchIn};

use crate::fetch::{FetchItem, FetchList};
use std::alloc::AllocError;
use wire_strings::string::WireString;
use wire_tokens::appending::append;
use wire_tokens::flag_list::FlagNames;
use wire_tokens::number::{NonZero, write_number};

/// Writes what follows FETCH, with the line end.
pub(crate) fn append_fetch(list: &FetchList<'_>, out: &mut Vec<u8>) -> Result<(), AllocError>
    ensures ok { OnOk result (Appended (FetchIn AsWritten list.now) out.old.items out.new.items) }
    ensures kept { OnErr result (take (length out.old.items) out.new.items ≡ out.old.items) }
{
    append(b" (", out)?;
    append_items(list.items(), out)?;
    append(b")", out)?;
    append(b"\r\n", out)?;
    Ok(())
}

/// Writes the items, with spaces between.
fn append_items(items: &[FetchItem<'_>], out: &mut Vec<u8>) -> Result<(), AllocError>
    requires { 0 < length items.now }
    ensures ok { OnOk result (Appended (ItemsText 32 (ItemIn AsWritten) items.now) out.old.items out.new.items) }
    ensures kept { OnErr result (take (length out.old.items) out.new.items ≡ out.old.items) }
{
    for (i, item) in items.iter().enumerate() {
        if i > 0 {
            out.extend_from_slice(b" ")?;
        }
        append_item(item, out)?;
    }
    Ok(())
}

fn append_item(item: &FetchItem<'_>, out: &mut Vec<u8>) -> Result<(), AllocError>
    ensures ok { OnOk result (Appended (ItemIn AsWritten item.now) out.old.items out.new.items) }
    ensures kept { OnErr result (take (length out.old.items) out.new.items ≡ out.old.items) }
{
    match item {
        FetchItem::Uid(uid) => append_uid(uid, out),
        FetchItem::Flags(flags) => append_flags(flags, out),
        FetchItem::Size(size) => append_size(*size, out),
        FetchItem::Body(body) => append_body(b"BODY[] ", body, out),
        FetchItem::Head(head) => append_body(b"BODY[]<0> ", head, out),
    }
}

fn append_uid(uid: &NonZero, out: &mut Vec<u8>) -> Result<(), AllocError>
    ensures ok { OnOk result (Appended (ItemIn AsWritten (items.Uid uid.now)) out.old.items out.new.items) }
    ensures kept { OnErr result (take (length out.old.items) out.new.items ≡ out.old.items) }
{
    append(b"UID ", out)?;
    uid.write(out)?;
    Ok(())
}

fn append_flags(flags: &FlagNames<'_>, out: &mut Vec<u8>) -> Result<(), AllocError>
    ensures ok { OnOk result (Appended (ItemIn AsWritten (items.Flags flags.now)) out.old.items out.new.items) }
    ensures kept { OnErr result (take (length out.old.items) out.new.items ≡ out.old.items) }
{
    append(b"FLAGS ", out)?;
    flags.write(out)?;
    Ok(())
}

fn append_size(size: u32, out: &mut Vec<u8>) -> Result<(), AllocError>
    ensures ok { OnOk result (Appended (ItemIn AsWritten (items.Size size)) out.old.items out.new.items) }
    ensures kept { OnErr result (take (length out.old.items) out.new.items ≡ out.old.items) }
{
    append(b"RFC822.SIZE ", out)?;
    write_number(size, out)?;
    Ok(())
}

/// Writes a word and a body.
fn append_body(
    word: &[u8],
    body: &Option<WireString<'_>>,
    out: &mut Vec<u8>,
) -> Result<(), AllocError>
    ensures ok { OnOk result (Appended (Is word.now ⨾ NStringText Replies body.now) out.old.items out.new.items) }
    ensures kept { OnErr result (take (length out.old.items) out.new.items ≡ out.old.items) }
{
    append(word, out)?;
    append_string(body, out)?;
    Ok(())
}

fn append_string(string: &Option<WireString<'_>>, out: &mut Vec<u8>) -> Result<(), AllocError>
    ensures ok { OnOk result (Appended (NStringText Replies string.now) out.old.items out.new.items) }
    ensures err { OnErr result (out.new.items ≡ out.old.items) }
{
    match string {
        None => append_nil(out),
        Some(string) => string.write(out),
    }
}

fn append_nil(out: &mut Vec<u8>) -> Result<(), AllocError>
    ensures ok { OnOk result (Appended (Word (codes "NIL")) out.old.items out.new.items) }
    ensures err { OnErr result (out.new.items ≡ out.old.items) }
{
    out.extend_from_slice(b"NIL")
}
