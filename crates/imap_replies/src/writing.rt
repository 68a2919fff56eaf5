//! Writing of replies.

ghost use Rattle.std.specs.Prelude.{◌≡◌, length, take, codes, OnOk, OnErr};
ghost use Rattle.wire_reader.specs.Spelling.{◌⨾◌, Is, crlf};
ghost use Rattle.wire_tokens.specs.Writing.{Appended};
ghost use Rattle.wire_strings.specs.Texts.{LastText};
ghost use Rattle.imap_replies.specs.Forms.{AsWritten};
ghost use Rattle.imap_replies.specs.declared.reply.Reply.TheVariants as replies;
ghost use Rattle.imap_replies.specs.Words.{status_word, notice_word};
ghost use Rattle.imap_replies.specs.Lines.{RestText};
ghost use Rattle.imap_replies.specs.Listings.{MarkIn};
ghost use Rattle.imap_replies.specs.Replies.{NamesLine, ReplyIn, ReplyText, WrittenReply};
ghost use Rattle.imap_replies.specs.Room.{Fitting, RepliesFit};

use crate::fetch::FetchList;
use crate::fetch_writing::append_fetch;
use crate::other::{OtherEvent, OtherWord};
use crate::reply::Reply;
use crate::response::ResponseText;
use crate::response_writing::append_response;
use crate::word::{NoticeKind, Status};
use std::alloc::AllocError;
use wire_strings::astring::AString;
use wire_strings::delimiter::Delimiter;
use wire_strings::line_text::LineText;
use wire_tokens::appending::append;
use wire_tokens::flag_list::FlagNames;
use wire_tokens::names::Names;
use wire_tokens::number::{NonZero, write_number};
use wire_tokens::tag::Tag;

/// Writes the reply at the end, with its words in upper case. Strings are written as they are held.
///
/// `AllocError`: memory ran out, and nothing is written.
pub fn write_reply(reply: &Reply<'_>, out: &mut Vec<u8>) -> Result<(), AllocError>
    ensures ok { OnOk result (Appended (ReplyText reply.now) out.old.items out.new.items) }
    // In which form.
    ensures form { OnOk result (Appended (WrittenReply reply.now) out.old.items out.new.items) }
    // With how many bytes outside the octets of literals.
    ensures fits { OnOk result (Appended (Fitting reply.now) out.old.items out.new.items) }
    ensures err { OnErr result (out.new.items ≡ out.old.items) }
{
    let start = out.len();
    let written = append_reply(reply, out);
    if written.is_err() {
        out.truncate(start);
    }
    written
}

/// The same; where memory runs out, a part may be written.
fn append_reply(reply: &Reply<'_>, out: &mut Vec<u8>) -> Result<(), AllocError>
    ensures ok { OnOk result (Appended (ReplyIn AsWritten reply.now) out.old.items out.new.items) }
    ensures kept { OnErr result (take (length out.old.items) out.new.items ≡ out.old.items) }
{
    match reply {
        Reply::Continue(text) => append_continue(text, out),
        Reply::Tagged(tag, status, text) => append_tagged(tag, *status, text, out),
        Reply::Notice(kind, text) => append_notice(*kind, text, out),
        Reply::Capability(names) => append_names(b"CAPABILITY", names, out),
        Reply::Enabled(names) => append_names(b"ENABLED", names, out),
        Reply::List(attributes, delimiter, name) => append_list(attributes, delimiter, name, out),
        Reply::Flags(flags) => append_flags(flags, out),
        Reply::Exists(number) => append_exists(*number, out),
        Reply::Expunge(number) => append_expunge(number, out),
        Reply::Fetch(number, items) => append_message(number, items, out),
        Reply::Other(word, text) => append_other(word, text, out),
        Reply::OtherNumbered(number, event, text) => append_event(*number, event, text, out),
    }
}

fn append_continue(text: &LineText<'_>, out: &mut Vec<u8>) -> Result<(), AllocError>
    ensures ok { OnOk result (Appended (ReplyIn AsWritten (replies.Continue text.now)) out.old.items out.new.items) }
    ensures kept { OnErr result (take (length out.old.items) out.new.items ≡ out.old.items) }
{
    append(b"+ ", out)?;
    text.write(out)?;
    Ok(())
}

fn append_tagged(
    tag: &Tag,
    status: Status,
    text: &ResponseText<'_>,
    out: &mut Vec<u8>,
) -> Result<(), AllocError>
    ensures ok { OnOk result (Appended (ReplyIn AsWritten (replies.Tagged tag.now status text.now)) out.old.items out.new.items) }
    ensures kept { OnErr result (take (length out.old.items) out.new.items ≡ out.old.items) }
{
    tag.write(out)?;
    append(b" ", out)?;
    append_status(status, out)?;
    append(b" ", out)?;
    append_response(text, out)?;
    Ok(())
}

fn append_status(status: Status, out: &mut Vec<u8>) -> Result<(), AllocError>
    ensures ok { OnOk result (Appended (Is (status_word status)) out.old.items out.new.items) }
    ensures err { OnErr result (out.new.items ≡ out.old.items) }
{
    match status {
        Status::Ok => append(b"OK", out),
        Status::No => append(b"NO", out),
        Status::Bad => append(b"BAD", out),
    }
}

fn append_notice(
    kind: NoticeKind,
    text: &ResponseText<'_>,
    out: &mut Vec<u8>,
) -> Result<(), AllocError>
    ensures ok { OnOk result (Appended (ReplyIn AsWritten (replies.Notice kind text.now)) out.old.items out.new.items) }
    ensures kept { OnErr result (take (length out.old.items) out.new.items ≡ out.old.items) }
{
    append(b"* ", out)?;
    append_kind(kind, out)?;
    append(b" ", out)?;
    append_response(text, out)?;
    Ok(())
}

fn append_kind(kind: NoticeKind, out: &mut Vec<u8>) -> Result<(), AllocError>
    ensures ok { OnOk result (Appended (Is (notice_word kind)) out.old.items out.new.items) }
    ensures err { OnErr result (out.new.items ≡ out.old.items) }
{
    match kind {
        NoticeKind::Ok => append(b"OK", out),
        NoticeKind::No => append(b"NO", out),
        NoticeKind::Bad => append(b"BAD", out),
        NoticeKind::Bye => append(b"BYE", out),
        NoticeKind::Preauth => append(b"PREAUTH", out),
    }
}

/// Writes the line of CAPABILITY or ENABLED.
fn append_names(word: &[u8], names: &Option<Names<'_>>, out: &mut Vec<u8>) -> Result<(), AllocError>
    ensures ok { OnOk result (Appended (Is (codes "* ") ⨾ Is word.now ⨾ RestText crlf NamesLine names.now) out.old.items out.new.items) }
    ensures kept { OnErr result (take (length out.old.items) out.new.items ≡ out.old.items) }
{
    append(b"* ", out)?;
    append(word, out)?;
    append_names_line(names, out)?;
    Ok(())
}

fn append_names_line(names: &Option<Names<'_>>, out: &mut Vec<u8>) -> Result<(), AllocError>
    ensures ok { OnOk result (Appended (RestText crlf NamesLine names.now) out.old.items out.new.items) }
    ensures kept { OnErr result (take (length out.old.items) out.new.items ≡ out.old.items) }
{
    match names {
        None => append(b"\r\n", out),
        Some(names) => {
            append(b" ", out)?;
            names.write(out)?;
            append(b"\r\n", out)?;
            Ok(())
        }
    }
}

fn append_list(
    attributes: &FlagNames<'_>,
    delimiter: &Option<Delimiter>,
    name: &AString<'_>,
    out: &mut Vec<u8>,
) -> Result<(), AllocError>
    ensures ok { OnOk result (Appended (ReplyIn AsWritten (replies.List attributes.now delimiter.now name.now)) out.old.items out.new.items) }
    ensures kept { OnErr result (take (length out.old.items) out.new.items ≡ out.old.items) }
{
    append(b"* ", out)?;
    append(b"LIST", out)?;
    append(b" ", out)?;
    attributes.write(out)?;
    append(b" ", out)?;
    append_mark(delimiter, out)?;
    append(b" ", out)?;
    name.write(out)?;
    append(b"\r\n", out)?;
    Ok(())
}

fn append_mark(delimiter: &Option<Delimiter>, out: &mut Vec<u8>) -> Result<(), AllocError>
    ensures ok { OnOk result (Appended (MarkIn AsWritten delimiter.now) out.old.items out.new.items) }
    ensures err { OnErr result (out.new.items ≡ out.old.items) }
{
    match delimiter {
        None => append(b"NIL", out),
        Some(delimiter) => delimiter.write(out),
    }
}

fn append_flags(flags: &FlagNames<'_>, out: &mut Vec<u8>) -> Result<(), AllocError>
    ensures ok { OnOk result (Appended (ReplyIn AsWritten (replies.Flags flags.now)) out.old.items out.new.items) }
    ensures kept { OnErr result (take (length out.old.items) out.new.items ≡ out.old.items) }
{
    append(b"* ", out)?;
    append(b"FLAGS", out)?;
    append(b" ", out)?;
    flags.write(out)?;
    append(b"\r\n", out)?;
    Ok(())
}

fn append_exists(number: u32, out: &mut Vec<u8>) -> Result<(), AllocError>
    ensures ok { OnOk result (Appended (ReplyIn AsWritten (replies.Exists number)) out.old.items out.new.items) }
    ensures kept { OnErr result (take (length out.old.items) out.new.items ≡ out.old.items) }
{
    append(b"* ", out)?;
    write_number(number, out)?;
    append(b" ", out)?;
    append(b"EXISTS", out)?;
    append(b"\r\n", out)?;
    Ok(())
}

fn append_expunge(number: &NonZero, out: &mut Vec<u8>) -> Result<(), AllocError>
    ensures ok { OnOk result (Appended (ReplyIn AsWritten (replies.Expunge number.now)) out.old.items out.new.items) }
    ensures kept { OnErr result (take (length out.old.items) out.new.items ≡ out.old.items) }
{
    append(b"* ", out)?;
    number.write(out)?;
    append(b" ", out)?;
    append(b"EXPUNGE", out)?;
    append(b"\r\n", out)?;
    Ok(())
}

/// Writes the line of FETCH.
fn append_message(
    number: &NonZero,
    items: &FetchList<'_>,
    out: &mut Vec<u8>,
) -> Result<(), AllocError>
    ensures ok { OnOk result (Appended (ReplyIn AsWritten (replies.Fetch number.now items.now)) out.old.items out.new.items) }
    ensures kept { OnErr result (take (length out.old.items) out.new.items ≡ out.old.items) }
{
    append(b"* ", out)?;
    number.write(out)?;
    append(b" ", out)?;
    append(b"FETCH", out)?;
    append_fetch(items, out)?;
    Ok(())
}

fn append_other(
    word: &OtherWord<'_>,
    text: &Option<LineText<'_>>,
    out: &mut Vec<u8>,
) -> Result<(), AllocError>
    ensures ok { OnOk result (Appended (ReplyIn AsWritten (replies.Other word.now text.now)) out.old.items out.new.items) }
    ensures kept { OnErr result (take (length out.old.items) out.new.items ≡ out.old.items) }
{
    append(b"* ", out)?;
    append(word.text(), out)?;
    append_rest(text, out)?;
    Ok(())
}

fn append_event(
    number: u32,
    event: &OtherEvent<'_>,
    text: &Option<LineText<'_>>,
    out: &mut Vec<u8>,
) -> Result<(), AllocError>
    ensures ok { OnOk result (Appended (ReplyIn AsWritten (replies.OtherNumbered number event.now text.now)) out.old.items out.new.items) }
    ensures kept { OnErr result (take (length out.old.items) out.new.items ≡ out.old.items) }
{
    append(b"* ", out)?;
    write_number(number, out)?;
    append(b" ", out)?;
    append(event.text(), out)?;
    append_rest(text, out)?;
    Ok(())
}

/// Writes the line end, or a space, a text and the line end.
fn append_rest(text: &Option<LineText<'_>>, out: &mut Vec<u8>) -> Result<(), AllocError>
    ensures ok { OnOk result (Appended (RestText crlf LastText text.now) out.old.items out.new.items) }
    ensures kept { OnErr result (take (length out.old.items) out.new.items ≡ out.old.items) }
{
    match text {
        None => append(b"\r\n", out),
        Some(text) => {
            append(b" ", out)?;
            text.write(out)?;
            Ok(())
        }
    }
}

/// A reply as it is written has at most so many bytes outside the octets of literals as its parts say.
pub fn written_replies_fit()
    ensures { RepliesFit }
{}
