//! Writing of the text of a status reply. Where memory runs out, a part may be written.

ghost use Rattle.std.specs.Prelude.{◌≡◌, length, take, codes, OnOk, OnErr};
ghost use Rattle.wire_reader.specs.Spelling.{◌⨾◌, Is};
ghost use Rattle.wire_tokens.specs.Writing.{Appended};
ghost use Rattle.wire_tokens.specs.Numbers.{NzText};
ghost use Rattle.wire_strings.specs.Texts.{BracketText};
ghost use Rattle.imap_replies.specs.Forms.{AsWritten};
ghost use Rattle.imap_replies.specs.declared.response.ResponseText.TheVariants as responses;
ghost use Rattle.imap_replies.specs.declared.response.Code.TheVariants as code;
ghost use Rattle.imap_replies.specs.Lines.{RestText};
ghost use Rattle.imap_replies.specs.Responses.{sp, CodeIn, ResponseIn};

use crate::other::OtherCode;
use crate::response::{Code, ResponseText};
use std::alloc::AllocError;
use wire_strings::code_text::CodeText;
use wire_strings::line_text::LineText;
use wire_tokens::appending::append;
use wire_tokens::flag_list::PermanentFlags;
use wire_tokens::number::NonZero;

/// Writes the text of a status reply, with the line end.
pub(crate) fn append_response(text: &ResponseText<'_>, out: &mut Vec<u8>) -> Result<(), AllocError>
    ensures ok { OnOk result (Appended (ResponseIn AsWritten text.now) out.old.items out.new.items) }
    ensures kept { OnErr result (take (length out.old.items) out.new.items ≡ out.old.items) }
{
    match text {
        ResponseText::Plain(text) => text.write(out),
        ResponseText::Coded(code, text) => append_coded(code, text, out),
    }
}

fn append_coded(code: &Code<'_>, text: &LineText<'_>, out: &mut Vec<u8>) -> Result<(), AllocError>
    ensures ok { OnOk result (Appended (ResponseIn AsWritten (responses.Coded code.now text.now)) out.old.items out.new.items) }
    ensures kept { OnErr result (take (length out.old.items) out.new.items ≡ out.old.items) }
{
    append(b"[", out)?;
    append_code(code, out)?;
    append(b" ", out)?;
    text.write(out)?;
    Ok(())
}

/// Writes a code after its `[`, up to and with `]`.
fn append_code(code: &Code<'_>, out: &mut Vec<u8>) -> Result<(), AllocError>
    ensures ok { OnOk result (Appended (CodeIn AsWritten code.now) out.old.items out.new.items) }
    ensures kept { OnErr result (take (length out.old.items) out.new.items ≡ out.old.items) }
{
    match code {
        Code::UidNext(uid) => append_uid(b"UIDNEXT", uid, out),
        Code::UidValidity(validity) => append_uid(b"UIDVALIDITY", validity, out),
        Code::PermanentFlags(flags) => append_permanent(flags, out),
        Code::AppendUid(validity, uid) => append_two(validity, uid, out),
        Code::ReadOnly => append_bare(b"READ-ONLY", out),
        Code::ReadWrite => append_bare(b"READ-WRITE", out),
        Code::Other(word, text) => append_other(word, text, out),
    }
}

/// Writes a word alone.
fn append_bare(word: &[u8], out: &mut Vec<u8>) -> Result<(), AllocError>
    ensures ok { OnOk result (Appended (Is word.now ⨾ Is (codes "]")) out.old.items out.new.items) }
    ensures kept { OnErr result (take (length out.old.items) out.new.items ≡ out.old.items) }
{
    append(word, out)?;
    append(b"]", out)?;
    Ok(())
}

/// Writes a word and a number.
fn append_uid(word: &[u8], uid: &NonZero, out: &mut Vec<u8>) -> Result<(), AllocError>
    ensures ok { OnOk result (Appended (Is word.now ⨾ Is sp ⨾ NzText uid.now ⨾ Is (codes "]")) out.old.items out.new.items) }
    ensures kept { OnErr result (take (length out.old.items) out.new.items ≡ out.old.items) }
{
    append(word, out)?;
    append(b" ", out)?;
    uid.write(out)?;
    append(b"]", out)?;
    Ok(())
}

fn append_permanent(flags: &PermanentFlags<'_>, out: &mut Vec<u8>) -> Result<(), AllocError>
    ensures ok { OnOk result (Appended (CodeIn AsWritten (code.PermanentFlags flags.now)) out.old.items out.new.items) }
    ensures kept { OnErr result (take (length out.old.items) out.new.items ≡ out.old.items) }
{
    append(b"PERMANENTFLAGS", out)?;
    append(b" ", out)?;
    flags.write(out)?;
    append(b"]", out)?;
    Ok(())
}

fn append_two(validity: &NonZero, uid: &NonZero, out: &mut Vec<u8>) -> Result<(), AllocError>
    ensures ok { OnOk result (Appended (CodeIn AsWritten (code.AppendUid validity.now uid.now)) out.old.items out.new.items) }
    ensures kept { OnErr result (take (length out.old.items) out.new.items ≡ out.old.items) }
{
    append(b"APPENDUID", out)?;
    append(b" ", out)?;
    validity.write(out)?;
    append(b" ", out)?;
    uid.write(out)?;
    append(b"]", out)?;
    Ok(())
}

fn append_other(
    word: &OtherCode<'_>,
    text: &Option<CodeText<'_>>,
    out: &mut Vec<u8>,
) -> Result<(), AllocError>
    ensures ok { OnOk result (Appended (CodeIn AsWritten (code.Other word.now text.now)) out.old.items out.new.items) }
    ensures kept { OnErr result (take (length out.old.items) out.new.items ≡ out.old.items) }
{
    append(word.text(), out)?;
    append_code_rest(text, out)?;
    Ok(())
}

fn append_code_rest(text: &Option<CodeText<'_>>, out: &mut Vec<u8>) -> Result<(), AllocError>
    ensures ok { OnOk result (Appended (RestText (codes "]") BracketText text.now) out.old.items out.new.items) }
    ensures kept { OnErr result (take (length out.old.items) out.new.items ≡ out.old.items) }
{
    match text {
        None => append(b"]", out),
        Some(text) => {
            append(b" ", out)?;
            text.write(out)?;
            Ok(())
        }
    }
}
