//! The text of a status reply, with or without a response code (RFC 9051, section 9: resp-text, resp-text-code).

ghost use Rattle.wire_reader.specs.Given.{Gives};
ghost use Rattle.imap_replies.specs.Responses.{uid_close_at, known_code_at, code_rest_at, code_at, coded_at, response_at};

use crate::code_head::{CodeHead, read_code_head};
use crate::other::OtherCode;
use crate::word::CodeWord;
use wire_reader::punctuation::byte;
use wire_reader::stop::Stop;
use wire_strings::code_text::{CodeText, read_code_text};
use wire_strings::line_text::{LineText, read_line_text};
use wire_strings::plain_text::{PlainText, read_plain_text};
use wire_tokens::flag_list::{PermanentFlags, read_permanent_flags};
use wire_tokens::number::{NonZero, nz};

/// The text of a status reply.
#[derive(Drop)]
pub enum ResponseText<'a> {
    /// A text without a code.
    Plain(PlainText<'a>),
    /// A code and a text.
    Coded(Code<'a>, LineText<'a>),
}

/// A response code.
#[derive(Drop)]
pub enum Code<'a> {
    /// The next UID of the mailbox.
    UidNext(NonZero),
    /// The validity of the mailbox's UIDs.
    UidValidity(NonZero),
    /// The flags that may be changed, and `\*` where others may be made.
    PermanentFlags(PermanentFlags<'a>),
    /// The validity and the UID of an appended message.
    AppendUid(NonZero, NonZero),
    /// The mailbox cannot be changed.
    ReadOnly,
    /// The mailbox can be changed.
    ReadWrite,
    /// Another code, and the text after it.
    Other(OtherCode<'a>, Option<CodeText<'a>>),
}

/// Reads the text of a status reply and its line end.
#[tactic(auto, unfolding(crate::specs::Responses::response_at))]
pub(crate) fn read_response(bytes: &[u8]) -> Result<(ResponseText<'_>, &[u8]), Stop>
    ensures { Gives (λ r. (r.0, r.1.now)) result (response_at bytes.now) }
{
    match bytes {
        [] => Err(Stop::Ends(None)),
        [b'[', ..] => read_coded(bytes),
        _ => {
            let (text, rest) = read_plain_text(bytes)?;
            Ok((ResponseText::Plain(text), rest))
        }
    }
}

/// A code in brackets, and the text after it.
#[tactic(auto, unfolding(crate::specs::Responses::coded_at))]
fn read_coded(bytes: &[u8]) -> Result<(ResponseText<'_>, &[u8]), Stop>
    ensures { Gives (λ r. (r.0, r.1.now)) result (coded_at bytes.now) }
{
    let (code, rest) = read_code(byte(b'[', bytes)?)?;
    let (text, rest) = read_line_text(byte(b' ', rest)?)?;
    Ok((ResponseText::Coded(code, text), rest))
}

/// A code after its `[`, up to and with `]`.
#[tactic(auto, unfolding(crate::specs::Responses::code_at))]
fn read_code(bytes: &[u8]) -> Result<(Code<'_>, &[u8]), Stop>
    ensures { Gives (λ r. (r.0, r.1.now)) result (code_at bytes.now) }
{
    let (head, rest) = read_code_head(bytes)?;
    match head {
        CodeHead::Known(word) => known_code(word, rest),
        CodeHead::Other(word) => {
            let (text, rest) = code_rest(rest)?;
            Ok((Code::Other(word, text), rest))
        }
    }
}

/// What follows the word of a code.
#[tactic(auto, unfolding(crate::specs::Responses::known_code_at))]
fn known_code(word: CodeWord, bytes: &[u8]) -> Result<(Code<'_>, &[u8]), Stop>
    ensures { Gives (λ r. (r.0, r.1.now)) result (known_code_at word bytes.now) }
{
    match word {
        CodeWord::UidNext => {
            let (uid, rest) = last_uid(byte(b' ', bytes)?)?;
            Ok((Code::UidNext(uid), rest))
        }
        CodeWord::UidValidity => {
            let (validity, rest) = last_uid(byte(b' ', bytes)?)?;
            Ok((Code::UidValidity(validity), rest))
        }
        CodeWord::PermanentFlags => {
            let (flags, rest) = read_permanent_flags(byte(b' ', bytes)?)?;
            Ok((Code::PermanentFlags(flags), byte(b']', rest)?))
        }
        CodeWord::AppendUid => {
            let (validity, rest) = nz(byte(b' ', bytes)?)?;
            let (uid, rest) = last_uid(byte(b' ', rest)?)?;
            Ok((Code::AppendUid(validity, uid), rest))
        }
        CodeWord::ReadOnly => Ok((Code::ReadOnly, byte(b']', bytes)?)),
        CodeWord::ReadWrite => Ok((Code::ReadWrite, byte(b']', bytes)?)),
    }
}

/// A number from 1 on, and `]`.
fn last_uid(bytes: &[u8]) -> Result<(NonZero, &[u8]), Stop>
    ensures { Gives (λ r. (r.0, r.1.now)) result (uid_close_at bytes.now) }
{
    let (uid, rest) = nz(bytes)?;
    Ok((uid, byte(b']', rest)?))
}

/// The `]`, or a space, a text and the `]`.
fn code_rest(bytes: &[u8]) -> Result<(Option<CodeText<'_>>, &[u8]), Stop>
    ensures { Gives (λ r. (r.0, r.1.now)) result (code_rest_at bytes.now) }
{
    match bytes {
        [] => Err(Stop::Ends(None)),
        [b']', rest @ ..] => Ok((None, rest)),
        _ => {
            let (text, rest) = read_code_text(byte(b' ', bytes)?)?;
            Ok((Some(text), rest))
        }
    }
}
