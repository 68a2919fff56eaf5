//! What a message says, however a store ends its lines and whatever marks it bears.
ghost use Rattle.std.specs.Prelude.{◌≡◌, ◌++◌, length, nat_le, IfOk, OnOk};
ghost use Rattle.mailcore.specs.Content as spec;

use crate::content_lines::ContentLines;
use crate::side::{LineEnd, Side};
use memchr::memchr;
use std::alloc::{AllocError, Global};

/// The most bytes that a message may have in a far store.
pub const MESSAGE_MAX: usize = 16_777_216;

pub(crate) fn line_end_bytes(end: LineEnd) -> &'static [u8]
    ensures { result.now ≡ spec.line_end_bytes end }
{
    match end {
        LineEnd::Lf => b"\n",
        LineEnd::CrLf => b"\r\n",
    }
}

// Puts the content of `message`, with these line ends, after what `out` holds. After an error a
// part of it may stand there.
fn append_content(out: &mut Vec<u8>, message: &[u8], end: LineEnd) -> Result<(), AllocError>
    ensures { OnOk result (out.new.items ≡ out.old.items ++ spec.with_line_ends end (spec.content message.now)) }
{
    for line in ContentLines::new(message) {
        out.extend_from_slice(line.text)?;
        if line.ended {
            out.extend_from_slice(line_end_bytes(end))?;
        }
    }
    Ok(())
}

/// What `message` says: its lines without the mark lines of its header, each line end one LF.
///
/// The error: memory ran out.
pub fn content(alloc: Global, message: &[u8]) -> Result<Vec<u8>, AllocError>
    ensures { IfOk result (λ v. v.items ≡ spec.content message.now) }
{
    let mut content = Vec::with_capacity(alloc, message.len())?;
    append_content(&mut content, message, LineEnd::Lf)?;
    Ok(content)
}

/// How many bytes the content of `message` has with these line ends. It takes no memory.
pub fn content_len(message: &[u8], end: LineEnd) -> usize
    ensures { result ≡ length (spec.with_line_ends end (spec.content message.now)) }
{
    let end_len = line_end_bytes(end).len();
    let mut len = 0;
    for line in ContentLines::new(message) {
        len += line.text.len();
        if line.ended {
            len += end_len;
        }
    }
    len
}

/// Whether `message`, as this side stores it, can be copied to the other side. It takes no memory.
///
/// A far message may have at most [`MESSAGE_MAX`] bytes. A near message may have no NUL, which no
/// literal can hold (RFC 9051, section 9), and its content with CR LF line ends at most
/// [`MESSAGE_MAX`] bytes.
pub fn fit(side: Side, message: &[u8]) -> bool
    ensures { result ≡ spec.fit side message.now }
{
    match side {
        Side::Far => message.len() <= MESSAGE_MAX,
        Side::Near => memchr(0, message).is_none() && content_fits(message),
    }
}

// Whether a message's content with CR LF line ends has at most [`MESSAGE_MAX`] bytes.
fn content_fits(message: &[u8]) -> bool
    ensures { result ≡ nat_le (length (spec.with_line_ends LineEnd.CrLf (spec.content message.now))) 16777216 }
{
    // A content has at most twice as many bytes as its message, so the lines of nearly all messages need no walk.
    message.len() <= MESSAGE_MAX / 2 || content_len(message, LineEnd::CrLf) <= MESSAGE_MAX
}
