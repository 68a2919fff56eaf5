//! Copies of messages, and the marks by which they are found again.

ghost use Rattle.std.specs.Prelude.{◌≡◌, ◌-◌, ◌^◌, ℕ, List, true, length, min, IfOk};
ghost use Rattle.mailcore.specs.Content as spec;
ghost use Rattle.mailcore.specs.Mark.{is_mark};

use crate::content::{content_len, line_end_bytes};
use crate::copy_pieces::{CopyHead, CopyPieces};
use crate::side::LineEnd;
use crate::tuid::{TUID_LENGTH, Tuid};
use std::alloc::{AllocError, Global};

/// What the first line of a copy begins with, before its mark.
pub(crate) const MARK_FIELD: &[u8; 8] = b"X-TUID: ";

/// What a store with these line ends keeps as the copy of `message` under `mark`: the line of the mark, and then the
/// content of the message.
///
/// `AllocError`: memory ran out.
pub fn copy_text(
    alloc: Global,
    mark: Tuid,
    message: &[u8],
    end: LineEnd,
) -> Result<Vec<u8>, AllocError>
    ensures { IfOk result (λ v. v.items ≡ spec.copy_text mark message.now end) }
{
    let head = CopyHead::new(mark, end);
    let mut copy = Vec::with_capacity(alloc, message.len())?;
    CopyPieces::new(&head, message).append_to(&mut copy)?;
    Ok(copy)
}

/// How many bytes the copy of `message` has in a store with these line ends, under whichever mark; the greatest number where it has more. It
/// takes no memory.
pub fn copy_len(message: &[u8], end: LineEnd) -> u64
    ensures { (mark : List ℕ) → is_mark mark ≡ true → result ≡ min (length (spec.copy_text mark message.now end)) (2 ^ 64 - 1) }
{
    let head_len = MARK_FIELD.len() + TUID_LENGTH + line_end_bytes(end).len();
    (content_len(message, end) as u64).saturating_add(head_len as u64)
}

/// The mark that a message bears, or none: its first line is `X-TUID: ` and a mark, ended by LF or CR LF. It takes no
/// memory.
pub fn mark_of(message: &[u8]) -> Option<Tuid>
    ensures { result ≡ spec.mark_of message.now }
{
    let following = message.strip_prefix(MARK_FIELD)?;
    let (text, rest) = following.split_at_checked(TUID_LENGTH)?;
    if ends_line(rest) {
        Tuid::read(text)
    } else {
        None
    }
}

/// Whether a line end comes next.
fn ends_line(rest: &[u8]) -> bool
    ensures { result ≡ spec.begins_with_line_end rest.now }
{
    rest.starts_with(b"\n") || rest.starts_with(b"\r\n")
}
