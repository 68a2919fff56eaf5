//! The text of a copy, piece by piece: who takes it so need not hold it whole.

ghost use Rattle.std.specs.Prelude.{◌≡◌, ◌++◌, ◌-◌, ◌^◌, length, min, OnOk};
ghost use Rattle.mailcore.specs.Mark.{IsMark};

use crate::content::line_end_bytes;
use crate::content_lines::ContentLines;
use crate::copies::MARK_FIELD;
use crate::side::LineEnd;
use crate::tuid::{TUID_LENGTH, Tuid};
use std::alloc::AllocError;

/// What begins a copy: the line of its mark, and how the lines after it end.
#[derive(Clone, Copy)]
pub struct CopyHead {
    mark: [u8; TUID_LENGTH],
    end: LineEnd,
    pub ghost is_mark: { IsMark mark },
}

impl CopyHead {
    /// That of a copy under this mark, in a store with these line ends.
    pub fn new(mark: Tuid, end: LineEnd) -> CopyHead
        ensures mark { result.mark ≡ mark }
        ensures end { result.end ≡ end }
    {
        CopyHead {
            mark: mark.text(),
            end,
        }
    }
}

/// What comes before the next line.
#[derive(Clone, Copy)]
enum DuePart<'a> {
    /// These octets.
    Whole(&'a [u8]),
    /// The name of the mark's field, then this mark and its line end.
    Field(&'a [u8]),
    /// This mark, then its line end.
    Mark(&'a [u8]),
    /// A line end.
    End,
    /// Nothing.
    Line,
}

/// An iterator over the pieces of a copy's text. Joined they are the text. It takes no memory.
#[derive(Clone, Copy)]
pub struct CopyPieces<'a> {
    due: DuePart<'a>,
    lines: ContentLines<'a>,
    end: LineEnd,
}

impl<'a> CopyPieces<'a> {
    ghost use Rattle.mailcore.specs.Content as spec;
    ghost use Rattle.mailcore.specs.CopyPieces.{text_left};

    /// The pieces of the copy of `message` that begins so.
    pub fn new(head: &'a CopyHead, message: &'a [u8]) -> CopyPieces<'a>
        ensures { text_left result ≡ spec.copy_text head.now.mark message.now head.now.end }
    {
        CopyPieces {
            due: DuePart::Field(&head.mark),
            lines: ContentLines::new(message),
            end: head.end,
        }
    }

    /// The octets of `message` as they are, as one piece.
    pub fn whole(message: &'a [u8]) -> CopyPieces<'a>
        ensures { text_left result ≡ message.now }
    {
        CopyPieces {
            due: DuePart::Whole(message),
            lines: ContentLines::new(&[]),
            end: LineEnd::Lf,
        }
    }

    /// How many octets the text has; the greatest number where it has more.
    pub fn text_len(self) -> u64
        ensures { result ≡ min (length (text_left self.entry)) (2 ^ 64 - 1) }
    {
        let mut len = 0u64;
        for piece in self {
            len = len.saturating_add(piece.len() as u64);
        }
        len
    }

    /// Puts the text after what a buffer holds. After an error a part of it may stand there.
    pub fn append_to(self, out: &mut Vec<u8>) -> Result<(), AllocError>
        ensures { OnOk result (out.new.items ≡ out.old.items ++ text_left self.entry) }
    {
        for piece in self {
            out.extend_from_slice(piece)?;
        }
        Ok(())
    }
}

impl<'a> Iterator for CopyPieces<'a> {
    ghost use Rattle.std.specs.Iterator.{YieldsFirstBy, item_count};
    ghost use Rattle.mailcore.specs.CopyPieces.{pieces_left};

    type Item = &'a [u8];

    ghost next_gives = { YieldsFirstBy (λ piece. piece.now) pieces_left };

    ghost remaining = { item_count pieces_left };

    fn next(&mut self) -> Option<&'a [u8]> {
        match self.due {
            DuePart::Whole(octets) => {
                self.due = DuePart::Line;
                Some(octets)
            }
            DuePart::Field(mark) => {
                self.due = DuePart::Mark(mark);
                Some(MARK_FIELD)
            }
            DuePart::Mark(mark) => {
                self.due = DuePart::End;
                Some(mark)
            }
            DuePart::End => {
                self.due = DuePart::Line;
                Some(line_end_bytes(self.end))
            }
            DuePart::Line => {
                let line = self.lines.next()?;
                if line.ended {
                    self.due = DuePart::End;
                }
                Some(line.text)
            }
        }
    }
}
