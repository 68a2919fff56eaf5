//! What the beginnings of a text are read as, held against a rule that the script states.

use crate::name::{print_parts, written};
use crate::noted_folder::NotedFolder;
use crate::seat::{Seat, read_validity};
use mailcore::keywords::Keywords;
use mailcore::octets::Octets;
use maildir::mem_folder::MemFolder;
use maildir::name::read_name;
use std::alloc::Global;
use std::num::NonZeroU32;
use test_scripts::failure::Failure;
use test_scripts::reported::Reported;
use test_scripts::script::Script;
use test_scripts::words::Words;

/// As what a text is read.
#[derive(Clone, Copy)]
enum Reading {
    /// The name of a file.
    Name,
    /// A meta file. A mailbox without one has this validity.
    Meta(NonZeroU32),
}

/// A text whose beginnings are read.
#[derive(Clone, Copy)]
struct Beginnings<'a> {
    alloc: Global,
    reading: Reading,
    text: &'a [u8],
}

/// `name NAME` or `meta V "BYTES"`, and a rule in the lines after it.
pub fn print_beginnings(
    alloc: Global,
    line: &mut Words<'_>,
    script: &mut Script<'_>,
) -> Result<(), Failure> {
    let rule = script.block(b".")?;
    let (reading, text) = match line.word() {
        "name" => (Reading::Name, Vec::from_slice(alloc, line.rest())?),
        "meta" => (Reading::Meta(read_validity(line)), line.said(alloc)),
        _ => return Err(Failure::Script),
    };
    let beginnings = Beginnings {
        alloc,
        reading,
        text: &text,
    };
    beginnings.report(rule, line, &mut script.reported);
    Ok(())
}

impl Beginnings<'_> {
    /// Holds each beginning of the text against a rule. A row of it says how those of so many bytes are to be read, `N: ANSWER` or
    /// `N to N: ANSWER`, or what is answered where there is no text, `missing: ANSWER`. The rows name all beginnings in order, and stand
    /// in the transcript again where it is so. The line is bad where it is no such rule.
    fn report(self, rule: &[u8], line: &mut Words<'_>, reported: &mut Reported) {
        let rule = str::from_utf8(rule).unwrap_or("(no text)");
        let mut next = 0;
        for row in rule.lines() {
            next = self.print_row(row, next, line, reported);
        }
        if next <= self.text.len() {
            line.refuse();
        }
    }

    /// Prints a row, of which the first beginning is required to have so many bytes. Gives how many that of the next row has.
    fn print_row(
        self,
        row: &str,
        next: usize,
        line: &mut Words<'_>,
        reported: &mut Reported,
    ) -> usize {
        let Some((head, answer)) = row.split_once(": ") else {
            line.refuse();
            return next;
        };
        let mut is_kept = true;
        let mut end = next;
        if head == "missing" {
            is_kept = self.judge(None, answer, reported);
        } else {
            end = self.read_end(head, next, line);
        }
        for length in next..end {
            is_kept = self.judge(Some(length), answer, reported) && is_kept;
        }
        if is_kept {
            reported.answer(row);
        }
        end
    }

    /// After which number of bytes a row ends that begins with this one: `N`, or `N to N`.
    fn read_end(self, head: &str, next: usize, line: &mut Words<'_>) -> usize {
        let mut words = Words::new(head.as_bytes());
        let first = words.count();
        let mut last = first;
        if !words.is_over() {
            words.expect("to");
            last = words.count();
        }
        line.note(words.end());
        if first != next || last < first || self.text.len() < last {
            line.refuse();
            return next;
        }
        last.saturating_add(1)
    }

    /// Whether the beginning of so many bytes is read so, or no text answered so. Else prints what is wrong.
    fn judge(self, length: Option<usize>, answer: &str, reported: &mut Reported) -> bool {
        let mut read = Reported::new(self.alloc);
        self.read(length, &mut read);
        let is_so = read.as_str() == answer;
        if !is_so {
            reported.begin();
            match length {
                Some(length) => reported.number(length as u64),
                None => reported.text("missing"),
            }
            reported.text(": ");
            reported.add(&read);
            reported.text(", WRONG by the rule");
            reported.end();
        }
        is_so
    }

    /// Prints what is read of the beginning of so many bytes, or where there is no text.
    fn read(self, length: Option<usize>, reported: &mut Reported) {
        let text = match length {
            Some(length) => Some(self.text.get(..length).unwrap_or_default()),
            None => None,
        };
        match self.reading {
            Reading::Name => print_read(self.alloc, text.unwrap_or_default(), reported),
            Reading::Meta(fresh) => print_opened(self.alloc, text, fresh, reported),
        }
    }
}

/// Prints what the name of a file says. A name without UID and letters is all base.
fn print_read(alloc: Global, text: &[u8], reported: &mut Reported) {
    let Some(name) = read_name(text) else {
        reported.text("no name");
        return;
    };
    if name.base == text {
        reported.text("all base");
    } else {
        reported.text("base ");
        reported.quoted(name.base);
        print_parts(reported, &name);
    }
    if written(alloc, &name, reported).as_slice() != text {
        reported.text(", written otherwise");
    }
}

/// Prints the validity and the next UID of a mailbox without messages that has this meta file, or the fault.
fn print_opened(alloc: Global, meta: Option<&[u8]>, fresh: NonZeroU32, reported: &mut Reported) {
    let mut folder = MemFolder::new(alloc, Vec::new(alloc));
    if let Some(text) = meta {
        match Vec::from_slice(alloc, text) {
            Ok(text) => folder.put_meta(Octets::from_vec(text)),
            Err(_) => reported.lose(),
        }
    }
    let mut seat = Seat::Folder(NotedFolder::new(alloc, folder));
    seat.print_opened(alloc, fresh, Keywords::new(alloc), reported);
    drop(seat);
}
