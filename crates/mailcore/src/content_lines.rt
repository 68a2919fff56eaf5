//! The lines of a message's content, as slices of the message.
ghost use Rattle.std.specs.Prelude.{◌≡◌};
ghost use Rattle.mailcore.specs.Content as spec;
ghost use Rattle.mailcore.specs.ContentLines.{without_last_crs};

use memchr::memchr;

// The header field that marks a copy.
const MARK_FIELD: &[u8; 7] = b"X-TUID:";

/// A line of a message: its text, without the CRs that stand directly before the LF.
#[derive(Clone, Copy)]
pub struct ContentLine<'a> {
    pub text: &'a [u8],
    /// Whether an LF ends the line. Only a last line can be without.
    pub ended: bool,
}

impl ContentLine<'_> {
    ghost use Rattle.mailcore.specs.ContentLines.{text_line};

    // Whether this line ends a header that it stands in.
    fn is_empty(self) -> bool
        ensures { result ≡ spec.is_empty_line (text_line self.entry) }
    {
        self.text.is_empty()
    }

    // Whether this line of a header marks a copy.
    fn is_mark(self) -> bool
        ensures { result ≡ spec.is_mark_line (text_line self.entry) }
    {
        self.text
            .get(..MARK_FIELD.len())
            .is_some_and(|name| name.eq_ignore_ascii_case(MARK_FIELD))
    }
}

fn without_last_crs(mut text: &[u8]) -> &[u8]
    ensures { result.now ≡ without_last_crs text.now }
{
    while let Some(front) = text.strip_suffix(b"\r") {
        text = front;
    }
    text
}

// The lines of a message.
#[derive(Clone, Copy)]
struct LineCursor<'a> {
    rest: &'a [u8],
}

impl<'a> Iterator for LineCursor<'a> {
    ghost use Rattle.std.specs.Iterator.{YieldsFirstBy, item_count};
    ghost use Rattle.mailcore.specs.ContentLines.{text_line, lines_left};

    type Item = ContentLine<'a>;

    ghost next_gives = { YieldsFirstBy text_line lines_left };

    ghost remaining = { item_count lines_left };

    fn next(&mut self) -> Option<ContentLine<'a>> {
        if self.rest.is_empty() {
            return None;
        }
        match memchr(b'\n', self.rest) {
            Some(end) => {
                let text = without_last_crs(&self.rest[..end]);
                self.rest = &self.rest[end + 1..];
                Some(ContentLine { text, ended: true })
            }
            None => {
                let text = self.rest;
                self.rest = &[];
                Some(ContentLine { text, ended: false })
            }
        }
    }
}

/// An iterator over the lines of a message's content: all but the mark lines of its header. It
/// takes no memory.
#[derive(Clone, Copy)]
pub struct ContentLines<'a> {
    lines: LineCursor<'a>,
    in_header: bool,
}

impl<'a> ContentLines<'a> {
    ghost use Rattle.mailcore.specs.ContentLines.{content_lines_left};

    /// The lines of the content of `message`.
    pub fn new(message: &'a [u8]) -> ContentLines<'a>
        ensures { content_lines_left result ≡ spec.content_lines message.now }
    {
        ContentLines {
            lines: LineCursor { rest: message },
            in_header: true,
        }
    }
}

impl<'a> Iterator for ContentLines<'a> {
    ghost use Rattle.std.specs.Iterator.{YieldsFirstBy, item_count};
    ghost use Rattle.mailcore.specs.ContentLines.{text_line, content_lines_left};

    type Item = ContentLine<'a>;

    ghost next_gives = { YieldsFirstBy text_line content_lines_left };

    ghost remaining = { item_count content_lines_left };

    #[tactic(auto, using(crate::proofs::LineLemmas::header_lines))]
    fn next(&mut self) -> Option<ContentLine<'a>> {
        while let Some(line) = self.lines.next() {
            if !self.in_header {
                return Some(line);
            }
            if line.is_empty() {
                self.in_header = false;
                return Some(line);
            }
            if !line.is_mark() {
                return Some(line);
            }
        }
        None
    }
}
