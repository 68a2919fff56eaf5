//! In which section a line stands.

use config_words::keyword::{FirstWord, LinePlace};
use config_words::words::LineKind;
use texts::lines::{Line, Lines};

/// A section that is open, or none.
#[derive(Clone, Copy)]
pub(crate) struct OpenSection<'a> {
    /// Where its lines stand.
    pub(crate) place: LinePlace,
    /// Whether it is an `IMAPAccount`, which is isync's.
    pub(crate) is_account: bool,
    /// What follows its keyword: its name.
    pub(crate) name: &'a [u8],
    /// The number of its first line.
    pub(crate) first: usize,
}

impl<'a> OpenSection<'a> {
    /// Before the first line.
    pub(crate) fn start() -> OpenSection<'static> {
        OpenSection {
            place: LinePlace::Start,
            is_account: false,
            name: b"",
            first: 0,
        }
    }

    /// The same after this line.
    pub(crate) fn after(self, line: Line<'a>) -> OpenSection<'a> {
        match LineKind::of(line.text) {
            LineKind::Empty if self.is_open() => OpenSection {
                place: LinePlace::Between,
                is_account: false,
                ..self
            },
            LineKind::Words(keyword, name) if !self.is_open() => {
                self.begun(line.number, keyword, name)
            }
            LineKind::Empty | LineKind::Comment | LineKind::Words(..) => self,
        }
    }

    /// The section that this keyword begins, or else the same.
    fn begun(self, first: usize, keyword: &'a [u8], name: &'a [u8]) -> OpenSection<'a> {
        let is_account = keyword.eq_ignore_ascii_case(b"IMAPAccount");
        match FirstWord::read(keyword).and_then(|keyword| keyword.section()) {
            Some(place) => OpenSection {
                place,
                is_account: false,
                name,
                first,
            },
            None => OpenSection {
                is_account,
                name,
                first,
                ..self
            },
        }
    }

    /// Whether a section is open, also one of isync's.
    pub(crate) fn is_open(&self) -> bool {
        self.is_account || self.place.is_section()
    }
}

/// The section in which the line of this number stands, and that line.
pub(crate) fn section_at(text: &[u8], number: usize) -> (OpenSection<'_>, Line<'_>) {
    let mut section = OpenSection::start();
    let mut lines = Lines::new(text);
    let mut last = Line { number, text: b"" };
    while let Some(line) = lines.next_or_last() {
        if line.number >= number {
            last = line;
            break;
        }
        section = section.after(line);
    }
    (section, last)
}
