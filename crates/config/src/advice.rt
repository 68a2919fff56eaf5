//! What to do about a configuration that is refused: which keyword is at fault, what is allowed in its place, and what replaces a
//! keyword of isync that is none here. So a configuration of isync is mended in one go.

use crate::advised_section::{OpenSection, section_at};
use crate::allowed::{allowed_at, head_of, home_of, name_of, taken_by};
use crate::classes::{Class, class_of};
use crate::isync::in_place_of;
use crate::page::Page;
use config_words::fault::{ConfigFault, FaultKind};
use config_words::keyword::FirstWord;
use config_words::words::{LineKind, is_plain};
use std::alloc::{AllocError, Global};
use texts::lines::{Line, Lines};

/// The most lines of a file that are named beside the first faulty one.
const OTHERS_MAX: usize = 20;

/// What to do about the fault of a configuration that has this text and stands in this file, and about lines after it that are not
/// understood either. Each line begins with a line end and two spaces. No argument is repeated, since a password may stand there.
///
/// `AllocError`: memory ran out.
pub fn advice(
    alloc: Global,
    file: &str,
    text: &[u8],
    fault: ConfigFault,
) -> Result<String, AllocError> {
    let mut page = Page::new(alloc);
    if fault.kind == FaultKind::NoMemory {
        page.add_line("no memory")?;
        return Ok(page.into_text());
    }
    let (section, line) = section_at(text, fault.line);
    page.begin(file, line.number)?;
    if line.text.ends_with(b"\r") {
        page.add("this line ends with CR LF; convert the file, for example with: tr -d '\\r'")?;
        return Ok(page.into_text());
    }
    add_fault(alloc, &mut page, text, section, line, fault.kind)?;
    add_others(alloc, &mut page, text, fault.line)?;
    Ok(page.into_text())
}

/// Adds what is wrong with the first faulty line.
fn add_fault(
    alloc: Global,
    page: &mut Page,
    text: &[u8],
    section: OpenSection<'_>,
    line: Line<'_>,
    kind: FaultKind,
) -> Result<(), AllocError> {
    if kind == FaultKind::KeywordMissing {
        return add_missing(page, text, section.after(line));
    }
    match class_of(alloc, section, line)? {
        Some(class) => add_class(page, section, class),
        None => add_kind(page, line, kind),
    }
}

/// Adds what is wrong with a line, and what to write.
fn add_class(
    page: &mut Page,
    section: OpenSection<'_>,
    class: Class<'_>,
) -> Result<(), AllocError> {
    match class {
        Class::Unknown(word) => add_unknown(page, section, word),
        Class::Arguments(keyword) => {
            page.add(name_of(keyword))?;
            page.add(" takes ")?;
            page.add(taken_by(keyword))
        }
        Class::Text(arguments) => page.add(reason_of(arguments)),
        Class::Outside(keyword) => add_outside(page, section, keyword),
    }
}

/// Adds that a word is no keyword, and what stands in its place.
fn add_unknown(page: &mut Page, section: OpenSection<'_>, word: &[u8]) -> Result<(), AllocError> {
    page.add_word(word)?;
    if let Some(instead) = in_place_of(word) {
        page.add(" is isync's: ")?;
        return page.add(instead);
    }
    page.add(" is no keyword; here may stand ")?;
    page.add(allowed_at(section.place))
}

/// Adds that a keyword stands in a wrong place.
fn add_outside(
    page: &mut Page,
    section: OpenSection<'_>,
    keyword: FirstWord,
) -> Result<(), AllocError> {
    page.add(name_of(keyword))?;
    page.add(" stands ")?;
    page.add(home_of(keyword))?;
    if section.is_open() || keyword.section().is_some() {
        return Ok(());
    }
    page.add("; an empty line ends a section")
}

/// Why a text is not taken.
fn reason_of(text: &[u8]) -> &'static str {
    if is_plain(text) {
        "a quote is not closed"
    } else {
        "a character is not printable ASCII"
    }
}

/// Adds what a line is refused for that is right by itself.
fn add_kind(page: &mut Page, line: Line<'_>, kind: FaultKind) -> Result<(), AllocError> {
    let keyword = match LineKind::of(line.text) {
        LineKind::Words(word, _) => FirstWord::read(word),
        LineKind::Empty | LineKind::Comment => None,
    };
    let name = keyword.map_or("this line", |keyword| name_of(keyword));
    page.add(name)?;
    page.add(match kind {
        FaultKind::KeywordTwice => " stands twice; keep one",
        FaultKind::UnknownName => unknown_to(keyword),
        FaultKind::DefinedTwice => ": another section has this name",
        FaultKind::CellTwice => {
            " names a part twice: Full is New, Gone and Flags, Pull alone is PullNew, PullGone and PullFlags"
        }
        FaultKind::KeywordGiven => ": a line above has this letter or this label",
        FaultKind::WrongArguments =>
            ": a channel has Patterns, or a mailbox in Far or Near, not both",
        _ => " is refused",
    })
}

/// What is not known of a name.
fn unknown_to(keyword: Option<FirstWord>) -> &'static str {
    match keyword {
        Some(FirstWord::Far) => ": no IMAPStore above has this name",
        Some(FirstWord::Near) => ": no MaildirStore above has this name",
        _ => ": no Channel has this name",
    }
}

/// Adds which keywords a section lacks.
fn add_missing(page: &mut Page, text: &[u8], section: OpenSection<'_>) -> Result<(), AllocError> {
    page.add(head_of(section.place))?;
    page.add(" ")?;
    page.add_word(section.name.trim_ascii())?;
    let mut word = " lacks ";
    for keyword in section.place.required() {
        if !has_keyword(text, section, *keyword) {
            page.add(word)?;
            page.add(name_of(*keyword))?;
            word = ", ";
        }
    }
    Ok(())
}

/// Whether a line of this section has a keyword.
fn has_keyword(text: &[u8], section: OpenSection<'_>, keyword: FirstWord) -> bool {
    let mut lines = Lines::new(text);
    while let Some(line) = lines.next_or_last() {
        if line.number <= section.first {
            continue;
        }
        match LineKind::of(line.text) {
            LineKind::Empty => return false,
            LineKind::Words(word, _) if FirstWord::read(word) == Some(keyword) => return true,
            LineKind::Comment | LineKind::Words(..) => {}
        }
    }
    false
}

/// Adds what is wrong with lines after this one, as far as each alone says it.
fn add_others(
    alloc: Global,
    page: &mut Page,
    text: &[u8],
    number: usize,
) -> Result<(), AllocError> {
    let mut section = OpenSection::start();
    let mut lines = Lines::new(text);
    let mut left = OTHERS_MAX;
    while let Some(line) = lines.next_or_last() {
        if line.number > number {
            if let Some(class) = class_of(alloc, section, line)? {
                if left == 0 {
                    return page.add_line("and more lines");
                }
                left -= 1;
                page.begin("", line.number)?;
                add_class(page, section, class)?;
            }
        }
        section = section.after(line);
    }
    Ok(())
}
