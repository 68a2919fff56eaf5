//! What is wrong with a line that is taken by itself.

use crate::advised_section::OpenSection;
use config_words::fault::FaultKind;
use config_words::keyword::FirstWord;
use config_words::setting::Setting;
use config_words::words::{Arguments, LineKind, is_plain};
use std::alloc::{AllocError, Global};
use texts::lines::Line;

/// What is wrong with a line that is taken by itself.
#[derive(Clone, Copy)]
pub(crate) enum Class<'a> {
    /// Its first word is no keyword.
    Unknown(&'a [u8]),
    /// The keyword does not take these arguments.
    Arguments(FirstWord),
    /// A quote is not closed, or a character may not stand there.
    Text(&'a [u8]),
    /// The keyword does not stand there.
    Outside(FirstWord),
}

/// What is wrong with a line in this section. None: nothing, as far as it alone says.
pub(crate) fn class_of<'a>(
    alloc: Global,
    section: OpenSection<'a>,
    line: Line<'a>,
) -> Result<Option<Class<'a>>, AllocError> {
    let LineKind::Words(word, arguments) = LineKind::of(line.text) else {
        return Ok(None);
    };
    let Some(keyword) = FirstWord::read(word) else {
        return Ok(Some(Class::Unknown(word)));
    };
    if section.is_account {
        return Ok(None);
    }
    let keyword = keyword.at(section.place);
    let wrong = class_of_arguments(alloc, keyword, arguments)?;
    if wrong.is_some() || keyword.fits(section.place) {
        return Ok(wrong);
    }
    Ok(Some(Class::Outside(keyword)))
}

/// What is wrong with the arguments of a keyword.
fn class_of_arguments<'a>(
    alloc: Global,
    keyword: FirstWord,
    arguments: &'a [u8],
) -> Result<Option<Class<'a>>, AllocError> {
    let read = Arguments::read(alloc, arguments)?;
    match Setting::read(alloc, keyword, read.list.as_slice()) {
        Err(FaultKind::NoMemory) => Err(AllocError),
        Err(_) => Ok(Some(Class::Arguments(keyword))),
        Ok(_) if read.is_closed && is_plain(arguments) => Ok(None),
        Ok(_) => Ok(Some(Class::Text(arguments))),
    }
}
