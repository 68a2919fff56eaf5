//! The lines of a journal that give letters the names of keywords.

ghost use Rattle.std.specs.Prelude.{◌≡◌, ◌≢◌, ◌+◌, ◌<◌, ◌++◌, ◌∷◌, [], All, length, map, IfOk, IfSome, IfNone, MatchBool, OnOk};
ghost use Rattle.mailcore.specs.declared.keywords.Keyword.{Keyword};
ghost use Rattle.mailcore.specs.KeywordNames.{IsMap};
ghost use Rattle.sync_state.specs.Lines.{lines_text, HasNoLine};
ghost use Rattle.sync_state.specs.JournalText.{keyword_line};
ghost use Rattle.sync_state.specs.JournalReading.{IsNextKeyword, KeywordAdded, KeywordsRead};

use crate::version::Version;
use mailcore::keywords::{Keyword, KeywordFault, Keywords};
use std::alloc::{AllocError, Global};
use texts::cut::cut;
use texts::lines::Lines;

/// The keywords of the next lines, up to one that may not follow those before it.
pub fn read_keywords(
    alloc: Global,
    lines: &mut Lines<'_>,
    version: Version,
) -> Result<Keywords, AllocError>
    ensures read { IfOk result (λ keywords. KeywordsRead version keywords lines.old.rest.now lines.new.rest.now) }
    ensures taken { IfOk result (λ keywords. lines.new.taken ≡ lines.old.taken + length keywords) }
{
    let mut keywords = Keywords::new(alloc);
    let mut goes_on = version == Version::Two;
    while goes_on {
        goes_on = take_keyword(lines, &mut keywords)?;
    }
    map_fits(&keywords);
    Ok(keywords)
}

/// What the type of a map says.
pub(crate) fn map_fits(keywords: &Keywords)
    ensures { IsMap keywords.now }
{
    keywords.as_slice();
}

/// Takes the next line if its keyword may follow these, and adds it to them.
fn take_keyword(lines: &mut Lines<'_>, keywords: &mut Keywords) -> Result<bool, AllocError>
    ensures { IfOk result (λ taken. MatchBool taken
        (KeywordAdded keywords.old keywords.new lines.old.rest.now lines.new.rest.now × (lines.new.taken ≡ lines.old.taken + 1))
        (HasNoLine [] (IsNextKeyword Version.Two keywords.old) keyword_line lines.old.rest.now
        × (lines.new ≡ lines.old) × (keywords.new ≡ keywords.old))) }
{
    let Some((line, rest)) = cut(lines.rest, b'\n') else {
        return Ok(false);
    };
    let Some((letter, name)) = keyword_of(line) else {
        return Ok(false);
    };
    if !is_above(keywords, letter) {
        return Ok(false);
    }
    if let Err(fault) = keywords.add(letter, name) {
        return match fault {
            KeywordFault::NoMemory => Err(AllocError),
            _ => Ok(false),
        };
    }
    lines.taken += 1;
    lines.rest = rest;
    Ok(true)
}

/// The letter and the name of the keyword with this line.
fn keyword_of(line: &[u8]) -> Option<(u8, &[u8])>
    ensures some { IfSome result (λ k. line.now ≡ keyword_line (record { letter = k.0; name = k.1.now })) }
    ensures none { IfNone result ((k : Keyword) → line.now ≢ keyword_line k) }
{
    let (letter, following) = line.strip_prefix(b"k ")?.split_first()?;
    Some((*letter, following.strip_prefix(b" ")?))
}

/// Whether a letter is above those of a map.
fn is_above(keywords: &Keywords, letter: u8) -> bool
    ensures { MatchBool result (All (λ k. k.letter < letter) keywords.now) (¬ All (λ k. k.letter < letter) keywords.now) }
{
    keywords.as_slice().iter().all(|k| k.letter < letter)
}

/// Adds the line of each keyword.
pub(crate) fn push_keywords(text: &mut Vec<u8>, keywords: &[Keyword]) -> Result<(), AllocError>
    ensures { OnOk result (text.new.items ≡ text.old.items ++ lines_text (map keyword_line keywords.now)) }
{
    for keyword in keywords {
        push_keyword(text, keyword)?;
    }
    Ok(())
}

fn push_keyword(text: &mut Vec<u8>, keyword: &Keyword) -> Result<(), AllocError>
    ensures { OnOk result (text.new.items ≡ text.old.items ++ (keyword_line keyword.now ++ 10 ∷ [])) }
{
    text.extend_from_slice(b"k ")?;
    text.push(keyword.letter)?;
    text.push(b' ')?;
    text.extend_from_slice(keyword.name.as_slice())?;
    text.push(b'\n')?;
    Ok(())
}
