//! The lines `keyword` of a world.

ghost use Rattle.std.specs.Prelude.{◌≡◌, ◌+◌, ◌≤◌, IfErr, IfOk, OnOk, nat_lt};
ghost use Rattle.std.specs.List.{list_all};
ghost use Rattle.worlds.specs.Keywords.{Adds, Gives, IsOfBadNext, IsOfFirstBad};
ghost use Rattle.worlds.specs.Lines.{IsUpTo};
ghost use Rattle.texts.specs.Lines.{line_count};

use crate::fault::WorldFault;
use mailcore::keywords::{Keyword, KeywordFault, Keywords};
use std::alloc::Global;
use texts::lines::{Line, Lines};

/// The map that the next lines give, each a letter and its name. `Line`: after the lines before it, this one gives no map.
pub fn read_keywords(alloc: Global, lines: &mut Lines<'_>) -> Result<Keywords, WorldFault>
    ensures given { IfOk result (λ keywords. Gives keywords lines.new.rest.now lines.old.rest.now) }
    ensures bad { IfErr result (IsOfFirstBad lines.old.taken lines.old.rest.now) }
    ensures count { line_count lines.new ≤ line_count lines.old }
    ensures fault { IfErr result (IsUpTo (line_count lines.old + 1)) }
{
    let mut keywords = Keywords::new(alloc);
    while let Some(line) = lines.take_if(b"keyword ") {
        add_keyword(&mut keywords, line)?;
    }
    Ok(keywords)
}

/// Adds the keyword of a line, whose letter is above the others.
fn add_keyword(keywords: &mut Keywords, line: Line<'_>) -> Result<(), WorldFault>
    ensures added { OnOk result (Adds keywords.old line.entry.text.now keywords.new) }
    ensures bad { IfErr result (IsOfBadNext keywords.old line.entry.text.now line.entry.number) }
{
    let [letter, b' ', name @ ..] = line.text else {
        return Err(WorldFault::of(line));
    };
    if !are_below(keywords.as_slice(), *letter) {
        return Err(WorldFault::of(line));
    }
    match keywords.add(*letter, name) {
        Ok(()) => Ok(()),
        Err(KeywordFault::NoMemory) => Err(WorldFault::NoMemory),
        Err(_) => Err(WorldFault::of(line)),
    }
}

/// Whether the letters of these keywords are all below this one.
fn are_below(keywords: &[Keyword], letter: u8) -> bool
    ensures { result ≡ list_all (λ k. nat_lt k.letter letter) keywords.now }
{
    keywords.iter().all(|keyword| keyword.letter < letter)
}
