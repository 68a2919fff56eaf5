//! Keywords: flags that have a letter here and a name in IMAP, by a map.

ghost use Rattle.std.specs.Prelude.{◌≡◌, ◌↔◌, ◌⊎◌, ◌≤◌, true, [], length, None, Some, OnOk, IfErr, IfOk, IfSome, option_map};
ghost use Rattle.std.specs.List.{fold, insert, list_any};
ghost use Rattle.mailcore.specs.KeywordNames.{IsMap, has_name, is_keyword_letter, is_keyword_name, is_like, keyword_refused, known_set, letter_of, name_of, with_flag, with_keyword, written_order};

use crate::atom::is_atom;
use crate::flags::{Flag, Flags};
use crate::octets::Octets;
use std::alloc::{AllocError, AllocFailed, Global};
use std::marker::Model;
use thiserror::Error;

/// A letter of a flag, and the name that it stands for in IMAP.
#[derive(Drop)]
pub struct Keyword {
    /// `a` to `z`.
    pub letter: u8,
    /// An atom (RFC 9051, section 9). Names compare without case.
    pub name: Octets,
}

/// Why a keyword is not added to a map.
#[derive(Clone, Copy, Debug, PartialEq, Eq, Error)]
pub enum KeywordFault {
    /// The letter is none of `a` to `z`.
    #[error("bad letter")]
    BadLetter,
    /// The name is no atom of at most 255 bytes, or `$Forwarded`, which has the letter P.
    #[error("bad name")]
    BadName,
    /// The letter or the name has been given already, whatever the case of the name.
    #[error("repeated")]
    Repeated,
    /// A growth was refused.
    #[error("no memory")]
    NoMemory,
}

impl From<AllocError> for KeywordFault {
    ghost use Rattle.mailcore.specs.declared.keywords.KeywordFault.TheVariants.{NoMemory};

    ghost from_gives = { λ _ fault. fault ≡ NoMemory };

    fn from(_: AllocError) -> KeywordFault {
        KeywordFault::NoMemory
    }
}

impl<T: Drop> From<AllocFailed<T>> for KeywordFault {
    ghost use Rattle.mailcore.specs.declared.keywords.KeywordFault.TheVariants.{NoMemory};

    ghost from_gives = { λ _ fault. fault ≡ NoMemory };

    fn from(_: AllocFailed<T>) -> KeywordFault {
        KeywordFault::NoMemory
    }
}

/// A map that gives letters the names of keywords: at most one name a letter, and at most one letter a name.
#[derive(Drop)]
pub struct Keywords {
    alloc: Global,
    // In the order of their letters.
    list: Vec<Keyword>,
}

impl Model for Keywords {
    ghost use Rattle.std.specs.Prelude.{List};
    ghost use Rattle.mailcore.specs.declared.keywords.Keyword.{Keyword};

    ghost Value = { List Keyword };

    ghost use Rattle.mailcore.specs.KeywordNames.{IsMap};

    ghost view = { λ k. k.list.items };

    ghost invariant = { λ k. IsMap k.list.items };
}

impl Keywords {
    /// The map that gives no letter a name. It takes no memory.
    pub fn new(alloc: Global) -> Self
        ensures { result ≡ [] }
    {
        Keywords {
            alloc,
            list: Vec::new(alloc),
        }
    }

    /// Gives a letter this name. An error changes nothing.
    ///
    /// `BadLetter`, `BadName`, `Repeated`: the first of these that holds. `NoMemory`: a growth was refused.
    pub fn add(&mut self, letter: u8, name: &[u8]) -> Result<(), KeywordFault>
        ensures added { OnOk result ((keyword_refused letter name.now self.old ≡ None)
            × (self.new ≡ with_keyword (record { letter = letter; name = name.now }) self.old)) }
        ensures refused { IfErr result (λ fault. (self.new ≡ self.old) × (((fault ≡ KeywordFault.NoMemory)
            × (keyword_refused letter name.now self.old ≡ None)) ⊎ (keyword_refused letter name.now self.old ≡ Some fault))) }
    {
        if let Some(fault) = self.refusal(letter, name) {
            return Err(fault);
        }
        let name = Octets::from_vec(Vec::from_slice(self.alloc, name)?);
        let place = place_for(&self.list, letter);
        self.list.insert(place, Keyword { letter, name })?;
        Ok(())
    }

    /// Why this keyword is refused, if it is.
    fn refusal(&self, letter: u8, name: &[u8]) -> Option<KeywordFault>
        ensures { result ≡ keyword_refused letter name.now self.now }
    {
        if !letter.is_ascii_lowercase() {
            Some(KeywordFault::BadLetter)
        } else if !is_keyword_name(name) {
            Some(KeywordFault::BadName)
        } else if any_like(&self.list, letter, name) {
            Some(KeywordFault::Repeated)
        } else {
            None
        }
    }

    /// The letter of this name, which compares without case.
    pub fn letter_of(&self, name: &[u8]) -> Option<u8>
        ensures letter { result ≡ letter_of self.now name.now }
        ensures within { IfSome result (λ letter. is_keyword_letter letter ≡ true) }
    {
        let keyword = self.list.iter().find(|k| k.has_name(name))?;
        Some(keyword.letter)
    }

    /// The name of this letter, as it was given.
    pub fn name_of(&self, letter: u8) -> Option<&[u8]>
        ensures { option_map (λ name. name.now) result ≡ name_of self.now letter }
    {
        let keyword = self.list.iter().find(|k| k.letter == letter)?;
        Some(keyword.name.as_slice())
    }

    /// All flags that have a name in IMAP: the six, and those of the keywords.
    pub fn known(&self) -> Flags
        ensures { result ≡ known_set self.now }
    {
        let mut known = six();
        for keyword in self.as_slice() {
            known = known.union(Flags::of_keyword(keyword.letter));
        }
        known
    }

    /// The same map again. `AllocError`: a growth was refused.
    pub fn try_clone(&self, alloc: Global) -> Result<Keywords, AllocError>
        ensures { IfOk result (λ keywords. keywords ≡ self.now) }
    {
        let list = clones_of(alloc, &self.list)?;
        Ok(Keywords { alloc, list })
    }

    /// Whether this is the same map: the same letters with the same names, byte for byte.
    pub fn is_same(&self, other: &Keywords) -> bool
        ensures { result ≡ true ↔ self.now ≡ other.now }
    {
        are_same(&self.list, &other.list)
    }

    /// The letters with their names, in the order of the letters.
    pub fn as_slice(&self) -> &[Keyword]
        ensures list { result.now ≡ self.now }
        ensures map { IsMap self.now }
    {
        &self.list
    }
}

impl Keyword {
    fn try_clone(&self, alloc: Global) -> Result<Keyword, AllocError>
        ensures { IfOk result (λ keyword. keyword ≡ self.now) }
    {
        let name = Vec::from_slice(alloc, self.name.as_slice())?;
        Ok(Keyword {
            letter: self.letter,
            name: Octets::from_vec(name),
        })
    }

    /// Whether this is the same keyword, its name byte for byte.
    fn is_same(&self, other: &Keyword) -> bool
        ensures { result ≡ true ↔ self.now ≡ other.now }
    {
        self.letter == other.letter && self.name.as_slice() == other.name.as_slice()
    }

    /// Whether this is its name, which compares without case.
    pub fn has_name(&self, name: &[u8]) -> bool
        ensures { result ≡ has_name name.now self.now }
    {
        name.eq_ignore_ascii_case(self.name.as_slice())
    }
}

/// Whether these are the same keywords.
fn are_same(keywords: &[Keyword], others: &[Keyword]) -> bool
    ensures { result ≡ true ↔ keywords.now ≡ others.now }
{
    match (keywords, others) {
        ([], []) => true,
        ([one, rest @ ..], [other, following @ ..]) => one.is_same(other)
            && are_same(rest, following),
        _ => false,
    }
}

/// Whether a letter can stand for this name: an atom of at most 255 bytes that names none of the flags with letters of their own.
pub fn is_keyword_name(name: &[u8]) -> bool
    ensures { result ≡ is_keyword_name name.now }
{
    is_atom(name) && Flag::named(name).is_none()
}

/// Whether one of these has the letter or the name.
fn any_like(keywords: &[Keyword], letter: u8, name: &[u8]) -> bool
    ensures { result ≡ list_any (is_like letter name.now) keywords.now }
{
    keywords.iter().any(|k| is_like(k, letter, name))
}

fn is_like(keyword: &Keyword, letter: u8, name: &[u8]) -> bool
    ensures { result ≡ is_like letter name.now keyword.now }
{
    keyword.letter == letter || keyword.has_name(name)
}

/// The flags that have a name whatever the map.
fn six() -> Flags
    ensures { result ≡ fold with_flag 0 written_order }
{
    let mut six = Flags::none();
    for flag in Flag::WRITTEN {
        six = six.union(Flags::only(flag));
    }
    six
}

/// Where a keyword with this letter stands among these.
fn place_for(keywords: &[Keyword], letter: u8) -> usize
    ensures within { result ≤ length keywords.now }
    ensures place { (k : Keyword) → k.letter ≡ letter → insert keywords.now result k ≡ with_keyword k keywords.now }
{
    match keywords.iter().position(|k| letter < k.letter) {
        Some(place) => place,
        None => keywords.len(),
    }
}

fn clones_of(alloc: Global, keywords: &[Keyword]) -> Result<Vec<Keyword>, AllocError>
    ensures { IfOk result (λ clones. clones.items ≡ keywords.now) }
{
    let mut clones = Vec::new(alloc);
    for keyword in keywords {
        clones.push(keyword.try_clone(alloc)?)?;
    }
    Ok(clones)
}
