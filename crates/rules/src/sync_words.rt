//! The words of Sync, which choose the cells of a run.

ghost use Rattle.std.specs.Prelude.{◌≡◌, nat_lt, map};
ghost use Rattle.std.specs.List.{list_all};
ghost use Rattle.rules.specs.SyncWords.{are_words, asserting, asserts, directions_on, is_cell_twice, is_compound};
ghost use Rattle.rules.specs.SyncWords.{is_known, is_on, is_asserted_twice, is_twice};
ghost use Rattle.rules.specs.SyncWords.{is_word, is_word_twice, says, says_compound, says_type, says_way, sync_cells, times, word_text};

use crate::options::{Cells, Directions};
use mailcore::side::Direction;
use thiserror::Error;

/// Why words of Sync choose no cells.
#[derive(Clone, Copy, Debug, PartialEq, Eq, Error)]
pub enum SyncFault {
    /// There is no word, or one that is no word of Sync.
    #[error("bad word")]
    BadWord,
    /// A cell is asserted twice.
    #[error("cell asserted twice")]
    CellTwice,
}

/// A type of propagation.
#[derive(Clone, Copy, PartialEq, Eq)]
pub enum SyncType {
    /// New messages.
    New,
    /// Messages that have gone.
    Gone,
    /// Changed flags.
    Flags,
}

/// The six cells.
const CELLS: [(Direction, SyncType); 6] = [
    (Direction::Pull, SyncType::New),
    (Direction::Pull, SyncType::Gone),
    (Direction::Pull, SyncType::Flags),
    (Direction::Push, SyncType::New),
    (Direction::Push, SyncType::Gone),
    (Direction::Push, SyncType::Flags),
];

/// A word of Sync.
#[derive(Clone, Copy, PartialEq, Eq)]
pub enum SyncWord {
    /// No cell.
    Nothing,
    /// All types.
    Full,
    /// A direction, as `Pull`.
    Way(Direction),
    /// A type, as `New`.
    Sort(SyncType),
    /// A direction and a type, as `PullNew`.
    Compound(Direction, SyncType),
}

impl SyncWord {
    /// All words.
    pub const ALL: [SyncWord; 13] = [
        SyncWord::Nothing,
        SyncWord::Full,
        SyncWord::Way(Direction::Pull),
        SyncWord::Way(Direction::Push),
        SyncWord::Sort(SyncType::New),
        SyncWord::Sort(SyncType::Gone),
        SyncWord::Sort(SyncType::Flags),
        SyncWord::Compound(Direction::Pull, SyncType::New),
        SyncWord::Compound(Direction::Pull, SyncType::Gone),
        SyncWord::Compound(Direction::Pull, SyncType::Flags),
        SyncWord::Compound(Direction::Push, SyncType::New),
        SyncWord::Compound(Direction::Push, SyncType::Gone),
        SyncWord::Compound(Direction::Push, SyncType::Flags),
    ];

    /// How it is written; words compare without case.
    pub fn text(self) -> &'static [u8]
        ensures { result.now ≡ word_text self }
    {
        match self {
            SyncWord::Nothing => b"None",
            SyncWord::Full => b"Full",
            SyncWord::Way(Direction::Pull) => b"Pull",
            SyncWord::Way(Direction::Push) => b"Push",
            SyncWord::Sort(SyncType::New) => b"New",
            SyncWord::Sort(SyncType::Gone) => b"Gone",
            SyncWord::Sort(SyncType::Flags) => b"Flags",
            SyncWord::Compound(Direction::Pull, SyncType::New) => b"PullNew",
            SyncWord::Compound(Direction::Pull, SyncType::Gone) => b"PullGone",
            SyncWord::Compound(Direction::Pull, SyncType::Flags) => b"PullFlags",
            SyncWord::Compound(Direction::Push, SyncType::New) => b"PushNew",
            SyncWord::Compound(Direction::Push, SyncType::Gone) => b"PushGone",
            SyncWord::Compound(Direction::Push, SyncType::Flags) => b"PushFlags",
        }
    }

    /// Whether it names a direction and a type.
    fn is_compound(self) -> bool
        ensures { result ≡ is_compound self }
    {
        matches!(self, SyncWord::Compound(_, _))
    }

    /// Whether it asserts this cell.
    fn asserts(self, direction: Direction, kind: SyncType) -> bool
        ensures { result ≡ asserts direction kind self }
    {
        match self {
            SyncWord::Nothing => false,
            SyncWord::Full => true,
            SyncWord::Way(way) => way == direction,
            SyncWord::Sort(sort) => sort == kind,
            SyncWord::Compound(way, sort) => way == direction && sort == kind,
        }
    }
}

fn is_word(text: &[u8], word: SyncWord) -> bool
    ensures { result ≡ is_word text.now word }
{
    text.eq_ignore_ascii_case(word.text())
}

#[tactic(auto, unfolding(crate::specs::SyncWords::is_known))]
fn is_known(text: &[u8]) -> bool
    ensures { result ≡ is_known text.now }
{
    SyncWord::ALL.iter().any(|word| is_word(text, *word))
}

/// Whether there is a word, and each is one of Sync.
#[tactic(auto, unfolding(crate::specs::SyncWords::are_words))]
fn are_words(texts: &[&[u8]]) -> bool
    ensures { result ≡ are_words (map (λ t. t.now) texts.now) }
{
    !texts.is_empty() && are_known(texts)
}

fn are_known(texts: &[&[u8]]) -> bool
    ensures { result ≡ list_all is_known (map (λ t. t.now) texts.now) }
{
    for text in texts {
        if !is_known(text) {
            return false;
        }
    }
    true
}

/// How often a word is said.
#[tactic(auto, unfolding(crate::specs::SyncWords::times))]
fn times(texts: &[&[u8]], word: SyncWord) -> usize
    ensures { result ≡ times (map (λ t. t.now) texts.now) word }
{
    texts.iter().filter(|text| is_word(text, word)).count()
}

#[tactic(auto, unfolding(crate::specs::SyncWords::says))]
fn says(texts: &[&[u8]], word: SyncWord) -> bool
    ensures { result ≡ says (map (λ t. t.now) texts.now) word }
{
    times(texts, word) > 0
}

#[tactic(auto, unfolding(crate::specs::SyncWords::says_compound))]
fn says_compound(texts: &[&[u8]]) -> bool
    ensures { result ≡ says_compound (map (λ t. t.now) texts.now) }
{
    SyncWord::ALL
        .iter()
        .any(|word| word.is_compound() && says(texts, *word))
}

#[tactic(auto, unfolding(crate::specs::SyncWords::says_way))]
fn says_way(texts: &[&[u8]]) -> bool
    ensures { result ≡ says_way (map (λ t. t.now) texts.now) }
{
    says(texts, SyncWord::Way(Direction::Pull)) || says(texts, SyncWord::Way(Direction::Push))
}

#[tactic(auto, unfolding(crate::specs::SyncWords::says_type))]
fn says_type(texts: &[&[u8]]) -> bool
    ensures { result ≡ says_type (map (λ t. t.now) texts.now) }
{
    says(texts, SyncWord::Sort(SyncType::New))
        || says(texts, SyncWord::Sort(SyncType::Gone))
        || says(texts, SyncWord::Sort(SyncType::Flags))
}

/// How many of the words that are said assert a cell.
#[tactic(auto, unfolding(crate::specs::SyncWords::asserting))]
fn asserting(texts: &[&[u8]], direction: Direction, kind: SyncType) -> usize
    ensures { result ≡ asserting (map (λ t. t.now) texts.now) direction kind }
{
    SyncWord::ALL
        .iter()
        .filter(|word| word.asserts(direction, kind) && says(texts, **word))
        .count()
}

#[tactic(auto, unfolding(crate::specs::SyncWords::is_cell_twice))]
fn is_cell_twice(texts: &[&[u8]]) -> bool
    ensures { result ≡ is_cell_twice (map (λ t. t.now) texts.now) }
{
    CELLS.iter().any(|(direction, kind)| asserting(texts, *direction, *kind) > 1)
}

#[tactic(auto, unfolding(crate::specs::SyncWords::is_word_twice))]
fn is_word_twice(texts: &[&[u8]]) -> bool
    ensures { result ≡ is_word_twice (map (λ t. t.now) texts.now) }
{
    SyncWord::ALL.iter().any(|word| times(texts, *word) > 1)
}

/// Whether a cell, or all types and one of them, are asserted twice, where no word is said twice.
#[tactic(auto, unfolding(crate::specs::SyncWords::is_asserted_twice))]
fn is_asserted_twice(texts: &[&[u8]]) -> bool
    ensures { result ≡ is_asserted_twice (map (λ t. t.now) texts.now) }
{
    if says_compound(texts) {
        is_cell_twice(texts)
    } else {
        says(texts, SyncWord::Full) && says_type(texts)
    }
}

#[tactic(auto, unfolding(crate::specs::SyncWords::is_twice))]
fn is_twice(texts: &[&[u8]]) -> bool
    ensures { result ≡ is_twice (map (λ t. t.now) texts.now) }
{
    is_word_twice(texts)
        || (says(texts, SyncWord::Nothing) && texts.len() > 1)
        || is_asserted_twice(texts)
}

#[tactic(auto, unfolding(crate::specs::SyncWords::is_on))]
fn is_on(texts: &[&[u8]], direction: Direction, kind: SyncType) -> bool
    ensures { result ≡ is_on (map (λ t. t.now) texts.now) direction kind }
{
    if says(texts, SyncWord::Nothing) {
        false
    } else if says_compound(texts) {
        asserting(texts, direction, kind) > 0
    } else {
        (says(texts, SyncWord::Way(direction)) || !says_way(texts))
            && (says(texts, SyncWord::Sort(kind)) || !says_type(texts))
    }
}

#[tactic(auto, unfolding(crate::specs::SyncWords::directions_on))]
fn directions_on(texts: &[&[u8]], kind: SyncType) -> Directions
    ensures { result ≡ directions_on (map (λ t. t.now) texts.now) kind }
{
    Directions {
        pull: is_on(texts, Direction::Pull, kind),
        push: is_on(texts, Direction::Push, kind),
    }
}

/// The cells that the words of Sync choose (docs/RULES.md, "Sync words"). It takes no memory.
///
/// `BadWord`: there is no word, or one that is no word of Sync. `CellTwice`: every word is one, and a word is said twice,
/// `Full` stands beside a type without a compound word, a cell is asserted twice beside a compound word, or `None`
/// stands beside another word.
#[tactic(auto, unfolding(crate::specs::SyncWords::sync_cells))]
pub fn sync_ops(words: &[&[u8]]) -> Result<Cells, SyncFault>
    ensures { result ≡ sync_cells (map (λ t. t.now) words.now) }
{
    if !are_words(words) {
        return Err(SyncFault::BadWord);
    }
    if is_twice(words) {
        return Err(SyncFault::CellTwice);
    }
    Ok(Cells {
        new: directions_on(words, SyncType::New),
        gone: directions_on(words, SyncType::Gone),
        flags: directions_on(words, SyncType::Flags),
    })
}
