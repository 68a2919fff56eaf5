//! Whether what a run left is alike to the outcome of its opening: the same up to the UIDs that the run gave and the marks of its
//! copies (docs/GUARANTEES.md).

use crate::renaming::{Renaming, named_in};
use crate::world::{highest_in, mailbox_in};
use mailcore::copies::mark_of;
use mailcore::mailbox::Message;
use mailcore::side::Side;
use mailcore::tuid::TUID_LENGTH;
use rules::entry::Entry;
use rules::state::SyncState;
use std::alloc::{AllocError, AllocFailed, Global};
use std::collections::HashSet;
use worlds::world::{WaitingFile, World};

/// What a copy begins with: `X-TUID: ` and its mark.
const MARK_END: usize = 8 + TUID_LENGTH;

/// The first respect in which an end is not alike to the outcome.
#[derive(Clone, Copy)]
pub(crate) enum Unlike {
    /// More or fewer UIDs of this side were given.
    Given(Side),
    /// The mailbox of this side has another UIDVALIDITY.
    Validity(Side),
    /// The messages of this side are others: their number, a UID that is not renamed so, flags or bytes.
    Messages(Side),
    /// The next UID of this side is below the opening's, or not above each UID that the state names.
    Next(Side),
    /// Two copies bear one mark.
    Marks,
    /// The entries are others.
    Entries,
    /// The highest UID of this side is another one.
    Highest(Side),
    /// The state's run or a recorded UIDVALIDITY is another one.
    Run,
    /// The waiting files are others.
    Waiting,
    /// Memory ran out: the answer is not known.
    NoMemory,
}

impl Unlike {
    /// How it is printed.
    pub(crate) fn text(self) -> &'static str {
        match self {
            Unlike::Given(_) => "another number of UIDs was given",
            Unlike::Validity(_) => "another UIDVALIDITY",
            Unlike::Messages(_) => "other messages",
            Unlike::Next(_) => "the next UID is too low",
            Unlike::Marks => "a mark twice",
            Unlike::Entries => "other entries",
            Unlike::Highest(_) => "another highest UID",
            Unlike::Run => "another run, or another recorded UIDVALIDITY",
            Unlike::Waiting => "other waiting files",
            Unlike::NoMemory => "no memory",
        }
    }

    /// The side that it is about, if it is about one.
    pub(crate) fn side(self) -> Option<Side> {
        match self {
            Unlike::Given(side)
            | Unlike::Validity(side)
            | Unlike::Messages(side)
            | Unlike::Next(side)
            | Unlike::Highest(side) => Some(side),
            _ => None,
        }
    }
}

impl From<AllocError> for Unlike {
    fn from(_fault: AllocError) -> Unlike {
        Unlike::NoMemory
    }
}

impl<T: Drop> From<AllocFailed<T>> for Unlike {
    fn from(_fault: AllocFailed<T>) -> Unlike {
        Unlike::NoMemory
    }
}

/// A world, what the unbroken run leaves of it, and what another one left.
#[derive(Clone, Copy)]
pub(crate) struct Ends<'a> {
    pub(crate) opening: &'a World,
    pub(crate) outcome: &'a World,
    pub(crate) found: &'a World,
}

/// Whether what is found is alike to the outcome. An error says in which respect it is not.
pub(crate) fn alike(alloc: Global, ends: Ends<'_>) -> Result<(), Unlike> {
    let far = ends.renaming(alloc, Side::Far)?;
    let near = ends.renaming(alloc, Side::Near)?;
    ends.alike(alloc, &far, &near)
}

impl Ends<'_> {
    fn renaming(self, alloc: Global, side: Side) -> Result<Renaming, Unlike> {
        let next = mailbox_in(self.opening, side).next;
        match Renaming::new(alloc, side, next, self.outcome, self.found)? {
            Some(renaming) => Ok(renaming),
            None => Err(Unlike::Given(side)),
        }
    }

    fn alike(self, alloc: Global, far: &Renaming, near: &Renaming) -> Result<(), Unlike> {
        self.sides_alike(alloc, Side::Far, far)?;
        self.sides_alike(alloc, Side::Near, near)?;
        self.marks_differ(alloc)?;
        self.states_alike(far, near)
    }

    /// The mailbox of one side: its UIDVALIDITY, its messages, and its next UID.
    fn sides_alike(self, alloc: Global, side: Side, renaming: &Renaming) -> Result<(), Unlike> {
        let (outcome, found) = (mailbox_in(self.outcome, side), mailbox_in(self.found, side));
        if outcome.validity != found.validity {
            return Err(Unlike::Validity(side));
        }
        let (theirs, ours) = (outcome.messages.as_slice(), found.messages.as_slice());
        let mut pairs = theirs.iter().zip(ours);
        if theirs.len() != ours.len() || !pairs.all(|(a, b)| self.is_same(side, renaming, a, b)) {
            return Err(Unlike::Messages(side));
        }
        let named = named_in(alloc, self.found, side)?;
        let lowest = mailbox_in(self.opening, side).next;
        if found.next < lowest || named.iter().any(|uid| *uid >= found.next) {
            return Err(Unlike::Next(side));
        }
        Ok(())
    }

    /// Whether a message is found in place of one of the outcome.
    fn is_same(self, side: Side, renaming: &Renaming, theirs: &Message, ours: &Message) -> bool {
        renaming.of(theirs.uid.get()) == ours.uid.get()
            && theirs.flags == ours.flags
            && if self.is_copy(self.outcome, side, theirs) {
                is_same_copy(theirs.bytes.as_slice(), ours.bytes.as_slice())
            } else {
                theirs.bytes.as_slice() == ours.bytes.as_slice()
            }
    }

    /// Whether a message is a copy that the run made: it gave its UID, and it is no file that waited for one. Of the near copies each
    /// has an entry with a far message of the opening.
    fn is_copy(self, world: &World, side: Side, message: &Message) -> bool {
        let uid = message.uid.get();
        if uid < mailbox_in(self.opening, side).next {
            return false;
        }
        match side {
            Side::Far => true,
            Side::Near => {
                let entries = world.state.entries.as_slice();
                entries.iter().any(|entry| self.is_pulled_as(entry, uid))
            }
        }
    }

    /// Whether an entry pairs this near UID with a far message of the opening.
    fn is_pulled_as(self, entry: &Entry, uid: u32) -> bool {
        let far = entry.number(Side::Far);
        entry.number(Side::Near) == uid && 0 < far && far < self.opening.far.next
    }

    /// That no two copies found bear one mark.
    fn marks_differ(self, alloc: Global) -> Result<(), Unlike> {
        let mut marks = HashSet::new(alloc);
        for side in [Side::Far, Side::Near] {
            let messages = mailbox_in(self.found, side).messages.as_slice();
            let copies = messages
                .iter()
                .filter(|message| self.is_copy(self.found, side, message));
            for mark in copies.filter_map(|message| mark_of(message.bytes.as_slice())) {
                if !marks.insert(mark)? {
                    return Err(Unlike::Marks);
                }
            }
        }
        Ok(())
    }

    /// The state, and the waiting files.
    fn states_alike(self, far: &Renaming, near: &Renaming) -> Result<(), Unlike> {
        let (theirs, ours) = (&self.outcome.state, &self.found.state);
        if !are_same_entries(theirs, ours, far, near) {
            return Err(Unlike::Entries);
        }
        for (side, renaming) in [(Side::Far, far), (Side::Near, near)] {
            if renaming.of(highest_in(self.outcome, side)) != highest_in(self.found, side) {
                return Err(Unlike::Highest(side));
            }
        }
        if run_of(theirs) != run_of(ours) {
            return Err(Unlike::Run);
        }
        if !are_same_files(&self.outcome.waiting, &self.found.waiting) {
            return Err(Unlike::Waiting);
        }
        Ok(())
    }
}

/// Whether two copies have the same bytes but for the characters of their marks.
fn is_same_copy(theirs: &[u8], ours: &[u8]) -> bool {
    if mark_of(theirs).is_some() && mark_of(ours).is_some() {
        theirs.get(MARK_END..) == ours.get(MARK_END..)
    } else {
        theirs == ours
    }
}

fn are_same_entries(theirs: &SyncState, ours: &SyncState, far: &Renaming, near: &Renaming) -> bool {
    let (theirs, ours) = (theirs.entries.as_slice(), ours.entries.as_slice());
    let mut pairs = theirs.iter().zip(ours);
    theirs.len() == ours.len()
        && pairs.all(|(a, b)| {
            far.of(a.number(Side::Far)) == b.number(Side::Far)
                && near.of(a.number(Side::Near)) == b.number(Side::Near)
                && a.flags == b.flags
        })
}

/// The run's number and both recorded UIDVALIDITYs.
fn run_of(state: &SyncState) -> (u64, u32, u32) {
    (state.run, state.far_validity, state.near_validity)
}

fn are_same_files(theirs: &[WaitingFile], ours: &[WaitingFile]) -> bool {
    let mut pairs = theirs.iter().zip(ours);
    theirs.len() == ours.len()
        && pairs.all(|(a, b)| a.flags == b.flags && a.bytes.as_slice() == b.bytes.as_slice())
}
