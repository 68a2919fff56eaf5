//! The marks of messages whose files were read once.

ghost use Rattle.std.specs.Prelude.{◌≡◌, ◌≢◌, ◌<◌, ◌≤◌, List, ℕ, All, AllPairs, IfErr, IfOk, OnOk, insert, length};
ghost use Rattle.std.specs.List.{HoldsAt};
ghost use Rattle.std.specs.List.Sorted.{IsSearchInRange};
ghost use Rattle.mailcore.specs.declared.mailbox.Message.{Message};
ghost use Rattle.near_box.specs.KnownMarks.{AreKnown, AreMarksAmong, IsMarkAmong};

use mailcore::passed_marks::PassedMarks;
use mailcore::tuid::Tuid;
use mailcore::uid::Uid;
use std::alloc::{AllocError, Global};

/// What the file of a message said of its mark.
#[derive(Clone, Copy)]
pub struct KnownMark {
    /// The UID of the message.
    pub uid: Uid,
    /// Its mark, or none where it bears none.
    pub mark: Option<Tuid>,
}

/// What is known of the marks of messages, whose bytes never change.
#[derive(Drop)]
pub struct KnownMarks {
    /// The marks of the messages that were read for them, in the order of their UIDs.
    pub by_uid: Vec<KnownMark>,
    /// The messages that a search went past.
    pub passed: PassedMarks,
}

impl KnownMarks {
    /// Nothing is known.
    pub fn new(alloc: Global) -> Self
        ensures { (next : ℕ) (messages : List Message) → AreKnown next messages result }
    {
        KnownMarks {
            by_uid: Vec::new(alloc),
            passed: PassedMarks::new(alloc),
        }
    }
}

/// Where the mark of the message with this UID is kept, or where it is to be kept.
pub fn place_of_mark(known: &[KnownMark], uid: Uid) -> Result<usize, usize>
    ensures within { IsSearchInRange result (length known.now) }
    ensures found { IfOk result (λ i. HoldsAt (λ mark. mark.uid ≡ uid) known.now i) }
    ensures missing { AllPairs (λ a b. a.uid < b.uid) known.now → IfErr result (λ i. All (λ mark. mark.uid ≢ uid) known.now) }
{
    let number = uid.get();
    let guess = likely_place(known, number);
    match known.get(guess) {
        Some(mark) if mark.uid.get() == number => Ok(guess),
        _ => known.binary_search_by_key(&number, |mark| mark.uid.get()),
    }
}

/// Where the mark for the UID with this number is kept if the UIDs from the first one on have no gap, as those of the copies of a
/// run.
fn likely_place(known: &[KnownMark], number: u32) -> usize {
    match known.first() {
        Some(first) => number.saturating_sub(first.uid.get()) as usize,
        None => 0,
    }
}

/// Keeps the mark of the message with this UID at this place.
pub(crate) fn keep_mark(
    known: &mut Vec<KnownMark>,
    place: usize,
    uid: Uid,
    mark: Option<Tuid>,
) -> Result<(), AllocError>
    requires { place ≤ length known.old.items }
    ensures kept { OnOk result (known.new.items ≡ insert known.old.items place (record { uid = uid; mark = mark })) }
    ensures known { (next : ℕ) (messages : List Message) → IsMarkAmong next messages (record { uid = uid; mark = mark })
        → AreMarksAmong next messages known.old.items → OnOk result (AreMarksAmong next messages known.new.items) }
{
    known.insert(place, KnownMark { uid, mark })?;
    Ok(())
}
