//! The marks of messages that a search went past, so that a search for another mark begins after them.

ghost use Rattle.std.specs.Prelude.{◌≡◌, ◌<◌, ◌≤◌, ◌+◌, true, false, List, ℕ, All, OnOk, max};
ghost use Rattle.mailcore.specs.declared.mailbox.Message.{Message};
ghost use Rattle.mailcore.specs.Content.{mark_of};
ghost use Rattle.mailcore.specs.Operations.{is_mark};
ghost use Rattle.mailcore.specs.Passed.{ArePassed, IsOneOf};

use crate::tuid::Tuid;
use crate::uid::Uid;
use std::alloc::{AllocError, Global};
use std::collections::HashSet;

/// The messages of a range of UIDs, by the marks that they bear.
#[derive(Drop)]
pub struct PassedMarks {
    /// The first UID of the range.
    pub from: u32,
    /// The UID after its last one.
    pub below: u32,
    /// The marks of its messages, also of those that are gone by now.
    pub marks: HashSet<Tuid>,
}

impl PassedMarks {
    /// Those of no message.
    pub fn new(alloc: Global) -> Self
        ensures { (next : ℕ) (messages : List Message) → ArePassed next messages result }
    {
        PassedMarks {
            from: 0,
            below: 0,
            marks: HashSet::new(alloc),
        }
    }

    /// Forgets all, unless the mailbox is still the one that was searched.
    pub fn keep_if(&mut self, is_same: bool)
        ensures kept { is_same ≡ true → self.new ≡ self.old }
        ensures passed { (next : ℕ) (messages : List Message) → (is_same ≡ true → ArePassed next messages self.old)
            → ArePassed next messages self.new }
    {
        if !is_same {
            self.from = 0;
            self.below = 0;
            self.marks.clear();
        }
    }

    /// Begins a search for a mark from a UID on, which goes on after the range. The range stays if the search may pass it; otherwise it
    /// becomes an empty one at the UID.
    pub fn begin(&mut self, mark: Tuid, from: u32)
        ensures reaches { (self.new.from ≤ from) × (from ≤ self.new.below) }
        ensures passed { (next : ℕ) (messages : List Message) → ArePassed next messages self.old → ArePassed next messages self.new }
        ensures other { (next : ℕ) (messages : List Message) → ArePassed next messages self.old
            → All (λ m. from ≤ m.uid → m.uid < self.new.below → is_mark (mark_of m.bytes) mark ≡ false) messages }
    {
        let reaches = self.from <= from && from <= self.below;
        if !reaches || self.marks.contains(&mark) {
            self.from = from;
            self.below = from;
            self.marks.clear();
        }
    }

    /// The search went past the message with this UID, which bears this mark, or none, and is the first one after the range.
    pub fn pass(&mut self, uid: Uid, mark: Option<Tuid>) -> Result<(), AllocError>
        ensures range { OnOk result ((self.new.from ≡ self.old.from) × (self.new.below ≡ uid + 1)) }
        ensures passed { (next : ℕ) (messages : List Message) → uid < next → ArePassed next messages self.old
            → All (λ m. self.old.below ≤ m.uid → m.uid ≤ uid → mark_of m.bytes ≡ mark) messages
            → OnOk result (ArePassed next messages self.new) }
    {
        if let Some(mark) = mark {
            self.marks.insert(mark)?;
        }
        self.below = uid.get() + 1;
        Ok(())
    }

    /// The search went past all messages after the range and before this UID. Each of them bears one of these marks, or none.
    pub fn pass_all(&mut self, marks: &[Tuid], below: u32) -> Result<(), AllocError>
        ensures range { OnOk result ((self.new.from ≡ self.old.from) × (self.new.below ≡ max self.old.below below)) }
        ensures passed { (next : ℕ) (messages : List Message) → below ≤ next → ArePassed next messages self.old
            → All (λ m. self.old.below ≤ m.uid → m.uid < below → IsOneOf marks.now (mark_of m.bytes)) messages
            → OnOk result (ArePassed next messages self.new) }
    {
        for mark in marks {
            self.marks.insert(*mark)?;
        }
        self.below = self.below.max(below);
        Ok(())
    }
}
