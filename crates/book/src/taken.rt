//! The UIDs that are taken on each side while a plan is pending, so that the UID of a new copy need not be sought in entries, steps and
//! log.

ghost use Rattle.std.specs.Prelude.{◌≡◌, ◌++◌, ◌∷◌, [], IfOk, List, OnOk, ℕ, length, not, true};
ghost use Rattle.std.specs.BTreeSet.{contains};
ghost use Rattle.std.specs.Ordering.{nat_cmp};
ghost use Rattle.std.specs.List.{list_all, list_any};
ghost use Rattle.rules.specs.declared.entry.Entry.{Entry};
ghost use Rattle.rules.specs.declared.plan.Step.{Step};
ghost use Rattle.book.specs.Agreement.{Copy, copies_of, copy_of, is_named, is_taken};
ghost use Rattle.book.specs.BookLogs.{logged_more};
ghost use Rattle.book.specs.TakenUids.{Adds, Knows, KnowsTaken, copies_one, has, next_copies};

use crate::book::Pending;
use mailcore::side::Side;
use rules::entry::Entry;
use rules::plan::Step;
use std::alloc::{AllocError, Global};
use std::collections::BTreeSet;
use sync_state::journal::{Journal, Logged};

/// UIDs of both sides. 0 stands among them where an entry has no message on a side: no copy has it.
#[derive(Drop)]
pub(crate) struct Taken {
    far: BTreeSet<u32>,
    near: BTreeSet<u32>,
}

impl Taken {
    /// No UID.
    pub(crate) fn none(alloc: Global) -> Taken
        ensures { KnowsTaken [] [] [] result }
    {
        Taken {
            far: BTreeSet::new(alloc),
            near: BTreeSet::new(alloc),
        }
    }

    /// What is taken by these entries and by what is pending.
    pub(crate) fn of(
        alloc: Global,
        entries: &[Entry],
        pending: &Pending,
    ) -> Result<Taken, AllocError>
        ensures { IfOk result (Knows entries.now pending.now) }
    {
        let Pending::Planned(written) = pending else {
            return Ok(Taken::none(alloc));
        };
        let steps = written.journal.plan.steps.as_slice();
        let mut taken = Taken::begun(alloc, entries, steps)?;
        taken.add_copies(steps, written.journal.log.as_slice())?;
        Ok(taken)
    }

    /// What is taken by these entries and by a plan with these steps of which none is logged. Where no step makes a copy nobody asks, and
    /// nothing is kept.
    pub(crate) fn begun(
        alloc: Global,
        entries: &[Entry],
        steps: &[Step],
    ) -> Result<Taken, AllocError>
        ensures { IfOk result (λ taken. list_any copies_one steps.now ≡ true → KnowsTaken entries.now steps.now [] taken) }
    {
        if copy_one(steps) {
            Taken::planned(alloc, entries, steps)
        } else {
            Ok(Taken::none(alloc))
        }
    }

    /// What is taken by these entries and by the sources of these steps, before one is logged.
    pub(crate) fn planned(
        alloc: Global,
        entries: &[Entry],
        steps: &[Step],
    ) -> Result<Taken, AllocError>
        ensures { IfOk result (KnowsTaken entries.now steps.now []) }
    {
        let mut taken = Taken::named(alloc, entries)?;
        for step in steps {
            taken.add_source(step)?;
        }
        Ok(taken)
    }

    /// What is taken by these entries alone.
    pub(crate) fn named(alloc: Global, entries: &[Entry]) -> Result<Taken, AllocError>
        ensures { IfOk result (KnowsTaken entries.now [] []) }
    {
        Ok(Taken {
            far: uids_on(alloc, Side::Far, entries)?,
            near: uids_on(alloc, Side::Near, entries)?,
        })
    }

    /// Whether this UID is taken on this side.
    pub(crate) fn has(&self, side: Side, uid: u32) -> bool
        ensures { result ≡ has self.now side uid }
    {
        match side {
            Side::Far => self.far.contains(&uid),
            Side::Near => self.near.contains(&uid),
        }
    }

    /// Whether the copy that this step made, if it made one, has a UID that is not taken.
    pub(crate) fn is_free(&self, step: &Step, logged: Logged) -> bool
        ensures { (entries : List Entry) (steps : List Step) (copies : List Copy)
            → (copies_one step.now ≡ true → KnowsTaken entries steps copies self.now)
            → result ≡ list_all (λ c. not (is_taken entries steps copies c)) (copy_of step.now logged) }
    {
        match (step, logged) {
            (Step::New { direction, .. }, Logged::Copied(copy)) => {
                !self.has(direction.target(), copy.get())
            }
            _ => true,
        }
    }

    /// Takes in the UID of the copy that the next step makes where it is logged so.
    pub(crate) fn add_next(&mut self, pending: &Pending, logged: Logged) -> Result<(), AllocError>
        ensures { OnOk result ((entries : List Entry) → Knows entries pending.now self.old → Knows entries (logged_more pending.now logged) self.new) }
    {
        match pending {
            Pending::Planned(written) => self.add_logged(&written.journal, logged),
            Pending::Missing | Pending::Useless => Ok(()),
        }
    }

    fn add_logged(&mut self, journal: &Journal, logged: Logged) -> Result<(), AllocError>
        ensures { OnOk result ((entries : List Entry) (copies : List Copy) → KnowsTaken entries journal.now.plan.steps copies self.old
            → KnowsTaken entries journal.now.plan.steps (copies ++ next_copies journal.now.plan.steps (length journal.now.log) logged) self.new) }
    {
        let steps = journal.plan.steps.as_slice();
        let count = journal.log.as_slice().len();
        if count >= steps.len() {
            return Ok(());
        }
        self.add_copy(&steps[count], logged)
    }

    /// Takes in the UIDs of the copies that these steps made where they are logged so.
    fn add_copies(&mut self, steps: &[Step], log: &[Logged]) -> Result<(), AllocError>
        ensures { OnOk result ((entries : List Entry) (plan : List Step) → KnowsTaken entries plan [] self.old
            → KnowsTaken entries plan (copies_of steps.now log.now) self.new) }
    {
        for i in 0..steps.len().min(log.len()) {
            self.add_copy(&steps[i], log[i])?;
        }
        Ok(())
    }

    /// Takes in the UID of the copy that this step made, if it made one.
    pub(crate) fn add_copy(&mut self, step: &Step, logged: Logged) -> Result<(), AllocError>
        ensures { OnOk result ((entries : List Entry) (steps : List Step) (copies : List Copy) → KnowsTaken entries steps copies self.old
            → KnowsTaken entries steps (copies ++ copy_of step.now logged) self.new) }
    {
        match (step, logged) {
            (Step::New { direction, .. }, Logged::Copied(copy)) => {
                self.insert(direction.target(), copy.get())
            }
            _ => Ok(()),
        }
    }

    /// Takes in the UID of the message that this step copies, if it copies one.
    fn add_source(&mut self, step: &Step) -> Result<(), AllocError>
        ensures { OnOk result ((entries : List Entry) (steps : List Step) → KnowsTaken entries steps [] self.old
            → KnowsTaken entries (steps ++ step.now ∷ []) [] self.new) }
    {
        match step {
            Step::New { direction, uid, .. } => self.insert(direction.source(), uid.get()),
            _ => Ok(()),
        }
    }

    fn insert(&mut self, side: Side, uid: u32) -> Result<(), AllocError>
        ensures { OnOk result (Adds side uid self.old self.new) }
    {
        match side {
            Side::Far => self.far.insert(uid)?,
            Side::Near => self.near.insert(uid)?,
        };
        Ok(())
    }
}

/// The UIDs that these entries name on a side. A set that is made of all at once costs less than one that grows.
fn uids_on(alloc: Global, side: Side, entries: &[Entry]) -> Result<BTreeSet<u32>, AllocError>
    ensures { IfOk result (λ uids. (uid : ℕ) → contains nat_cmp uids uid ≡ is_named entries.now side uid) }
{
    entries
        .iter()
        .map(|entry| entry.number(side))
        .collect(alloc)
}

/// Whether one of these steps copies a new message.
fn copy_one(steps: &[Step]) -> bool
    ensures { result ≡ list_any copies_one steps.now }
{
    steps.iter().any(|step| copies_one(step))
}

/// Whether a step copies a new message.
fn copies_one(step: &Step) -> bool
    ensures { result ≡ copies_one step.now }
{
    matches!(step, Step::New { .. })
}
