//! What a run is to do.

ghost use Rattle.std.specs.Prelude.{◌≡◌};

use mailcore::flags::Flags;
use mailcore::keywords::Keywords;
use mailcore::side::{Direction, Side};
use mailcore::tuid::Tuid;
use mailcore::uid::Uid;
use std::marker::Model;

/// What is done to a mailbox.
#[derive(Clone, Copy, PartialEq, Eq)]
pub enum Step {
    /// A message is copied to the direction's target.
    New {
        /// From its source to its target.
        direction: Direction,
        /// The message on the source.
        uid: Uid,
        /// Its flags at planning, which the copy gets.
        flags: Flags,
        /// The mark of the copy.
        mark: Tuid,
    },
    /// The message on the target is marked as deleted, since its counterpart has gone.
    Gone {
        /// The target is the side of the message that is left.
        direction: Direction,
        /// The far message.
        far: Uid,
        /// The near message.
        near: Uid,
    },
    /// The message on the target gets flags that have changed on the source.
    Flags {
        /// From the message that has changed to the one that changes.
        direction: Direction,
        /// The far message.
        far: Uid,
        /// The near message.
        near: Uid,
        /// The flags that are set.
        set: Flags,
        /// The flags that are cleared.
        cleared: Flags,
    },
    /// A message that is marked as deleted is removed.
    Expunge {
        /// The side of the message.
        side: Side,
        /// The message.
        uid: Uid,
    },
}

/// What is done to the state.
#[derive(Clone, Copy, PartialEq, Eq)]
pub enum Note {
    /// A full entry gets other recorded flags.
    Record {
        /// The far message.
        far: Uid,
        /// The near message.
        near: Uid,
        /// The flags recorded from now on.
        flags: Flags,
    },
    /// An entry goes, since nothing is left of it.
    Drop {
        /// The far UID of the entry.
        far: Option<Uid>,
        /// The near UID of the entry.
        near: Option<Uid>,
    },
}

/// The steps of a plan, which clauses see as a list.
#[derive(Drop)]
pub struct Steps {
    list: Vec<Step>,
}

impl Model for Steps {
    ghost use Rattle.std.specs.Prelude.{List};
    ghost use Rattle.rules.specs.declared.plan.Step.{Step};

    ghost Value = { List Step };

    ghost view = { λ a. a.list.items };
}

impl Steps {
    /// These steps, without taking memory.
    pub fn from_vec(list: Vec<Step>) -> Self
        ensures { result ≡ list.items }
    {
        Steps { list }
    }

    /// All of them, in order.
    pub fn as_slice(&self) -> &[Step]
        ensures { result.now ≡ self.now }
    {
        &self.list
    }

    /// Gives the steps back, without taking memory.
    pub fn into_vec(self) -> Vec<Step>
        ensures { result.items ≡ self }
    {
        self.list
    }
}

/// The notes of a plan, which clauses see as a list.
#[derive(Drop)]
pub struct Notes {
    list: Vec<Note>,
}

impl Model for Notes {
    ghost use Rattle.std.specs.Prelude.{List};
    ghost use Rattle.rules.specs.declared.plan.Note.{Note};

    ghost Value = { List Note };

    ghost view = { λ a. a.list.items };
}

impl Notes {
    /// These notes, without taking memory.
    pub fn from_vec(list: Vec<Note>) -> Self
        ensures { result ≡ list.items }
    {
        Notes { list }
    }

    /// All of them, in order.
    pub fn as_slice(&self) -> &[Note]
        ensures { result.now ≡ self.now }
    {
        &self.list
    }

    /// Gives the notes back, without taking memory.
    pub fn into_vec(self) -> Vec<Note>
        ensures { result.items ≡ self }
    {
        self.list
    }
}

/// What a plan says of one side.
#[derive(Clone, Copy, PartialEq, Eq)]
pub struct PlanSide {
    /// The mailbox's UIDVALIDITY.
    pub validity: u32,
    /// MaxPulledUid on the far side and MaxPushedUid on the near one, after the run.
    pub highest: u32,
    /// The mailbox's UIDNEXT at planning.
    pub next: u32,
}

/// What a run is to do, in order.
#[derive(Drop)]
pub struct Plan {
    /// The number of the run.
    pub run: u64,
    /// The far side.
    pub far: PlanSide,
    /// The near side.
    pub near: PlanSide,
    /// What is done to the mailboxes.
    pub steps: Steps,
    /// What is done to the state.
    pub notes: Notes,
    /// By this map keywords have a letter in the run.
    pub keywords: Keywords,
}
