//! What a journal holds: a plan, and which of its steps are logged.

ghost use Rattle.std.specs.Prelude.{◌≡◌, ◌++◌, ◌∷◌, [], OnOk, OnErr};

use crate::version::Version;
use mailcore::uid::Uid;
use rules::plan::Plan;
use std::alloc::AllocError;
use std::marker::Model;

/// How a step is logged.
#[derive(Clone, Copy, PartialEq, Eq)]
pub enum Logged {
    /// A new message was copied, and the copy has this UID.
    Copied(Uid),
    /// Another step is done.
    Done,
    /// A new message was not there any more, or could not be copied.
    Void,
}

/// How the first steps of a plan are logged, which clauses see as a list.
#[derive(Drop)]
pub struct Log {
    list: Vec<Logged>,
}

impl Model for Log {
    ghost use Rattle.std.specs.Prelude.{List};
    ghost use Rattle.sync_state.specs.declared.journal.Logged.{Logged};

    ghost Value = { List Logged };

    ghost view = { λ a. a.list.items };
}

impl Log {
    /// This log, without taking memory.
    pub fn from_vec(list: Vec<Logged>) -> Self
        ensures { result ≡ list.items }
    {
        Log { list }
    }

    /// All of it, in order.
    pub fn as_slice(&self) -> &[Logged]
        ensures { result.now ≡ self.now }
    {
        &self.list
    }

    /// Logs one step more.
    pub fn push(&mut self, logged: Logged) -> Result<(), AllocError>
        ensures ok { OnOk result (self.new ≡ self.old ++ logged ∷ []) }
        ensures err { OnErr result (self.new ≡ self.old) }
    {
        self.list.push(logged)?;
        Ok(())
    }

    /// Gives it back, without taking memory.
    pub fn into_vec(self) -> Vec<Logged>
        ensures { result.items ≡ self }
    {
        self.list
    }
}

/// A plan that was written, and how its first steps are logged.
#[derive(Drop)]
pub struct Journal {
    /// The plan.
    pub plan: Plan,
    /// The steps that are logged.
    pub log: Log,
}

/// A journal as it stands in its file.
#[derive(Drop)]
pub struct WrittenJournal {
    /// The version of its text.
    pub version: Version,
    /// What its whole lines say.
    pub journal: Journal,
    /// Whether a torn line follows them.
    pub is_torn: bool,
}
