//! What became of a run.

use crate::performed::Performed;
use mailcore::side::Side;
use mailcore::uid::Uid;

/// What became of a run in one pass.
#[derive(Drop)]
pub enum Pass {
    /// It was made before.
    Already,
    /// A plan was made, and these are its steps. The messages of the second list were skipped, since they are not fit to be copied.
    Ran(Vec<Performed>, Vec<(Side, Uid)>),
    /// A plan was pending, and these of its steps were not logged yet.
    Finished(Vec<Performed>),
}

/// What became of a run in all its attempts.
#[derive(Drop)]
pub struct Settled {
    /// How many attempts met a stop.
    pub stops: u32,
    /// What the last attempt answered.
    pub last: Pass,
}
