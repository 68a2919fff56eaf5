//! What became of the steps of a run.

use mailcore::uid::Uid;
use rules::plan::Step;

/// What became of a step.
#[derive(Clone, Copy, PartialEq, Eq)]
pub enum StepResult {
    /// A copy was made, and has this UID.
    Made(Uid),
    /// A copy that an earlier pass had made was found, and has this UID.
    Found(Uid),
    /// The message is not there any more, or not fit to be copied.
    Void,
    /// A step that copies nothing is done.
    Plain,
}

/// A step that was performed.
#[derive(Clone, Copy, PartialEq, Eq)]
pub struct Performed {
    /// The step.
    pub step: Step,
    /// What became of it.
    pub result: StepResult,
}
