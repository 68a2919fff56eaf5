//! The states that a run can be in, defined in `specs/` for the contracts of `runner`: no plan yet, a plan that is carried out to
//! some step, or over. Lemmas in `proofs/` say how calls and messages that others add lead from one to the next; the laws here
//! say what a reader expects, for example that a run stays underway whatever others add, and `run_laws` has more, for whoever doubts the
//! definitions.
#![tactic(auto)]

pub mod run_laws;

ghost use Rattle.run_states.specs.Laws as law;

/// Whatever others add, a run that is underway stays so.
pub fn others_keep_underway()
    ensures all { law.OthersKeep }
    ensures unplanned { law.OthersKeepUnplanned }
    ensures pending { law.OthersKeepPending }
{}

/// No step of a plan that is pending is stale, where others add messages and nobody else removes any or changes flags. So whoever finds a
/// stale one knows that someone has.
pub fn nothing_is_stale()
    ensures { law.NothingIsStale }
{}

/// Where nobody adds any messages, a run that is done has left both mailboxes and the state alike to the outcome of its opening.
pub fn done_is_alike()
    ensures { law.DoneIsAlike }
{}
