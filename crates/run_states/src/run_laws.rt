//! Laws which show that the definitions of "alike" (`rules`) and "underway" mean what we want, for whoever doubts them. For
//! example: alike worlds have as many messages, a device on which a run is underway has one plan or none, and a message that
//! others add during a run is left to the next one.

ghost use Rattle.run_states.specs.Among as among;
ghost use Rattle.run_states.specs.Beginnings as beginning;
ghost use Rattle.run_states.specs.GivenUp as given_up;
ghost use Rattle.run_states.specs.Others as other;
ghost use Rattle.run_states.specs.Runs as run;
ghost use Rattle.run_states.specs.Waited as waited;
ghost use Rattle.run_states.specs.Worlds as world;

/// Worlds that are alike have as many messages on each side, and as many entries.
pub fn alike_worlds_have_as_many()
    ensures messages { world.HaveAsManyMessages }
    ensures entries { world.HaveAsManyEntries }
{}

/// A next run is called for the same on the world that was found as on the outcome, up to the UIDs, and for nothing else. The state that
/// was found has its entries in order, as each that is read; the outcome may have them in any.
pub fn next_runs_are_alike()
    ensures called { world.NextIsOfOutcome }
    ensures no_more { world.NextIsNoMore }
    ensures in_order { world.NextIsInOrder }
{}

/// A device on which a run is underway has one plan, or none: the same for whatever the run is said to have begun with.
pub fn underway_has_one_plan()
    ensures plan { run.OnePlan }
    ensures state { run.OneState }
    ensures either { run.PlannedOrNot }
{}

/// Where a run is done, the next one may begin with the world that the device holds.
pub fn done_begins_the_next_run()
    ensures unplanned { run.DoneIsUnplanned }
    ensures opening { run.DoneIsOpening }
{}

/// A message that others added while a run was at work, after its listings, is left to the next one. Calls name only what a step of the
/// plan is to change or to remove, and that was there before, so it stands as it came. It is in no entry, and above the highest UID taken
/// over, so the next plan copies it, if it is fit, its direction copies new messages, and it is not to be expunged. The mailboxes have to be in
/// order where the run began, as those of a world are that a run may begin with; each call keeps them so.
pub fn others_are_left_to_the_next_run()
    ensures begun { other.BegunHasOrder }
    ensures order { other.OverIsInOrder }
    ensures spared { other.OthersAreSpared }
    ensures stay { other.OthersStay }
    ensures left { other.OthersAreLeft }
    ensures copied { other.OthersAreCopiedNext }
{}

/// A file that waited for its UID when a run began is a message of the world that the run was planned on, also where others add files. So it
/// is not left to a later run: the plan copies it, if it is fit and new near messages are copied.
pub fn files_that_waited_are_read()
    ensures planned { waited.WaitingArePlanned }
    ensures read { waited.WaitingAreRead }
    ensures copied { waited.WaitingAreCopied }
{}

/// Where others add messages, a run that is done has left, without these, both mailboxes and the state alike to the outcome of the world that was
/// listed.
pub fn done_is_alike_among_others()
    ensures { among.DoneIsAlikeAmong }
{}

/// Where a device holds a world that a run may begin with, and no journal, that run is underway: it has no plan yet. Whatever others add, a
/// run may begin with the world still: what they add are messages and files, of bytes that each side stores.
pub fn world_begins_a_run()
    ensures unplanned { beginning.WorldIsUnplanned }
    ensures others { beginning.OthersKeepOpening }
{}

/// Where a plan is given up over mailboxes with which a run might begin, a run may begin with them and the state that is left.
pub fn given_up_begins_a_run()
    ensures { given_up.GivenUpIsOpening }
{}
