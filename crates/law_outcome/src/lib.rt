//! Laws of a run: of what it means (`rule_laws`), of what the steps of its plan come to (`step_laws`), and from steps and journal to the
//! outcome: what is found once a run is finished is alike to its outcome, up to the UIDs and the marks of its copies. Each law is shown by a
//! function that does nothing.
#![tactic(auto)]

pub mod rule_laws;
pub mod step_laws;

ghost use Rattle.law_outcome.specs.AlikeLaws as law;
ghost use Rattle.law_outcome.specs.CommitLaws as commit_law;
ghost use Rattle.law_outcome.specs.Examples as example;
ghost use Rattle.law_outcome.specs.GivenUpLaws as given_up;
ghost use Rattle.law_outcome.specs.OtherUids as other_uids;
ghost use Rattle.law_outcome.specs.Unlike as unlike;

/// The state that a finished journal of a plan makes of the one before is the state after the run, under the UIDs that
/// were given and in the order of its entries.
pub fn commit_reaches_outcome()
    ensures kept { commit_law.KeptAreEntriesAfter }
    ensures paired { commit_law.CopiesArePaired }
    ensures state { commit_law.CommitReachesStateAfter }
    ensures in_turn { commit_law.NamedAreStateAfter }
{}

/// The state that is left of a plan which is given up has the old entries and one for each copy, and the next plan, on whatever is listed
/// and under whatever options, copies none of these messages again.
pub fn given_up_keeps_copies()
    ensures entries { given_up.EntriesAreThese }
    ensures not_new { given_up.CopiesAreNotNew }
{}

/// Where messages have other UIDs, in the same order and with those that the state names as they were, the same is
/// called for under these UIDs, the entries after are the same, and only the highest UIDs move.
pub fn called_under_other_uids()
    ensures called { other_uids.CalledUnder }
    ensures entries { other_uids.EntriesUnder }
    ensures highest { other_uids.HighestUnder }
{}

/// UIDs that rise are what a strictly rising map makes of next, next + 1, .. So a world that is named by the UIDs and
/// marks of the copies that are found is alike to the outcome, also where waiting files got other UIDs than the next
/// ones.
pub fn lists_are_maps()
    ensures lists { law.AlikeByLists }
    ensures admission { law.AlikeUnderAdmission }
    ensures without_waiting { law.AlikeWithoutWaiting }
    ensures in_order { law.AlikeInOrder }
{}

/// The maps leave 0 and each UID that the opening names as it is; what else the outcome names is new.
pub fn maps_move_new_uids()
    ensures named { law.NamedStay }
    ensures others { law.OthersAreNew }
{}

/// Waiting files that have UIDs are messages in order, and no state found names a UID that is not given yet.
pub fn uids_found_are_given()
    ensures in_turn { law.AdmittedInTurn }
    ensures admitted { law.AdmittedIsInOrder }
    ensures opening { law.OpeningNamesBelow }
    ensures found { law.NamesStayBelow }
{}

/// A run may begin with the admitted world, and with what a run has left. Where Expunge covers no side, nothing more is
/// called for then under the same options.
pub fn runs_follow_one_another()
    ensures admitted { law.AdmittedIsOpening }
    ensures found { law.FoundIsOpening }
    ensures settles { law.FoundSettles }
{}

/// What the steps of a plan make of both mailboxes, and its finished journal of the state, is alike to the outcome; the
/// same where others have added messages and files, once these are taken out.
pub fn finished_run_is_alike()
    ensures lists { law.StepsAreAlike }
    ensures maps { law.FinishedIsAlike }
    ensures among_others { law.FinishedAmongOthers }
{}

/// The laws say of two worked examples what they should: a waiting file under another UID than the next one, and a run
/// with Expunge whose copy is deleted.
pub fn examples_are_alike()
    ensures late { example.LateIsAlike }
    ensures cleaned { example.CleanedIsAlike }
{}

/// What is alike to an outcome has its waiting files and its UIDVALIDITYs, and gives no UID a second time. How many messages and entries it
/// has, and which, `run_states` says.
pub fn unlike_worlds_are_refused()
    ensures files { unlike.FilesStay }
    ensures validities { unlike.ValiditiesStay }
    ensures recorded { unlike.RecordedValiditiesStay }
    ensures next { unlike.NextUidsStay }
{}
