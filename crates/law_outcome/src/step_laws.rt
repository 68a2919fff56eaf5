//! Laws of what the steps of a plan come to, each shown by a function that does nothing.

ghost use Rattle.law_outcome.specs.Keywords as keyword;
ghost use Rattle.law_outcome.specs.StepLaws as law;
ghost use Rattle.law_outcome.specs.OwnLaws as own_law;

/// Steps after others begin where those end, and one more result is one more step.
pub fn steps_follow()
    ensures append { law.AfterAppend }
    ensures more { law.AfterMore }
    ensures given { law.GivenMore }
    ensures rises { law.RisesMore }
    ensures fit { law.FitMore }
{}

/// Messages that others add do not disturb the steps, nor are they disturbed.
pub fn steps_among_others()
    ensures unseen { law.OthersUnseen }
    ensures step { law.StepAmongOthers }
    ensures more { law.AfterMoreAmongOthers }
{}

/// A step that makes no copy makes no difference when it is done once more, nor when it was done in part.
pub fn steps_again()
    ensures again { law.StepAgain }
    ensures half { law.StepFromHalf }
    ensures halves { law.StepInHalves }
{}

/// The steps of a whole plan, one after another, leave the messages that stay, with their flags after, and then
/// one copy of each new message, under the UIDs that were given.
pub fn plan_reaches_outcome()
    ensures messages { law.PlanReachesOutcome }
    ensures given { law.EachNewIsGiven }
    ensures in_turn { law.PlanReachesStoreAfter }
    ensures copies_stay { law.CopiesStay }
{}

/// What was there before a run, and what bears one of its marks, is what the run sees as its own: each step of its plan
/// is done among the messages of others as if they were not there, and a copy is found by its mark exactly once it is made. A message
/// whose expunge is next is marked as deleted.
pub fn plan_among_others()
    ensures opening { own_law.OpeningIsOwn }
    ensures step { own_law.PlanStepIsOwn }
    ensures not_found { own_law.NotFoundBefore }
    ensures found { own_law.FoundAfter }
    ensures deleted { own_law.DeletedBeforeExpunge }
{}

/// The flags that a plan sets, clears, or gives its copies, have names in IMAP where those of both mailboxes have.
pub fn plan_has_names()
    ensures { keyword.PlanIsWithin }
{}
