//! Laws of what a run means, each shown by a function that does nothing: were a definition of a run wrong where it
//! matters to them, its law would have no proof.

ghost use Rattle.law_outcome.specs.RuleLaws as law;

/// A message that is called new is named by no entry on its side.
pub fn new_is_unpaired()
    ensures listed { law.NewItemIsUnpaired }
    ensures called { law.NewIsUnpaired }
{}

/// Whether a near message is fit matters of those alone that may be new: a listing calls for the same that asks none up to the highest UID
/// that was pushed, and none that an entry names.
pub fn fitness_matters_of_new()
    ensures { law.FitnessMattersOfNew }
{}

/// A step of one kind is called for once at most: two propagations that are called for and have one place are equal.
/// So the UIDs determine the flags of a Flags step and of a record.
pub fn one_of_a_kind()
    ensures { law.OneOfAKind }
{}

/// The order of a plan is strict, and of two propagations that are called for one comes before the other.
pub fn order_is_total()
    ensures irreflexive { law.OrderIsIrreflexive }
    ensures transitive { law.OrderIsTransitive }
    ensures total { law.OrderIsTotal }
{}

/// Where Expunge covers no side, nothing is called for after a run under the same options, in whatever order the state
/// holds its entries, and whatever UIDs the copies got.
pub fn run_settles()
    ensures settles { law.RunSettles }
    ensures in_any_order { law.RunSettlesInAnyOrder }
    ensures under_any_uids { law.RunSettlesUnderAnyUids }
{}

/// Where Expunge covers a side, no message that stays there is deleted. It reaches no message but those that were there
/// before, so never a copy that the same run made, even one that is deleted.
pub fn expunge_reaches_old_messages()
    ensures none_is_left { law.NoneDeletedStays }
    ensures was_there { law.ExpungedWasThere }
    ensures no_copy { law.CopyIsNotExpunged }
{}

/// Where an entry has `\Deleted` recorded, as one has after a plan that marked its message and was given up, that mark alone removes
/// nothing: a message that lacks it stays, and one that has it stays where the other one lacks it and its flags go over.
pub fn recorded_mark_is_no_delete()
    ensures { law.RecordedMarkIsNoDelete }
{}

/// Where an entry has lost a side, as one has after a plan that removed its message there and was given up, nothing is called for its other
/// message while that lacks `\Deleted`: it is not new, not marked, not removed, and the entry stays.
pub fn half_entry_is_left()
    ensures { law.HalfEntryIsLeft }
{}
