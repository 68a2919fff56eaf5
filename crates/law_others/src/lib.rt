//! Laws of others who act: what a mailbox keeps while other clients add, mark and remove messages, and what the next plan makes of what they
//! did. Each law is shown by a function that does nothing.
#![tactic(auto)]

ghost use Rattle.law_others.specs.ActLaws as act;
ghost use Rattle.law_others.specs.NextPlan as next;

/// While others add, mark and remove messages, the UIDVALIDITY of a mailbox stays, its UIDs rise, the next one never falls, and no UID names
/// another message than before.
pub fn no_uid_is_given_again()
    ensures { act.ActsKeep }
{}

/// A flag that others have changed on one side of a pair goes over to the other side, if flags go that way.
pub fn changed_flags_are_carried()
    ensures { next.ChangedFlagsAreCarried }
{}

/// Of a pair of which others have removed one message, the other one is called gone, if that goes this way; the entry goes if others have removed
/// both.
pub fn removals_are_carried()
    ensures gone { next.RemovalsAreCarried }
    ensures both { next.EntriesOfNothingGo }
{}

/// A message that is called new is called new for as long as it is there and not copied, whatever others do, unless they mark it as deleted
/// where Expunge covers its side.
pub fn new_stays_new()
    ensures { next.NewStaysNew }
{}
