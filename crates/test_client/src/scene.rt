//! A call that is cut at each byte.

use crate::held::Held;
use crate::replay::{Came, replay};
use crate::tally::{Cut, Tally};
use mem_link::schedule::LinkStop;
use std::alloc::Global;
use test_scripts::failure::Failure;
use test_scripts::reported::Reported;

/// A call, and what stands in its case before it.
#[derive(Clone, Copy)]
pub struct Scene<'a> {
    /// Where memory is taken.
    pub alloc: Global,
    /// The lines of the case.
    pub lines: &'a str,
    /// The call.
    pub call: &'a str,
}

/// The call as it is without a cut.
#[derive(Clone, Copy)]
struct Unbroken<'a> {
    /// What the server holds before it.
    before: &'a Held,
    /// What comes of the calls up to it.
    whole: &'a Came,
}

impl Scene<'_> {
    /// Reports what comes of the call, unbroken and cut.
    pub fn report(self, reported: &mut Reported) -> Result<(), Failure> {
        let before = replay(self.alloc, self.lines, "", "", None);
        let reported = self.report_after(&before.held, reported);
        drop(before);
        reported
    }

    fn report_after(self, before: &Held, reported: &mut Reported) -> Result<(), Failure> {
        let whole = replay(self.alloc, self.lines, self.call, "", None);
        let unbroken = Unbroken {
            before,
            whole: &whole,
        };
        let reported = self.print_cuts(unbroken, reported);
        drop(whole);
        reported
    }

    /// `Script`: a call of the link stops without a cut.
    fn print_cuts(self, unbroken: Unbroken<'_>, reported: &mut Reported) -> Result<(), Failure> {
        match unbroken.whole.failure {
            Some(failure) => return Err(failure),
            None if unbroken.whole.stops > 0 => return Err(Failure::Script),
            None => {}
        }
        reported.text(unbroken.whole.last.as_str());
        unbroken.whole.held.print_change(unbroken.before, reported);
        self.cut_each(unbroken, true).report(reported, "sent: ");
        self.cut_each(unbroken, false)
            .report(reported, "received: ");
        Ok(())
    }

    /// Cuts the call after each byte that is sent or received.
    fn cut_each(self, unbroken: Unbroken<'_>, is_sent: bool) -> Tally {
        let mut tally = Tally::new();
        for place in 0..usize::MAX {
            let stop = if is_sent {
                LinkStop::Sent(place)
            } else {
                LinkStop::Received(place)
            };
            if tally.add(place, self.cut_at(unbroken, stop)) {
                break;
            }
        }
        tally
    }

    fn cut_at(self, unbroken: Unbroken<'_>, stop: LinkStop) -> Cut {
        let cut = replay(self.alloc, self.lines, self.call, "", Some(stop));
        let judged = self.judge(unbroken, &cut, stop);
        drop(cut);
        judged
    }

    fn judge(self, unbroken: Unbroken<'_>, cut: &Came, stop: LinkStop) -> Cut {
        let Unbroken { before, whole } = unbroken;
        let is_changed = !cut.held.is_as(before);
        let stands = cut.held.is_as(&whole.held);
        let is_earlier = cut.earlier.as_str() != whole.earlier.as_str();
        let is_as_whole = cut.last.as_str() == whole.last.as_str();
        if cut.failure.is_some() {
            Cut::Lost
        } else if cut.stops == 0 {
            Cut::Following(stands && !is_earlier && is_as_whole)
        } else if is_earlier {
            Cut::Earlier
        } else if cut.last.as_str() != "  Stopped\n" {
            Cut::Wrong("it does not answer Stopped")
        } else if is_changed && !stands {
            Cut::Wrong("the server holds something else")
        } else if !self.is_listed(cut, stop) {
            Cut::Wrong("what is listed then is something else")
        } else if is_changed {
            Cut::WithEffect
        } else {
            Cut::Without
        }
    }

    /// Whether a client that goes on lists just what stands there, which changes nothing.
    fn is_listed(self, cut: &Came, stop: LinkStop) -> bool {
        let look = cut.held.calls.as_str();
        let again = replay(self.alloc, self.lines, self.call, look, Some(stop));
        let answers = again.look.as_str().as_bytes();
        let is_listed = again.held.is_as(&cut.held)
            && answers.ends_with(cut.held.answers.as_str().as_bytes());
        drop(again);
        is_listed
    }
}
