//! Others whose messages bear none of the marks that the run of a trial may get.

ghost use Rattle.std.specs.Prelude.{◌≡◌};

use mailcore::copies::mark_of;
use mailcore::others::Others;
use worlds::trial_generator::may_give;

/// Others whose messages bear none of the marks that the generator of trials may give.
#[derive(Drop)]
pub struct OtherMarks;

impl Others for OtherMarks {
    ghost use Rattle.worlds.specs.Trial.{is_counted};

    ghost ours = { is_counted };

    fn may_add(message: &[u8]) -> bool {
        match mark_of(message) {
            Some(mark) => !may_give(mark),
            None => true,
        }
    }
}
