//! When names in a Maildir folder changed last, and whether a change would show.

use device::disk::Disk;
use std::io;
use std::rt::{Clock, Files};
use std::time::{Duration, SystemTime, UNIX_EPOCH};

/// By how many milliseconds the time of a change may be earlier than the clock. A file system takes the time of the system's last tick,
/// which is 10 milliseconds old at most.
const GRAIN: u64 = 20;

/// The same where a file system keeps whole seconds alone.
const SECOND_GRAIN: u64 = 1020;

/// By how much the time of a change, noted so, may be earlier than the clock. A time of a whole second may be that of a file system
/// that keeps no other.
fn grain_of(time: SystemTime) -> Duration {
    let is_whole = match time.duration_since(UNIX_EPOCH) {
        Ok(since) => since.subsec_nanos() == 0,
        Err(_) => false,
    };
    Duration::from_millis(if is_whole { SECOND_GRAIN } else { GRAIN })
}

/// When the names in `new` and those in `cur` changed last.
#[derive(Clone, Copy, PartialEq, Eq)]
pub(crate) struct Changes {
    new: SystemTime,
    cur: SystemTime,
}

impl Changes {
    /// As the disk says it now.
    pub(crate) fn of<R: Files + AllocGlobal + Clone + Drop>(disk: &Disk<R>) -> io::Result<Self> {
        Ok(Changes {
            new: disk.changed("new")?,
            cur: disk.changed("cur")?,
        })
    }

    /// Whether a change from this time on gets another time than each of these. One that is too near to it could be that of two changes.
    pub(crate) fn would_show_another(&self, from: SystemTime) -> bool {
        [self.new, self.cur]
            .iter()
            .all(|time| apart(*time, from) > grain_of(*time))
    }

    /// By how much these times may be earlier than the clock: from this time on a change gets another.
    pub(crate) fn grain(&self) -> Duration {
        grain_of(self.new).max(grain_of(self.cur))
    }
}

/// How far two times are from each other. A clock that was set back is ahead of the times that were noted before.
fn apart(one: SystemTime, other: SystemTime) -> Duration {
    match one.duration_since(other) {
        Ok(time) => time,
        Err(error) => error.duration(),
    }
}

/// The time of the clock.
pub(crate) fn now(clock: &impl Clock) -> io::Result<SystemTime> {
    SystemTime::now(clock)
}
