//! The stops of a device in memory, which come where a schedule says so.

ghost use Rattle.std.specs.Prelude.{◌≡◌, ◌+◌, ◌<◌, ◌^◌, true, false, OnOk, IfErr};
ghost use Rattle.device.specs.Conditions.{whole};

use crate::DeviceFault;
use crate::condition::Condition;
use std::marker::Model;

/// Where a call stops.
#[derive(Clone, Copy, PartialEq, Eq)]
pub enum Moment {
    /// Without its effect.
    Before,
    /// With so many bytes of it. A call that is whole or not at all stops without its effect.
    Part(usize),
    /// With its effect.
    After,
}

/// A stop of a schedule. `C` names the calls of a device.
#[derive(Clone, Copy, PartialEq, Eq)]
pub struct CallStop<C> {
    /// Which call stops.
    pub call: C,
    /// Which of the calls of this name, counted from 1 over the device's life. A stop at 0 is never met.
    pub number: u64,
    /// Where it stops.
    pub moment: Moment,
}

/// How the calls of a device in memory stop: its condition, and the stops that are still to come. Each stop meets one call; of
/// two for one call the first acts.
#[derive(Drop)]
pub struct Scheduled<C> {
    condition: Condition,
    /// Each with the number of calls that are still to be made until it is met, itself included; 0 once it was.
    stops: Vec<CallStop<C>>,
}

impl<C> Model for Scheduled<C> {
    ghost use Rattle.device.specs.Conditions.{ConditionParts};

    ghost Value = { ConditionParts };

    ghost view = { λ s. s.condition };
}

impl<C: Copy + PartialEq> Scheduled<C> {
    /// A device of which no call was made, and whose calls stop as the schedule says.
    pub fn new(schedule: Vec<CallStop<C>>) -> Self
        ensures { result ≡ whole }
    {
        Scheduled {
            condition: Condition::new(),
            stops: schedule,
        }
    }

    /// How many calls have stopped, up to the top of its type.
    pub fn stop_count(&self) -> usize
        ensures { self.now.stops < 2 ^ 64 → result ≡ self.now.stops }
    {
        self.condition.stops()
    }

    /// Begins a call, and says where it stops, if it does. `Stopped`: a call has stopped since the device was opened; this one is
    /// not counted.
    pub fn begin(&mut self, call: C) -> Result<Option<Moment>, DeviceFault>
        ensures same { self.new ≡ self.old }
        ensures whole { OnOk result (self.old.is_broken ≡ false) }
        ensures stopped { IfErr result (λ fault. (fault ≡ DeviceFault.Stopped) × (self.old.is_broken ≡ true)) }
    {
        self.condition.check()?;
        Ok(self.count(call))
    }

    /// Counts a call, and says where it stops, if it does.
    fn count(&mut self, call: C) -> Option<Moment>
        ensures { self.new ≡ self.old }
    {
        let mut met = None;
        for stop in self.stops.iter_mut() {
            if stop.call == call && stop.number > 0 {
                stop.number -= 1;
                if stop.number == 0 && met.is_none() {
                    met = Some(stop.moment);
                }
            }
        }
        met
    }

    /// The call stops, and from now on each call does. Gives what the call answers.
    pub fn stop(&mut self) -> DeviceFault
        ensures fault { result ≡ DeviceFault.Stopped }
        ensures broken { self.new.is_broken ≡ true }
        ensures counted { self.new.stops ≡ self.old.stops + 1 }
    {
        self.condition.stop()
    }

    /// The call finds no memory, and from now on each call stops. Gives what the call answers.
    pub fn lack(&mut self) -> DeviceFault
        ensures fault { result ≡ DeviceFault.NoMemory }
        ensures now { self.new ≡ record self.old { is_broken = true } }
    {
        self.condition.lack()
    }

    /// Calls are answered again.
    pub fn reopen(&mut self)
        ensures { self.new ≡ record self.old { is_broken = false } }
    {
        self.condition.reopen();
    }
}
