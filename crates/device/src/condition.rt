//! Whether a device goes on, and how many of its calls have stopped.

ghost use Rattle.std.specs.Prelude.{◌≡◌, ◌+◌, ◌<◌, ◌^◌, true, false, OnOk, IfErr};
ghost use Rattle.device.specs.Conditions.{whole};

use crate::DeviceFault;
use crate::stop_count::StopCount;
use std::marker::Model;

/// Whether a device goes on, and how many of its calls have stopped.
#[derive(Drop)]
pub struct Condition {
    is_broken: bool,
    stops: StopCount,
}

impl Model for Condition {
    ghost use Rattle.device.specs.Conditions.{ConditionParts};

    ghost Value = { ConditionParts };

    ghost view = { λ c. record { is_broken = c.is_broken; stops = c.stops } };
}

impl Condition {
    /// That of a device that was just made.
    pub fn new() -> Self
        ensures { result ≡ whole }
    {
        Condition {
            is_broken: false,
            stops: StopCount::new(),
        }
    }

    /// How many calls have stopped, up to the top of its type.
    pub fn stops(&self) -> usize
        ensures { self.now.stops < 2 ^ 64 → result ≡ self.now.stops }
    {
        self.stops.get()
    }

    /// Whether a call may be made. `Stopped`: one has stopped since the device was opened.
    pub fn check(&self) -> Result<(), DeviceFault>
        ensures whole { OnOk result (self.now.is_broken ≡ false) }
        ensures stopped { IfErr result (λ fault. (fault ≡ DeviceFault.Stopped) × (self.now.is_broken ≡ true)) }
    {
        if self.is_broken {
            Err(DeviceFault::Stopped)
        } else {
            Ok(())
        }
    }

    /// The call stops, and from now on each call does. Gives what the call answers.
    pub fn stop(&mut self) -> DeviceFault
        ensures fault { result ≡ DeviceFault.Stopped }
        ensures broken { self.new.is_broken ≡ true }
        ensures counted { self.new.stops ≡ self.old.stops + 1 }
    {
        self.is_broken = true;
        self.stops.push();
        DeviceFault::Stopped
    }

    /// The call finds no memory, and from now on each call stops. Gives what the call answers.
    pub fn lack(&mut self) -> DeviceFault
        ensures fault { result ≡ DeviceFault.NoMemory }
        ensures now { self.new ≡ record self.old { is_broken = true } }
    {
        self.is_broken = true;
        DeviceFault::NoMemory
    }

    /// Calls are answered again.
    pub fn reopen(&mut self)
        ensures { self.new ≡ record self.old { is_broken = false } }
    {
        self.is_broken = false;
    }
}
