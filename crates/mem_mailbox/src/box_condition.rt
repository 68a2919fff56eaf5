//! Whether calls of a mailbox in memory are answered, and which of them stop or are refused.

ghost use Rattle.std.specs.Prelude.{◌≡◌, ◌<◌, ◌^◌, false, OnOk, IfErr};
ghost use Rattle.mem_mailbox.specs.BoxConditions.{Ends, Fails, Stops, out_of_memory, untouched};

use device::DeviceFault;
use device::schedule::{CallStop, Moment, Scheduled};
use outside::box_fault::BoxFault;
use std::marker::Model;

/// A call of a mailbox, as a schedule names it. There are no parts of these: one that is to stop in the midst stops before its effect.
#[derive(Clone, Copy, PartialEq, Eq)]
pub enum BoxCall {
    /// `open`.
    Open,
    /// `list`.
    List,
    /// `find_mark`.
    FindMark,
    /// `load`.
    Load,
    /// `append`.
    Append,
    /// `add_flags`.
    AddFlags,
    /// `remove_flags`.
    RemoveFlags,
    /// `expunge`.
    Expunge,
    /// `admit`.
    Admit,
    /// `sync`.
    Sync,
}

/// The condition of a mailbox in memory: which of its calls are still to stop or to be refused, whether one has stopped since it was
/// opened, how many have, and whether one was ever refused.
#[derive(Drop)]
pub struct BoxCondition {
    stopping: Scheduled<BoxCall>,
    /// A refused call is kept as a stop of this.
    refusing: Scheduled<BoxCall>,
    has_refused: bool,
}

impl Model for BoxCondition {
    ghost use Rattle.mem_mailbox.specs.BoxConditions.{Counts};

    ghost Value = { Counts };

    ghost view = { λ c. record { is_broken = c.stopping.is_broken; stops = c.stopping.stops; has_refused = c.has_refused } };
}

impl BoxCondition {
    /// Of a mailbox of which no call was made: these calls stop, and these are refused, at whatever moment. Of a call that is in both,
    /// the refusal acts. `sync` is not refused.
    pub fn new(stops: Vec<CallStop<BoxCall>>, refusals: Vec<CallStop<BoxCall>>) -> Self
        ensures { result ≡ untouched }
    {
        BoxCondition {
            stopping: Scheduled::new(stops),
            refusing: Scheduled::new(refusals),
            has_refused: false,
        }
    }

    /// How many calls have stopped, up to the top of its type.
    pub fn stop_count(&self) -> usize
        ensures { self.now.stops < 2 ^ 64 → result ≡ self.now.stops }
    {
        self.stopping.stop_count()
    }

    /// Begins a call, and says whether it stops after its effect. `Stopped` and `Refused`: it has no effect.
    pub(crate) fn begin(&mut self, call: BoxCall) -> Result<bool, BoxFault>
        requires whole { self.old.is_broken ≡ false }
        ensures was_honest { self.new.has_refused ≡ false → self.old.has_refused ≡ false }
        ensures same { OnOk result (self.new ≡ self.old) }
        ensures fails { IfErr result (λ fault. Fails fault self.old self.new) }
    {
        let moment = self.stopping.begin(call);
        if matches!(self.refusing.begin(call), Ok(Some(_))) {
            self.has_refused = true;
            return Err(BoxFault::Refused);
        }
        self.stop_at(moment)
    }

    /// Begins a call of `sync`, which is not refused, and says whether it stops after its effect. `Stopped`: it has no effect.
    pub(crate) fn begin_sync(&mut self) -> Result<bool, BoxFault>
        requires whole { self.old.is_broken ≡ false }
        ensures was_honest { self.new.has_refused ≡ false → self.old.has_refused ≡ false }
        ensures same { OnOk result (self.new ≡ self.old) }
        ensures stops { IfErr result (λ fault. Stops fault self.old self.new) }
    {
        let moment = self.stopping.begin(BoxCall::Sync);
        self.stop_at(moment)
    }

    /// Stops here, or says whether to stop after the effect.
    fn stop_at(&mut self, moment: Result<Option<Moment>, DeviceFault>) -> Result<bool, BoxFault>
        ensures was_honest { self.new.has_refused ≡ self.old.has_refused }
        ensures same { OnOk result (self.new ≡ self.old) }
        ensures stops { IfErr result (λ fault. Stops fault self.old self.new) }
    {
        match moment {
            Ok(Some(Moment::Before | Moment::Part(_))) => Err(self.stop()),
            Ok(Some(Moment::After)) => Ok(true),
            Ok(None) | Err(_) => Ok(false),
        }
    }

    /// Ends a call that has had its effect, and answers this; or stops here, if the call stops after its effect.
    pub(crate) fn end<T: Drop>(&mut self, stops: bool, answer: T) -> Result<T, BoxFault>
        ensures was_honest { self.new.has_refused ≡ self.old.has_refused }
        ensures ends { Ends answer result self.old self.new }
    {
        if stops {
            return Err(self.stop());
        }
        Ok(answer)
    }

    /// The call finds no memory. Gives what it answers.
    pub(crate) fn lack(&mut self) -> BoxFault
        ensures fault { result ≡ BoxFault.NoMemory }
        ensures now { self.new ≡ out_of_memory self.old }
    {
        let _ = self.stopping.lack();
        BoxFault::NoMemory
    }

    /// Calls are answered again.
    pub(crate) fn reopen(&mut self)
        ensures { self.new ≡ record self.old { is_broken = false } }
    {
        self.stopping.reopen();
    }

    /// The call stops. Gives what it answers.
    fn stop(&mut self) -> BoxFault
        ensures { Stops result self.old self.new }
    {
        let _ = self.stopping.stop();
        BoxFault::Stopped
    }
}
