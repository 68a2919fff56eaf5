//! The run of a world, made again with stops.

use crate::alike::{Ends, Unlike, alike};
use crate::stop::{APPEND, CALLS, Halt, Moment};
use crate::world::{end_of, world_of};
use mailcore::side::Side;
use run_trial::run::{TrialRequest, run_trial};
use std::alloc::Global;
use test_scripts::failure::Failure;
use test_scripts::reported::Reported;
use texts::cut::cut;
use worlds::world::World;

/// No run of a world here makes so many calls of one name.
const MOST_CALLS: u32 = 100;

/// No append of a run here has so many bytes.
const MOST_BYTES: u32 = 1000;

/// The runs of one world.
#[derive(Drop)]
pub(crate) struct Sweep<'a> {
    rt: &'a HostRuntime,
    /// The text of the world.
    text: &'a [u8],
    opening: World,
    /// What the unbroken run leaves.
    outcome: World,
    /// How many runs met all of their stops.
    met: u64,
}

/// What a run came to.
#[derive(Drop)]
struct Run {
    /// All that is printed of it.
    text: Vec<u8>,
    /// How many stops it met, or none where it was not settled.
    stops: Option<u64>,
}

impl<'a> Sweep<'a> {
    /// Those of this world. `Script`: it is none, or its unbroken run is not settled.
    pub(crate) fn new(rt: &'a HostRuntime, text: &'a [u8]) -> Result<Sweep<'a>, Failure> {
        let outcome = outcome_of(rt, text)?;
        let opening = world_of(rt.alloc(), text)?;
        Ok(Sweep {
            rt,
            text,
            opening,
            outcome,
            met: 0,
        })
    }

    /// How many runs met all of their stops since this was asked before.
    pub(crate) fn take_met(&mut self) -> u64 {
        let met = self.met;
        self.met = 0;
        met
    }

    /// Makes the run with these stops. Whether it met them all; if it came to something else than the unbroken one, that is printed.
    fn check(&mut self, reported: &mut Reported, stops: &[Halt]) -> Result<bool, Failure> {
        let run = run_of(self.rt, self.text, stops)?;
        self.judge(reported, stops, &run)
    }

    /// Prints a run that came to something else than the unbroken one. Whether it met all of these stops.
    fn judge(
        &mut self,
        reported: &mut Reported,
        stops: &[Halt],
        run: &Run,
    ) -> Result<bool, Failure> {
        let count = stops.len() as u64;
        let verdict = match run.stops {
            None => Some("not settled"),
            Some(met) if met > count => Some("more stops than are named"),
            Some(_) => None,
        };
        if let Some(text) = verdict {
            report(reported, stops, None, text);
            return Ok(false);
        }
        if let Some(unlike) = self.unlike(run)? {
            report(
                reported,
                stops,
                unlike.side().map(Side::as_str),
                unlike.text(),
            );
        }
        let is_met = run.stops == Some(count);
        if is_met {
            self.met = self.met.saturating_add(1);
        }
        Ok(is_met)
    }

    /// In which respect what a run left is not alike to the outcome, if it is not.
    fn unlike(&self, run: &Run) -> Result<Option<Unlike>, Failure> {
        let left = run.left(self.rt.alloc())?;
        let ends = Ends {
            opening: &self.opening,
            outcome: &self.outcome,
            found: &left,
        };
        Ok(alike(self.rt.alloc(), ends).err())
    }

    /// Each stop before and after a call that the unbroken run makes: those that were met.
    pub(crate) fn each_stop(&mut self, reported: &mut Reported) -> Result<Vec<Halt>, Failure> {
        let mut met = Vec::new(self.rt.alloc());
        for call in CALLS {
            self.each_of(reported, None, call, 1, &mut met)?;
        }
        Ok(met)
    }

    /// The same after another stop, at the calls of this name, from the one with this number on.
    fn each_of(
        &mut self,
        reported: &mut Reported,
        first: Option<Halt>,
        call: &'static str,
        from: u32,
        met: &mut Vec<Halt>,
    ) -> Result<(), Failure> {
        for number in from..MOST_CALLS {
            let before = Halt {
                call,
                number,
                moment: Moment::Before,
            };
            if !self.check_after(reported, first, before)? {
                break;
            }
            met.push(before)?;
            let after = Halt {
                moment: Moment::After,
                ..before
            };
            if self.check_after(reported, first, after)? {
                met.push(after)?;
            }
        }
        Ok(())
    }

    fn check_after(
        &mut self,
        reported: &mut Reported,
        first: Option<Halt>,
        stop: Halt,
    ) -> Result<bool, Failure> {
        match first {
            Some(first) => self.check(reported, &[first, stop]),
            None => self.check(reported, &[stop]),
        }
    }

    /// Each append that the unbroken run makes, cut after each of its bytes but the last: those that were met. A cut after the last
    /// byte comes to what a stop after the call does.
    pub(crate) fn each_beginning(&mut self, reported: &mut Reported) -> Result<Vec<Halt>, Failure> {
        let mut met = Vec::new(self.rt.alloc());
        for number in 1..MOST_CALLS {
            let whole = Halt {
                call: APPEND,
                number,
                moment: Moment::After,
            };
            let run = run_of(self.rt, self.text, &[whole])?;
            if run.stops == Some(0) {
                break;
            }
            self.each_part(reported, number, &run, &mut met)?;
        }
        Ok(met)
    }

    /// The append of this number, cut after each of its bytes but the last: those that were met. The other run stopped after it.
    fn each_part(
        &mut self,
        reported: &mut Reported,
        number: u32,
        whole: &Run,
        met: &mut Vec<Halt>,
    ) -> Result<(), Failure> {
        for bytes in 0..MOST_BYTES {
            let stop = Halt {
                call: APPEND,
                number,
                moment: Moment::Part(bytes),
            };
            let run = run_of(self.rt, self.text, &[stop])?;
            if run.text.as_slice() == whole.text.as_slice() {
                break;
            }
            if self.judge(reported, &[stop], &run)? {
                met.push(stop)?;
            }
        }
        Ok(())
    }

    /// Each of the stops at calls, with each of those after it and with each that the resumed attempt alone comes to.
    pub(crate) fn each_pair(
        &mut self,
        reported: &mut Reported,
        stops: &[Halt],
    ) -> Result<(), Failure> {
        for (place, first) in stops.iter().enumerate() {
            let others = stops.get(place.saturating_add(1)..).unwrap_or_default();
            self.each_second(reported, *first, others, stops)?;
        }
        Ok(())
    }

    /// Each of these cut appends, with each of the stops at calls and with each that the resumed attempt alone comes to.
    pub(crate) fn each_cut(
        &mut self,
        reported: &mut Reported,
        cuts: &[Halt],
        stops: &[Halt],
    ) -> Result<(), Failure> {
        for cut in cuts {
            self.each_second(reported, *cut, stops, stops)?;
        }
        Ok(())
    }

    /// One stop, with each of the others, and with each after the calls at which the unbroken run stops.
    fn each_second(
        &mut self,
        reported: &mut Reported,
        first: Halt,
        others: &[Halt],
        stops: &[Halt],
    ) -> Result<(), Failure> {
        for second in others {
            self.check(reported, &[first, *second])?;
        }
        let mut met = Vec::new(self.rt.alloc());
        for call in CALLS {
            let from = calls_of(call, stops).saturating_add(1);
            self.each_of(reported, Some(first), call, from, &mut met)?;
        }
        Ok(())
    }
}

/// How many calls of this name the unbroken run makes.
fn calls_of(call: &str, stops: &[Halt]) -> u32 {
    let numbers = stops
        .iter()
        .filter(|stop| stop.call == call)
        .map(|stop| stop.number);
    numbers.max().unwrap_or(0)
}

/// What the unbroken run of a world leaves. `Script`: it is not settled.
fn outcome_of(rt: &HostRuntime, world: &[u8]) -> Result<World, Failure> {
    let run = run_of(rt, world, &[])?;
    if run.stops == Some(0) {
        run.left(rt.alloc())
    } else {
        Err(Failure::Script)
    }
}

/// Makes the run of a world with these stops, and one attempt more than there are.
fn run_of(rt: &HostRuntime, world: &[u8], stops: &[Halt]) -> Result<Run, Failure> {
    let own = rt.clone()?;
    let trial = trial_of(rt.alloc(), world, stops)?;
    let (mut text, mut err) = (Vec::new(rt.alloc()), Vec::new(rt.alloc()));
    let mut input = trial.as_bytes();
    run_trial(own, TrialRequest::Memory, &mut input, &mut text, &mut err);
    let stops = stops_in(&text);
    Ok(Run { text, stops })
}

/// The text of a trial.
fn trial_of(alloc: Global, world: &[u8], stops: &[Halt]) -> Result<String, Failure> {
    let mut text = String::new(alloc);
    text.push_str(str::from_utf8(world).unwrap_or(""))?;
    let tries = stops.len().saturating_add(1);
    writeln!(text, "tries {tries}")?;
    for stop in stops {
        writeln!(text, "{stop}")?;
    }
    Ok(text)
}

impl Run {
    /// What it left: the lines from `far` on. `Script`: there are none.
    fn left(&self, alloc: Global) -> Result<World, Failure> {
        let mut rest = self.text.as_slice();
        for _ in 0..self.text.len() {
            if rest.starts_with(b"far ") {
                break;
            }
            (_, rest) = cut(rest, b'\n').ok_or(Failure::Script)?;
        }
        end_of(alloc, rest)
    }
}

/// The number of stops in a first line `settled WORD STOPS`.
fn stops_in(text: &[u8]) -> Option<u64> {
    let (line, _) = cut(text, b'\n')?;
    let mut words = str::from_utf8(line).ok()?.split(' ');
    if words.next()? != "settled" {
        return None;
    }
    words.nth(1)?.parse().ok()
}

/// Prints which stops left something else.
fn report(reported: &mut Reported, stops: &[Halt], side: Option<&'static str>, text: &str) {
    reported.begin();
    for (place, stop) in stops.iter().enumerate() {
        reported.text(if place == 0 { "" } else { ", " });
        reported.shown(stop);
    }
    reported.text(": ");
    if let Some(side) = side {
        reported.text(side);
        reported.text(": ");
    }
    reported.text(text);
    reported.end();
}
