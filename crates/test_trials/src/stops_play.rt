//! Runs that are stopped at each of their calls (docs/FORMATS.md, "Trial"), over a server, a folder and a shelf in memory: each has to
//! leave what the unbroken run leaves, up to the UIDs that it gave and the marks of its copies.
//!
//! | Line | Meaning |
//! |---|---|
//! | `world` | the text of a world up to a line `.`: the lines after it stop its run |
//! | `each stop` | a stop before and after each call that the unbroken run makes, with two attempts: how many stops were met |
//! | `each beginning` | each append to the shelf, cut after each of its bytes but the last, with two attempts: how many |
//! | `each pair` | two of these stops at calls, of which the second may be one that the resumed attempt alone comes to, with three attempts: how many pairs were met |
//! | `each beginning and stop` | the same with a cut append in place of one of the two |
//! | `opening`, `outcome` | the lines of a world from `far` on, up to a line `.`: before a run, and after the unbroken one |
//! | `found` | the same, after another one: whether it is alike to the outcome, or the first respect in which it is not |
//!
//! Of a run that ends otherwise its stops are printed, and what is unlike.

use crate::alike::{Ends, Unlike, alike};
use crate::stop::Halt;
use crate::sweep::Sweep;
use crate::world::end_of;
use std::alloc::Global;
use test_scripts::failure::Failure;
use test_scripts::play::{Player, play_all};
use test_scripts::reported::Reported;
use test_scripts::script::Script;
use test_scripts::words::Words;
use worlds::world::World;

/// Plays the stopped runs of a script.
pub fn run(rt: &HostRuntime, script: &mut Script<'_>) -> Result<(), Failure> {
    let mut stops = Stops {
        rt,
        world: Vec::new(rt.alloc()),
        singles: Vec::new(rt.alloc()),
        beginnings: Vec::new(rt.alloc()),
        opening: None,
        outcome: None,
    };
    play_all(rt, &mut stops, script)
}

/// What a case has said.
#[derive(Drop)]
struct Stops<'a> {
    rt: &'a HostRuntime,
    /// The text of the world whose run is stopped.
    world: Vec<u8>,
    /// The stops at calls that its unbroken run comes to, once they were tried.
    singles: Vec<Halt>,
    /// The cut appends, once they were tried.
    beginnings: Vec<Halt>,
    opening: Option<World>,
    outcome: Option<World>,
}

impl Player for Stops<'_> {
    fn begin(&mut self) -> Result<(), Failure> {
        self.world.clear();
        self.singles.clear();
        self.beginnings.clear();
        self.opening = None;
        self.outcome = None;
        Ok(())
    }

    fn play(&mut self, line: &mut Words<'_>, script: &mut Script<'_>) -> Result<(), Failure> {
        let alloc = self.rt.alloc();
        match line.word() {
            "world" => self.set_world(script.block(b".")?),
            "opening" => set(&mut self.opening, end_of(alloc, script.block(b".")?)?),
            "outcome" => set(&mut self.outcome, end_of(alloc, script.block(b".")?)?),
            "found" => self.read_and_compare(script.block(b".")?, &mut script.reported),
            "each" => self.sweep(line.rest(), &mut script.reported),
            _ => Err(Failure::Script),
        }
    }
}

fn set(place: &mut Option<World>, world: World) -> Result<(), Failure> {
    *place = Some(world);
    Ok(())
}

impl Stops<'_> {
    fn set_world(&mut self, text: &[u8]) -> Result<(), Failure> {
        self.world.clear();
        Ok(self.world.extend_from_slice(text)?)
    }

    fn read_and_compare(&self, text: &[u8], reported: &mut Reported) -> Result<(), Failure> {
        let found = end_of(self.rt.alloc(), text)?;
        self.compare(&found, reported)
    }

    /// Prints whether this end is alike to the outcome.
    fn compare(&self, found: &World, reported: &mut Reported) -> Result<(), Failure> {
        let (Some(opening), Some(outcome)) = (&self.opening, &self.outcome) else {
            return Err(Failure::Script);
        };
        let ends = Ends {
            opening,
            outcome,
            found,
        };
        reported.begin();
        match alike(self.rt.alloc(), ends) {
            Ok(()) => reported.text("alike"),
            Err(unlike) => report(reported, unlike),
        }
        reported.end();
        Ok(())
    }

    /// `each stop`, `each beginning`, `each pair`, `each beginning and stop`: prints how many were met.
    fn sweep(&mut self, kind: &[u8], reported: &mut Reported) -> Result<(), Failure> {
        let world = self.world.as_slice();
        let (stops, cuts) = (&mut self.singles, &mut self.beginnings);
        let mut sweep = Sweep::new(self.rt, world)?;
        sweep_over(&mut sweep, kind, stops, cuts, reported)?;
        reported.say(&sweep.take_met());
        Ok(())
    }
}

/// Makes the stopped runs of this kind. Those of one stop are kept in its list, and those of two are made of the lists.
fn sweep_over(
    sweep: &mut Sweep<'_>,
    kind: &[u8],
    stops: &mut Vec<Halt>,
    cuts: &mut Vec<Halt>,
    reported: &mut Reported,
) -> Result<(), Failure> {
    match kind {
        b"stop" => *stops = sweep.each_stop(reported)?,
        b"beginning" => *cuts = sweep.each_beginning(reported)?,
        b"pair" => sweep.each_pair(reported, stops)?,
        b"beginning and stop" => sweep.each_cut(reported, cuts, stops)?,
        _ => return Err(Failure::Script),
    }
    Ok(())
}

fn report(reported: &mut Reported, unlike: Unlike) {
    if let Some(side) = unlike.side() {
        reported.text(side.as_str());
        reported.text(": ");
    }
    reported.text(unlike.text());
}
