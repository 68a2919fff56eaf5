//! What a trial says.

ghost use Rattle.std.specs.Prelude.{◌<◌};

use crate::act::TrialActs;
use crate::arrival::TrialArrivals;
use crate::stop::Stops;
use worlds::world::World;

/// A trial, as a text gives it (docs/FORMATS.md, "Trial").
#[derive(Drop)]
pub struct Trial {
    /// The world before the run.
    pub world: World,
    /// What else it says.
    pub course: TrialCourse,
}

/// What a trial says beside its world.
#[derive(Drop)]
pub struct TrialCourse {
    /// How many attempts the run has, at least 1. 4294967295 stands for greater numbers too.
    pub tries: u32,
    /// The bytes of the journal before the run, if there is one.
    pub journal: Option<Vec<u8>>,
    /// Which calls stop.
    pub stops: Stops,
    /// The APPENDs whose replies come without APPENDUID, each by its number, counted from 1 over the trial. That is no stop.
    pub mutes: Vec<u64>,
    /// What others add meanwhile.
    pub arrivals: TrialArrivals,
    /// What other clients do to messages meanwhile.
    pub acts: TrialActs,
}
