//! Who plays the scripts.

use crate::folder;
use crate::stage::Stage;
use test_scripts::failure::Failure;
use test_scripts::play::play_all;
use test_scripts::script::Script;

/// Plays the lines of a script.
pub fn run(rt: &HostRuntime, script: &mut Script<'_>) -> Result<(), Failure> {
    play_cases(rt, script)?;
    Ok(folder::clear(rt)?)
}

fn play_cases(rt: &HostRuntime, script: &mut Script<'_>) -> Result<(), Failure> {
    let mut stage = Stage::new(rt);
    let played = play_all(rt, &mut stage, script);
    drop(stage);
    played
}
