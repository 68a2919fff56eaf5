//! Who plays the scripts.

use crate::tokens::Tokens;
use crate::wire::Wire;
use test_scripts::failure::Failure;
use test_scripts::play::play_all;
use test_scripts::script::Script;

/// Plays the lines of a script of `wire`.
pub fn run(rt: &HostRuntime, script: &mut Script<'_>) -> Result<(), Failure> {
    let mut wire = Wire::new(rt.alloc());
    play_all(rt, &mut wire, script)
}

/// Plays the lines of a script of `tokens`.
pub fn run_tokens(rt: &HostRuntime, script: &mut Script<'_>) -> Result<(), Failure> {
    let mut tokens = Tokens::new(rt.alloc());
    play_all(rt, &mut tokens, script)
}
