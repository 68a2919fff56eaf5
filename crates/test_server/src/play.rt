//! Who plays the scripts.

use crate::links::Links;
use crate::sessions::Sessions;
use test_scripts::failure::Failure;
use test_scripts::play::play_all;
use test_scripts::script::Script;

/// Plays a script of sessions with the server.
pub fn run(rt: &HostRuntime, script: &mut Script<'_>) -> Result<(), Failure> {
    let mut sessions = Sessions::new(rt);
    let played = play_all(rt, &mut sessions, script);
    drop(sessions);
    played
}

/// Plays a script of links to the server.
pub fn run_links(rt: &HostRuntime, script: &mut Script<'_>) -> Result<(), Failure> {
    let mut links = Links::new(rt);
    let played = play_all(rt, &mut links, script);
    drop(links);
    played
}
