//! The tests of near mailboxes, states and journals: it plays the script on standard input, each part by the library that its line
//! `script NAME` means.
#![tactic(auto)]

use std::process::ExitCode;
use test_scripts::failure::Failure;
use test_scripts::program::{Libraries, play_input};
use test_scripts::script::Script;

/// The libraries of these tests.
#[derive(Clone, Copy)]
struct Stores;

impl Libraries for Stores {
    fn play(&self, rt: &HostRuntime, name: &[u8], script: &mut Script<'_>) -> Result<(), Failure> {
        match name {
            b"near_mailbox" => test_near_mailbox::play::run(rt, script),
            b"near_places" => test_config::near_places_play::run(rt, script),
            b"book" => test_book::play::run(rt, script),
            _ => Err(Failure::Script),
        }
    }
}

fn main(rt: HostRuntime) -> ExitCode {
    play_input(&rt, "tests_of_stores", &Stores)
}
