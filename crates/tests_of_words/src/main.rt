//! The tests of words of mail, plans, lines of IMAP, configurations and command lines: it plays the script on standard input, each
//! part by the library that its line `script NAME` means.
#![tactic(auto)]

use std::process::ExitCode;
use test_scripts::failure::Failure;
use test_scripts::program::{Libraries, play_input};
use test_scripts::script::Script;

/// The libraries of these tests.
#[derive(Clone, Copy)]
struct Words;

impl Libraries for Words {
    fn play(&self, rt: &HostRuntime, name: &[u8], script: &mut Script<'_>) -> Result<(), Failure> {
        match name {
            b"plan" => test_plan::play::run(rt, script),
            b"tokens" => test_wire::play::run_tokens(rt, script),
            b"wire" => test_wire::play::run(rt, script),
            b"face" => test_face::play::run(rt, script),
            b"config" => test_config::play::run(rt, script),
            b"command_line" => test_config::command_lines::run_words(rt, script),
            _ => Err(Failure::Script),
        }
    }
}

fn main(rt: HostRuntime) -> ExitCode {
    play_input(&rt, "tests_of_words", &Words)
}
