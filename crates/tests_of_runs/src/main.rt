//! The tests of the server, the client, runs, trials, stopped runs, runs that are made again, channels, and whole runs of mbsync: it plays the
//! script on standard input, each part by the library that its line `script NAME` means.
#![tactic(auto)]

use std::process::ExitCode;
use test_scripts::failure::Failure;
use test_scripts::program::{Libraries, play_input};
use test_scripts::script::Script;

/// The libraries of these tests.
#[derive(Clone, Copy)]
struct Runs;

impl Libraries for Runs {
    fn play(&self, rt: &HostRuntime, name: &[u8], script: &mut Script<'_>) -> Result<(), Failure> {
        match name {
            b"server" => test_server::play::run(rt, script),
            b"mem_link" => test_server::play::run_links(rt, script),
            b"client" => test_client::play::run(rt, script),
            b"lying" => test_whole_runs::lying_play::run(rt, script),
            b"cut_calls" => test_client::cut_calls::run_cuts(rt, script),
            b"run" => test_run::play::run(rt, script),
            b"trials" => test_trials::play::run(rt, script),
            b"stops" => test_trials::stops_play::run(rt, script),
            b"wanting" => test_trials::wanting_play::run(rt, script),
            b"channels" => test_channels::play::run(rt, script),
            b"mail_run" => test_whole_runs::program_play::run(rt, script),
            _ => Err(Failure::Script),
        }
    }
}

fn main(rt: HostRuntime) -> ExitCode {
    play_input(&rt, "tests_of_runs", &Runs)
}
