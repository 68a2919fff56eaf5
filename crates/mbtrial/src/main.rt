//! Reads a trial from standard input, makes its run, and prints what it came to: `mbtrial [--tcp|--face]`.
#![tactic(auto)]

use run_trial::run::{TrialRequest, run_trial};
use std::env::{Env, FillError};
use std::process::ExitCode;

/// What the arguments ask for; argument 0 is the program's name. No memory is asked for: a word that does not fit is another one.
fn request_of(rt: &HostRuntime) -> TrialRequest {
    let mut word = [0; 6];
    let first = rt.arg(1, &mut word);
    let second = rt.arg(2, &mut []);
    match (first, second) {
        (Err(FillError::NotPresent), _) => TrialRequest::Memory,
        (Ok(length), Err(FillError::NotPresent)) => named(length, &word),
        _ => TrialRequest::Unknown,
    }
}

/// What this argument of so many bytes asks for.
fn named(length: usize, word: &[u8; 6]) -> TrialRequest {
    let word = word.get(..length).unwrap_or(b"");
    if word == b"--tcp".as_slice() {
        TrialRequest::Loopback
    } else if word == b"--face".as_slice() {
        TrialRequest::Face
    } else {
        TrialRequest::Unknown
    }
}

fn main(rt: HostRuntime) -> ExitCode {
    let request = request_of(&rt);
    let (mut input, mut out, mut err) = (rt.stdin(), rt.stdout(), rt.stderr());
    ExitCode::from(run_trial(rt, request, &mut input, &mut out, &mut err))
}
