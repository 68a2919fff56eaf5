//! Serves the far mailbox of a world (docs/FORMATS.md, "World") as INBOX over IMAP, with the world's keywords, on so many connections
//! one after another: `trial-imapd ADDR FILE COUNT`.
#![tactic(auto)]

mod arguments;
mod failure;
mod notes;
mod serving;

use crate::arguments::{ServeRequest, USAGE, read_arguments};
use crate::failure::ServeFailure;
use crate::serving::serve;
use std::io::Write;
use std::process::ExitCode;

fn run(rt: &HostRuntime) -> Result<(), ServeFailure> {
    match read_arguments(rt)? {
        ServeRequest::Help => {
            let mut out = rt.stdout();
            writeln!(out, "{USAGE}").map_err(|_| ServeFailure::Output)
        }
        ServeRequest::Serve(task) => serve(rt, task),
    }
}

fn main(rt: HostRuntime) -> ExitCode {
    match run(&rt) {
        Ok(()) => ExitCode::SUCCESS,
        Err(failure) => {
            let _ = writeln!(rt.stderr(), "trial-imapd: {failure}");
            failure.status()
        }
    }
}
