//! `mbworld`: prints the world of a mailbox, as the next run of `mbsync` would find it (docs/MBSYNC.md, "A dry run").
#![tactic(auto)]

use mail_run::world::run_world;
use mail_run::world_line::read_line;
use std::io::{Stderr, Write};
use std::process::ExitCode;
use std::{env, io};

/// The words of the command line, of which the first is the program's name.
fn words(rt: &HostRuntime) -> io::Result<Vec<String>> {
    Ok(env::args(rt)?.collect(rt.alloc())?)
}

/// Reports that the words cannot be read, since memory ran out or one is no UTF-8, and gives the exit status.
fn report_unread(fault: &io::Error, err: &mut Stderr) -> u8 {
    if fault.kind() == io::ErrorKind::OutOfMemory {
        let _ = writeln!(err, "mbworld: no memory");
        1
    } else {
        let _ = writeln!(err, "mbworld: the words of the command line cannot be read");
        2
    }
}

fn run(rt: HostRuntime) -> u8 {
    let (mut out, mut err) = (rt.stdout(), rt.stderr());
    match words(&rt) {
        Ok(words) => run_world(rt, read_line(&words), &mut out, &mut err),
        Err(fault) => report_unread(&fault, &mut err),
    }
}

fn main(rt: HostRuntime) -> ExitCode {
    ExitCode::from(run(rt))
}
