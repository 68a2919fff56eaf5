//! `mbsync`: synchronises mailboxes of IMAP servers and Maildir folders, as a configuration file says (docs/MBSYNC.md).
#![tactic(auto)]

use command_line::read::read_words;
use command_line::report::report;
use mail_run::run::run_mail;
use std::fs::File;
use std::io::{IsTerminal, Stderr, Write};
use std::process::ExitCode;
use std::{env, fs, io};

/// A file in which nothing stands, and to which nothing is written.
const NOWHERE: &str = "/dev/null";

/// The words of the command line, of which the first is the program's name.
fn words(rt: &HostRuntime) -> io::Result<Vec<String>> {
    Ok(env::args(rt)?.collect(rt.alloc())?)
}

/// Reports that the words cannot be read, since memory ran out or one is no UTF-8, and gives the exit status.
fn report_unread(fault: &io::Error, err: &mut Stderr) -> u8 {
    if fault.kind() == io::ErrorKind::OutOfMemory {
        let _ = writeln!(err, "mbsync: no memory");
        1
    } else {
        let _ = writeln!(err, "mbsync: the words of the command line cannot be read");
        2
    }
}

/// Standard error, if it is a terminal.
fn terminal(rt: &HostRuntime) -> Option<Stderr> {
    let err = rt.stderr();
    err.is_terminal().then_some(err)
}

/// What is opened first, as often as a program has standard streams: where one of these is missing, no other file gets its number, so
/// that nothing is written into a file that was meant for the stream.
fn standing_in(rt: &HostRuntime) -> io::Result<[File; 3]> {
    Ok([
        fs::open(rt, NOWHERE)?,
        fs::open(rt, NOWHERE)?,
        fs::open(rt, NOWHERE)?,
    ])
}

fn run(rt: HostRuntime) -> u8 {
    let _standing_in = standing_in(&rt);
    let (mut out, mut err) = (rt.stdout(), rt.stderr());
    let words = match words(&rt) {
        Ok(words) => words,
        Err(fault) => return report_unread(&fault, &mut err),
    };
    match read_words(rt.alloc(), &words) {
        Ok(request) => {
            let terminal = terminal(&rt);
            run_mail(rt, &request, terminal, &mut out, &mut err)
        }
        Err(fault) => report(&fault, &mut out, &mut err),
    }
}

fn main(rt: HostRuntime) -> ExitCode {
    ExitCode::from(run(rt))
}
