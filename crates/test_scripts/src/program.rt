//! A program of tests.

use crate::failure::Failure;
use crate::script::Script;
use std::io::{Read, Write};
use std::process::ExitCode;

/// The libraries whose scripts a program plays.
pub trait Libraries {
    /// Plays the lines of the library with this name. `Script`: there is none.
    fn play(&self, rt: &HostRuntime, name: &[u8], script: &mut Script<'_>) -> Result<(), Failure>;
}

/// Plays standard input and prints the transcript. Where a line is bad, its number is printed on standard error after the name of
/// the program, and nothing is printed.
pub fn play_input<L: Libraries>(rt: &HostRuntime, name: &str, libraries: &L) -> ExitCode {
    match run(rt, libraries) {
        Ok(()) => ExitCode::SUCCESS,
        Err(failure) => {
            let _ = writeln!(rt.stderr(), "{name}: {failure}");
            failure.status()
        }
    }
}

fn run<L: Libraries>(rt: &HostRuntime, libraries: &L) -> Result<(), Failure> {
    let mut bytes = Vec::new(rt.alloc());
    rt.stdin().read_to_end(&mut bytes)?;
    let mut script = Script::new(rt.alloc(), &bytes);
    play_parts(rt, libraries, &mut script)?;
    if script.reported.is_lost() {
        return Err(Failure::NoMemory);
    }
    let mut out = rt.stdout();
    out.write_all(script.reported.as_str().as_bytes())?;
    Ok(out.flush()?)
}

fn play_parts<L: Libraries>(
    rt: &HostRuntime,
    libraries: &L,
    script: &mut Script<'_>,
) -> Result<(), Failure> {
    for _ in 0..=script.len() {
        if script.is_empty() {
            break;
        }
        let number = script.number().saturating_add(1);
        let name = script.next_head().ok_or(Failure::Line(number))?;
        if let Err(failure) = libraries.play(rt, name, script) {
            return Err(failure.at(number));
        }
    }
    Ok(())
}
