//! How the lines of a script are played.

use crate::failure::Failure;
use crate::script::{CASE, Script};
use crate::words::Words;
use std::io::Write;
use std::time::Instant;

/// What plays the lines of a script, and what it has so far.
pub trait Player {
    /// A line `case NAME`: what follows begins anew.
    fn begin(&mut self) -> Result<(), Failure>;

    /// Plays a line: what it answers is printed in the transcript. `Script`: it has no meaning here.
    fn play(&mut self, line: &mut Words<'_>, script: &mut Script<'_>) -> Result<(), Failure>;
}

/// Plays the lines of a script, up to the next one that says who plays. Empty lines and those that begin with `#` are comments.
/// From a line `clock` on, standard error gets how many microseconds each line took.
///
/// `Line`: that line is bad.
pub fn play_all<P: Player>(
    rt: &HostRuntime,
    player: &mut P,
    script: &mut Script<'_>,
) -> Result<(), Failure> {
    script.is_timed = false;
    for _ in 0..=script.len() {
        play_lines(rt, player, script, CASE)?;
        if script.next_line().is_none() {
            break;
        }
        player.begin()?;
    }
    Ok(())
}

/// Plays the lines that are left of a case, up to the next one that begins with this word, by a player of their own.
pub fn play_part<P: Player + Drop>(
    rt: &HostRuntime,
    player: P,
    script: &mut Script<'_>,
    word: &[u8],
) -> Result<(), Failure> {
    let mut player = player;
    play_lines(rt, &mut player, script, word)
}

fn play_lines<P: Player>(
    rt: &HostRuntime,
    player: &mut P,
    script: &mut Script<'_>,
    word: &[u8],
) -> Result<(), Failure> {
    for _ in 0..=script.len() {
        match script.next_line_before(word) {
            Some(b"clock") => script.is_timed = true,
            Some([] | [b'#', ..]) => {}
            Some(line) if script.is_timed => play_timed(rt, player, line, script)?,
            Some(line) => play_line(player, line, script)?,
            None => break,
        }
    }
    Ok(())
}

fn play_timed<P: Player>(
    rt: &HostRuntime,
    player: &mut P,
    line: &[u8],
    script: &mut Script<'_>,
) -> Result<(), Failure> {
    let number = script.number();
    let start = Instant::now(rt)?;
    play_line(player, line, script)?;
    let microseconds = start.elapsed(rt)?.as_micros();
    Ok(writeln!(rt.stderr(), "line {number}: {microseconds}")?)
}

fn play_line<P: Player>(
    player: &mut P,
    line: &[u8],
    script: &mut Script<'_>,
) -> Result<(), Failure> {
    let number = script.number();
    let mut words = Words::new(line);
    let played = match player.play(&mut words, script) {
        Ok(()) if script.reported.is_lost() => Err(Failure::NoMemory),
        Ok(()) => words.end(),
        failed => failed,
    };
    match played {
        Ok(()) => Ok(()),
        Err(failure) => Err(failure.at(number)),
    }
}
