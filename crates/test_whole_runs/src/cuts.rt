//! Runs whose server says less than it should.

use crate::lying_stage::Stage;
use std::alloc::Global;
use std::cell::RefCell;
use test_client::tape::Tape;
use test_scripts::failure::Failure;
use test_scripts::reported::Reported;
use test_scripts::words::Words;

/// Plays these lines with each beginning of what the server says in them, and reports at which places the bytes end so that the runs answer
/// the same.
pub(crate) fn print_cuts(
    alloc: Global,
    lines: &str,
    reported: &mut Reported,
) -> Result<(), Failure> {
    let spoken = spoken_in(alloc, lines)?;
    let mut last = Reported::new(alloc);
    let mut from = 0;
    for room in 0..spoken {
        let answers = answers_within(alloc, lines, room)?;
        if answers.as_str() != last.as_str() {
            report(reported, from, room, &last);
            last = answers;
            from = room;
        }
    }
    report(reported, from, spoken, &last);
    Ok(())
}

/// How many bytes the server says in these lines.
fn spoken_in(alloc: Global, lines: &str) -> Result<usize, Failure> {
    let tape = RefCell::new(Tape::new(alloc, usize::MAX));
    let mut answers = Reported::new(alloc);
    play_all(alloc, &tape, lines, &mut answers)?;
    Ok(tape.into_inner().spoken())
}

/// What these lines answer where the server says so many bytes at most.
fn answers_within(alloc: Global, lines: &str, room: usize) -> Result<Reported, Failure> {
    let tape = RefCell::new(Tape::new(alloc, room));
    let mut answers = Reported::new(alloc);
    play_all(alloc, &tape, lines, &mut answers)?;
    Ok(answers)
}

fn play_all(
    alloc: Global,
    tape: &RefCell<Tape>,
    lines: &str,
    answers: &mut Reported,
) -> Result<(), Failure> {
    let mut stage = Stage::new(alloc, tape);
    for line in lines.lines() {
        play_line(alloc, &mut stage, line, answers)?;
    }
    if answers.is_lost() {
        return Err(Failure::NoMemory);
    }
    Ok(())
}

/// Plays a line. What was not sent, since the bytes ended, is not reported.
fn play_line(
    alloc: Global,
    stage: &mut Stage<'_>,
    line: &str,
    answers: &mut Reported,
) -> Result<(), Failure> {
    let mut words = Words::new(line.as_bytes());
    let word = words.word();
    if stage.play(word, &mut words, answers)? {
        stage.end_run(&mut Reported::new(alloc))?;
    }
    Ok(())
}

/// Reports what was answered at the places from one on, up to another one.
fn report(reported: &mut Reported, from: usize, end: usize, answers: &Reported) {
    if from >= end {
        return;
    }
    reported.begin();
    reported.number(end.saturating_sub(from) as u64);
    reported.text(" places, ");
    reported.number(from as u64);
    reported.text(" to ");
    reported.number(end.saturating_sub(1) as u64);
    reported.text(":");
    for answer in answers.as_str().lines() {
        reported.text(" ");
        reported.text(answer.strip_prefix("  ").unwrap_or(answer));
    }
    reported.end();
}
