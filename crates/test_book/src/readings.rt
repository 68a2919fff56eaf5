//! How the texts of a state and a journal are read, and what is said of both.

use crate::answer::print_fault;
use crate::rule::Rule;
use crate::runs::{Place, Runs};
use book::agreement::disagreement;
use book::shelf::ShelfFile;
use rules::state::SyncState;
use std::alloc::Global;
use sync_state::fault::BookFault;
use sync_state::journal::{Journal, WrittenJournal};
use sync_state::journal_text::{read_journal, write_journal_in, write_plan};
use sync_state::state_text::{read_state_text, write_state_text};
use sync_state::version::Version;
use test_scripts::reported::Reported;
use test_scripts::words::Words;

/// Prints what is read of the text of a file.
pub fn print_reading(alloc: Global, reported: &mut Reported, file: ShelfFile, text: &[u8]) {
    match file {
        ShelfFile::State => match read_state_text(alloc, text) {
            Ok(state) => {
                print_state(alloc, reported, &state, text);
                drop(state);
            }
            Err(fault) => print_fault(reported, fault),
        },
        ShelfFile::Journal => match read_journal(alloc, text) {
            Ok(Some(written)) => {
                print_journal(alloc, reported, &written, text);
                drop(written);
            }
            Ok(None) => reported.text("no plan"),
            Err(fault) => print_fault(reported, fault),
        },
    }
}

/// Prints what is read of each beginning of a text, the whole of it too, and where that is wrong by this rule.
pub fn print_beginnings(
    alloc: Global,
    reported: &mut Reported,
    file: ShelfFile,
    text: &[u8],
    rule: Rule<'_>,
    line: &mut Words<'_>,
) {
    let mut runs = Runs::new(alloc, "the first");
    for length in 0..=text.len() {
        let beginning = &text[..length];
        print_reading(alloc, &mut runs.next, file, beginning);
        rule.judge(beginning, line, &mut runs.next);
        runs.add(reported, Place::Length(length));
    }
    runs.print_run(reported);
}

/// Prints the run of a state and how many entries it has.
fn print_state(alloc: Global, reported: &mut Reported, state: &SyncState, text: &[u8]) {
    reported.text("run ");
    reported.number(state.run);
    reported.text(", ");
    reported.number(state.entries.as_slice().len() as u64);
    reported.text(" entries, ");
    match write_state_text(alloc, state) {
        Ok(written) => reported.text(how_written(&written, text)),
        Err(fault) => print_fault(reported, fault),
    }
}

/// How the text of a state that was read from a text is written.
fn how_written(written: &[u8], text: &[u8]) -> &'static str {
    let lines = written.strip_prefix(b"mbsync state 2\n");
    let read_lines = text.strip_prefix(b"mbsync state 1\n");
    match (lines, read_lines) {
        _ if written == text => "written as it was",
        (Some(lines), Some(read_lines)) if lines == read_lines => "written in version 2",
        _ => "written otherwise",
    }
}

/// Prints the run of a journal's plan and how many steps, notes and logged steps it has.
fn print_journal(alloc: Global, reported: &mut Reported, written: &WrittenJournal, text: &[u8]) {
    let Journal { plan, log } = &written.journal;
    reported.text("plan of run ");
    reported.number(plan.run);
    reported.text(", ");
    reported.number(plan.steps.as_slice().len() as u64);
    reported.text(" steps, ");
    reported.number(plan.notes.as_slice().len() as u64);
    reported.text(" notes, ");
    reported.number(log.as_slice().len() as u64);
    reported.text(" logged, ");
    reported.text(if written.is_torn { "torn, " } else { "whole, " });
    match is_written_as(alloc, written, text) {
        Ok(true) => reported.text("written as it was"),
        Ok(false) => reported.text("written otherwise"),
        Err(fault) => print_fault(reported, fault),
    }
}

/// Whether all of a journal is written, in its version, as the text up to its torn line, and its plan, where that is the second, as the
/// text begins.
fn is_written_as(alloc: Global, written: &WrittenJournal, text: &[u8]) -> Result<bool, BookFault> {
    let plan = write_plan(alloc, &written.journal.plan)?;
    let whole = write_journal_in(alloc, written.version, &written.journal)?;
    let is_same = match text.strip_prefix(whole.as_slice()) {
        Some(torn) => torn.is_empty() != written.is_torn && !torn.contains(&b'\n'),
        None => false,
    };
    let begins_so = written.version == Version::One || text.starts_with(plan.as_slice());
    Ok(is_same && begins_so)
}

/// Prints the first line of a journal that does not agree with a state, if there is one, or why one of them is not read.
pub fn print_disagreement(alloc: Global, reported: &mut Reported, state: &[u8], journal: &[u8]) {
    reported.begin();
    match read_state_text(alloc, state) {
        Ok(state) => print_disagreeing(alloc, reported, &state, journal),
        Err(fault) => print_fault(reported, fault),
    }
    reported.end();
}

fn print_first(alloc: Global, reported: &mut Reported, state: &SyncState, journal: &Journal) {
    match disagreement(alloc, &state.entries, journal) {
        Ok(Some(line)) => {
            reported.text("line ");
            reported.number(line as u64);
            reported.text(" disagrees");
        }
        Ok(None) => reported.text("each line agrees"),
        Err(_) => reported.lose(),
    }
}

fn print_disagreeing(alloc: Global, reported: &mut Reported, state: &SyncState, journal: &[u8]) {
    match read_journal(alloc, journal) {
        Ok(Some(written)) => {
            print_first(alloc, reported, state, &written.journal);
            drop(written);
        }
        Ok(None) => reported.text("no plan"),
        Err(fault) => print_fault(reported, fault),
    }
}
