//! A mailbox in memory, as a case gives it.

use crate::facts::{Facts, following};
use book::mem_shelf::MemShelf;
use book::shelf::ShelfFile;
use std::alloc::Global;
use test_run::calls::Schedule;
use test_run::stage::{MemOutside, Stage, left_in, outside_of, parts_of, stage_of};
use test_scripts::failure::Failure;
use test_scripts::reported::Reported;
use test_scripts::words::Words;

/// A mailbox that was lent, by its far name.
#[derive(Drop)]
pub(crate) struct LentBox {
    /// Its far name.
    pub(crate) name: String,
    /// Both sides and the shelf.
    pub(crate) outside: MemOutside,
}

/// The mailbox of this name, as it is before the run. `Script`: a line of the case gives it something that cannot be had.
pub(crate) fn box_named(alloc: Global, facts: &Facts, name: &str) -> Result<LentBox, Failure> {
    let own_name = String::from_str(alloc, name)?;
    match outside_named(alloc, facts, name) {
        Ok(outside) => Ok(LentBox {
            name: own_name,
            outside,
        }),
        Err(failure) => Err(failure),
    }
}

fn outside_named(alloc: Global, facts: &Facts, name: &str) -> Result<MemOutside, Failure> {
    let Stage {
        options: _,
        mut parts,
    } = stage_named(alloc, facts, name)?;
    match put_texts(alloc, &mut parts.shelf, facts, name) {
        Ok(()) => Ok(outside_of(alloc, parts)),
        Err(failure) => Err(failure),
    }
}

/// The world of the mailbox, whose calls stop as the case says.
fn stage_named(alloc: Global, facts: &Facts, name: &str) -> Result<Stage, Failure> {
    let world = world_text(alloc, facts, name);
    let mut schedule = Schedule::new(alloc);
    match set_schedule(&mut schedule, facts, name) {
        Ok(()) if world.is_lost() => Err(Failure::NoMemory),
        Ok(()) => stage_of(alloc, world.as_str().as_bytes(), schedule),
        Err(failure) => Err(failure),
    }
}

/// The text of its world.
fn world_text(alloc: Global, facts: &Facts, name: &str) -> Reported {
    let mut text = Reported::new(alloc);
    text.text("sync None\nexpunge None\n");
    for line in facts.as_str().lines() {
        if let Some(line) = following(line, "in", name) {
            text.text(line);
            text.end();
        }
    }
    if !facts.has("in", name) {
        text.text("far 1 1\nnear 1 1\nstate 0 0 0 0 0\n");
    }
    text.text("end\n");
    text
}

/// Adds the stops and refusals of its calls.
fn set_schedule(schedule: &mut Schedule, facts: &Facts, name: &str) -> Result<(), Failure> {
    for line in facts.as_str().lines() {
        if let Some(text) = following(line, "stop", name) {
            schedule.read_stop(&mut Words::new(text.as_bytes()))?;
        }
        if let Some(text) = following(line, "refuse", name) {
            schedule.read_refusal(&mut Words::new(text.as_bytes()))?;
        }
    }
    Ok(())
}

/// Puts the texts of its state and of its journal that the case gives.
fn put_texts(
    alloc: Global,
    shelf: &mut MemShelf,
    facts: &Facts,
    name: &str,
) -> Result<(), Failure> {
    for (word, file) in [("state", ShelfFile::State), ("journal", ShelfFile::Journal)] {
        if let Some(text) = facts.of(word, name) {
            let bytes = Words::new(text.as_bytes()).bytes(alloc)?;
            shelf.put(file, Some(bytes));
        }
    }
    Ok(())
}

/// Prints the worlds of those mailboxes that the case wants to see, from their line `far` on, with the name before each line.
pub(crate) fn show(alloc: Global, reported: &mut Reported, facts: &Facts, boxes: Vec<LentBox>) {
    for one in boxes {
        if facts.has("show", &one.name) {
            print_box(alloc, reported, one);
        }
    }
}

fn print_box(alloc: Global, reported: &mut Reported, one: LentBox) {
    let LentBox { name, outside } = one;
    let Ok(text) = left_in(alloc, &parts_of(outside)) else {
        return reported.answer("no memory");
    };
    for line in text.lines() {
        reported.begin();
        reported.text(&name);
        reported.text(": ");
        reported.text(line);
        reported.end();
    }
}
