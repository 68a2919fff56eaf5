//! How a world is written.

use crate::changes::{around, with_line};
use crate::runs::print_lines;
use std::alloc::Global;
use test_scripts::failure::Failure;
use test_scripts::reported::Reported;
use test_scripts::words::Words;
use worlds::fault::WorldFault;
use worlds::read::read_world;
use worlds::world::{Waiting, World};
use worlds::write::{write_from_far, write_world};

/// Prints how what the rest of the line says is written of a world: all of it, a line, or its part from `far` on.
pub fn print_written(alloc: Global, reported: &mut Reported, world: &[u8], line: &mut Words<'_>) {
    if line.is_over() {
        return print_part(alloc, reported, world, None, line);
    }
    if line.word() == "line" {
        return print_line(alloc, reported, world, line);
    }
    line.expect("far");
    let waiting = if line.is_over() {
        Waiting::Kept
    } else {
        line.expect("admitted");
        Waiting::Admitted
    };
    print_part(alloc, reported, world, Some(waiting), line);
}

/// `N "BYTES"`: prints how line N is written, once the world has these bytes there.
fn print_line(alloc: Global, reported: &mut Reported, world: &[u8], line: &mut Words<'_>) {
    let number = line.number();
    let text = with_line(alloc, world, number, line);
    let written = written(alloc, &text, None, line);
    match around(written.as_str().as_bytes(), number) {
        Some((_, words, _)) => {
            reported.begin();
            reported.bytes(words);
            reported.end();
        }
        None => line.refuse(),
    }
}

fn print_part(
    alloc: Global,
    reported: &mut Reported,
    world: &[u8],
    from_far: Option<Waiting>,
    line: &mut Words<'_>,
) {
    let written = written(alloc, world, from_far, line);
    print_lines(reported, "", written.as_str().as_bytes());
}

/// How the world of a text is written: all of it, or what stands from its line `far` on, with what becomes of its waiting files.
fn written(alloc: Global, text: &[u8], from_far: Option<Waiting>, line: &mut Words<'_>) -> String {
    let mut written = String::new(alloc);
    if let Some(world) = world_of(alloc, text, from_far.unwrap_or(Waiting::Kept), line) {
        write(&mut written, &world, from_far.is_some(), line);
        drop(world);
    }
    written
}

fn write(text: &mut String, world: &World, is_from_far: bool, line: &mut Words<'_>) {
    let done = if is_from_far {
        write_from_far(text, world)
    } else {
        write_world(text, world)
    };
    if done.is_err() {
        line.fail(Failure::NoMemory);
    }
}

/// The world of a text. The line is bad if it is none.
pub fn world_of(
    alloc: Global,
    text: &[u8],
    waiting: Waiting,
    line: &mut Words<'_>,
) -> Option<World> {
    match read_world(alloc, text, waiting) {
        Ok(world) => return Some(world),
        Err(WorldFault::Line(_)) => line.refuse(),
        Err(WorldFault::NoMemory) => line.fail(Failure::NoMemory),
    }
    None
}
