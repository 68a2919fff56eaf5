//! How the text of a world is changed before it is run.

use crate::phrases::{joined, read_bytes};
use std::alloc::Global;
use test_scripts::failure::Failure;
use test_scripts::words::Words;
use texts::cut::cut;

/// `"BYTES"`: the world with this line in place of the one with this number, counted from 1. The line is bad if it has no such line.
pub fn with_line(alloc: Global, world: &[u8], number: u32, line: &mut Words<'_>) -> Vec<u8> {
    let bytes = read_bytes(alloc, line);
    match around(world, number) {
        Some((before, _, following)) => joined(alloc, &[before, &bytes, following], line),
        None => {
            line.refuse();
            bytes
        }
    }
}

/// `"BYTES"`: the world with these bytes after it.
pub fn with_more(alloc: Global, world: &[u8], line: &mut Words<'_>) -> Vec<u8> {
    let bytes = read_bytes(alloc, line);
    joined(alloc, &[world, &bytes], line)
}

/// `line N by COUNT`: the world in which the message of line N has so many letters more after its last byte. The line is bad if that
/// line is no message.
pub fn grown(alloc: Global, world: &[u8], line: &mut Words<'_>) -> Vec<u8> {
    line.expect("line");
    let number = line.number();
    line.expect("by");
    let letters = letters(alloc, line);
    match around(world, number) {
        Some((before, [start @ .., b'"'], following)) => {
            let texts = [before, start, letters.as_slice(), b"\"", following];
            joined(alloc, &texts, line)
        }
        _ => {
            line.refuse();
            letters
        }
    }
}

/// So many letters.
fn letters(alloc: Global, line: &mut Words<'_>) -> Vec<u8> {
    match vec![in alloc; b'a'; line.count()] {
        Ok(letters) => letters,
        Err(_) => {
            line.fail(Failure::NoMemory);
            Vec::new(alloc)
        }
    }
}

/// What stands before the line with this number, counted from 1, the line without its end, and what comes from its end on.
pub fn around(text: &[u8], number: u32) -> Option<(&[u8], &[u8], &[u8])> {
    let mut rest = text;
    for _ in 1..number {
        rest = cut(rest, b'\n')?.1;
    }
    let before = text.get(..text.len().saturating_sub(rest.len()))?;
    let (line, _) = cut(rest, b'\n')?;
    Some((before, line, rest.get(line.len()..)?))
}
