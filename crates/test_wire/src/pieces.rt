//! Bytes in scripts of `tokens`: texts in quotes, with a space between two; `256*"a"` is the text in the quotes 256 times.

use std::alloc::Global;
use test_scripts::failure::Failure;
use test_scripts::words::Words;
use texts::escape::unescape;

/// The bytes that the rest of the line spells.
pub fn read_pieces(alloc: Global, line: &mut Words<'_>) -> Vec<u8> {
    let mut bytes = Vec::new(alloc);
    push_pieces(alloc, &mut bytes, line.text(), line);
    bytes
}

/// Adds the bytes that a text spells.
pub fn push_pieces(alloc: Global, bytes: &mut Vec<u8>, text: &str, line: &mut Words<'_>) {
    let mut times = Some(0);
    // Between quotes, which no escaped text holds, stand a number of times and a text in turn; nothing follows the last.
    for (index, part) in text.split('"').enumerate() {
        if index % 2 == 0 {
            times = read_times(part);
        } else {
            push_times(alloc, bytes, times, part, line);
        }
    }
    if !text.ends_with('"') {
        line.refuse();
    }
}

/// The number of times that stands before a text: `256*`, or nothing for once; a space may stand before it.
fn read_times(text: &str) -> Option<u32> {
    let text = text.strip_prefix(' ').unwrap_or(text);
    if text.is_empty() {
        return Some(1);
    }
    text.strip_suffix('*')?.parse().ok()
}

/// Adds the bytes of an escaped text so many times.
fn push_times(
    alloc: Global,
    bytes: &mut Vec<u8>,
    times: Option<u32>,
    text: &str,
    line: &mut Words<'_>,
) {
    let Some(times) = times else {
        line.refuse();
        return;
    };
    match unescape(alloc, text.as_bytes()) {
        Ok(piece) => {
            for _ in 0..times {
                if bytes.extend_from_slice(&piece).is_err() {
                    line.fail(Failure::NoMemory);
                    break;
                }
            }
        }
        Err(fault) => line.fail(Failure::from(fault)),
    }
}
