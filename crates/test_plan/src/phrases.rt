//! What stands on lines beside single words.

use std::alloc::Global;
use test_scripts::failure::Failure;
use test_scripts::words::Words;

/// The bytes up to the end of the line: between bars for themselves, or escaped between quotes.
pub fn read_bytes(alloc: Global, line: &mut Words<'_>) -> Vec<u8> {
    let mut quoted = *line;
    match line.rest() {
        [b'|', bytes @ .., b'|'] => joined(alloc, &[bytes], line),
        _ => {
            let bytes = quoted.said(alloc);
            line.note(quoted.end());
            bytes
        }
    }
}

/// These texts, one after the other.
pub fn joined(alloc: Global, texts: &[&[u8]], line: &mut Words<'_>) -> Vec<u8> {
    let mut made = Vec::new(alloc);
    for text in texts {
        if made.extend_from_slice(text).is_err() {
            line.fail(Failure::NoMemory);
        }
    }
    made
}
