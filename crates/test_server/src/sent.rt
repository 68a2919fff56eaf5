//! What lines send.

use std::alloc::Global;
use test_scripts::failure::Failure;
use test_scripts::script::Script;
use test_scripts::words::Words;

/// Adds what is sent by a line with this first word. The line is bad if it sends nothing.
pub fn push_line(alloc: Global, sent: &mut Vec<u8>, word: &str, line: &mut Words<'_>) {
    match word {
        "C:" => {
            push(sent, line.rest(), line);
            push(sent, b"\r\n", line);
        }
        "part" => push(sent, line.rest(), line),
        "bytes" => push_times(alloc, sent, 1, line),
        "times" => {
            let times = line.number();
            push_times(alloc, sent, times, line);
        }
        _ => line.refuse(),
    }
}

fn push(sent: &mut Vec<u8>, bytes: &[u8], line: &mut Words<'_>) {
    if sent.extend_from_slice(bytes).is_err() {
        line.fail(Failure::NoMemory);
    }
}

/// Adds the bytes between quotes so many times.
pub fn push_times(alloc: Global, sent: &mut Vec<u8>, times: u32, line: &mut Words<'_>) {
    let bytes = line.said(alloc);
    for _ in 0..times {
        push(sent, &bytes, line);
    }
}

/// Adds what is sent by the next lines, up to a line `end`.
pub fn push_lines(
    alloc: Global,
    sent: &mut Vec<u8>,
    line: &mut Words<'_>,
    script: &mut Script<'_>,
) {
    match script.block(b"end") {
        Ok(block) => {
            for text in str::from_utf8(block).unwrap_or("(no text)").lines() {
                let mut words = Words::new(text.as_bytes());
                let word = words.word();
                push_line(alloc, sent, word, &mut words);
                line.note(words.end());
            }
        }
        Err(failure) => line.fail(failure),
    }
}
