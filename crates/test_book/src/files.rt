//! The two files of a shelf, as a script has them.

use book::mem_shelf::{MemShelf, ShelfCall};
use book::shelf::ShelfFile;
use device::schedule::CallStop;
use std::alloc::{AllocError, Global};
use test_scripts::reported::Reported;
use test_scripts::words::Words;

/// `state` or `journal`.
pub fn read_file(line: &mut Words<'_>) -> ShelfFile {
    match line.word() {
        "state" => ShelfFile::State,
        "journal" => ShelfFile::Journal,
        _ => {
            line.refuse();
            ShelfFile::State
        }
    }
}

/// A shelf in memory with these files and this schedule.
pub fn shelf_with(
    alloc: Global,
    files: &MemShelf,
    schedule: Vec<CallStop<ShelfCall>>,
) -> Result<MemShelf, AllocError> {
    let mut shelf = MemShelf::new(alloc, schedule);
    for file in [ShelfFile::State, ShelfFile::Journal] {
        if let Some(bytes) = files.bytes(file) {
            shelf.put(file, Some(Vec::from_slice(alloc, bytes)?));
        }
    }
    Ok(shelf)
}

/// Prints both files of a shelf in memory.
pub fn print_files(reported: &mut Reported, shelf: &MemShelf) {
    print_file(reported, "state", shelf.bytes(ShelfFile::State));
    print_file(reported, "journal", shelf.bytes(ShelfFile::Journal));
}

/// Prints a file in the form in which a script has it.
pub fn print_file(reported: &mut Reported, word: &str, bytes: Option<&[u8]>) {
    reported.begin();
    reported.text(word);
    match bytes {
        Some(bytes) => print_lines(reported, bytes),
        None => {
            reported.text(" missing");
            reported.end();
        }
    }
}

fn print_lines(reported: &mut Reported, bytes: &[u8]) {
    match bytes {
        [] | [.., b'\n'] => {}
        _ => reported.text(" torn"),
    }
    reported.end();
    let text = str::from_utf8(bytes).unwrap_or("(no text)");
    for line in text.split_inclusive('\n') {
        reported.begin();
        reported.bytes(line.strip_suffix('\n').unwrap_or(line).as_bytes());
        reported.end();
    }
    reported.answer(".");
}
