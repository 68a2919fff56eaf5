//! The cells that words of Sync choose.

use crate::phrases::read_bytes;
use rules::options::Directions;
use rules::sync_words::sync_ops;
use std::alloc::Global;
use test_scripts::reported::Reported;
use test_scripts::words::Words;

/// `"WORDS"` or nothing: prints the cells that these words, with a space between them, or no words choose.
pub fn print_cells(alloc: Global, reported: &mut Reported, line: &mut Words<'_>) {
    if line.is_over() {
        print_chosen(reported, &[]);
        return;
    }
    let bytes = read_bytes(alloc, line);
    match bytes.split(|byte| *byte == b' ').collect::<Vec<_>>(alloc) {
        Ok(words) => print_chosen(reported, &words),
        Err(_) => reported.lose(),
    }
}

/// Prints the cells that words choose, or why they choose none.
fn print_chosen(reported: &mut Reported, words: &[&[u8]]) {
    match sync_ops(words) {
        Ok(cells) => {
            reported.begin();
            reported.text("new ");
            reported.text(ways(cells.new));
            reported.text(", gone ");
            reported.text(ways(cells.gone));
            reported.text(", flags ");
            reported.text(ways(cells.flags));
            reported.end();
        }
        Err(fault) => reported.say(&fault),
    }
}

fn ways(chosen: Directions) -> &'static str {
    match (chosen.pull, chosen.push) {
        (true, true) => "pull push",
        (true, false) => "pull",
        (false, true) => "push",
        (false, false) => "-",
    }
}
