//! Texts with a number in place of a word.

use std::alloc::Global;
use test_scripts::reported::Reported;

/// The word in whose place the number stands.
pub(crate) const PLACE: &str = "B";

/// This text with a number in each place.
pub(crate) fn numbered(alloc: Global, text: &[u8], number: u32) -> Reported {
    let mut all = Reported::new(alloc);
    for line in str::from_utf8(text).unwrap_or("").lines() {
        add_line(&mut all, line, number);
    }
    all
}

fn add_line(all: &mut Reported, line: &str, number: u32) {
    for (place, word) in line.split(' ').enumerate() {
        if place > 0 {
            all.text(" ");
        }
        if word == PLACE {
            all.number(u64::from(number));
        } else {
            all.text(word);
        }
    }
    all.end();
}
