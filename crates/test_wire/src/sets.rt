//! Sets of UIDs.

use imap_wire::{SetEnd, SetItem, UidSet};
use test_scripts::reported::Reported;

/// Adds words and a set.
pub fn print_set(reported: &mut Reported, words: &str, set: &UidSet) {
    reported.text(words);
    for (index, item) in set.items().iter().enumerate() {
        reported.text(if index > 0 { ", " } else { "" });
        match item {
            SetItem::One(end) => print_end(reported, end),
            SetItem::Range(first, second) => {
                print_end(reported, first);
                reported.text(" to ");
                print_end(reported, second);
            }
        }
    }
}

fn print_end(reported: &mut Reported, end: &SetEnd) {
    match end {
        SetEnd::Number(number) => reported.number(u64::from(number.get())),
        SetEnd::Greatest => reported.text("the greatest"),
    }
}
