//! How bytes, numbers and flags are reported.

use mailcore::flags::Flags;
use test_scripts::reported::Reported;
use wire_tokens::number::NonZero;

/// The number of bytes that are shown of a long text, and the least that is long.
const SHOWN: usize = 20;

const LONG: usize = 300;

/// Adds words, and bytes in quotes; of a long text the beginning and how many more there are.
pub fn print_bytes(reported: &mut Reported, words: &str, bytes: &[u8]) {
    let shown = if bytes.len() < LONG {
        bytes
    } else {
        bytes.get(..SHOWN).unwrap_or_default()
    };
    reported.text(words);
    reported.quoted(shown);
    let more = bytes.len().saturating_sub(shown.len());
    if more > 0 {
        reported.text(" and ");
        reported.number(more as u64);
        reported.text(" bytes more");
    }
}

/// An answer that is words and bytes.
pub fn print_line(reported: &mut Reported, words: &str, bytes: &[u8]) {
    reported.begin();
    print_bytes(reported, words, bytes);
    reported.end();
}

/// An answer with a number between words.
pub fn print_count(reported: &mut Reported, before: &str, number: usize, following: &str) {
    reported.begin();
    reported.text(before);
    reported.number(number as u64);
    reported.text(following);
    reported.end();
}

/// An answer of what a reader took of the bytes, where it left the rest.
pub fn print_taken(reported: &mut Reported, bytes: &[u8], rest: &[u8]) {
    let taken = bytes.len().saturating_sub(rest.len());
    reported.begin();
    print_bytes(reported, "takes ", bytes.get(..taken).unwrap_or_default());
    print_bytes(reported, ", leaves ", rest);
    reported.end();
}

/// Adds words and a number.
pub fn print_number(reported: &mut Reported, words: &str, number: &NonZero) {
    reported.text(words);
    reported.number(u64::from(number.get()));
}

/// Adds words and a set of flags.
pub fn print_flags(reported: &mut Reported, words: &str, flags: Flags) {
    reported.text(words);
    reported.flags(flags);
}
