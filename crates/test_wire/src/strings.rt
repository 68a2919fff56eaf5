//! Strings.

use crate::reporting::print_bytes;
use crate::tokens::Tokens;
use imap_wire::{AString, Quoted, WireString};
use test_scripts::reported::Reported;

/// Adds words, and a string or NIL.
pub fn print_nstring(
    tokens: &mut Tokens,
    reported: &mut Reported,
    words: &str,
    string: &Option<WireString<'_>>,
) {
    reported.text(words);
    match string {
        None => reported.text("NIL"),
        Some(WireString::Quoted(quoted)) => print_quoted(tokens, reported, quoted),
        Some(WireString::Literal(octets)) => print_bytes(reported, "literal ", octets.bytes()),
    }
}

/// Adds words, and an atom or a string.
pub fn print_astring(
    tokens: &mut Tokens,
    reported: &mut Reported,
    words: &str,
    string: &AString<'_>,
) {
    reported.text(words);
    match string {
        AString::Atom(atom) => print_bytes(reported, "atom ", atom.text()),
        AString::Quoted(quoted) => print_quoted(tokens, reported, quoted),
        AString::Literal(octets) => print_bytes(reported, "literal ", octets.bytes()),
    }
}

/// Adds a quoted string, and the bytes for which it stands where these are others.
fn print_quoted(tokens: &mut Tokens, reported: &mut Reported, quoted: &Quoted<'_>) {
    print_bytes(reported, "quoted ", quoted.raw());
    if quoted.has_escapes() {
        match quoted.value(tokens.alloc) {
            Ok(value) => print_bytes(reported, " for ", &value),
            Err(fault) => tokens.note(Err(fault)),
        }
    }
}
