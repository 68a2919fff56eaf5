//! What the name of a file says.

use maildir::letters::flags_in;
use maildir::name::{Name, read_name, write_name};
use std::alloc::Global;
use test_scripts::reported::Reported;

/// Prints what the name of a file says, and how it is written.
pub fn print_name(alloc: Global, text: &[u8], reported: &mut Reported) {
    let Some(name) = read_name(text) else {
        reported.answer("no name");
        return;
    };
    reported.text("  base ");
    reported.quoted(name.base);
    print_parts(reported, &name);
    if let Some(letters) = name.letters {
        reported.text(", flags ");
        reported.flags(flags_in(letters));
    }
    reported.text(", written ");
    let text = written(alloc, &name, reported);
    reported.quoted(&text);
    reported.end();
}

/// How a name is written.
pub fn written(alloc: Global, name: &Name<'_>, reported: &mut Reported) -> Vec<u8> {
    match write_name(alloc, name) {
        Ok(text) => text,
        Err(_) => {
            reported.lose();
            Vec::new(alloc)
        }
    }
}

/// Prints the UID and the letters of a name.
pub fn print_parts(reported: &mut Reported, name: &Name<'_>) {
    match name.uid {
        Some(uid) => {
            reported.text(", UID ");
            reported.number(u64::from(uid.get()));
        }
        None => reported.text(", no UID"),
    }
    match name.letters {
        Some(letters) => {
            reported.text(", letters ");
            reported.quoted(letters);
        }
        None => reported.text(", no letters"),
    }
}
