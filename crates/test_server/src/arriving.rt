//! Messages that come to a server from elsewhere.

use crate::sent::push_times;
use imap_server::server::Server;
use std::alloc::Global;
use test_scripts::reported::Reported;
use test_scripts::words::Words;

/// `NAME FLAGS N "BYTES"`: a message with so many times these bytes arrives in the mailbox of this name.
pub fn arrive(alloc: Global, server: &mut Server, line: &mut Words<'_>, reported: &mut Reported) {
    let name = line.word();
    let flags = line.flags();
    let times = line.number();
    let mut message = Vec::new(alloc);
    push_times(alloc, &mut message, times, line);
    match server.arrive(name.as_bytes(), flags, &message) {
        Ok(Some(uid)) => {
            reported.begin();
            reported.text("UID ");
            reported.number(u64::from(uid.get()));
            reported.end();
        }
        Ok(None) => reported.answer("none"),
        Err(fault) => reported.say(&fault),
    }
}
