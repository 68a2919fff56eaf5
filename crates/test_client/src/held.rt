//! What a server holds.

use crate::answers::{print_listing, print_name};
use mailcore::listing::Listing;
use mailcore::mailbox::StoredMailbox;
use mailcore::side::Side;
use std::alloc::Global;
use test_scripts::reported::Reported;

/// What a server holds, as a client that lists it reports it.
#[derive(Drop)]
pub struct Held {
    /// How a client goes on whose call was cut: it connects anew, and lists the mailboxes and each of them.
    pub calls: Reported,
    /// What these calls answer from the login on.
    pub answers: Reported,
    /// For each mailbox a line with its name and what it lists.
    pub listings: Reported,
    // the bytes of all messages
    bodies: Reported,
}

impl Held {
    /// Nothing so far.
    pub fn new(alloc: Global) -> Held {
        Held {
            calls: Reported::new(alloc),
            answers: Reported::new(alloc),
            listings: Reported::new(alloc),
            bodies: Reported::new(alloc),
        }
    }

    /// Adds what a server with these mailboxes holds.
    pub fn report(&mut self, alloc: Global, mailboxes: &[StoredMailbox]) {
        self.print_names(alloc, mailboxes);
        for mailbox in mailboxes {
            match mailbox.listing(alloc, Side::Far) {
                Ok(listing) => self.print_mailbox(mailbox, &listing),
                Err(_) => self.listings.lose(),
            }
        }
    }

    /// The login, and the names in the order of their bytes.
    fn print_names(&mut self, alloc: Global, mailboxes: &[StoredMailbox]) {
        self.calls
            .text("into_session\nreconnect\nopen\nlogin u p\nnames\n");
        self.answers.answer("done");
        let mut names = Vec::new(alloc);
        for mailbox in mailboxes {
            if names.push(mailbox.name.as_str()).is_err() {
                self.answers.lose();
            }
        }
        names.sort_unstable();
        self.answers.begin();
        if names.is_empty() {
            self.answers.text("no mailbox");
        }
        for (place, name) in names.iter().enumerate() {
            print_name(&mut self.answers, place, name);
        }
        self.answers.end();
    }

    fn print_mailbox(&mut self, mailbox: &StoredMailbox, listing: &Listing) {
        let name = mailbox.name.as_str();
        self.calls.text("select ");
        self.calls.text(name);
        self.calls.text("\nlist\ninto_session\n");
        self.answers.answer("done");
        self.answers.begin();
        print_listing(&mut self.answers, listing);
        self.answers.end();
        self.answers.answer("done");
        self.listings.text(name);
        self.listings.text(": ");
        print_listing(&mut self.listings, listing);
        self.listings.end();
        for message in mailbox.messages.as_slice() {
            self.bodies.quoted(message.bytes.as_slice());
        }
    }

    /// Whether it is the same.
    pub fn is_as(&self, other: &Held) -> bool {
        self.listings.as_str() == other.listings.as_str()
            && self.bodies.as_str() == other.bodies.as_str()
    }

    /// Whether something could not be reported since memory ran out.
    pub fn is_lost(&self) -> bool {
        self.calls.is_lost()
            || self.answers.is_lost()
            || self.listings.is_lost()
            || self.bodies.is_lost()
    }

    fn has_line(&self, line: &str) -> bool {
        for other in self.listings.as_str().lines() {
            if other == line {
                return true;
            }
        }
        false
    }

    /// Reports the mailboxes that have changed.
    pub fn print_change(&self, before: &Held, reported: &mut Reported) {
        for line in self.listings.as_str().lines() {
            if !before.has_line(line) {
                reported.begin();
                reported.text("leaves ");
                reported.text(line);
                reported.end();
            }
        }
        if self.is_as(before) {
            reported.answer("changes nothing on the server");
        }
    }
}
