//! A client, and its calls.

use crate::answers::{print_done, print_not_made, report_fault};
use crate::mailbox_calls::ask_mailbox;
use crate::session_calls::{ask_session, is_word};
use imap_client::far_box::FarBox;
use imap_client::session::Session;
use imap_link::link::Link;
use mailcore::keywords::Keywords;
use std::alloc::Global;
use std::mem;
use test_scripts::reported::Reported;
use test_scripts::words::Words;

/// The words of the calls.
const CALLS: [&str; 17] = [
    "open",
    "reconnect",
    "login",
    "names",
    "create",
    "select",
    "logout",
    "list",
    "count",
    "fetch",
    "find_mark",
    "append",
    "add_flags",
    "remove_flags",
    "expunge",
    "into_session",
    "into_link",
];

/// A client over a link: what it has.
#[derive(Drop)]
pub enum Client<L: Link> {
    /// Nothing, while a call is made.
    Nothing,
    /// The link, and no session.
    Link(L),
    /// A session.
    Session(Session<L>),
    /// A mailbox that is selected.
    Mailbox(FarBox<L>),
}

impl<L: Link + Drop> Client<L> {
    /// The link, over which nothing more is sent.
    pub fn into_link(self) -> Option<L> {
        match self {
            Client::Nothing => None,
            Client::Link(link) => Some(link),
            Client::Session(session) => Some(session.into_link()),
            Client::Mailbox(mailbox) => Some(mailbox.into_session().into_link()),
        }
    }

    /// Makes the call of this word, of whose line the other words are read, and adds its answer.
    pub fn make(
        &mut self,
        alloc: Global,
        word: &str,
        line: &mut Words<'_>,
        reported: &mut Reported,
    ) {
        if !is_call(word) {
            line.refuse();
        }
        let client = mem::replace(self, Client::Nothing);
        let after = client.after(alloc, word, line, reported);
        drop(mem::replace(self, after));
    }

    /// What the client has after a call.
    fn after(
        self,
        alloc: Global,
        word: &str,
        line: &mut Words<'_>,
        reported: &mut Reported,
    ) -> Client<L> {
        match self {
            Client::Link(link) => open(alloc, link, word, line, reported),
            Client::Session(session) => after_session(alloc, session, word, line, reported),
            Client::Mailbox(mailbox) => after_mailbox(alloc, mailbox, word, line, reported),
            Client::Nothing => Client::Nothing,
        }
    }
}

fn is_call(word: &str) -> bool {
    for call in CALLS {
        if call == word {
            return true;
        }
    }
    false
}

/// A call of a client that has only a link: `open`.
fn open<L: Link + Drop>(
    alloc: Global,
    link: L,
    word: &str,
    line: &mut Words<'_>,
    reported: &mut Reported,
) -> Client<L> {
    if word != "open" {
        print_not_made(line, reported);
        return Client::Link(link);
    }
    match Session::open(alloc, link) {
        Ok(session) => {
            reported.text("done");
            Client::Session(session)
        }
        Err((fault, link)) => {
            report_fault(reported, fault);
            Client::Link(link)
        }
    }
}

/// A call of a client that has a session.
fn after_session<L: Link + Drop>(
    alloc: Global,
    session: Session<L>,
    word: &str,
    line: &mut Words<'_>,
    reported: &mut Reported,
) -> Client<L> {
    match word {
        "select" => select(alloc, session, line, reported),
        "logout" => logout(session, reported),
        "into_link" => {
            reported.text("done");
            Client::Link(session.into_link())
        }
        _ => {
            let mut session = session;
            ask_session(&mut session, word, line, reported);
            Client::Session(session)
        }
    }
}

/// A call of a client that has a mailbox.
fn after_mailbox<L: Link + Drop>(
    alloc: Global,
    mailbox: FarBox<L>,
    word: &str,
    line: &mut Words<'_>,
    reported: &mut Reported,
) -> Client<L> {
    if word == "into_session" {
        reported.text("done");
        return Client::Session(mailbox.into_session());
    }
    let mut mailbox = mailbox;
    ask_mailbox(alloc, &mut mailbox, word, line, reported);
    Client::Mailbox(mailbox)
}

/// Selects the mailbox of this name. Only the six flags have a name.
fn select<L: Link + Drop>(
    alloc: Global,
    session: Session<L>,
    line: &mut Words<'_>,
    reported: &mut Reported,
) -> Client<L> {
    let name = line.text().as_bytes();
    if !is_word(name) {
        line.refuse();
        return Client::Session(session);
    }
    match session.select(name, Keywords::new(alloc)) {
        Ok(mailbox) => {
            reported.text("done");
            Client::Mailbox(mailbox)
        }
        Err((fault, session)) => {
            report_fault(reported, fault);
            Client::Session(session)
        }
    }
}

fn logout<L: Link + Drop>(session: Session<L>, reported: &mut Reported) -> Client<L> {
    let (answered, link) = match session.logout() {
        Ok(link) => (Ok(()), link),
        Err((fault, link)) => (Err(fault), link),
    };
    print_done(reported, answered);
    Client::Link(link)
}
