//! A client over a link whose other end says what a script says.

use crate::client::Client;
use crate::script_link::ScriptLink;
use crate::tape::Tape;
use std::alloc::Global;
use std::cell::RefCell;
use test_scripts::reported::Reported;
use test_scripts::words::Words;

/// A client, and the tape that its link goes over.
#[derive(Drop)]
pub struct Stage<'t> {
    alloc: Global,
    tape: &'t RefCell<Tape>,
    client: Client<ScriptLink<'t>>,
}

impl<'t> Stage<'t> {
    /// A client that has no session.
    pub fn new(alloc: Global, tape: &'t RefCell<Tape>) -> Stage<'t> {
        Stage {
            alloc,
            tape,
            client: Client::Link(ScriptLink::new(tape)),
        }
    }

    /// Takes a line of what goes over the link in the next call; returns whether it is one.
    pub fn talk(&self, word: &str, line: &mut Words<'_>) -> bool {
        match self.tape.try_borrow_mut() {
            Ok(mut tape) => tape.take(word, line),
            Err(_) => false,
        }
    }

    /// Makes a call, and adds its answer.
    pub fn call(&mut self, word: &str, line: &mut Words<'_>, reported: &mut Reported) {
        self.client.make(self.alloc, word, line, reported);
    }

    /// Ends a call. Reports what was sent in it though the script does not say so, and what was not, though it does. Returns whether
    /// anything was sent.
    pub fn end_call(&self, reported: &mut Reported) -> bool {
        match self.tape.try_borrow_mut() {
            Ok(mut tape) => tape.end_call(reported),
            Err(_) => false,
        }
    }
}
