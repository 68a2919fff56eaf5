//! What a call of `send` carries.

use crate::command::{CommandName, Counts, Nth, octets_asked};

/// What a call of `send` carries.
#[derive(Clone, Copy)]
pub(crate) struct Sending {
    /// How many bytes were sent before.
    pub(crate) before: usize,
    /// How many are sent.
    pub(crate) len: usize,
    /// The command that begins, if it can be stopped.
    pub(crate) begins: Option<Nth>,
    /// The command that ends.
    pub(crate) ends: Option<Nth>,
    /// The octets of a literal.
    pub(crate) octets: Option<LiteralOctets>,
}

/// Octets of the literal of an APPEND.
#[derive(Clone, Copy)]
pub(crate) struct LiteralOctets {
    /// Which APPEND it is.
    pub(crate) append: u64,
    /// How many octets were sent before.
    pub(crate) before: usize,
    /// How many the literal has.
    pub(crate) total: usize,
}

/// What was sent over a link: whole commands, and APPENDs in two calls or more, the first of which ends where the literal is
/// asked for. What comes in other pieces is not taken for the command that it is.
#[derive(Drop)]
pub(crate) struct SentCommands {
    bytes: usize,
    counts: Counts,
    /// The literal that goes on with the next call.
    literal: Option<LiteralOctets>,
}

impl LiteralOctets {
    /// Whether a call with so many bytes ends the command, too.
    pub(crate) fn ends_in(&self, len: usize) -> bool {
        len > self.total.saturating_sub(self.before)
    }
}

impl SentCommands {
    /// Nothing was sent.
    pub(crate) fn new() -> SentCommands {
        SentCommands {
            bytes: 0,
            counts: Counts::new(),
            literal: None,
        }
    }

    /// The command that begins with these bytes, if they are sent next.
    pub(crate) fn coming(&self, bytes: &[u8]) -> Option<Nth> {
        match self.literal {
            None => CommandName::read(bytes).map(|name| self.counts.next(name)),
            Some(_) => None,
        }
    }

    /// Counts what is sent, and returns what it is.
    pub(crate) fn push(&mut self, bytes: &[u8]) -> Sending {
        let before = self.bytes;
        self.bytes = before.saturating_add(bytes.len());
        match self.literal.take() {
            None => self.begin(before, bytes),
            Some(octets) => self.go_on(before, bytes.len(), octets),
        }
    }

    /// A command begins.
    fn begin(&mut self, before: usize, bytes: &[u8]) -> Sending {
        let begins = CommandName::read(bytes).map(|name| self.counts.push(name));
        let mut sending = Sending {
            before,
            len: bytes.len(),
            begins,
            ends: begins,
            octets: None,
        };
        if let Some(
            Nth {
                name: CommandName::Append,
                number,
            },
        ) = begins
        {
            if let Some(total) = octets_asked(bytes) {
                sending.ends = None;
                self.literal = Some(LiteralOctets {
                    append: number,
                    before: 0,
                    total,
                });
            }
        }
        sending
    }

    /// A literal goes on, and its command ends if something follows it.
    fn go_on(&mut self, before: usize, len: usize, octets: LiteralOctets) -> Sending {
        let ends = octets.ends_in(len);
        if !ends {
            self.literal = Some(LiteralOctets {
                before: octets.before.saturating_add(len),
                ..octets
            });
        }
        let append = Nth {
            name: CommandName::Append,
            number: octets.append,
        };
        Sending {
            before,
            len,
            begins: None,
            ends: if ends { Some(append) } else { None },
            octets: Some(octets),
        }
    }

    /// The command is over: no octets follow.
    pub(crate) fn end_command(&mut self) {
        self.literal = None;
    }
}
