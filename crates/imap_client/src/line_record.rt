//! A record of what a link asks of its connection, which contracts alone read.

ghost use Rattle.std.specs.Prelude.{◌≡◌, List, [], ◌∷◌};
ghost use Rattle.std.specs.Borrow.{ftrue};
ghost use Rattle.imap_session.specs.Lines.{Line};
ghost use Rattle.imap_client.specs.LineEvents.{LineEvent};

use std::marker::{Model, PhantomData};

/// What a link asks of its connection, and how it was answered.
#[derive(Clone, Copy)]
pub enum LineCall {
    /// A message to the server begins.
    Begun,
    /// Bytes of it were handed to the system.
    Written,
    /// The system took all of it.
    Sent,
    /// It did not, or nobody knows how much.
    Unsent,
    /// Bytes came.
    Received,
    /// None came: their end, or an error.
    Unreceived,
    /// A new connection stands.
    Connected,
    /// None does.
    Unconnected,
}

/// What was asked of a connection, each with its answer, the last one first.
///
/// It takes no memory, and its functions do nothing when they run. Beside the calls stands what no program can know: the line to the
/// server as it was at first, and after each call that has ended. No clause says what these are, so what is proved above holds
/// whatever they are.
#[derive(Drop)]
pub struct LineRecord {
    of: PhantomData<u8>,
    pub ghost lines: { List Line },
    pub ghost events: { List LineEvent },
}

impl Model for LineRecord {
    ghost also_owns = { λ _. ftrue };
}

impl LineRecord {
    /// No call.
    pub fn new() -> LineRecord
        ensures { result.events ≡ [] }
    {
        LineRecord { of: PhantomData }
    }

    /// Notes a call. One that hands bytes to the system has these, and one by which bytes came.
    pub fn note(&mut self, _call: &LineCall, _bytes: &[u8])
        ensures { self.new ≡ record self.old { events = record { call = _call.now; bytes = _bytes.now } ∷ self.old.events } }
    {}
}
