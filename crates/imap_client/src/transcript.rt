//! What a session has heard, for contracts alone.

ghost use Rattle.std.specs.Prelude.{◌≡◌, ◌∷◌, []};

use device::history::History;
use imap_link::reply_buf::ReplyBuf;
use std::marker::Model;

/// The answers that a session has heard, the last first. To contracts it is the list of their bytes; it takes no memory.
#[derive(Drop)]
pub struct Transcript {
    // The buffer when each of them was read.
    buffers: History<ReplyBuf>,
}

impl Model for Transcript {
    ghost use Rattle.std.specs.Prelude.{ℕ, List, map};

    ghost Value = { List (List ℕ) };

    ghost view = { λ t. map (λ b. b.read) t.buffers.items };
}

impl Transcript {
    /// That of a session that has heard nothing.
    pub(crate) fn new() -> Self
        ensures { result ≡ [] }
    {
        Transcript {
            buffers: History::new(),
        }
    }

    /// An answer was heard, and was read in this buffer.
    pub(crate) fn note(&mut self, heard: &ReplyBuf)
        ensures { self.new ≡ heard.now.read ∷ self.old }
    {
        self.buffers = self.buffers.and(heard);
    }
}
