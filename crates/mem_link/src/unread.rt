//! What a server has said and nobody has received.

ghost use Rattle.std.specs.Prelude.{◌≡◌, ◌<◌, ◌≤◌, ◌++◌, [], length, take, OnOk};

use std::alloc::{AllocError, Global};
use std::marker::Model;

/// What a server has said on a connection and was not received: what is left of its greeting, and of its replies.
#[derive(Drop)]
pub(crate) struct UnreadReplies {
    greeting: &'static [u8],
    replies: Vec<u8>,
    /// How many bytes of the replies were received.
    received: usize,
}

impl Model for UnreadReplies {
    ghost use Rattle.std.specs.Prelude.{ℕ, List, ◌≤◌, ◌++◌, drop, length};

    ghost Value = { List ℕ };

    ghost view = { λ u. u.greeting.now ++ drop u.received u.replies.items };

    ghost invariant = { λ u. u.received ≤ length u.replies.items };
}

impl UnreadReplies {
    /// Nothing.
    pub(crate) fn new(alloc: Global) -> UnreadReplies
        ensures { result ≡ [] }
    {
        UnreadReplies {
            greeting: b"",
            replies: Vec::new(alloc),
            received: 0,
        }
    }

    /// How many bytes it is.
    pub(crate) fn len(&self) -> usize {
        let replies = self.replies.len().saturating_sub(self.received);
        self.greeting.len().saturating_add(replies)
    }

    /// It is this greeting alone, whatever was said before.
    pub(crate) fn greet(&mut self, greeting: &'static [u8])
        ensures { self.new ≡ greeting.now }
    {
        self.greeting = greeting;
        self.replies.clear();
        self.received = 0;
    }

    /// Adds replies. `AllocError`: memory ran out.
    pub(crate) fn push(&mut self, replies: Vec<u8>) -> Result<(), AllocError>
        ensures { OnOk result (self.new ≡ self.old ++ replies.items) }
    {
        if self.received == self.replies.len() {
            self.replies = replies;
            self.received = 0;
            return Ok(());
        }
        self.replies.extend_from_slice(&replies)
    }

    /// Hands out the next bytes, at most so many: to the front of the piece, as far as it goes. Gives how many.
    pub(crate) fn take(&mut self, piece: &mut [u8], most: usize) -> usize
        ensures within { result ≤ length piece.new }
        ensures most { result ≤ most }
        ensures took { self.old ≡ take result piece.new ++ self.new }
        ensures some { 0 < most → 0 < length piece.old → 0 < length self.old → 0 < result }
    {
        if self.greeting.is_empty() {
            let count = copy_front(&self.replies[self.received..], piece, most);
            self.received += count;
            count
        } else {
            let count = copy_front(self.greeting, piece, most);
            self.greeting = &self.greeting[count..];
            count
        }
    }
}

/// Copies the front of these bytes, at most so many, to that of the piece, as far as it goes. Gives how many.
fn copy_front(bytes: &[u8], piece: &mut [u8], most: usize) -> usize
    ensures within { result ≤ length piece.new }
    ensures some { result ≤ length bytes.now }
    ensures most { result ≤ most }
    ensures copied { take result piece.new ≡ take result bytes.now }
    ensures first { 0 < most → 0 < length piece.old → 0 < length bytes.now → 0 < result }
{
    let count = most.min(bytes.len()).min(piece.len());
    piece[..count].copy_from_slice(&bytes[..count]);
    count
}
