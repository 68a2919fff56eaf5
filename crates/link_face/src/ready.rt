//! What is to be handed out.

ghost use Rattle.std.specs.Prelude.{◌≡◌, ◌==◌, ◌<◌, ◌≤◌, ◌++◌, [], drop, length, take};

use crate::chunks::Chunks;
use std::alloc::Global;
use std::marker::Model;

/// A reply of more bytes is cut, so that it takes no room twice: here, and where its reader keeps it.
const CHUNK_BYTES: usize = 1 << 18;

/// Bytes that are to be handed out, in pieces of any size. Of long ones the memory of what was handed out is free again.
#[derive(Drop)]
pub(crate) struct Ready {
    /// The first of them.
    bytes: Vec<u8>,
    /// How many of the first ones were handed out.
    given: usize,
    /// The others.
    later: Chunks,
}

impl Model for Ready {
    ghost use Rattle.std.specs.Prelude.{ℕ, List, [], ◌≡◌, ◌≤◌, ◌++◌, drop, length};

    ghost Value = { List ℕ };

    ghost view = { λ r. drop r.given r.bytes.items ++ r.later };

    ghost invariant = { λ r. (r.given ≤ length r.bytes.items) × (r.given ≡ length r.bytes.items → r.later ≡ []) };
}

impl Ready {
    /// Nothing.
    pub(crate) fn new(alloc: Global) -> Ready
        ensures { result ≡ [] }
    {
        Ready {
            bytes: Vec::new(alloc),
            given: 0,
            later: Chunks::new(alloc),
        }
    }

    /// Whether all was handed out.
    pub(crate) fn is_empty(&self) -> bool
        ensures { result ≡ (length self.now == 0) }
    {
        self.given == self.bytes.len()
    }

    /// It is these bytes alone.
    pub(crate) fn fill(&mut self, bytes: Vec<u8>)
        ensures { self.new ≡ bytes.items }
    {
        let mut first = bytes;
        self.later.clear();
        cut_chunks(&mut first, &mut self.later);
        self.bytes = first;
        self.given = 0;
    }

    /// It is nothing.
    pub(crate) fn clear(&mut self)
        ensures { self.new ≡ [] }
    {
        self.later.clear();
        self.bytes.clear();
        self.given = 0;
    }

    /// Hands out the next bytes to the front of the piece, as far as it goes. Gives how many.
    pub(crate) fn take(&mut self, piece: &mut [u8]) -> usize
        ensures within { result ≤ length piece.new }
        ensures took { self.old ≡ take result piece.new ++ self.new }
        ensures some { 0 < length piece.old → 0 < length self.old → 0 < result }
    {
        let count = copy_front(&self.bytes[self.given..], piece);
        self.given = given_next(&mut self.bytes, &mut self.later, self.given + count);
        count
    }
}

/// Where so many of the first bytes were handed out, and these are all, the next chunk is the first. Gives how many of the first were.
fn given_next(bytes: &mut Vec<u8>, later: &mut Chunks, given: usize) -> usize
    requires { given ≤ length bytes.old.items }
    ensures same { drop result bytes.new.items ++ later.new ≡ drop given bytes.old.items ++ later.old }
    ensures within { result ≤ length bytes.new.items }
    ensures last { result ≡ length bytes.new.items → later.new ≡ [] }
{
    if given < bytes.len() {
        return given;
    }
    match later.take_first() {
        Some(chunk) => {
            *bytes = chunk;
            0
        }
        None => given,
    }
}

/// Moves the end of long bytes to chunks. Where memory is wanting, more stays.
fn cut_chunks(bytes: &mut Vec<u8>, later: &mut Chunks)
    requires { later.old ≡ [] }
    ensures all { bytes.new.items ++ later.new ≡ bytes.old.items }
    ensures last { 0 ≡ length bytes.new.items → later.new ≡ [] }
{
    for _ in 0..bytes.len() / CHUNK_BYTES {
        if bytes.len() <= CHUNK_BYTES || !cut_chunk(bytes, later) {
            return;
        }
    }
}

/// Moves the last chunk of long bytes before the others. Not done: memory is wanting.
fn cut_chunk(bytes: &mut Vec<u8>, later: &mut Chunks) -> bool
    requires { CHUNK_BYTES < length bytes.old.items }
    ensures all { bytes.new.items ++ later.new ≡ bytes.old.items ++ later.old }
    ensures some { 0 < length bytes.new.items }
{
    let start = bytes.len() - CHUNK_BYTES;
    if later.put_first(&bytes[start..]).is_err() {
        return false;
    }
    bytes.truncate(start);
    bytes.shrink_to_fit();
    true
}

/// Copies the front of these bytes to that of the piece, as far as it goes. Gives how many.
fn copy_front(bytes: &[u8], piece: &mut [u8]) -> usize
    ensures within { result ≤ length piece.new }
    ensures some { result ≤ length bytes.now }
    ensures copied { take result piece.new ≡ take result bytes.now }
    ensures first { 0 < length piece.old → 0 < length bytes.now → 0 < result }
{
    let count = bytes.len().min(piece.len());
    piece[..count].copy_from_slice(&bytes[..count]);
    count
}
