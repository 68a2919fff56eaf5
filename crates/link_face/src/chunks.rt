//! A long reply that is to be handed out, in chunks, so that the memory of what was handed out is free again.

ghost use Rattle.std.specs.Prelude.{◌≡◌, ◌<◌, ◌++◌, [], length, OnOk, OnErr, MatchOption};

use std::alloc::{AllocError, Global};
use std::marker::Model;

/// Bytes in chunks.
#[derive(Drop)]
pub(crate) struct Chunks {
    /// The first one is the last.
    chunks: Vec<Vec<u8>>,
}

impl Model for Chunks {
    ghost use Rattle.std.specs.Prelude.{ℕ, List};
    ghost use Rattle.link_face.specs.Chunks.{AreSome, from_last};

    ghost Value = { List ℕ };

    ghost view = { λ c. from_last c.chunks.items };

    ghost invariant = { λ c. AreSome c.chunks.items };
}

impl Chunks {
    /// None.
    pub(crate) fn new(alloc: Global) -> Chunks
        ensures { result ≡ [] }
    {
        Chunks {
            chunks: Vec::new(alloc),
        }
    }

    /// They are none.
    pub(crate) fn clear(&mut self)
        ensures { self.new ≡ [] }
    {
        self.chunks.clear();
    }

    /// Puts a chunk before the others. `AllocError`: memory ran out, and nothing has changed.
    pub(crate) fn put_first(&mut self, chunk: &[u8]) -> Result<(), AllocError>
        requires some { 0 < length chunk.now }
        ensures ok { OnOk result (self.new ≡ chunk.now ++ self.old) }
        ensures err { OnErr result (self.new ≡ self.old) }
    {
        self.chunks.reserve(1)?;
        let chunk = Vec::from_slice(*self.chunks.allocator(), chunk)?;
        self.chunks.push_reserved(chunk);
        Ok(())
    }

    /// Takes the first chunk out.
    pub(crate) fn take_first(&mut self) -> Option<Vec<u8>>
        ensures { MatchOption result ((self.old ≡ []) × (self.new ≡ [])) (λ chunk. (0 < length chunk.items) × (self.old ≡ chunk.items ++ self.new)) }
    {
        self.chunks.pop()
    }
}
