//! What came over a link and was not turned yet.

ghost use Rattle.std.specs.Prelude.{◌≡◌, ◌≤◌, ◌++◌, [], drop, length, take, IfOk, OnOk, OnErr};
ghost use Rattle.link_face.specs.Extents.{Looks};

use crate::extent::{Extent, ReplyExtent};
use std::alloc::{AllocError, Global};
use std::marker::Model;
use std::mem;

/// Bytes that came: a reply, whole or begun, and what follows it.
#[derive(Drop)]
pub(crate) struct Incoming {
    bytes: Vec<u8>,
    /// How many of them were taken out: they go once more come, so that what follows them is not moved for each reply.
    taken: usize,
    search: ReplyExtent,
}

impl Model for Incoming {
    ghost use Rattle.std.specs.Prelude.{ℕ, List, ◌≤◌, drop, length};
    ghost use Rattle.link_face.specs.Extents.{IsSought};

    ghost Value = { List ℕ };

    ghost view = { λ i. drop i.taken i.bytes.items };

    ghost invariant = { λ i. (i.taken ≤ length i.bytes.items) × IsSought i.search (drop i.taken i.bytes.items) };
}

impl Incoming {
    /// Nothing.
    pub(crate) fn new(alloc: Global) -> Incoming
        ensures { result ≡ [] }
    {
        Incoming {
            bytes: Vec::new(alloc),
            taken: 0,
            search: ReplyExtent::new(),
        }
    }

    /// How many bytes they are.
    pub(crate) fn len(&self) -> usize
        ensures { result ≡ length self.now }
    {
        self.bytes.len() - self.taken
    }

    /// They are none.
    pub(crate) fn clear(&mut self)
        ensures { self.new ≡ [] }
    {
        self.bytes.clear();
        self.taken = 0;
        self.search = ReplyExtent::new();
    }

    /// These bytes came. `AllocError`: memory ran out, and they are lost.
    pub(crate) fn push(&mut self, bytes: &[u8]) -> Result<(), AllocError>
        ensures ok { OnOk result (self.new ≡ self.old ++ bytes.now) }
        ensures err { OnErr result (self.new ≡ self.old) }
    {
        drop_front(&mut self.bytes, self.taken);
        self.taken = 0;
        self.bytes.extend_from_slice(bytes)
    }

    /// How far the reply at the front goes. `AllocError`: memory ran out.
    pub(crate) fn look(&mut self) -> Result<Extent, AllocError>
        ensures same { self.new ≡ self.old }
        ensures looks { IfOk result (Looks self.old) }
    {
        let alloc = *self.bytes.allocator();
        self.search.look(alloc, &self.bytes[self.taken..])
    }

    /// The first so many bytes.
    pub(crate) fn front(&self, len: usize) -> &[u8]
        requires { len ≤ length self.now }
        ensures { result.now ≡ take len self.now }
    {
        &self.bytes[self.taken..self.taken + len]
    }

    /// The first bytes, so many at most.
    pub(crate) fn first(&self, most: usize) -> &[u8] {
        self.front(self.len().min(most))
    }

    /// Takes the first so many bytes out. `AllocError`: memory ran out, and they stay.
    pub(crate) fn take(&mut self, len: usize) -> Result<Vec<u8>, AllocError>
        requires { len ≤ length self.old }
        ensures front { IfOk result (λ front. front.items ≡ take len self.old) }
        ensures ok { IfOk result (λ front. self.old ≡ front.items ++ self.new) }
        ensures err { OnErr result (self.new ≡ self.old) }
    {
        if len > self.len() - len {
            return self.take_most(len);
        }
        let front = Vec::from_slice(*self.bytes.allocator(), self.front(len))?;
        self.search = ReplyExtent::new();
        self.taken += len;
        Ok(front)
    }

    /// The same of more than half of the bytes: those that are left are moved.
    fn take_most(&mut self, len: usize) -> Result<Vec<u8>, AllocError>
        requires { len ≤ length self.old }
        ensures front { IfOk result (λ front. front.items ≡ take len self.old) }
        ensures ok { IfOk result (λ front. self.old ≡ front.items ++ self.new) }
        ensures err { OnErr result (self.new ≡ self.old) }
    {
        drop_front(&mut self.bytes, self.taken);
        self.taken = 0;
        let rest = Vec::from_slice(*self.bytes.allocator(), &self.bytes[len..])?;
        let mut front = mem::replace(&mut self.bytes, rest);
        front.truncate(len);
        self.search = ReplyExtent::new();
        Ok(front)
    }
}

/// Lets go of the first so many bytes.
fn drop_front(bytes: &mut Vec<u8>, count: usize)
    requires { count ≤ length bytes.old.items }
    ensures { bytes.new.items ≡ drop count bytes.old.items }
{
    if count > 0 {
        let left = bytes.len() - count;
        bytes.copy_within(count.., 0);
        bytes.truncate(left);
    }
}
