//! The meta file of a mailbox: its validity and its next UID.

ghost use Rattle.std.specs.Prelude.{◌≡◌, ◌<◌, IfOk, IfSome};

use std::alloc::{AllocError, Global};
use texts::cut::cut;
use texts::number::{push_number, read_u32};

/// The validity of a mailbox and the next UID that it gives.
#[derive(Clone, Copy, PartialEq, Eq)]
pub struct Meta {
    /// Its UIDVALIDITY, 1 to 4294967295.
    pub validity: u32,
    /// Its next UID, 1 to 4294967295.
    pub next: u32,
}

impl Meta {
    ghost use Rattle.maildir.specs.Metas.{meta_of, meta_of_numbers, meta_text, u32_of};

    /// What the text of a meta file says, or none if it is not spelled so. It takes no memory.
    pub fn read(text: &[u8]) -> Option<Meta>
        ensures value { result ≡ meta_of text.now }
        ensures next { IfSome result (λ meta. 0 < meta.next) }
    {
        let (first, rest) = cut(text, b'\n')?;
        let (second, following) = cut(rest, b'\n')?;
        if following.is_empty() {
            Meta::of_lines(first, second)
        } else {
            None
        }
    }

    /// What the two lines of a meta file say.
    fn of_lines(first: &[u8], second: &[u8]) -> Option<Meta>
        ensures value { result ≡ meta_of_numbers (u32_of first.now) (u32_of second.now) }
        ensures next { IfSome result (λ meta. 0 < meta.next) }
    {
        let validity = read_u32(first, u32::MAX)?;
        let highest = read_u32(second, u32::MAX)?;
        if validity > 0 && highest < u32::MAX {
            Some(Meta {
                validity,
                next: highest + 1,
            })
        } else {
            None
        }
    }

    /// The text of the meta file.
    ///
    /// `AllocError`: memory ran out.
    pub fn text(self, alloc: Global) -> Result<Vec<u8>, AllocError>
        ensures { IfOk result (λ text. text.items ≡ meta_text self) }
    {
        let mut text = Vec::new(alloc);
        push_number(&mut text, u64::from(self.validity))?;
        text.extend_from_slice(b"\n")?;
        push_number(&mut text, u64::from(self.next.saturating_sub(1)))?;
        text.extend_from_slice(b"\n")?;
        Ok(text)
    }
}
