//! A message that is added to a mailbox, as it is sent (RFC 9051, section 6.3.12).

ghost use Rattle.std.specs.Prelude.{length, IfOk};
ghost use Rattle.mailcore.specs.CopyPieces.{text_left};
ghost use Rattle.imap_client.specs.Appending.{CanAdd, FrontText, names_to_add};

use mailcore::copy_pieces::CopyPieces;
use mailcore::flags::Flags;
use mailcore::keywords::Keywords;
use std::alloc::{AllocError, Global};
use wire_strings::string_writing::write_quoted;
use wire_tokens::appending::append;
use wire_tokens::flag_list::FlagList;
use wire_tokens::number::write_number;
use wire_tokens::tag::Tag;

/// A message that is to be added.
#[derive(Clone, Copy)]
pub(crate) struct Addition<'a> {
    /// The name of its mailbox.
    pub(crate) name: &'a [u8],
    /// Its flags.
    pub(crate) flags: Flags,
    /// By this map flags have names.
    pub(crate) keywords: &'a Keywords,
    /// Its octets.
    pub(crate) octets: CopyPieces<'a>,
}

impl<'a> Addition<'a> {
    /// What is sent first, up to where the octets are asked for.
    pub(crate) fn front(&self, alloc: Global, tag: &Tag) -> Result<Vec<u8>, AllocError>
        requires { CanAdd self.now }
        ensures { IfOk result (λ front. FrontText tag.now self.now.name.now (names_to_add self.now) (length (text_left self.now.octets)) front.items) }
    {
        let flags = FlagList::of(alloc, self.flags, self.keywords)?;
        let mut front = Vec::new(alloc);
        tag.write(&mut front)?;
        append(b" ", &mut front)?;
        append(b"APPEND ", &mut front)?;
        write_quoted(self.name, &mut front)?;
        append(b" ", &mut front)?;
        flags.write(&mut front)?;
        append(b" ", &mut front)?;
        append(b"{", &mut front)?;
        write_number(self.octets.text_len() as u32, &mut front)?;
        append(b"}\r\n", &mut front)?;
        Ok(front)
    }
}
