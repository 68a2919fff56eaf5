//! The messages of APPEND commands (RFC 9051, section 9: append-message, literal; here a literal of at least one octet).

ghost use Rattle.std.specs.Prelude.{◌≡◌, SomeIff, OnOk, OnErr};
ghost use Rattle.wire_reader.specs.declared.side.Speaker.TheVariants.{Commands};
ghost use Rattle.wire_reader.specs.Given.{GivesOr};
ghost use Rattle.wire_reader.specs.Filled.{filled_literal_at};
ghost use Rattle.wire_tokens.specs.Writing.{Appended};
ghost use Rattle.imap_commands.specs.Messages.{IsMessage};
ghost use Rattle.imap_commands.specs.Writing.{WrittenMessage};

use std::alloc::{AllocError, Global};
use std::marker::Model;
use wire_reader::literal::filled_literal;
use wire_reader::side::Speaker;
use wire_reader::stop::ReadError;
use wire_strings::octets::LentOctets;
use wire_strings::string_writing::write_literal;

/// The octets of a message: 1 to 16777238, none of them 0.
#[derive(Drop)]
pub struct SentMessage {
    octets: Vec<u8>,
}

impl Model for SentMessage {
    ghost use Rattle.std.specs.Prelude.{ℕ, List};
    ghost use Rattle.imap_commands.specs.Messages.{IsMessage};

    ghost Value = { List ℕ };

    ghost view = { λ m. m.octets.items };

    ghost invariant = { λ m. IsMessage m.octets.items };
}

impl SentMessage {
    /// The message of these octets, or none where they are none, too many, or one of them is 0.
    pub fn new(octets: Vec<u8>) -> Option<SentMessage>
        ensures { SomeIff result (IsMessage octets.items) octets.items }
    {
        if !octets.is_empty() && LentOctets::read(&octets).is_some() {
            Some(SentMessage { octets })
        } else {
            None
        }
    }

    /// Its octets.
    pub fn octets(&self) -> &[u8]
        ensures same { result.now ≡ self.now }
        ensures message { IsMessage result.now }
    {
        &self.octets
    }

    /// Its octets, without a copy.
    pub fn into_vec(self) -> Vec<u8>
        ensures same { result.items ≡ self }
        ensures message { IsMessage result.items }
    {
        let SentMessage { octets } = self;
        octets
    }

    /// Writes it at the end, as a synchronizing literal (`{n}`, without `+`).
    ///
    /// `AllocError`: memory ran out, and nothing is written.
    pub fn write(&self, out: &mut Vec<u8>) -> Result<(), AllocError>
        ensures ok { OnOk result (Appended (WrittenMessage self.now) out.old.items out.new.items) }
        ensures err { OnErr result (out.new.items ≡ out.old.items) }
    {
        match LentOctets::read(self.octets()) {
            Some(octets) => write_literal(&octets, out),
            None => unreachable!(),
        }
    }
}

/// Reads a message, a literal of at least one octet; gives it and the bytes after it, of which at least one is required.
pub(crate) fn read_message(alloc: Global, bytes: &[u8]) -> Result<(SentMessage, &[u8]), ReadError>
    ensures { GivesOr (λ r. (r.0, r.1.now)) result (filled_literal_at Commands bytes.now) }
{
    let (octets, rest) = filled_literal(Speaker::Commands, bytes)?;
    let octets = Vec::from_slice(alloc, octets)?;
    Ok((SentMessage { octets }, rest))
}
