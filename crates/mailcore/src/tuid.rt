//! The mark of a copy, by which a copy is found again in a store.

ghost use Rattle.std.specs.Prelude.{◌≡◌, SomeIff};
ghost use Rattle.std.specs.List.{list_all};
ghost use Rattle.mailcore.specs.Mark.{base64url, is_mark_char, IsMark};

use base64::engine::general_purpose::URL_SAFE_NO_PAD;
use std::marker::Model;

/// The number of characters of a mark.
pub const TUID_LENGTH: usize = 12;

/// The number of bytes that a mark stands for.
const TUID_BYTES: usize = 9;

/// A mark: twelve characters of base64url (RFC 4648, section 5), which stand for nine bytes.
///
/// A copy begins with the line `X-TUID: ` and its mark.
#[derive(Clone, Copy, PartialEq, Eq, Hash)]
pub struct Tuid {
    text: [u8; TUID_LENGTH],
}

impl Model for Tuid {
    ghost use Rattle.std.specs.Prelude.{List, ℕ};
    ghost use Rattle.mailcore.specs.Mark.{IsMark};

    ghost Value = { List ℕ };

    ghost view = { λ mark. mark.text };

    ghost invariant = { λ mark. IsMark mark.text };

    ghost inverse = { λ characters. record { text = characters } };
}

impl Tuid {
    /// The mark that `bytes` spell, or none if they are no mark.
    pub fn read(bytes: &[u8]) -> Option<Tuid>
        ensures { SomeIff result (IsMark bytes.now) bytes.now }
    {
        let text: [u8; TUID_LENGTH] = bytes.try_into().ok()?;
        if is_base64url(&text) {
            Some(Tuid { text })
        } else {
            None
        }
    }

    /// The mark that stands for `bytes`.
    pub(crate) fn from_bytes(bytes: &[u8; TUID_BYTES]) -> Tuid
        ensures { result ≡ base64url bytes.now }
    {
        let mut text = [0; TUID_LENGTH];
        let _ = URL_SAFE_NO_PAD.encode_slice(bytes, &mut text);
        Tuid { text }
    }

    /// The characters of the mark, each a byte of ASCII.
    pub fn text(&self) -> [u8; TUID_LENGTH]
        ensures same { result ≡ self.now }
        ensures mark { IsMark result }
    {
        self.text
    }
}

// Whether each character is one of base64url.
fn is_base64url(text: &[u8; TUID_LENGTH]) -> bool
    ensures { result ≡ list_all is_mark_char text.now }
{
    text.iter().all(|&byte| byte.is_ascii_alphanumeric() || byte == b'-' || byte == b'_')
}
