//! The names of mailboxes, and their limits.

ghost use Rattle.std.specs.Prelude.{◌≡◌, ◌==◌, true, IfOk, codes, string_bytes};
ghost use Rattle.std.specs.List.{list_all, slice_split};
ghost use Rattle.mailcore.specs.MailboxNames.{is_mailbox_name, is_name_byte, is_name_part, within_limits};

use std::alloc::{AllocError, Global};
use std::marker::Model;

/// The name of a mailbox, which clauses see as its bytes, within the limits: 1 to 255 printable ASCII characters without `*`, `%`,
/// `"` and `\`, and between slashes neither nothing nor `.` nor `..`. Names compare by bytes, but for INBOX, which IMAP compares
/// without case (RFC 9051, section 5.1).
#[derive(Drop)]
pub struct MailboxName {
    text: String,
}

impl Model for MailboxName {
    ghost use Rattle.std.specs.Prelude.{◌≡◌, true, ℕ, List, string_bytes};
    ghost use Rattle.mailcore.specs.MailboxNames.{is_mailbox_name};

    ghost Value = { List ℕ };

    ghost view = { λ n. string_bytes n.text };

    ghost invariant = { λ n. is_mailbox_name (string_bytes n.text) ≡ true };
}

impl MailboxName {
    /// The name of this text, or none where it is outside the limits. It takes no memory.
    pub fn new(text: String) -> Option<Self>
        ensures { result ≡ within_limits (string_bytes text) }
    {
        if is_mailbox_name(text.as_bytes()) {
            Some(MailboxName { text })
        } else {
            None
        }
    }

    /// The name of these bytes, or none where they are outside the limits, for which no memory is taken.
    ///
    /// `AllocError`: memory ran out.
    pub fn from_bytes(alloc: Global, name: &[u8]) -> Result<Option<Self>, AllocError>
        ensures { IfOk result (λ reported. reported ≡ within_limits name.now) }
    {
        if !is_mailbox_name(name) {
            return Ok(None);
        }
        match str::from_utf8(name) {
            Ok(text) => {
                let text = String::from_str(alloc, text)?;
                Ok(Some(MailboxName { text }))
            }
            Err(_) => unreachable!(),
        }
    }

    /// INBOX, the one mailbox that each account has. `AllocError`: memory ran out.
    pub fn inbox(alloc: Global) -> Result<Self, AllocError>
        ensures { IfOk result (λ name. name ≡ codes "INBOX") }
    {
        let text = String::from_str(alloc, "INBOX")?;
        Ok(MailboxName { text })
    }

    /// The name once more. `AllocError`: memory ran out.
    pub fn copy(&self, alloc: Global) -> Result<Self, AllocError>
        ensures { IfOk result (λ name. name ≡ self.now) }
    {
        let text = String::from_str(alloc, self.text.as_str())?;
        Ok(MailboxName { text })
    }

    /// Its text.
    pub fn as_str(&self) -> &str
        ensures text { result.now ≡ self.now }
        ensures limits { is_mailbox_name self.now ≡ true }
    {
        self.text.as_str()
    }
}

/// Whether this is a name within the limits of [`MailboxName`].
pub fn is_mailbox_name(name: &[u8]) -> bool
    ensures { result ≡ is_mailbox_name name.now }
{
    name.len() <= 255 && all_name_bytes(name) && all_parts(name)
}

fn all_name_bytes(name: &[u8]) -> bool
    ensures { result ≡ list_all is_name_byte name.now }
{
    name.iter().all(|b| is_name_byte(*b))
}

/// Whether each part between slashes may stand in a name.
fn all_parts(name: &[u8]) -> bool
    ensures { result ≡ list_all is_name_part (slice_split (λ b. b == 47) name.now) }
{
    name.split(|b| *b == b'/').all(|part| is_name_part(part))
}

fn is_name_byte(b: u8) -> bool
    ensures { result ≡ is_name_byte b }
{
    32 <= b && b <= 126 && !(b == b'*' || b == b'%' || b == b'"' || b == b'\\')
}

fn is_name_part(part: &[u8]) -> bool
    ensures { result ≡ is_name_part part.now }
{
    0 < part.len() && !(part == b".".as_slice() || part == b"..".as_slice())
}
