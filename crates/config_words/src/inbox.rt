//! INBOX, in whatever spelling.

ghost use Rattle.std.specs.Prelude.{◌≡◌};
ghost use Rattle.config_words.specs.Inboxes.{is_inbox};

/// Whether a name means INBOX, the one name of a mailbox that compares without case (RFC 9051, section 5.1).
pub fn is_inbox(name: &[u8]) -> bool
    ensures { result ≡ is_inbox name.now }
{
    name.eq_ignore_ascii_case(b"INBOX")
}
