//! Which mailboxes a server can serve.

ghost use Rattle.std.specs.Prelude.{◌≡◌, ◌↔◌, true, All};
ghost use Rattle.mailcore.specs.Ranges.{AreInRange};
ghost use Rattle.wire_strings.specs.Literals.{IsLiteral};
ghost use Rattle.imap_session.specs.Boxes.{far_of, all_of, IsServed, AreServed};

use mailcore::mailbox::{Message, StoredMailbox};
use wire_strings::octets::LentOctets;

/// Whether a server can be made with these mailboxes: each name keeps to the limits of docs/SESSION.md, no UIDVALIDITY and
/// no UIDNEXT is 0, and each message can be sent as a literal.
pub fn are_served(mailboxes: &[StoredMailbox]) -> bool
    ensures { (result ≡ true) ↔ AreServed (all_of mailboxes.now) }
{
    each_is_served(mailboxes)
}

fn each_is_served(mailboxes: &[StoredMailbox]) -> bool
    ensures { (result ≡ true) ↔ All (λ m. IsServed (far_of m)) mailboxes.now }
{
    for mailbox in mailboxes {
        if !is_served(mailbox) {
            return false;
        }
    }
    true
}

fn is_served(mailbox: &StoredMailbox) -> bool
    ensures yes { result ≡ true → IsServed (far_of mailbox.now) }
    ensures no { IsServed (far_of mailbox.now) → result ≡ true }
{
    // That the name is within the limits is known from this call.
    let _name = mailbox.name.as_str();
    mailbox.validity > 0 && mailbox.next > 0 && are_sent(mailbox.messages.as_slice())
}

/// Whether each message can be sent as a literal: at most 16777238 bytes, none of them 0.
fn are_sent(messages: &[Message]) -> bool
    ensures literals { (result ≡ true) ↔ All (λ m. IsLiteral m.bytes) messages.now }
    ensures ranges { (result ≡ true) → AreInRange messages.now }
{
    for message in messages {
        // Their ranges are known from these calls.
        let _ranges = (message.uid.get(), message.flags.bits());
        if LentOctets::read(message.bytes.as_slice()).is_none() {
            return false;
        }
    }
    true
}
