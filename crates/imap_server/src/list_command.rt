//! LIST (RFC 9051, section 6.3.9).

ghost use Rattle.std.specs.Prelude.{◌≡◌, ◌+◌, true, length, map, filter, All, OnOk, IfOk};
ghost use Rattle.mailcore.specs.MailboxNames.{is_mailbox_name};
ghost use Rattle.mailcore.specs.MailboxPatterns.{matches};
ghost use Rattle.imap_session.specs.Answering.{listed};
ghost use Rattle.imap_session.specs.MailboxCommands.{names_matched};
ghost use Rattle.imap_session.specs.Boxes.{all_of};
ghost use Rattle.imap_server.specs.Writing.{Wrote};

use crate::mailbox_commands::say_listed;
use crate::service::Service;
use crate::writing::{say_done, say_out_of_place};
use imap_commands::pattern::ListPattern;
use mailcore::mailbox::StoredMailbox;
use mailcore::mailbox_pattern::matches;
use std::alloc::{AllocError, Global};
use wire_tokens::tag::Tag;

impl Service {
    ghost use Rattle.std.specs.Prelude.{OnOk};
    ghost use Rattle.imap_session.specs.MailboxCommands.{lists};
    ghost use Rattle.imap_server.specs.Writing.{Answered};

    /// Answers LIST.
    pub(crate) fn list(
        &self,
        tag: Tag,
        pattern: &ListPattern,
        out: &mut Vec<u8>,
    ) -> Result<(), AllocError>
        ensures { OnOk result (Answered (lists self.now tag pattern.now) out.old.items out.new.items self.now) }
    {
        if !self.is_logged_in() {
            return say_out_of_place(tag, out);
        }
        let names = names_matched(self.alloc, &self.mailboxes, pattern.bytes())?;
        say_names(&names, out)?;
        say_done(tag, out)?;
        Ok(())
    }
}

/// The names that match the pattern, in the order of their bytes.
fn names_matched<'a>(
    alloc: Global,
    mailboxes: &'a [StoredMailbox],
    pattern: &[u8],
) -> Result<Vec<&'a [u8]>, AllocError>
    ensures { IfOk result (λ names. map (λ n. n.now) names.items ≡ names_matched pattern.now (all_of mailboxes.now)) }
{
    let mut row = vec![in alloc; false; pattern.len() + 1]?;
    let mut names = names_among(alloc, mailboxes, pattern, &mut row)?;
    names.sort_unstable();
    Ok(names)
}

/// The names that match the pattern, in the order of the mailboxes. `row` is room for the matcher, one longer than the pattern.
fn names_among<'a>(
    alloc: Global,
    mailboxes: &'a [StoredMailbox],
    pattern: &[u8],
    row: &mut [bool],
) -> Result<Vec<&'a [u8]>, AllocError>
    requires { length row.old ≡ length pattern.now + 1 }
    ensures { IfOk result (λ names. map (λ n. n.now) names.items ≡ filter (matches pattern.now) (map (λ m. m.name) (all_of mailboxes.now))) }
{
    let mut names = Vec::new(alloc);
    for mailbox in mailboxes {
        let name = mailbox.name.as_str().as_bytes();
        if matches(pattern, name, row) {
            names.push(name)?;
        }
    }
    Ok(names)
}

/// Writes `* LIST () "/" "name"` for each of the names. Where memory runs out, a part may be written.
fn say_names(names: &[&[u8]], out: &mut Vec<u8>) -> Result<(), AllocError>
    requires { All (λ n. is_mailbox_name n.now ≡ true) names.now }
    ensures { OnOk result (Wrote (map listed (map (λ n. n.now) names.now)) out.old.items out.new.items) }
{
    for name in names {
        say_listed(name, out)?;
    }
    Ok(())
}
