//! The names of mailboxes that replies return (RFC 9051, section 7.3.1), within the limits of names.

ghost use Rattle.std.specs.Prelude.{◌≡◌, IfOk};
ghost use Rattle.imap_answers.specs.MailboxNames.{name_reported, names_in};

use imap_replies::reply::Reply;
use mailcore::mailbox_name::MailboxName;
use std::alloc::{AllocError, Global};
use wire_strings::text::Text;

/// The names that these replies return. `AllocError`: memory ran out.
pub fn names_in(alloc: Global, replies: &[Reply<'_>]) -> Result<Vec<MailboxName>, AllocError>
    ensures { IfOk result (λ names. names.items ≡ names_in replies.now) }
{
    let mut names = Vec::new(alloc);
    for reply in replies {
        if let Some(name) = name_reported(alloc, reply)? {
            names.push(name)?;
        }
    }
    Ok(names)
}

/// The name that this reply returns, if it returns one within the limits. `AllocError`: memory ran out.
fn name_reported(alloc: Global, reply: &Reply<'_>) -> Result<Option<MailboxName>, AllocError>
    ensures { IfOk result (λ name. name ≡ name_reported reply.now) }
{
    match reply {
        Reply::List(_, _, name) => {
            let text = Text::of(alloc, name)?;
            MailboxName::from_bytes(alloc, text.as_slice())
        }
        _ => Ok(None),
    }
}
