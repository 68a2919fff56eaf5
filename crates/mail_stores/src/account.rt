//! Who logs in for a mailbox.

ghost use Rattle.std.specs.Prelude.{IfOk, IfSome};
ghost use Rattle.mail_stores.specs.Reached.{IsAccount};

use crate::server::is_word;
use config::config::ImapStore;
use mail_sides::account::Account;
use mailcore::mailbox_name::MailboxName;
use std::alloc::{AllocError, Global};

/// Who logs in for a mailbox of a store. None: user, password or name cannot be sent.
pub(crate) fn account_of(
    alloc: Global,
    store: &ImapStore,
    name: &MailboxName,
) -> Result<Option<Account>, AllocError>
    ensures { IfOk result (λ found. IfSome found (IsAccount store.now name.now)) }
{
    let user = store.user.as_bytes();
    let password = store.pass.as_bytes();
    let name = name.as_str().as_bytes();
    if !is_word(user) || !is_word(password) || !is_word(name) {
        return Ok(None);
    }
    let user = Vec::from_slice(alloc, user)?;
    let password = Vec::from_slice(alloc, password)?;
    Ok(Some(Account::new(user, password, Vec::from_slice(alloc, name)?)))
}
