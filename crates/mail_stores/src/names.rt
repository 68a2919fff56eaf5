//! Which names of mailboxes are synchronised.

ghost use Rattle.std.specs.Prelude.{◌≡◌, IfOk, filter, map};
ghost use Rattle.near_places.specs.Names.{has_own_part};
ghost use Rattle.mail_stores.specs.Names.{AreServable, IsServable, called, has_ampersand, synchronised};
ghost use Rattle.std.specs.Bool.{Decides};

use config_words::inbox::is_inbox;
use link_face::names::to_far;
use mailcore::mailbox_name::MailboxName;
use near_places::names::has_own_part;
use std::alloc::{AllocError, Global};

/// Whether a server can have a mailbox of this name, which is in modified UTF-7 near (RFC 3501, section 5.1.3): not where an `&` in it
/// begins nothing of that, as in `R&D`.
pub(crate) fn is_servable(alloc: Global, name: &MailboxName) -> Result<bool, AllocError>
    ensures { IfOk result (λ is. Decides is (IsServable name.now)) }
{
    let name = name.as_str().as_bytes();
    if !has_ampersand(name) {
        return Ok(true);
    }
    match to_far(alloc, name)? {
        Some(_) => Ok(true),
        None => Ok(false),
    }
}

/// Whether a name has an `&`.
fn has_ampersand(name: &[u8]) -> bool
    ensures { result ≡ has_ampersand name.now }
{
    name.iter().any(|&byte| byte == b'&')
}

/// The names of the mailboxes near.
#[derive(Drop)]
pub(crate) struct NearNames {
    /// Those that a server can have.
    pub(crate) servable: Vec<MailboxName>,
    /// The others.
    pub(crate) skipped: Vec<MailboxName>,
}

impl NearNames {
    /// These names. `AllocError`: memory ran out.
    #[tactic(auto, using(crate::proofs::ListedLemmas::servable_none, crate::proofs::ListedLemmas::servable_more, crate::proofs::ListedLemmas::servable_same))]
    pub(crate) fn of(alloc: Global, names: Vec<MailboxName>) -> Result<Self, AllocError>
        ensures { IfOk result (λ near. AreServable names.items near.servable.items) }
    {
        let mut servable = Vec::new(alloc);
        let mut skipped = Vec::new(alloc);
        for name in names {
            if is_servable(alloc, &name)? {
                servable.push(name)?;
            } else {
                skipped.push(name)?;
            }
        }
        Ok(NearNames { servable, skipped })
    }
}

/// The names that a server lists.
#[derive(Drop)]
pub(crate) struct FarNames {
    /// Those that a mailbox near can have. INBOX stands there so, however the server spells it.
    pub(crate) synchronised: Vec<MailboxName>,
    /// The others: a part of them is that of a folder or a file of a mailbox near.
    pub(crate) skipped: Vec<MailboxName>,
}

impl FarNames {
    /// These names. `AllocError`: memory ran out.
    pub(crate) fn of(alloc: Global, names: Vec<MailboxName>) -> Result<Self, AllocError>
        ensures synchronised { IfOk result (λ far. far.synchronised.items ≡ synchronised names.items) }
        ensures skipped { IfOk result (λ far. far.skipped.items ≡ filter has_own_part names.items) }
    {
        let mut synchronised = Vec::new(alloc);
        let mut skipped = Vec::new(alloc);
        for name in names {
            if has_own_part(name.as_str()) {
                skipped.push(name)?;
            } else {
                synchronised.push(called(alloc, name)?)?;
            }
        }
        Ok(FarNames {
            synchronised,
            skipped,
        })
    }
}

/// What a mailbox is called that a server lists under this name.
fn called(alloc: Global, name: MailboxName) -> Result<MailboxName, AllocError>
    ensures { IfOk result (λ own. own ≡ called name) }
{
    if is_inbox(name.as_str().as_bytes()) {
        MailboxName::inbox(alloc)
    } else {
        Ok(name)
    }
}
