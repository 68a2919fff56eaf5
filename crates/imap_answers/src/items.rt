//! What FETCH replies list of a mailbox (RFC 9051, section 6.4.5).

ghost use Rattle.std.specs.Prelude.{◌≡◌, ◌≤◌};
ghost use Rattle.imap_answers.specs.Listings.{item_reported, items_reported, next_above};
ghost use Rattle.imap_answers.specs.Readings.{ReadsAs};

use crate::reported::{Row, Rows};
use imap_link::fault::FarFault;
use mailcore::listing::{Item, Items};
use mailcore::uid::Uid;
use std::alloc::Global;

impl<'a> Rows<'a> {
    /// The messages that these rows list.
    ///
    /// `Protocol`: a message was reported without its flags or its size, or under 4294967295. `NoMemory`.
    pub fn items(&self, alloc: Global) -> Result<Items, FarFault>
        ensures reported { ReadsAs (λ items. items) result (items_reported self.now.rows) }
    {
        let mut items = Vec::with_capacity(alloc, self.by_uid.len())?;
        for (uid, row) in &self.by_uid {
            match item_reported(*uid, row) {
                Some(item) => items.push(item)?,
                None => return Err(FarFault::Protocol),
            }
        }
        Ok(Items::from_vec(items))
    }
}

/// The message of this UID as it is listed, or none if its flags or its size were not reported.
fn item_reported(uid: u32, row: &Row) -> Option<Item>
    ensures { result ≡ item_reported uid row.now.flags row.now.fit }
{
    let uid = Uid::new(uid)?;
    let flags = row.flags?;
    let fit = row.fit?;
    Some(Item { uid, flags, fit })
}

/// The least number that is at least `known` and above the UIDs of these messages.
pub fn next_above(known: u32, items: &[Item]) -> u32
    ensures next { result ≡ next_above known items.now }
    ensures least { known ≤ result }
{
    let mut next = known;
    for item in items {
        next = next.max(item.uid.get() + 1);
    }
    next
}
