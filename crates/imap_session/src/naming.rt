//! Which messages a set of UIDs names.

ghost use Rattle.std.specs.Prelude.{◌≡◌, ◌≤◌, ℕ, length, Option};
ghost use Rattle.mailcore.specs.Listed.{AreRising};
ghost use Rattle.wire_tokens.specs.Sets.{end_of, names};
ghost use Rattle.imap_session.specs.NamedMessages.{greatest};
ghost use Rattle.imap_session.specs.Naming.{IsTop, Named, IsReach, IsBetween, AreBetween};

use mailcore::mailbox::Message;
use mailcore::uid::Uid;
use wire_tokens::uid_set::{SetEnd, SetItem, UidSet};

/// The greatest UID of messages in the order of their UIDs, 0 where there is none.
pub fn greatest(messages: &[Message]) -> u32
    ensures { IsTop (greatest messages.now) result }
{
    match messages {
        [] => 0,
        [.., last] => last.uid.get(),
    }
}

/// Whether the set names the UID, where this is the greatest UID.
pub fn is_named(set: &UidSet, top: u32, uid: Uid) -> bool
    ensures { Named set.now top uid result }
{
    set.names(uid, Uid::new(top))
}

/// Two places of messages that stand in the order of their UIDs: the set names none before the first place, and none from
/// the second on. This is the greatest UID.
pub fn reach(messages: &[Message], set: &UidSet, top: u32) -> (usize, usize)
    requires { AreRising messages.now }
    ensures named { (most : Option ℕ) → IsTop most top → IsReach (names most set.now) messages.now result.0 result.1 }
    ensures order { result.0 ≤ result.1 }
    ensures within { result.1 ≤ length messages.now }
{
    let (low, high) = ends_of_set(set, top);
    let start = messages.partition_point(|message| message.uid.get() < low);
    let end = messages.partition_point(|message| message.uid.get() <= high);
    (start, end.max(start))
}

/// A UID below those that the set names, or the least of them; and one above them, or the greatest.
fn ends_of_set(set: &UidSet, top: u32) -> (u32, u32)
    ensures { AreBetween top result.0 result.1 set.now }
{
    let mut low = u32::MAX;
    let mut high = 0;
    for item in set.items() {
        let (first, last) = ends_of_item(item, top);
        low = low.min(first);
        high = high.max(last);
    }
    (low, high)
}

/// The least and the greatest UID that the item names.
fn ends_of_item(item: &SetItem, top: u32) -> (u32, u32)
    ensures { IsBetween top result.0 result.1 item.now }
{
    match item {
        SetItem::One(end) => {
            let uid = number_at(end, top);
            (uid, uid)
        }
        SetItem::Range(first, second) => {
            let (first, second) = (number_at(first, top), number_at(second, top));
            (first.min(second), first.max(second))
        }
    }
}

/// The UID at this end.
fn number_at(end: &SetEnd, top: u32) -> u32
    ensures { result ≡ end_of top end.now }
{
    match end {
        SetEnd::Number(number) => number.get(),
        SetEnd::Greatest => top,
    }
}
