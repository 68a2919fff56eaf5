//! Files that wait get their UIDs.

ghost use Rattle.std.specs.Prelude.{◌≡◌, ◌<◌, ◌≤◌, ◌+◌, ◌^◌, false, length, map, MatchOption, OnOk, OnErr};
ghost use Rattle.mailcore.specs.Stores.{numbered};
ghost use Rattle.mailcore.specs.Mailboxes.{all_admitted};
ghost use Rattle.mem_mailbox.specs.Views.{near_of, waiting_of};

use crate::mem_store::MemStore;
use mailcore::mailbox::Message;
use mailcore::uid::Uid;
use std::alloc::AllocError;

/// Gives the waiting files the UIDs from the next one on. `following` is the one after theirs.
pub(crate) fn admit(
    store: &mut MemStore,
    waiting: &mut Vec<Message>,
    following: u32,
) -> Result<(), AllocError>
    requires following { following ≡ store.old.next + length waiting.old.items }
    ensures ok { OnOk result (near_of store.new waiting.new.items ≡ all_admitted (near_of store.old waiting.old.items)) }
    ensures unsynced { OnOk result (store.new.is_synced ≡ false) }
    ensures err { OnErr result (near_of store.new waiting.new.items ≡ near_of store.old waiting.old.items) }
{
    number_files(waiting, store.next);
    store.messages.append(waiting)?;
    store.next = following;
    store.is_synced = false;
    Ok(())
}

/// The UID after so many from this one on, if it is one of 32 bits.
pub(crate) fn above(first: u32, count: usize) -> Option<u32>
    ensures { MatchOption result (2 ^ 32 ≤ first + count) (λ next. next ≡ first + count) }
{
    first.checked_add(u32::try_from(count).ok()?)
}

/// Gives files the UIDs from this one on.
fn number_files(files: &mut Vec<Message>, next: u32)
    requires positive { 0 < next }
    requires within { next + length files.old.items < 2 ^ 32 }
    ensures { files.new.items ≡ numbered next (map waiting_of files.old.items) }
{
    number(files, next);
}

fn number(messages: &mut [Message], next: u32)
    requires positive { 0 < next }
    requires within { next + length messages.old < 2 ^ 32 }
    ensures { messages.new ≡ numbered next (map waiting_of messages.old) }
{
    if let Some((first, rest)) = messages.split_first_mut() {
        let Some(uid) = Uid::new(next) else {
            unreachable!()
        };
        first.uid = uid;
        number(rest, next + 1);
    }
}
