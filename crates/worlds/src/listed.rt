//! Worlds of whose mailboxes only the listings are kept: all that a plan is made of. So no message takes memory for its bytes.

ghost use Rattle.std.specs.Prelude.{◌≡◌, ◌+◌, ◌<◌, ◌≤◌, ◌++◌, ℕ, List, [], ◌∷◌, IfErr, IfOk, OnOk};
ghost use Rattle.std.specs.List.{join_with_byte};
ghost use Rattle.mailcore.specs.Content.{fit};
ghost use Rattle.mailcore.specs.KeywordNames.{IsWithin};
ghost use Rattle.worlds.specs.Admission.{item_under};
ghost use Rattle.worlds.specs.OptionsText.{IsHead};
ghost use Rattle.worlds.specs.Lines.{IsOf, IsUpTo};
ghost use Rattle.worlds.specs.ListedWorlds.{ListsFiles, ListsMailbox, ListsMailboxes, ListsWorld};
ghost use Rattle.worlds.specs.WorldText.{message_words};
ghost use Rattle.texts.specs.Lines.{line_count, line_ends};
ghost use Rattle.worlds.specs.Worlds.{AreListedNamed};

use crate::fault::WorldFault;
use crate::line::{pushed, take_line};
use crate::read::{read_end, read_nothing};
use crate::read_mailbox::{
    is_far, line_starts, read_bytes_into, read_numbers, split_file, split_message,
};
use crate::read_options::read_options;
use crate::read_state::read_state;
use mailcore::content::fit;
use mailcore::fault::PushFault;
use mailcore::flags::Flags;
use mailcore::keywords::Keywords;
use mailcore::listing::{Item, Items, Listing};
use mailcore::side::Side;
use mailcore::uid::Uid;
use rules::options::Options;
use rules::state::SyncState;
use std::alloc::Global;
use texts::lines::{Line, Lines};

/// A world as `World` is, with what its mailboxes list. Each near file that waited has its UID.
#[derive(Drop)]
pub struct ListedWorld {
    /// What the run may do.
    pub options: Options,
    /// What the far mailbox lists.
    pub far: Listing,
    /// What the near mailbox lists.
    pub near: Listing,
    /// What the last run recorded.
    pub state: SyncState,
}

/// The world that a text gives. Nothing may follow its line `end`.
pub fn read_listed_world(alloc: Global, text: &[u8]) -> Result<ListedWorld, WorldFault>
    ensures text { IfOk result (λ w. ListsWorld w text.now) }
    ensures head { IfOk result (λ w. (following : List ℕ) × IsHead w.options following text.now) }
    ensures far { IfOk result (λ w. AreListedNamed w.options.keywords w.far.items) }
    ensures near { IfOk result (λ w. AreListedNamed w.options.keywords w.near.items) }
    ensures fault { IfErr result (IsUpTo (line_ends text.now + 1)) }
{
    let mut lines = Lines::new(text);
    let options = read_options(alloc, &mut lines)?;
    let (far, near) = read_listings(alloc, &options.keywords, &mut lines)?;
    let state = read_state(alloc, &mut lines)?;
    read_end(&mut lines)?;
    read_nothing(&lines)?;
    Ok(ListedWorld {
        options,
        far,
        near,
        state,
    })
}

/// What the far and the near mailbox list.
fn read_listings(
    alloc: Global,
    keywords: &Keywords,
    lines: &mut Lines<'_>,
) -> Result<(Listing, Listing), WorldFault>
    ensures text { IfOk result (λ listings. ListsMailboxes lines.old.rest.now lines.new.rest.now listings.0 listings.1) }
    ensures far { IfOk result (λ listings. AreListedNamed keywords.now listings.0.items) }
    ensures near { IfOk result (λ listings. AreListedNamed keywords.now listings.1.items) }
    ensures count { line_count lines.new ≤ line_count lines.old }
    ensures fault { IfErr result (IsUpTo (line_count lines.old + 1)) }
{
    let mut bytes = Vec::new(alloc);
    let far = read_listing(alloc, Side::Far, keywords, &mut bytes, lines)?;
    let mut near = read_listing(alloc, Side::Near, keywords, &mut bytes, lines)?;
    admit_waiting(&mut near, keywords, &mut bytes, lines)?;
    Ok((far, near))
}

/// What the mailbox of a side lists, from the next lines. `bytes` holds those of one message after another.
fn read_listing(
    alloc: Global,
    side: Side,
    keywords: &Keywords,
    bytes: &mut Vec<u8>,
    lines: &mut Lines<'_>,
) -> Result<Listing, WorldFault>
    ensures text { IfOk result (ListsMailbox side lines.old.rest.now lines.new.rest.now) }
    ensures named { IfOk result (λ listing. AreListedNamed keywords.now listing.items) }
    ensures count { line_count lines.new ≤ line_count lines.old }
    ensures fault { IfErr result (IsUpTo (line_count lines.old + 1)) }
{
    let (mailbox_start, message_start) = line_starts(side);
    let line = take_line(lines, mailbox_start)?;
    let (validity, next) = read_numbers(line.text).ok_or(WorldFault::of(line))?;
    let mut items = Items::new(alloc);
    while let Some(line) = lines.take_if(message_start) {
        let item = read_item(side, keywords, bytes, line)?;
        if item.uid.get() >= next {
            return Err(WorldFault::of(line));
        }
        pushed(line, items.push(item))?;
    }
    Ok(Listing {
        validity,
        next,
        items,
    })
}

/// What a listing shows of the message of a line.
fn read_item(
    side: Side,
    keywords: &Keywords,
    bytes: &mut Vec<u8>,
    line: Line<'_>,
) -> Result<Item, WorldFault>
    ensures words { IfOk result (λ item.
        line.entry.text.now ≡ join_with_byte 32 (message_words (record { uid = item.uid; flags = item.flags; bytes = bytes.new.items }))) }
    ensures item { IfOk result (λ item. item.fit ≡ fit side bytes.new.items) }
    ensures named { IfOk result (λ item. IsWithin keywords.now item.flags) }
    ensures fault { IfErr result (IsOf line.entry.number) }
{
    let Some((uid, flags, text)) = split_message(line.text, keywords) else {
        return Err(WorldFault::of(line));
    };
    read_bytes_into(bytes, text, line)?;
    if side == Side::Far && !is_far(bytes) {
        return Err(WorldFault::of(line));
    }
    Ok(Item {
        uid,
        flags,
        fit: fit(side, bytes),
    })
}

/// Lists the near files of the next lines, which wait for a UID, under the next UIDs.
fn admit_waiting(
    near: &mut Listing,
    keywords: &Keywords,
    bytes: &mut Vec<u8>,
    lines: &mut Lines<'_>,
) -> Result<(), WorldFault>
    ensures text { OnOk result (ListsFiles lines.old.rest.now lines.new.rest.now near.old near.new) }
    ensures named { OnOk result (AreListedNamed keywords.now near.old.items → AreListedNamed keywords.now near.new.items) }
    ensures count { line_count lines.new ≤ line_count lines.old }
    ensures fault { IfErr result (IsUpTo (line_count lines.old + 1)) }
{
    while let Some(line) = lines.take_if(b"w ") {
        let Some((flags, text)) = split_file(line.text, keywords) else {
            return Err(WorldFault::of(line));
        };
        read_bytes_into(bytes, text, line)?;
        pushed(line, admit(near, flags, fit(Side::Near, bytes)))?;
    }
    Ok(())
}

/// Lists a waiting file under the next UID. `OutOfOrder`: no UID is left.
fn admit(near: &mut Listing, flags: Flags, fit: bool) -> Result<(), PushFault>
    ensures last { OnOk result (near.new.items ≡ near.old.items ++ item_under near.old.next flags fit ∷ []) }
    ensures next { OnOk result (near.new.next ≡ near.old.next + 1) }
    ensures validity { OnOk result (near.new.validity ≡ near.old.validity) }
{
    let uid = Uid::new(near.next).ok_or(PushFault::OutOfOrder)?;
    near.next = uid.get() + 1;
    near.items.push(Item { uid, flags, fit })
}
