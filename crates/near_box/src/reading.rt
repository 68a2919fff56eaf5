//! What calls of the near mailbox read of the files of its messages. A file that stood there when the mailbox was opened
//! and is gone is a fault, so that nothing is taken for removed that was renamed.

ghost use Rattle.std.specs.Prelude.{◌≡◌, ◌≢◌, ◌<◌, ◌≤◌, ◌+◌, ℕ, List, All, true, false, [], ◌∷◌, ◌++◌, ◌⊎◌, map, nat_lt, IfOk, IfErr, OnOk};
ghost use Rattle.std.specs.List.{list_all};
ghost use Rattle.mailcore.specs.Content.{mark_of};
ghost use Rattle.mailcore.specs.Operations.{bytes_among, marked_among};
ghost use Rattle.mailcore.specs.Spared.{spares};
ghost use Rattle.maildir.specs.Folders.{text_of};
ghost use Rattle.near_box.specs.Entries.{AreRising, AreThere, AreThereUnless, IsThere, IsThereUnless, AreSpared};
ghost use Rattle.near_box.specs.Entries.{bytes_in, count_asked, message_at, item_at};
ghost use Rattle.near_box.specs.KnownMarks.{AreKnown, AreMarksAmong, AreMarksOfFile, IsMarkAmong, mark_at};
ghost use Rattle.mailcore.specs.declared.keywords.Keyword.{Keyword};
ghost use Rattle.mailcore.specs.declared.mailbox.Message.{Message};
ghost use Rattle.near_box.specs.NearCalls.{Reads};

use crate::known_mark::{KnownMark, KnownMarks, keep_mark, place_of_mark};
use crate::near_calls::{flags_of, location, place_of};
use crate::read_fault::ReadFault;
use crate::survey::SurveyEntry;
use device::DeviceFault;
use mailcore::content::fit;
use mailcore::copies::mark_of;
use mailcore::fault::PushFault;
use mailcore::keywords::Keywords;
use mailcore::listing::{Item, Items};
use mailcore::side::Side;
use mailcore::spared::Spared;
use mailcore::tuid::Tuid;
use mailcore::uid::Uid;
use maildir::folder::{Folder, Source};
use std::alloc::Global;

/// The bytes of a message.
pub fn read_message<F: Folder>(folder: &mut F, entry: &SurveyEntry) -> Result<Vec<u8>, ReadFault>
    ensures was_honest { F.honest folder.new → F.honest folder.old }
    ensures reads { Reads (F.seen folder.old) (F.seen folder.new) result }
    ensures keeps { F.honest folder.new → (F.seen folder.new).stored ≡ (F.seen folder.old).stored }
    ensures counted { F.honest folder.new → F.reads folder.new ≡ F.reads folder.old + 1 }
    ensures bytes { F.honest folder.new → IsThere (F.seen folder.old).stored entry.now
        → IfOk result (λ bytes. bytes.items ≡ bytes_in (F.seen folder.old).stored entry.now) }
    ensures there { F.honest folder.new → IsThere (F.seen folder.old).stored entry.now → result ≢ Err ReadFault.Gone }
{
    match folder.read(Source::Mail(location(entry)))? {
        Some(bytes) => Ok(bytes),
        None => Err(ReadFault::Gone),
    }
}

/// The bytes of the message with this UID, or none where it is not there.
pub fn find_message<F: Folder>(
    folder: &mut F,
    entries: &[SurveyEntry],
    uid: Uid,
) -> Result<Option<Vec<u8>>, ReadFault>
    ensures was_honest { F.honest folder.new → F.honest folder.old }
    ensures reads { Reads (F.seen folder.old) (F.seen folder.new) result }
    ensures keeps { F.honest folder.new → (F.seen folder.new).stored ≡ (F.seen folder.old).stored }
    ensures bytes { F.honest folder.new → (keywords : List Keyword) → AreRising entries.now → AreThere entries.now (F.seen folder.old).stored
        → IfOk result (λ bytes. text_of bytes ≡ bytes_among uid (map (message_at keywords (F.seen folder.old).stored) entries.now)) }
    ensures there { F.honest folder.new → AreThere entries.now (F.seen folder.old).stored → result ≢ Err ReadFault.Gone }
{
    match place_of(entries, uid) {
        Some(i) => Ok(Some(read_message(folder, &entries[i])?)),
        None => Ok(None),
    }
}

/// What the messages list. Those that are spared are said to be fit, and their files are not read, nor need they be there; each other one
/// is read once.
pub fn listed<F: Folder>(
    alloc: Global,
    folder: &mut F,
    entries: &[SurveyEntry],
    spared: &Spared,
    keywords: &Keywords,
) -> Result<Items, ReadFault>
    ensures was_honest { F.honest folder.new → F.honest folder.old }
    ensures reads { Reads (F.seen folder.old) (F.seen folder.new) result }
    ensures keeps { F.honest folder.new → (F.seen folder.new).stored ≡ (F.seen folder.old).stored }
    ensures shows { F.honest folder.new → AreRising entries.now → AreThereUnless (spares spared.now) entries.now (F.seen folder.old).stored
        → IfOk result (λ items. items ≡ map (item_at keywords.now (spares spared.now) (F.seen folder.old).stored) entries.now) }
    ensures there { F.honest folder.new → AreRising entries.now → AreThereUnless (spares spared.now) entries.now (F.seen folder.old).stored
        → result ≢ Err ReadFault.Gone }
    ensures counted { F.honest folder.new → OnOk result (F.reads folder.new ≡ F.reads folder.old + count_asked (spares spared.now) entries.now) }
    ensures untouched { AreSpared (spares spared.now) entries.now → folder.new ≡ folder.old }
{
    let mut items = Items::new(alloc);
    for entry in entries {
        let item = Item {
            uid: entry.uid,
            flags: flags_of(entry, keywords),
            fit: is_fit(folder, entry, spared)?,
        };
        push_item(&mut items, item)?;
    }
    Ok(items)
}

/// Whether a message is fit to be copied, asked where it is not spared.
fn is_fit<F: Folder>(
    folder: &mut F,
    entry: &SurveyEntry,
    spared: &Spared,
) -> Result<bool, ReadFault>
    ensures was_honest { F.honest folder.new → F.honest folder.old }
    ensures reads { Reads (F.seen folder.old) (F.seen folder.new) result }
    ensures keeps { F.honest folder.new → (F.seen folder.new).stored ≡ (F.seen folder.old).stored }
    ensures fit { F.honest folder.new → IsThereUnless (spares spared.now) (F.seen folder.old).stored entry.now → (keywords : List Keyword)
        → IfOk result (λ is. is ≡ (item_at keywords (spares spared.now) (F.seen folder.old).stored entry.now).fit) }
    ensures there { F.honest folder.new → IsThereUnless (spares spared.now) (F.seen folder.old).stored entry.now
        → result ≢ Err ReadFault.Gone }
    ensures counted { F.honest folder.new → F.reads folder.new ≡ F.reads folder.old + count_asked (spares spared.now) (entry.now ∷ []) }
    ensures untouched { spares spared.now entry.now.uid ≡ true → folder.new ≡ folder.old }
{
    if spared.has(entry.uid) {
        return Ok(true);
    }
    let bytes = read_message(folder, entry)?;
    Ok(fit(Side::Near, &bytes))
}

/// Adds an item after the others, which all have lower UIDs: the entries rise.
fn push_item(items: &mut Items, item: Item) -> Result<(), ReadFault>
    ensures pushed { OnOk result (items.new ≡ items.old ++ item ∷ []) }
    ensures fault { IfErr result (λ fault. (fault ≡ ReadFault.Device DeviceFault.NoMemory)
        ⊎ ((fault ≡ ReadFault.Gone) × (list_all (λ i. nat_lt i.uid item.uid) items.old ≡ false))) }
{
    match items.push(item) {
        Ok(()) => Ok(()),
        Err(PushFault::OutOfOrder) => Err(ReadFault::Gone),
        Err(PushFault::NoMemory) => Err(ReadFault::Device(DeviceFault::NoMemory)),
    }
}

/// The least UID of at least `from` whose message has the mark. A file is read if its mark is not known; then it is.
pub fn find_mark<F: Folder>(
    folder: &mut F,
    entries: &[SurveyEntry],
    known: &mut KnownMarks,
    mark: Tuid,
    from: u32,
) -> Result<Option<Uid>, ReadFault>
    ensures was_honest { F.honest folder.new → F.honest folder.old }
    ensures reads { Reads (F.seen folder.old) (F.seen folder.new) result }
    ensures keeps { F.honest folder.new → (F.seen folder.new).stored ≡ (F.seen folder.old).stored }
    ensures found { F.honest folder.new → AreThere entries.now (F.seen folder.old).stored → (next : ℕ) (keywords : List Keyword)
        → AreRising entries.now → All (λ e. e.uid < next) entries.now
        → AreKnown next (map (message_at keywords (F.seen folder.old).stored) entries.now) known.old
        → IfOk result (λ found. (found ≡ marked_among mark from (map (message_at keywords (F.seen folder.old).stored) entries.now))
        × AreKnown next (map (message_at keywords (F.seen folder.old).stored) entries.now) known.new) }
    ensures there { F.honest folder.new → AreThere entries.now (F.seen folder.old).stored → result ≢ Err ReadFault.Gone }
{
    known.passed.begin(mark, from);
    let below = known.passed.below;
    let first = entries.partition_point(|entry| entry.uid.get() < below);
    for entry in &entries[first..] {
        let found = known_mark(folder, entry, &mut known.by_uid)?;
        known.passed.pass(entry.uid, found)?;
        if found == Some(mark) {
            return Ok(Some(entry.uid));
        }
    }
    Ok(None)
}

/// The mark of a message, which is read unless it is known.
fn known_mark<F: Folder>(
    folder: &mut F,
    entry: &SurveyEntry,
    known: &mut Vec<KnownMark>,
) -> Result<Option<Tuid>, ReadFault>
    ensures was_honest { F.honest folder.new → F.honest folder.old }
    ensures reads { Reads (F.seen folder.old) (F.seen folder.new) result }
    ensures keeps { F.honest folder.new → (F.seen folder.new).stored ≡ (F.seen folder.old).stored }
    ensures mark { F.honest folder.new → IsThere (F.seen folder.old).stored entry.now
        → AreMarksOfFile (F.seen folder.old).stored entry.now known.old.items
        → IfOk result (λ mark. mark ≡ mark_of (bytes_in (F.seen folder.old).stored entry.now)) }
    ensures known { F.honest folder.new → IsThere (F.seen folder.old).stored entry.now → (next : ℕ) → (messages : List Message)
        → IsMarkAmong next messages (mark_at (F.seen folder.old).stored entry.now) → AreMarksAmong next messages known.old.items
        → OnOk result (AreMarksAmong next messages known.new.items) }
    ensures there { F.honest folder.new → IsThere (F.seen folder.old).stored entry.now → result ≢ Err ReadFault.Gone }
{
    let uid = entry.uid;
    match place_of_mark(known, uid) {
        Ok(i) => Ok(known[i].mark),
        Err(i) => {
            let mark = mark_of(&read_message(folder, entry)?);
            keep_mark(known, i, uid, mark)?;
            Ok(mark)
        }
    }
}
