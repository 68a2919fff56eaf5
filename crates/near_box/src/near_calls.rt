//! What calls of the near mailbox do to its folder, name by name.

ghost use Rattle.std.specs.Prelude.{◌≡◌, ◌≢◌, ◌<◌, ◌+◌, ◌^◌, false, None, All, length, IfSome, IfOk, SomeIff};
ghost use Rattle.std.specs.List.{HoldsAt};
ghost use Rattle.device.specs.Calls.{Nothing};
ghost use Rattle.mailcore.specs.FlagSet.{DELETED, has};
ghost use Rattle.near_box.specs.Entries.{AreRising, IsUnmarked};
ghost use Rattle.maildir.specs.Folders.{text_of, name_at, renamed_file};
ghost use Rattle.maildir.specs.FlaggedNames.{flags_by_name};
ghost use Rattle.near_box.specs.NearEffects.{name_flagged, copy_name, copy_base, set_name, file_of, admitted, name_admitted, Does};
ghost use Rattle.near_box.specs.NearCalls.{Part};

use crate::near_fault::NearFault;
use crate::survey::SurveyEntry;
use mailcore::flags::{Flag, Flags};
use mailcore::keywords::Keywords;
use mailcore::uid::Uid;
use maildir::folder::{FileName, Folder, Location, Origin, Place};
use maildir::letters::{flags_in, letters_with};
use maildir::name::{letters_in, read_name, spell};
use std::alloc::{AllocError, Global};
use texts::number::push_number;

/// Where a message's file stands.
pub fn location(entry: &SurveyEntry) -> Location<'_>
    ensures { name_at result ≡ file_of entry.now }
{
    Location {
        place: entry.place,
        name: entry.name.as_slice(),
    }
}

/// Where a waiting file stands.
pub fn waiting_at(file: &FileName) -> Location<'_>
    ensures { name_at result ≡ file.now }
{
    Location {
        place: file.place,
        name: file.name.as_slice(),
    }
}

/// Where the message with this UID is in the list.
pub fn place_of(entries: &[SurveyEntry], uid: Uid) -> Option<usize>
    ensures within { IfSome result (λ i. i < length entries.now) }
    ensures found { IfSome result (λ i. HoldsAt (λ entry. entry.uid ≡ uid) entries.now i) }
    ensures missing { AreRising entries.now → result ≡ None → All (λ entry. entry.uid ≢ uid) entries.now }
{
    entries
        .binary_search_by_key(&uid.get(), |entry| entry.uid.get())
        .ok()
}

/// The flags of a message: those of its letters that have a name in IMAP.
pub fn flags_of(entry: &SurveyEntry, keywords: &Keywords) -> Flags
    ensures { result ≡ flags_by_name keywords.now entry.now.name }
{
    named_flags(entry.name.as_slice(), keywords)
}

/// The flags of a file of this name: those of its letters that have a name in IMAP.
pub fn named_flags(name: &[u8], keywords: &Keywords) -> Flags
    ensures { result ≡ flags_by_name keywords.now name.now }
{
    flags_in(letters_in(name)).kept(keywords)
}

/// Whether a message is there and marked as deleted.
pub fn is_deleted(entries: &[SurveyEntry], uid: Uid, keywords: &Keywords) -> bool
    ensures marked { AreRising entries.now
        → All (λ entry. entry.uid ≡ uid → has (flags_by_name keywords.now entry.name) DELETED ≡ result) entries.now }
    ensures missing { All (λ entry. entry.uid ≢ uid) entries.now → result ≡ false }
    ensures unmarked { IsUnmarked keywords.now uid entries.now → result ≡ false }
{
    match place_of(entries, uid) {
        Some(i) => flags_of(&entries[i], keywords).has(Flag::Deleted),
        None => false,
    }
}

/// Gives the file of a message the name that these flags ask for, and returns that name, or none where its name stays.
pub fn set_name<F: Folder>(
    alloc: Global,
    folder: &mut F,
    entry: &SurveyEntry,
    flags: Flags,
    keywords: &Keywords,
) -> Result<Option<Vec<u8>>, NearFault>
    ensures was_honest { F.honest folder.new → F.honest folder.old }
    ensures part { Part (F.seen folder.old) (F.seen folder.new) result }
    ensures name { IfOk result (λ name. text_of name ≡ name_flagged keywords.now entry.now.name flags) }
    ensures untouched { name_flagged keywords.now entry.now.name flags ≡ None → F.seen folder.new ≡ F.seen folder.old }
    ensures effect { F.honest folder.new → Does (set_name (file_of entry.now) (name_flagged keywords.now entry.now.name flags))
        Nothing (F.seen folder.old).stored (F.seen folder.new).stored result }
{
    match renamed(alloc, entry, flags, keywords)? {
        Some(name) => {
            rename_to(folder, location(entry), Place::Cur, &name)?;
            Ok(Some(name))
        }
        None => Ok(None),
    }
}

/// Gives a waiting file the name with this UID, and returns that name.
pub fn admit_file<F: Folder>(
    alloc: Global,
    folder: &mut F,
    file: &FileName,
    uid: Uid,
) -> Result<Vec<u8>, NearFault>
    ensures was_honest { F.honest folder.new → F.honest folder.old }
    ensures part { Part (F.seen folder.old) (F.seen folder.new) result }
    ensures name { IfOk result (λ name. name.items ≡ name_admitted file.now.name uid) }
    ensures effect { F.honest folder.new
        → Does (renamed_file file.now (admitted file.now uid)) Nothing (F.seen folder.old).stored (F.seen folder.new).stored result }
{
    let name = name_with_uid(alloc, file.name.as_slice(), uid)?;
    rename_to(folder, waiting_at(file), file.place, &name)?;
    Ok(name)
}

/// Renames a file of `new` or `cur`.
pub fn rename_to<F: Folder>(
    folder: &mut F,
    from: Location<'_>,
    place: Place,
    name: &[u8],
) -> Result<(), NearFault>
    ensures was_honest { F.honest folder.new → F.honest folder.old }
    ensures part { Part (F.seen folder.old) (F.seen folder.new) result }
    ensures effect { F.honest folder.new → Does (renamed_file (name_at from.entry) (record { place = place; name = name.now }))
        Nothing (F.seen folder.old).stored (F.seen folder.new).stored result }
{
    folder.rename(Origin::Delivered(from), Location { place, name })?;
    Ok(())
}

/// The name of a message once it has these flags, or none where its name stays.
pub fn renamed(
    alloc: Global,
    entry: &SurveyEntry,
    flags: Flags,
    keywords: &Keywords,
) -> Result<Option<Vec<u8>>, AllocError>
    ensures { IfOk result (λ name. text_of name ≡ name_flagged keywords.now entry.now.name flags) }
{
    let Some(name) = read_name(entry.name.as_slice()) else {
        return Ok(None);
    };
    let before = name.letters.unwrap_or(b"");
    let letters = letters_with(alloc, before, flags, keywords)?;
    let text = spell(alloc, name.base, name.uid, Some(&letters))?;
    if text.as_slice() == entry.name.as_slice() {
        Ok(None)
    } else {
        Ok(Some(text))
    }
}

/// The name of a waiting file once it has this UID.
pub fn name_with_uid(alloc: Global, name: &[u8], uid: Uid) -> Result<Vec<u8>, AllocError>
    ensures { IfOk result (λ text. text.items ≡ name_admitted name.now uid) }
{
    match read_name(name) {
        Some(parts) => spell(alloc, parts.base, Some(uid), parts.letters),
        None => Vec::from_slice(alloc, name),
    }
}

/// The name of a copy: the validity, the UID and `mbsync` are its base.
pub fn copy_name(
    alloc: Global,
    validity: u32,
    uid: Uid,
    flags: Flags,
    keywords: &Keywords,
) -> Result<Vec<u8>, AllocError>
    ensures { IfOk result (λ name. name.items ≡ copy_name keywords.now validity uid flags) }
{
    let base = copy_base(alloc, validity, uid)?;
    let letters = letters_with(alloc, b"", flags, keywords)?;
    spell(alloc, &base, Some(uid), Some(&letters))
}

/// The base of that name.
pub fn copy_base(alloc: Global, validity: u32, uid: Uid) -> Result<Vec<u8>, AllocError>
    ensures { IfOk result (λ base. base.items ≡ copy_base validity uid) }
{
    let mut base = Vec::new(alloc);
    push_number(&mut base, u64::from(validity))?;
    base.extend_from_slice(b".")?;
    push_number(&mut base, u64::from(uid.get()))?;
    base.extend_from_slice(b".mbsync")?;
    Ok(base)
}

/// How many files wait, if as many UIDs are left from this next one on.
pub fn room_for(waiting: usize, next: u32) -> Option<u32>
    ensures { SomeIff result (next + waiting < 2 ^ 32) waiting }
{
    match u32::try_from(waiting) {
        Ok(count) if count <= u32::MAX - next => Some(count),
        _ => None,
    }
}
