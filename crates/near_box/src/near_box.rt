//! The near mailbox over a folder.

ghost use Rattle.std.specs.Prelude.{◌≡◌, ◌≢◌, ◌↔◌, ◌<◌, ◌+◌, ◌^◌, ◌∷◌, [], true, false, length, vec_len, slice_get};
ghost use Rattle.std.specs.Prelude.{All, Some, None, IsErrOf, if◌then◌else◌, IfOk, OnOk};
ghost use Rattle.near_box.specs.declared.survey.SurveyEntry.{SurveyEntry};
ghost use Rattle.device.specs.Calls.{Nothing};
ghost use Rattle.std.specs.Option.{option_map};
ghost use Rattle.mailcore.specs.FlagSet.{DELETED, has, union, minus};
ghost use Rattle.mailcore.specs.KeywordNames.{kept};
ghost use Rattle.mailcore.specs.Operations.{Shows, ShowsSparing, bytes_of, expunged, flagged, flags_added, flags_removed, marked_from};
ghost use Rattle.mailcore.specs.CopyPieces.{text_left};
ghost use Rattle.mailcore.specs.Spared.{spares};
ghost use Rattle.near_box.specs.Entries.{AreSpared, IsUnmarked, asked};
ghost use Rattle.near_box.specs.FlagChanges.{changed_flags, kept_change};
ghost use Rattle.mailcore.specs.Mailboxes.{on_store, delivered, ExpungesSome, SetsAside};
ghost use Rattle.near_box.specs.Mailboxes.{IsMailbox, IsMetaOf, meta_at};
ghost use Rattle.maildir.specs.Folders.{with_meta};
ghost use Rattle.maildir.specs.Metas.{meta_text};
ghost use Rattle.near_box.specs.NearEffects.{flagged_files, without_uids, RemovesSome, AppendsPart, appended};
ghost use Rattle.near_box.specs.NearEffects.{copy_name as copy_name_of, file_of, name_flagged, raised, set_name};
ghost use Rattle.near_box.specs.NearCalls.{Part, Ends};
ghost use Rattle.near_box.specs.Surveys.{Surveys, Extends, entry_at};
ghost use Rattle.std.proofs.Props.{props};

use crate::flag_change::FlagChange;
use crate::near_calls::{copy_name, flags_of, is_deleted, location, place_of, set_name};
use crate::near_fault::NearFault;
use crate::reading::{find_mark, find_message, listed};
use crate::survey::{Survey, SurveyEntry};
use device::history::History;
use device::whose::Whose;
use mailcore::copy_pieces::CopyPieces;
use mailcore::flags::Flags;
use mailcore::keywords::Keywords;
use mailcore::listing::Listing;
use mailcore::octets::Octets;
use mailcore::side::Side;
use mailcore::spared::Spared;
use mailcore::tuid::Tuid;
use mailcore::uid::Uid;
use maildir::folder::{Folder, Location, Origin, Place};
use maildir::meta::Meta;
use std::alloc::Global;

/// The mailbox that stands in a folder: closed, or open.
///
/// Of a closed one every call but `enter` and `reopen` answers `Stopped`. So does that of an open one after `Stopped` and `NoMemory`,
/// until `reopen` and `enter`, or the folder's `reopen` and a new `open`; after other faults it goes on.
#[derive(Drop)]
pub struct NearBox<F: Folder> {
    pub(crate) alloc: Global,
    pub(crate) folder: F,
    pub(crate) fresh: u32,
    // The names of the flags that its messages have.
    pub(crate) keywords: Keywords,
    pub(crate) survey: Survey,
    pub(crate) body: Vec<u8>,
    // An item for each file that stood in the folder and was gone when it was to be read.
    pub(crate) missed: History<()>,
    pub(crate) is_ready: bool,
    pub ghost is_whole: { is_ready ≡ true → (F.seen folder).is_broken ≡ false },
    pub ghost has_numbers: { (0 < survey.meta.validity) × (0 < survey.meta.next) },
    pub ghost has_fresh: { (0 < fresh) × (fresh < 2 ^ 32) },
    pub ghost surveys: { is_ready ≡ true → F.honest folder → Surveys survey fresh keywords (F.seen folder).stored } by { Prim.hlevel props },
}

impl<F: Folder> NearBox<F> {
    ghost use Rattle.std.specs.Prelude.{⊤};
    ghost use mathlib.Core.Option.{none};
    ghost use Rattle.std.specs.Borrow.{sem, follows_so};
    ghost use Rattle.near_box.specs.Boxes.{TurnsFiles, TurnsMailbox, box_of, mailbox_of, seen_in, stored_in};
    ghost use Rattle.near_box.specs.contracts.near_box.NearBox.{the_row};

    /// The validity of the mailbox and its next UID.
    pub fn meta(&self) -> Meta
        ensures mailbox { F.honest self.now.folder → self.now.is_ready ≡ true → IsMetaOf (mailbox_of self.now).store result }
        ensures positive { (0 < result.validity) × (0 < result.next) }
    {
        self.survey.meta
    }

    /// What the mailbox lists: one `read` for each message.
    ///
    /// `Stopped`: the file of a message is gone, too.
    pub fn list(&mut self) -> Result<Listing, NearFault>
        ensures was_honest { F.honest self.new.folder → F.honest self.old.folder }
        ensures shows { F.honest self.new.folder → IfOk result (λ listing. Shows Side.Near (mailbox_of self.old).store listing) }
        ensures numbers { IfOk result (λ listing. (0 < listing.validity) × (0 < listing.next)) }
        ensures keeps { F.honest self.new.folder
            → (stored_in self.new ≡ stored_in self.old) × (length self.new.missed.items ≡ length self.old.missed.items) }
        ensures ends { Ends false (box_of self.old) (box_of self.new) result }
    {
        self.list_sparing(&Spared::none(self.alloc))
    }

    /// The same, where those that are spared are said to be fit and are not read: where there are no others, the folder is not called.
    pub fn list_sparing(&mut self, spared: &Spared) -> Result<Listing, NearFault>
        ensures was_honest { F.honest self.new.folder → F.honest self.old.folder }
        ensures shows { F.honest self.new.folder
            → IfOk result (λ listing. ShowsSparing Side.Near (spares spared.now) (mailbox_of self.old).store listing) }
        ensures numbers { IfOk result (λ listing. (0 < listing.validity) × (0 < listing.next)) }
        ensures keeps { F.honest self.new.folder
            → (stored_in self.new ≡ stored_in self.old) × (length self.new.missed.items ≡ length self.old.missed.items) }
        ensures asked { F.honest self.new.folder → OnOk result (F.reads self.new.folder
            ≡ F.reads self.old.folder + length (asked (spares spared.now) (mailbox_of self.old).store.messages)) }
        ensures untouched { AreSpared (spares spared.now) self.old.survey.entries.items → self.new.folder ≡ self.old.folder }
        ensures known { F.honest self.new.folder
            → asked (spares spared.now) (mailbox_of self.old).store.messages ≡ [] → self.new.folder ≡ self.old.folder }
        ensures ends { Ends false (box_of self.old) (box_of self.new) result }
    {
        self.begin()?;
        let items = match listed(
            self.alloc,
            &mut self.folder,
            &self.survey.entries,
            spared,
            &self.keywords,
        ) {
            Ok(items) => items,
            Err(fault) => return Err(self.failed(fault)),
        };
        self.is_ready = true;
        Ok(Listing {
            validity: self.survey.meta.validity,
            next: self.survey.meta.next,
            items,
        })
    }

    /// The bytes of a message, or none where it is not there. They are lent until the next call.
    pub fn fetch(&mut self, uid: Uid) -> Result<Option<&[u8]>, NearFault>
        ensures* following { sem 𝓛 (follows_so (the_row F.row F.Folder) (the_row F.row F.Folder) self.entry.ghost_name none (λ _ _. ⊤)
            (λ after. (F.honest after.folder → F.honest self.old.folder)
            × (F.honest after.folder → IfOk result (λ found. option_map (λ b. b.now) found ≡ bytes_of uid (mailbox_of self.old).store))
            × (F.honest after.folder → (stored_in after ≡ stored_in self.old) × (length after.missed.items ≡ length self.old.missed.items))
            × Ends false (box_of self.old) (box_of after) result)) }
    {
        if self.load(uid)? {
            Ok(Some(self.body()))
        } else {
            Ok(None)
        }
    }

    /// Reads the bytes of a message, which `body` then lends, and says whether it is there.
    pub fn load(&mut self, uid: Uid) -> Result<bool, NearFault>
        ensures was_honest { F.honest self.new.folder → F.honest self.old.folder }
        ensures bytes { F.honest self.new.folder
            → IfOk result (λ is_there. bytes_of uid (mailbox_of self.old).store ≡ (if is_there then Some self.new.body.items else None)) }
        ensures keeps { F.honest self.new.folder
            → (stored_in self.new ≡ stored_in self.old) × (length self.new.missed.items ≡ length self.old.missed.items) }
        ensures ends { Ends false (box_of self.old) (box_of self.new) result }
    {
        self.begin()?;
        let found = match find_message(&mut self.folder, &self.survey.entries, uid) {
            Ok(found) => found,
            Err(fault) => return Err(self.failed(fault)),
        };
        self.is_ready = true;
        match found {
            Some(bytes) => {
                self.body = bytes;
                Ok(true)
            }
            None => Ok(false),
        }
    }

    /// The bytes that `load` read last.
    pub fn body(&self) -> &[u8]
        ensures { result.now ≡ self.now.body.items }
    {
        self.body.as_slice()
    }

    /// The least UID of at least `from` whose message has the mark: one `read` for each message from there on whose mark is not known.
    pub fn find_mark(&mut self, mark: Tuid, from: u32) -> Result<Option<Uid>, NearFault>
        ensures was_honest { F.honest self.new.folder → F.honest self.old.folder }
        ensures found { F.honest self.new.folder → IfOk result (λ found. found ≡ marked_from mark from (mailbox_of self.old).store) }
        ensures keeps { F.honest self.new.folder
            → (stored_in self.new ≡ stored_in self.old) × (length self.new.missed.items ≡ length self.old.missed.items) }
        ensures ends { Ends false (box_of self.old) (box_of self.new) result }
    {
        self.begin()?;
        let survey = &mut self.survey;
        let found = match find_mark(
            &mut self.folder,
            &survey.entries,
            &mut survey.marks,
            mark,
            from,
        ) {
            Ok(found) => found,
            Err(fault) => return Err(self.failed(fault)),
        };
        self.is_ready = true;
        Ok(found)
    }

    /// Sets these flags of a message, those of them that have a name by the map: one `rename`, or none where the name stays or the message
    /// is not there. Letters that stand for no such flag stay in the name of its file.
    pub fn add_flags(&mut self, uid: Uid, flags: Flags) -> Result<(), NearFault>
        ensures was_honest { F.honest self.new.folder → F.honest self.old.folder }
        ensures files { F.honest self.new.folder
            → TurnsFiles (flagged_files self.old.keywords (λ f. union f flags) uid) Nothing self.old self.new result }
        ensures effect { F.honest self.new.folder
            → TurnsMailbox (on_store (flags_added uid (kept self.old.keywords flags))) Nothing self.old self.new result }
        ensures mailbox { F.honest self.new.folder → IsMailbox self.old.fresh (stored_in self.old) → IsMailbox self.old.fresh (stored_in self.new) }
        ensures untouched { F.honest self.new.folder
            → flagged_files self.old.keywords (λ f. union f flags) uid (stored_in self.old) ≡ stored_in self.old
            → seen_in self.new ≡ seen_in self.old }
        ensures ends { Ends false (box_of self.old) (box_of self.new) result }
    {
        self.change_flags(uid, FlagChange::Add(flags))
    }

    /// Clears these flags of a message, as `add_flags` sets them.
    pub fn remove_flags(&mut self, uid: Uid, flags: Flags) -> Result<(), NearFault>
        ensures was_honest { F.honest self.new.folder → F.honest self.old.folder }
        ensures files { F.honest self.new.folder
            → TurnsFiles (flagged_files self.old.keywords (λ f. minus f flags) uid) Nothing self.old self.new result }
        ensures effect { F.honest self.new.folder
            → TurnsMailbox (on_store (flags_removed uid (kept self.old.keywords flags))) Nothing self.old self.new result }
        ensures mailbox { F.honest self.new.folder → IsMailbox self.old.fresh (stored_in self.old) → IsMailbox self.old.fresh (stored_in self.new) }
        ensures untouched { F.honest self.new.folder
            → flagged_files self.old.keywords (λ f. minus f flags) uid (stored_in self.old) ≡ stored_in self.old
            → seen_in self.new ≡ seen_in self.old }
        ensures ends { Ends false (box_of self.old) (box_of self.new) result }
    {
        self.change_flags(uid, FlagChange::Remove(flags))
    }

    // Changes the flags of a message.
    fn change_flags(&mut self, uid: Uid, change: FlagChange) -> Result<(), NearFault>
        ensures was_honest { F.honest self.new.folder → F.honest self.old.folder }
        ensures files { F.honest self.new.folder
            → TurnsFiles (flagged_files self.old.keywords (changed_flags change) uid) Nothing self.old self.new result }
        ensures effect { F.honest self.new.folder
            → TurnsMailbox (on_store (flagged (changed_flags (kept_change self.old.keywords change)) uid)) Nothing
            self.old self.new result }
        ensures mailbox { F.honest self.new.folder → IsMailbox self.old.fresh (stored_in self.old) → IsMailbox self.old.fresh (stored_in self.new) }
        ensures untouched { F.honest self.new.folder
            → flagged_files self.old.keywords (changed_flags change) uid (stored_in self.old) ≡ stored_in self.old
            → seen_in self.new ≡ seen_in self.old }
        ensures ends { Ends false (box_of self.old) (box_of self.new) result }
    {
        self.begin()?;
        let Some(i) = place_of(&self.survey.entries, uid) else {
            self.is_ready = true;
            return Ok(());
        };
        let flags = change.of(flags_of(&self.survey.entries[i], &self.keywords));
        self.set_flags(i, flags)?;
        self.is_ready = true;
        Ok(())
    }

    /// Whether a message is there and marked as deleted, by the name of its file as it was surveyed, or as the box has renamed it since. The
    /// folder is not called.
    pub fn is_deleted(&self, uid: Uid) -> bool
        ensures marked { F.honest self.now.folder → self.now.is_ready ≡ true
            → All (λ m. m.uid ≡ uid → has m.flags DELETED ≡ result) (mailbox_of self.now).store.messages }
        ensures missing { F.honest self.now.folder → self.now.is_ready ≡ true → All (λ m. m.uid ≢ uid) (mailbox_of self.now).store.messages
            → result ≡ false }
        ensures unmarked { IsUnmarked self.now.keywords uid self.now.survey.entries.items → result ≡ false }
    {
        is_deleted(&self.survey.entries, uid, &self.keywords)
    }

    /// Removes messages: one `remove` for each that is there.
    pub fn expunge(&mut self, uids: &[Uid]) -> Result<(), NearFault>
        ensures was_honest { F.honest self.new.folder → F.honest self.old.folder }
        ensures files { F.honest self.new.folder → TurnsFiles (without_uids uids.now) (RemovesSome uids.now) self.old self.new result }
        ensures effect { F.honest self.new.folder → TurnsMailbox (on_store (expunged uids.now)) (ExpungesSome uids.now) self.old self.new result }
        ensures mailbox { F.honest self.new.folder → IsMailbox self.old.fresh (stored_in self.old) → IsMailbox self.old.fresh (stored_in self.new) }
        ensures untouched { F.honest self.new.folder → without_uids uids.now (stored_in self.old) ≡ stored_in self.old
            → seen_in self.new ≡ seen_in self.old }
        ensures ends { Ends false (box_of self.old) (box_of self.new) result }
    {
        self.begin()?;
        for uid in uids {
            self.expunge_one(*uid)?;
        }
        self.is_ready = true;
        Ok(())
    }

    /// Adds a copy with those of these flags that have a name by the map, and returns its UID: `write_tmp`, `replace_meta` one UID higher,
    /// and `rename` into `cur`.
    ///
    /// `UidsExhausted`: there is no UID left.
    pub fn append_copy(&mut self, copy: CopyPieces<'_>, flags: Flags) -> Result<Uid, NearFault>
        ensures was_honest { F.honest self.new.folder → F.honest self.old.folder }
        ensures uid { F.honest self.new.folder → IfOk result (λ uid. uid ≡ (mailbox_of self.old).store.next) }
        ensures exhausted { F.honest self.new.folder
            → IsErrOf result NearFault.UidsExhausted ↔ ((self.old.is_ready ≡ true) × ((mailbox_of self.old).store.next + 1 ≡ 2 ^ 32)) }
        ensures effect { F.honest self.new.folder
            → TurnsMailbox (delivered (text_left copy.entry) (kept self.old.keywords flags)) SetsAside self.old self.new result }
        ensures files { F.honest self.new.folder → (let meta = meta_at self.old.fresh (stored_in self.old) in
            TurnsFiles (appended self.old.keywords meta (text_left copy.entry) flags) (AppendsPart meta (text_left copy.entry))
            self.old self.new result) }
        ensures mailbox { F.honest self.new.folder → IsMailbox self.old.fresh (stored_in self.old) → IsMailbox self.old.fresh (stored_in self.new) }
        ensures ends { Ends true (box_of self.old) (box_of self.new) result }
    {
        self.begin()?;
        let next = self.survey.meta.next;
        let Some(uid) = Uid::new(next) else {
            self.is_ready = true;
            return Err(NearFault::UidsExhausted);
        };
        self.deliver(uid, copy, flags)?;
        self.is_ready = true;
        Ok(uid)
    }

    /// Makes what was renamed, removed and replaced outlive a loss of power: one `sync` of the folder.
    pub fn sync(&mut self, whose: Whose) -> Result<(), NearFault>
        ensures was_honest { F.honest self.new.folder → F.honest self.old.folder }
        ensures synced { OnOk result (F.is_synced self.new.folder ≡ true) }
        ensures settled { OnOk result (whose ≡ Whose.All → F.is_settled self.new.folder ≡ true) }
        ensures keeps { F.honest self.new.folder
            → (stored_in self.new ≡ stored_in self.old) × (length self.new.missed.items ≡ length self.old.missed.items) }
        ensures ends { Ends false (box_of self.old) (box_of self.new) result }
    {
        self.begin()?;
        self.folder.sync(whose)?;
        self.is_ready = true;
        Ok(())
    }

    // Gives the message at this place of the list these flags.
    fn set_flags(&mut self, i: usize, flags: Flags) -> Result<(), NearFault>
        requires within { i < vec_len self.old.survey.entries }
        requires begun { self.old.is_ready ≡ false }
        requires surveyed { F.honest self.old.folder → Surveys self.old.survey self.old.fresh self.old.keywords (stored_in self.old) }
        ensures was_honest { F.honest self.new.folder → F.honest self.old.folder }
        ensures effect { F.honest self.new.folder → (entry : SurveyEntry) → slice_get self.old.survey.entries.items i ≡ Some entry
            → TurnsFiles (set_name (file_of entry) (name_flagged self.old.keywords entry.name flags)) Nothing self.old self.new result }
        ensures untouched { (entry : SurveyEntry) → slice_get self.old.survey.entries.items i ≡ Some entry
            → name_flagged self.old.keywords entry.name flags ≡ None → seen_in self.new ≡ seen_in self.old }
        ensures surveys { F.honest self.new.folder → OnOk result (Surveys self.new.survey self.new.fresh self.new.keywords (stored_in self.new)) }
        ensures part { Part (seen_in self.old) (seen_in self.new) result }
        ensures failed { (self.new.is_ready ≡ self.old.is_ready) × (self.new.fresh ≡ self.old.fresh) × (self.new.missed ≡ self.old.missed) }
        ensures keywords { self.new.keywords ≡ self.old.keywords }
    {
        let Some(name) = set_name(
            self.alloc,
            &mut self.folder,
            &self.survey.entries[i],
            flags,
            &self.keywords,
        )?
        else {
            return Ok(());
        };
        let entry = &mut self.survey.entries[i];
        entry.place = Place::Cur;
        entry.name = Octets::from_vec(name);
        Ok(())
    }

    // Removes the message with this UID, if it is there.
    fn expunge_one(&mut self, uid: Uid) -> Result<(), NearFault>
        requires begun { self.old.is_ready ≡ false }
        requires surveyed { F.honest self.old.folder → Surveys self.old.survey self.old.fresh self.old.keywords (stored_in self.old) }
        ensures was_honest { F.honest self.new.folder → F.honest self.old.folder }
        ensures untouched { All (λ entry. entry.uid ≢ uid) self.old.survey.entries.items → seen_in self.new ≡ seen_in self.old }
        ensures effect { F.honest self.new.folder → TurnsFiles (without_uids (uid ∷ [])) Nothing self.old self.new result }
        ensures surveys { F.honest self.new.folder → OnOk result (Surveys self.new.survey self.new.fresh self.new.keywords (stored_in self.new)) }
        ensures part { Part (seen_in self.old) (seen_in self.new) result }
        ensures failed { (self.new.is_ready ≡ self.old.is_ready) × (self.new.fresh ≡ self.old.fresh) × (self.new.missed ≡ self.old.missed) }
        ensures keywords { self.new.keywords ≡ self.old.keywords }
    {
        let Some(i) = place_of(&self.survey.entries, uid) else {
            return Ok(());
        };
        self.folder.remove(location(&self.survey.entries[i]))?;
        let _ = self.survey.entries.remove(i);
        Ok(())
    }

    // Writes a copy and gives it the name of this UID, which is the next one.
    fn deliver(&mut self, uid: Uid, copy: CopyPieces<'_>, flags: Flags) -> Result<(), NearFault>
        requires begun { self.old.is_ready ≡ false }
        requires next { uid ≡ self.old.survey.meta.next }
        ensures was_honest { F.honest self.new.folder → F.honest self.old.folder }
        ensures effect { F.honest self.new.folder → (let meta = self.old.survey.meta in
            TurnsFiles (appended self.old.keywords meta (text_left copy.entry) flags) (AppendsPart meta (text_left copy.entry))
            self.old self.new result) }
        ensures survey { OnOk result (let old = self.old.survey in
            Extends (entry_at uid (record { place = Place.Cur; name = copy_name_of self.old.keywords old.meta.validity uid flags }) ∷ [])
            old.waiting.items (raised old.meta 1) old self.new.survey) }
        ensures part { Part (seen_in self.old) (seen_in self.new) result }
        ensures failed { (self.new.is_ready ≡ self.old.is_ready) × (self.new.fresh ≡ self.old.fresh) × (self.new.missed ≡ self.old.missed) }
        ensures keywords { self.new.keywords ≡ self.old.keywords }
    {
        let validity = self.survey.meta.validity;
        let name = copy_name(self.alloc, validity, uid, flags, &self.keywords)?;
        self.survey.entries.reserve(1)?;
        self.folder.write_tmp(copy)?;
        self.raise_next(1)?;
        let to = Location {
            place: Place::Cur,
            name: &name,
        };
        self.folder.rename(Origin::Tmp, to)?;
        self.survey.entries.push(SurveyEntry {
            uid,
            place: Place::Cur,
            name: Octets::from_vec(name),
        })?;
        Ok(())
    }

    /// Replaces the meta file by one whose next UID is so much higher.
    pub(crate) fn raise_next(&mut self, count: u32) -> Result<(), NearFault>
        requires begun { self.old.is_ready ≡ false }
        requires fits { self.old.survey.meta.next + count < 2 ^ 32 }
        ensures was_honest { F.honest self.new.folder → F.honest self.old.folder }
        ensures effect { F.honest self.new.folder → TurnsFiles (with_meta (meta_text (raised self.old.survey.meta count))) Nothing self.old
            self.new result }
        ensures meta { OnOk result ((self.new.survey.meta ≡ raised self.old.survey.meta count) × (self.new.survey.has_meta ≡ true)) }
        ensures waiting { self.new.survey.waiting ≡ self.old.survey.waiting }
        ensures entries { self.new.survey.entries ≡ self.old.survey.entries }
        ensures marks { self.new.survey.marks ≡ self.old.survey.marks }
        ensures part { Part (seen_in self.old) (seen_in self.new) result }
        ensures failed { (self.new.is_ready ≡ self.old.is_ready) × (self.new.fresh ≡ self.old.fresh) × (self.new.missed ≡ self.old.missed) }
        ensures keywords { self.new.keywords ≡ self.old.keywords }
    {
        let meta = Meta {
            validity: self.survey.meta.validity,
            next: self.survey.meta.next + count,
        };
        let text = meta.text(self.alloc)?;
        self.folder.replace_meta(&text)?;
        self.survey.meta = meta;
        self.survey.has_meta = true;
        Ok(())
    }
}
