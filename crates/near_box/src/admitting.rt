//! The files that wait for a UID get theirs, in their order.

ghost use Rattle.std.specs.Prelude.{◌≡◌, ◌↔◌, ◌<◌, ◌≤◌, ◌+◌, ◌^◌, ◌++◌, ◌∷◌, [], IsErrOf, IsTrue, OnOk, false, is_some, length, true, vec_len};
ghost use Rattle.device.specs.Calls.{Nothing};
ghost use Rattle.mailcore.specs.Mailboxes.{AdmitsSome, all_admitted};
ghost use Rattle.maildir.specs.Folders.{renamed_file};
ghost use Rattle.near_box.specs.Mailboxes.{IsMailbox, meta_at, waiting_names};
ghost use Rattle.near_box.specs.NearCalls.{Ends, Part};
ghost use Rattle.near_box.specs.NearEffects.{Admits, AdmitsIf, admitted, raised};
ghost use Rattle.near_box.specs.Surveys.{Extends, entries_from, entry_at};

use crate::near_box::NearBox;
use crate::near_calls::{admit_file, room_for};
use crate::near_fault::NearFault;
use crate::survey::SurveyEntry;
use mailcore::octets::Octets;
use mailcore::uid::Uid;
use maildir::folder::{FileName, Folder};

impl<F: Folder> NearBox<F> {
    ghost use Rattle.near_box.specs.Boxes.{TurnsFiles, TurnsMailbox, box_of, mailbox_of, seen_in, stored_in};

    /// Gives the waiting files their UIDs, in their order: if any waits or the meta file is missing, one `replace_meta`, and
    /// then one `rename` for each.
    ///
    /// `UidsExhausted`: there are fewer UIDs left than files wait.
    pub fn admit(&mut self) -> Result<(), NearFault>
        ensures was_honest { F.honest self.new.folder → F.honest self.old.folder }
        ensures exhausted { F.honest self.new.folder → IsErrOf result NearFault.UidsExhausted
            ↔ ((self.old.is_ready ≡ true) × (let n = mailbox_of self.old in 2 ^ 32 ≤ n.store.next + length n.waiting)) }
        ensures effect { F.honest self.new.folder → TurnsMailbox all_admitted AdmitsSome self.old self.new result }
        ensures files { F.honest self.new.folder → (let s = stored_in self.old in
            AdmitsIf (is_some s.meta) (waiting_names s) (meta_at self.old.fresh s) s (stored_in self.new) result) }
        ensures mailbox { F.honest self.new.folder → IsMailbox self.old.fresh (stored_in self.old) → IsMailbox self.old.fresh (stored_in self.new) }
        ensures untouched { F.honest self.new.folder → (mailbox_of self.old).waiting ≡ [] → IsTrue (is_some (stored_in self.old).meta)
            → seen_in self.new ≡ seen_in self.old }
        ensures ends { Ends true (box_of self.old) (box_of self.new) result }
    {
        self.begin()?;
        let Some(count) = room_for(self.survey.waiting.len(), self.survey.meta.next) else {
            self.is_ready = true;
            return Err(NearFault::UidsExhausted);
        };
        if count > 0 || !self.survey.has_meta {
            self.give_uids(count)?;
        }
        self.is_ready = true;
        Ok(())
    }

    // Gives the waiting files, of which there are so many, the next UIDs.
    fn give_uids(&mut self, count: u32) -> Result<(), NearFault>
        requires begun { self.old.is_ready ≡ false }
        requires count { count ≡ vec_len self.old.survey.waiting }
        requires fits { self.old.survey.meta.next + count < 2 ^ 32 }
        requires positive { 0 < self.old.survey.meta.next }
        ensures was_honest { F.honest self.new.folder → F.honest self.old.folder }
        ensures part { Part (seen_in self.old) (seen_in self.new) result }
        ensures failed { (self.new.is_ready ≡ self.old.is_ready) × (self.new.fresh ≡ self.old.fresh) × (self.new.missed ≡ self.old.missed) }
        ensures keywords { self.new.keywords ≡ self.old.keywords }
        ensures survey { OnOk result (let old = self.old.survey in
            Extends (entries_from old.meta.next old.waiting.items) [] (raised old.meta count) old self.new.survey) }
        ensures effect { F.honest self.new.folder → Admits self.old.survey.waiting.items self.old.survey.meta (stored_in self.old)
            (stored_in self.new) result }
    {
        let mut number = self.survey.meta.next;
        self.raise_next(count)?;
        let waiting = std::mem::replace(&mut self.survey.waiting, Vec::new(self.alloc));
        for file in &waiting {
            self.give_uid(number, file)?;
            number += 1;
        }
        Ok(())
    }

    // Gives a waiting file the UID with this number.
    fn give_uid(&mut self, number: u32, file: &FileName) -> Result<(), NearFault>
        requires begun { self.old.is_ready ≡ false }
        requires uid { (0 < number) × (number + 1 < 2 ^ 32) }
        ensures was_honest { F.honest self.new.folder → F.honest self.old.folder }
        ensures part { Part (seen_in self.old) (seen_in self.new) result }
        ensures failed { (self.new.is_ready ≡ self.old.is_ready) × (self.new.fresh ≡ self.old.fresh) × (self.new.missed ≡ self.old.missed) }
        ensures keywords { self.new.keywords ≡ self.old.keywords }
        ensures meta { (self.new.survey.meta ≡ self.old.survey.meta) × (self.new.survey.has_meta ≡ self.old.survey.has_meta) }
        ensures waiting { self.new.survey.waiting ≡ self.old.survey.waiting }
        ensures marks { self.new.survey.marks ≡ self.old.survey.marks }
        ensures entries { OnOk result (self.new.survey.entries.items
            ≡ self.old.survey.entries.items ++ entry_at number (admitted file.now number) ∷ []) }
        ensures effect { F.honest self.new.folder → TurnsFiles (renamed_file file.now (admitted file.now number)) Nothing self.old self.new result }
    {
        // A UID, by what the caller owes.
        let uid = Uid::new(number).unwrap();
        let name = admit_file(self.alloc, &mut self.folder, file, uid)?;
        self.survey.entries.push(SurveyEntry {
            uid,
            place: file.place,
            name: Octets::from_vec(name),
        })?;
        Ok(())
    }
}
