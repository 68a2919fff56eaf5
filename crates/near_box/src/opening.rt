//! How the near mailbox over a folder is opened, closed and opened again.

ghost use Rattle.std.specs.Prelude.{◌≡◌, true, false, length, IfErr, IfOk, OnOk};
ghost use Rattle.std.specs.Int.NonZero.{non_zero_u32_get};
ghost use Rattle.device.specs.Calls.{Reopens};
ghost use Rattle.maildir.specs.Gains.{Adds};
ghost use Rattle.near_box.specs.Mailboxes.{IsMailbox};
ghost use Rattle.near_box.specs.NearCalls.{Looks, Opens};
ghost use Rattle.near_box.specs.NearContracts.{ReportsOf, ReportsWhy};

use crate::near_box::NearBox;
use crate::near_fault::NearFault;
use crate::survey::{Survey, survey_of};
use device::history::History;
use mailcore::keywords::Keywords;
use maildir::folder::Folder;
use std::alloc::Global;
use std::num::NonZeroU32;

impl<F: Folder> NearBox<F> {
    ghost use Rattle.near_box.specs.Boxes.{seen_in, stored_in};

    /// The mailbox of a folder, whose validity is `fresh` where it has no meta file, with the flags that have a name by a map of keywords.
    /// It reads the folder and changes nothing; others may have added files. Beside a fault the folder comes back.
    ///
    /// Faults: `Stopped` and `NoMemory`, and the first that holds of `Absent`, `TwoWithOneUid` and `BadMeta`.
    pub fn open(
        alloc: Global,
        folder: F,
        fresh: NonZeroU32,
        keywords: Keywords,
    ) -> Result<NearBox<F>, (NearFault, F)>
        ensures opens { Opens (λ near. F.seen near.folder) F.seen (F.seen folder) result }
        ensures was_honest { IfOk result (λ near. F.honest near.folder → F.honest folder) }
        ensures adds { IfOk result (λ near. F.honest near.folder → Adds F.visitors (F.seen folder).stored (F.seen near.folder).stored) }
        ensures ready { IfOk result (λ near. (near.is_ready ≡ true) × (near.fresh ≡ non_zero_u32_get fresh) × (length near.missed.items ≡ 0)) }
        ensures keywords { IfOk result (λ near. near.keywords ≡ keywords) }
        ensures mailbox { IfOk result (λ near. F.honest near.folder → IsMailbox (non_zero_u32_get fresh) (F.seen near.folder).stored) }
        ensures handed_honest { IfErr result (λ f. F.honest f.1 → F.honest folder) }
        ensures handed_adds { IfErr result (λ f. F.honest f.1 → Adds F.visitors (F.seen folder).stored (F.seen f.1).stored) }
        ensures refused { IfErr result (λ f. F.honest f.1 → ReportsWhy (non_zero_u32_get fresh) (F.seen f.1).stored f.0) }
    {
        let mut folder = folder;
        match survey_of(alloc, &mut folder, fresh) {
            Ok(survey) => Ok(NearBox {
                alloc,
                folder,
                fresh: fresh.get(),
                keywords,
                survey,
                body: Vec::new(alloc),
                missed: History::new(),
                is_ready: true,
            }),
            Err(fault) => Err((fault, folder)),
        }
    }

    /// The mailbox of a folder, closed. Its validity is `fresh` where the folder has no meta file, and its flags are those that have a name
    /// by this map. The folder is not called.
    pub fn closed(alloc: Global, folder: F, fresh: NonZeroU32, keywords: Keywords) -> NearBox<F>
        ensures folder { result.folder ≡ folder }
        ensures fresh { result.fresh ≡ non_zero_u32_get fresh }
        ensures keywords { result.keywords ≡ keywords }
        ensures closed { (result.is_ready ≡ false) × (length result.missed.items ≡ 0) }
    {
        NearBox {
            alloc,
            folder,
            fresh: fresh.get(),
            keywords,
            survey: Survey::none(alloc, fresh),
            body: Vec::new(alloc),
            missed: History::new(),
            is_ready: false,
        }
    }

    /// Opens the mailbox, anew where it is open, with the validity `fresh` where the folder has no meta file. It reads the folder and
    /// changes nothing; others may have added files. Beside a fault the mailbox is closed.
    ///
    /// Faults: `Stopped` and `NoMemory`, and the first that holds of `Absent`, `TwoWithOneUid` and `BadMeta`.
    pub fn enter(&mut self, fresh: NonZeroU32) -> Result<(), NearFault>
        ensures was_honest { F.honest self.new.folder → F.honest self.old.folder }
        ensures looks { Looks (seen_in self.old) (seen_in self.new) result }
        ensures adds { F.honest self.new.folder → Adds F.visitors (stored_in self.old) (stored_in self.new) }
        ensures ready { OnOk result (self.new.is_ready ≡ true) }
        ensures closed { IfErr result (λ _. self.new.is_ready ≡ false) }
        ensures fresh { self.new.fresh ≡ non_zero_u32_get fresh }
        ensures keywords { self.new.keywords ≡ self.old.keywords }
        ensures missed { self.new.missed ≡ self.old.missed }
        ensures mailbox { F.honest self.new.folder → ReportsOf (non_zero_u32_get fresh) (stored_in self.new) result }
    {
        self.is_ready = false;
        self.fresh = fresh.get();
        self.survey = survey_of(self.alloc, &mut self.folder, fresh)?;
        self.is_ready = true;
        Ok(())
    }

    /// Closes the mailbox, and opens its folder again: its calls are answered again.
    pub fn reopen(&mut self)
        ensures was_honest { F.honest self.new.folder → F.honest self.old.folder }
        ensures folder { Reopens (seen_in self.old) (seen_in self.new) }
        ensures closed { self.new.is_ready ≡ false }
        ensures fresh { self.new.fresh ≡ self.old.fresh }
        ensures keywords { self.new.keywords ≡ self.old.keywords }
        ensures missed { self.new.missed ≡ self.old.missed }
    {
        self.is_ready = false;
        self.folder.reopen();
    }

    /// Gives the folder back, without taking memory.
    pub fn into_folder(self) -> F
        ensures { result ≡ self.folder }
    {
        self.folder
    }
}
