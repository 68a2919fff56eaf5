//! The near mailbox of a run.

ghost use Rattle.std.specs.Prelude.{◌≡◌, ◌+◌, true, false, length, slice_get, IfErr, IfOk, IsErrOf, OnOk};
ghost use Rattle.std.specs.Option.{option_map};
ghost use Rattle.std.specs.Int.NonZero.{non_zero_u32_get};
ghost use Rattle.outside.specs.FaultNumbers.{NEAR_UIDS_EXHAUSTED};

use crate::near_reported::{reported, reported_by};
use device::whose::Whose;
use mailcore::copy_pieces::CopyPieces;
use mailcore::flags::Flags;
use mailcore::keywords::Keywords;
use mailcore::listing::Listing;
use mailcore::spared::Spared;
use mailcore::tuid::Tuid;
use mailcore::uid::Uid;
use maildir::folder::Folder;
use near_box::NearBox;
use outside::box_fault::BoxFault;
use outside::mailbox::Mailbox;
use std::alloc::Global;
use std::num::NonZeroU32;

/// The mailbox that stands in a folder: closed, or open.
///
/// A stop is reported where a call of the folder stopped, and where a file is gone that stood in the folder when the mailbox was opened.
#[derive(Drop)]
pub struct NearSide<F: Folder> {
    near: NearBox<F>,
    // Its UIDVALIDITY where the folder has no meta file.
    fresh: NonZeroU32,
    is_open: bool,
    pub ghost same_fresh: { near.fresh ≡ non_zero_u32_get fresh },
}

impl<F: Folder> NearSide<F> {
    ghost use Rattle.near_box.specs.Mailboxes.{near_of, waiting_with};
    ghost use Rattle.mail_sides.specs.NearSides.{seen_of};

    /// The mailbox of this folder, closed. Its UIDVALIDITY is `fresh` where the folder has no meta file. By the map letters of file names
    /// stand for flags that have a name in IMAP. The folder is not called.
    pub fn new(alloc: Global, folder: F, fresh: NonZeroU32, keywords: Keywords) -> Self
        ensures folder { result.near.folder ≡ folder }
        ensures mailbox { (seen_of result).stored ≡ near_of (non_zero_u32_get fresh) keywords (F.seen folder).stored }
        ensures stops { (seen_of result).stops ≡ (F.seen folder).stops }
        ensures broken { (seen_of result).is_broken ≡ (F.seen folder).is_broken }
        ensures keywords { result.near.keywords ≡ keywords }
        ensures closed { result.is_open ≡ false }
    {
        NearSide {
            near: NearBox::closed(alloc, folder, fresh, keywords),
            fresh,
            is_open: false,
        }
    }

    /// How many files wait for a UID, where the mailbox is open.
    pub fn waiting_count(&self) -> usize
        ensures { F.honest self.now.near.folder → self.now.is_open ≡ true → (seen_of self.now).is_broken ≡ false
            → result ≡ length (seen_of self.now).stored.waiting }
    {
        self.near.waiting_count()
    }

    /// Reads the file that waits at this place, counted from 0 in the order in which `admit` gives UIDs: its bytes, which `waiting_body`
    /// then lends, and its flags. None: no file waits there. It stays waiting.
    pub fn read_waiting(&mut self, place: usize) -> Result<Option<Flags>, BoxFault>
        ensures was_honest { F.honest self.new.near.folder → F.honest self.old.near.folder }
        ensures file { F.honest self.new.near.folder → IfOk result (λ flags. slice_get (seen_of self.old).stored.waiting place
            ≡ option_map (waiting_with self.new.near.body.items) flags) }
        ensures keeps { F.honest self.new.near.folder → (seen_of self.new).stored ≡ (seen_of self.old).stored }
        ensures open { self.new.is_open ≡ self.old.is_open }
        ensures whole { OnOk result ((seen_of self.new).is_broken ≡ false) }
    {
        reported_by(self.near.read_waiting(place))
    }

    /// The bytes that `read_waiting` read last.
    pub fn waiting_body(&self) -> &[u8]
        ensures { result.now ≡ self.now.near.body.items }
    {
        self.near.body()
    }

    /// Its UIDVALIDITY where its folder has no meta file.
    pub fn fresh(&self) -> NonZeroU32
        ensures { result ≡ self.now.fresh }
    {
        self.fresh
    }

    /// Gives the folder back, without taking memory.
    pub fn into_folder(self) -> F
        ensures { result ≡ self.near.folder }
    {
        self.near.into_folder()
    }
}

impl<F: Folder + Drop> Mailbox for NearSide<F> {
    ghost use Rattle.std.specs.Prelude.{ℕ};
    ghost use Rattle.device.specs.Calls.{Nothing};
    ghost use Rattle.mailcore.specs.declared.side.Side.TheVariants.{Near};
    ghost use Rattle.near_box.specs.Boxes.{stored_in};
    ghost use Rattle.near_box.specs.Mailboxes.{IsMailbox};
    ghost use Rattle.mailcore.specs.KeywordNames.{kept};
    ghost use Rattle.mailcore.specs.Mailboxes.{SetsAside};
    ghost use Rattle.mailcore.specs.CopyPieces.{text_left};
    ghost use Rattle.mailcore.specs.Spared.{spares};
    ghost use Rattle.near_box.specs.Entries.{IsUnmarked, asked};
    ghost use Rattle.outside.specs.MailboxCalls.{IsPlain, Never};
    ghost use Rattle.outside.specs.MailboxOperations.{Answers, Appends, HasNumbers, IsCopyText, IsFull, Lists, ListsWithin, NoRoom, ReportsValidity, Turns, removed};
    ghost use Rattle.mail_sides.specs.NearSides.{Calls, CallsAdmit, Unfit, seen_of};

    ghost side = { Near };

    ghost honest = { λ side. F.honest side.near.folder };

    ghost ours = { F.visitors.ours };

    ghost alone = { F.visitors.alone };

    ghost seen = { seen_of };

    ghost is_open = { λ side. side.is_open };

    ghost body = { λ side. side.near.body.items };

    ghost keywords = { λ side. side.near.keywords };

    ghost ended = { λ _ _. ⊥ };

    ghost unfit = { Unfit };

    ghost is_synced = { λ side. F.is_synced side.near.folder };

    ghost is_settled = { λ side. F.is_settled side.near.folder };

    fn open(&mut self) -> Result<u32, BoxFault>
        requires whole { (seen_of self.old).is_broken ≡ false }
        ensures was_honest { F.honest self.new.near.folder → F.honest self.old.near.folder }
        ensures keywords { self.new.near.keywords ≡ self.old.near.keywords }
        ensures open { OnOk result (self.new.is_open ≡ true) }
        ensures mailbox { F.honest self.new.near.folder → OnOk result (IsMailbox (non_zero_u32_get self.old.fresh) (stored_in self.new.near)) }
        ensures call { Calls (λ fault _. Unfit self.old fault) (Answers ReportsValidity) Nothing self.old self.new result }
    {
        self.is_open = false;
        match self.near.enter(self.fresh) {
            Ok(()) => {
                self.is_open = true;
                Ok(self.near.meta().validity)
            }
            Err(fault) => Err(reported(fault)),
        }
    }

    fn list(&mut self, spared: &Spared) -> Result<Listing, BoxFault>
        requires whole { (seen_of self.old).is_broken ≡ false }
        requires open { self.old.is_open ≡ true }
        ensures was_honest { F.honest self.new.near.folder → F.honest self.old.near.folder }
        ensures keywords { self.new.near.keywords ≡ self.old.near.keywords }
        ensures open { self.new.is_open ≡ true }
        ensures numbers { IfOk result HasNumbers }
        ensures within { F.honest self.new.near.folder → IfOk result (ListsWithin self.old.near.keywords) }
        ensures asked { F.honest self.new.near.folder → OnOk result (F.reads self.new.near.folder
            ≡ F.reads self.old.near.folder + length (asked (spares spared.now) (seen_of self.old).stored.store.messages)) }
        ensures call { Calls Never (Answers (Lists Near F.visitors.alone 0 (spares spared.now))) Nothing self.old self.new result }
    {
        reported_by(self.near.list_sparing(spared))
    }

    fn find_mark(&mut self, mark: Tuid, from: u32) -> Result<Option<Uid>, BoxFault> {
        reported_by(self.near.find_mark(mark, from))
    }

    fn load(&mut self, uid: Uid) -> Result<bool, BoxFault> {
        reported_by(self.near.load(uid))
    }

    fn body(&self) -> &[u8] {
        self.near.body()
    }

    fn append_copy(&mut self, copy: CopyPieces<'_>, flags: Flags) -> Result<Option<Uid>, BoxFault>
        requires whole { (seen_of self.old).is_broken ≡ false }
        requires open { self.old.is_open ≡ true }
        requires copy { IsCopyText Near (text_left copy) }
        ensures was_honest { F.honest self.new.near.folder → F.honest self.old.near.folder }
        ensures keywords { self.new.near.keywords ≡ self.old.near.keywords }
        ensures open { self.new.is_open ≡ true }
        ensures full { F.honest self.new.near.folder → IsFull 1 (seen_of self.old).stored → IsErrOf result (BoxFault.Own NEAR_UIDS_EXHAUSTED) }
        ensures call { Calls (NoRoom Near (λ _. 1)) (Appends Near (text_left copy.entry) (kept self.old.near.keywords flags)) SetsAside
            self.old self.new result }
    {
        match self.near.append_copy(copy, flags) {
            Ok(uid) => Ok(Some(uid)),
            Err(fault) => Err(reported(fault)),
        }
    }

    fn add_flags(&mut self, uid: Uid, flags: Flags) -> Result<(), BoxFault> {
        reported_by(self.near.add_flags(uid, flags))
    }

    fn remove_flags(&mut self, uid: Uid, flags: Flags) -> Result<(), BoxFault> {
        reported_by(self.near.remove_flags(uid, flags))
    }

    fn expunge(&mut self, uid: Uid) -> Result<(), BoxFault>
        requires whole { (seen_of self.old).is_broken ≡ false }
        requires open { self.old.is_open ≡ true }
        ensures was_honest { F.honest self.new.near.folder → F.honest self.old.near.folder }
        ensures keywords { self.new.near.keywords ≡ self.old.near.keywords }
        ensures open { self.new.is_open ≡ true }
        ensures unmarked { IsUnmarked self.old.near.keywords uid self.old.near.survey.entries.items → self.new ≡ self.old }
        ensures call { Calls {T = Unit {0}} Never (λ _. Turns (removed uid)) Nothing self.old self.new result }
    {
        if self.near.is_deleted(uid) {
            reported_by(self.near.expunge(&[uid]))
        } else {
            Ok(())
        }
    }

    fn admit(&mut self) -> Result<(), BoxFault>
        requires whole { (seen_of self.old).is_broken ≡ false }
        requires open { self.old.is_open ≡ true }
        ensures was_honest { F.honest self.new.near.folder → F.honest self.old.near.folder }
        ensures keywords { self.new.near.keywords ≡ self.old.near.keywords }
        ensures open { self.new.is_open ≡ true }
        ensures full { F.honest self.new.near.folder → (let b = (seen_of self.old).stored in IsFull (length b.waiting) b)
            → IsErrOf result (BoxFault.Own NEAR_UIDS_EXHAUSTED) }
        ensures call { CallsAdmit self.old self.new result }
    {
        reported_by(self.near.admit())
    }

    fn sync(&mut self, whose: Whose) -> Result<(), BoxFault>
        requires whole { (seen_of self.old).is_broken ≡ false }
        ensures was_honest { F.honest self.new.near.folder → F.honest self.old.near.folder }
        ensures keywords { self.new.near.keywords ≡ self.old.near.keywords }
        ensures open { self.new.is_open ≡ self.old.is_open }
        ensures synced { OnOk result (self.old.is_open ≡ true → F.is_synced self.new.near.folder ≡ true) }
        ensures settled { OnOk result (self.old.is_open ≡ true → whose ≡ Whose.All → F.is_settled self.new.near.folder ≡ true) }
        ensures closed { self.old.is_open ≡ false → self.new ≡ self.old }
        ensures reported { IfErr result IsPlain }
        ensures call { Calls {T = Unit {0}} Never (λ _ b b'. b' ≡ b) Nothing self.old self.new result }
    {
        if !self.is_open {
            return Ok(());
        }
        reported_by(self.near.sync(whose))
    }

    fn reopen(&mut self) {
        self.is_open = false;
        self.near.reopen();
    }
}
