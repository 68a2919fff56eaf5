//! A mailbox in memory.

ghost use Rattle.std.specs.Prelude.{◌≡◌, ◌<◌, ◌^◌, false, true};
ghost use Rattle.std.specs.Option.{option_map};
ghost use Rattle.outside.specs.MailboxOperations.{body_if, is_full};
ghost use Rattle.mem_mailbox.specs.Named.{AreWithin};

use crate::admission::{above, admit};
use crate::box_condition::{BoxCall, BoxCondition};
use crate::kind::{BoxKind, OfFar, OfNear};
use crate::mem_store::{MemStore, name_flags};
use device::whose::Whose;
use mailcore::copy_pieces::CopyPieces;
use mailcore::flags::Flags;
use mailcore::keywords::Keywords;
use mailcore::listing::Listing;
use mailcore::mailbox::Message;
use mailcore::side::Side;
use mailcore::spared::Spared;
use mailcore::tuid::Tuid;
use mailcore::uid::Uid;
use outside::box_fault::BoxFault;
use outside::fault_number::NEAR_UIDS_EXHAUSTED;
use outside::mailbox::Mailbox;
use std::alloc::Global;
use std::marker::PhantomData;

/// A mailbox in memory, closed or open. Its calls stop, or are refused, as its condition says. Refusals of calls for which there is
/// room are what no server does that behaves as specified. It has those flags alone that have a name by its map of keywords.
#[derive(Drop)]
pub struct MemMailbox<K> {
    alloc: Global,
    store: MemStore,
    /// The files that wait for their UIDs, in their order. What stands there as a UID says nothing: each gets its own when it is
    /// admitted.
    waiting: Vec<Message>,
    /// The bytes that were loaded last.
    body: Vec<u8>,
    is_open: bool,
    condition: BoxCondition,
    keywords: Keywords,
    kind: PhantomData<K>,
    pub ghost within: { AreWithin keywords store.messages.items },
    pub ghost waiting_within: { AreWithin keywords waiting.items },
}

impl MemMailbox<OfFar> {
    ghost use Rattle.mem_mailbox.specs.MemMailboxes.{seen_at, seen_of};
    ghost use Rattle.mem_mailbox.specs.Named.{named};
    ghost use Rattle.mem_mailbox.specs.Views.{near_of};
    ghost use Rattle.std.specs.Prelude.{[]};

    /// The mailbox of a server with these messages, closed. A flag of theirs that has no name by this map is left out.
    pub fn far(alloc: Global, store: MemStore, condition: BoxCondition, keywords: Keywords) -> Self
        ensures seen { seen_of result ≡ seen_at (named keywords (near_of store [])) condition }
        ensures condition { result.condition ≡ condition }
        ensures keywords { result.keywords ≡ keywords }
        ensures closed { result.is_open ≡ false }
    {
        MemMailbox::closed(alloc, store, Vec::new(alloc), condition, keywords)
    }
}

impl MemMailbox<OfNear> {
    ghost use Rattle.mem_mailbox.specs.MemMailboxes.{seen_at, seen_of};
    ghost use Rattle.mem_mailbox.specs.Named.{named};
    ghost use Rattle.mem_mailbox.specs.Views.{near_of};

    /// The mailbox of a folder with these messages and files that wait, closed. What stands as the UID of a file that waits says
    /// nothing. A flag that has no name by this map is left out.
    pub fn near(
        alloc: Global,
        store: MemStore,
        waiting: Vec<Message>,
        condition: BoxCondition,
        keywords: Keywords,
    ) -> Self
        ensures seen { seen_of result ≡ seen_at (named keywords (near_of store waiting.items)) condition }
        ensures condition { result.condition ≡ condition }
        ensures keywords { result.keywords ≡ keywords }
        ensures closed { result.is_open ≡ false }
    {
        MemMailbox::closed(alloc, store, waiting, condition, keywords)
    }
}

impl<K> MemMailbox<K> {
    ghost use Rattle.std.specs.Prelude.{map};
    ghost use Rattle.mem_mailbox.specs.MemMailboxes.{seen_at, seen_of};
    ghost use Rattle.mem_mailbox.specs.Named.{named};
    ghost use Rattle.mem_mailbox.specs.Views.{near_of, store_of, waiting_of};

    fn closed(
        alloc: Global,
        store: MemStore,
        waiting: Vec<Message>,
        condition: BoxCondition,
        keywords: Keywords,
    ) -> Self
        ensures seen { seen_of result ≡ seen_at (named keywords (near_of store waiting.items)) condition }
        ensures condition { result.condition ≡ condition }
        ensures keywords { result.keywords ≡ keywords }
        ensures closed { result.is_open ≡ false }
    {
        let (mut store, mut waiting) = (store, waiting);
        name_flags(&mut store.messages, &keywords);
        name_flags(&mut waiting, &keywords);
        MemMailbox {
            alloc,
            store,
            waiting,
            body: Vec::new(alloc),
            is_open: false,
            condition,
            keywords,
            kind: PhantomData,
        }
    }

    /// Its messages, its UIDVALIDITY and its UIDNEXT.
    pub fn store(&self) -> &MemStore
        ensures { store_of result.now ≡ (seen_of self.now).stored.store }
    {
        &self.store
    }

    /// The files that wait, in their order. What stands as the UID of one says nothing.
    pub fn waiting(&self) -> &[Message]
        ensures { map waiting_of result.now ≡ (seen_of self.now).stored.waiting }
    {
        &self.waiting
    }

    /// By this map keywords have a letter.
    pub fn keywords(&self) -> &Keywords
        ensures { result.now ≡ self.now.keywords }
    {
        &self.keywords
    }

    /// How many calls have stopped, up to the top of its type.
    pub fn stop_count(&self) -> usize
        ensures { (seen_of self.now).stops < 2 ^ 64 → result ≡ (seen_of self.now).stops }
    {
        self.condition.stop_count()
    }
}

/// How a mailbox of this side says that no UID is left.
fn is_full(side: Side) -> BoxFault
    ensures { result ≡ is_full side }
{
    match side {
        Side::Far => BoxFault::Refused,
        Side::Near => BoxFault::Own(NEAR_UIDS_EXHAUSTED),
    }
}

/// Takes the bytes that were loaded, if there are some, and says whether there are.
fn keep(body: &mut Vec<u8>, loaded: Option<Vec<u8>>) -> bool
    ensures { option_map (λ bytes. bytes.items) loaded ≡ body_if result body.new.items }
{
    match loaded {
        Some(loaded) => {
            *body = loaded;
            true
        }
        None => false,
    }
}

impl<K: BoxKind + Drop> Mailbox for MemMailbox<K> {
    ghost use Rattle.mem_mailbox.specs.MemMailboxes.{seen_of};
    ghost use Rattle.mem_mailbox.specs.Views.{every};

    ghost side = { K.of };

    ghost honest = { λ m. m.condition.has_refused ≡ false };

    ghost ours = { every };

    ghost alone = { true };

    ghost keywords = { λ m. m.keywords };

    ghost seen = { seen_of };

    ghost is_open = { λ m. m.is_open };

    ghost body = { λ m. m.body.items };

    ghost ended = { λ _ _. ⊥ };

    ghost unfit = { λ _ _. ⊥ };

    ghost is_synced = { λ m. m.store.is_synced };

    ghost is_settled = { λ m. m.store.is_synced };

    fn open(&mut self) -> Result<u32, BoxFault> {
        let stops = self.condition.begin(BoxCall::Open)?;
        self.is_open = true;
        self.condition.end(stops, self.store.validity())
    }

    fn list(&mut self, spared: &Spared) -> Result<Listing, BoxFault> {
        let stops = self.condition.begin(BoxCall::List)?;
        let Ok(listing) = self.store.list(self.alloc, K::side(), spared) else {
            return Err(self.condition.lack());
        };
        self.condition.end(stops, listing)
    }

    fn find_mark(&mut self, mark: Tuid, from: u32) -> Result<Option<Uid>, BoxFault> {
        let stops = self.condition.begin(BoxCall::FindMark)?;
        let found = self.store.find_mark(mark, from);
        self.condition.end(stops, found)
    }

    fn load(&mut self, uid: Uid) -> Result<bool, BoxFault> {
        let stops = self.condition.begin(BoxCall::Load)?;
        let Ok(body) = self.store.copied_body(self.alloc, uid) else {
            return Err(self.condition.lack());
        };
        let is_there = keep(&mut self.body, body);
        self.condition.end(stops, is_there)
    }

    fn body(&self) -> &[u8] {
        &self.body
    }

    fn append_copy(&mut self, copy: CopyPieces<'_>, flags: Flags) -> Result<Option<Uid>, BoxFault> {
        let stops = self.condition.begin(BoxCall::Append)?;
        let Some(uid) = self.store.next_uid() else {
            return Err(is_full(K::side()));
        };
        let flags = flags.kept(&self.keywords);
        let Ok(()) = self.store.add(self.alloc, uid, flags, copy) else {
            return Err(self.condition.lack());
        };
        self.condition.end(stops, Some(uid))
    }

    fn add_flags(&mut self, uid: Uid, flags: Flags) -> Result<(), BoxFault> {
        let stops = self.condition.begin(BoxCall::AddFlags)?;
        self.store.add_flags(uid, flags.kept(&self.keywords));
        self.condition.end(stops, ())
    }

    fn remove_flags(&mut self, uid: Uid, flags: Flags) -> Result<(), BoxFault> {
        let stops = self.condition.begin(BoxCall::RemoveFlags)?;
        self.store.remove_flags(uid, flags.kept(&self.keywords));
        self.condition.end(stops, ())
    }

    fn expunge(&mut self, uid: Uid) -> Result<(), BoxFault> {
        let stops = self.condition.begin(BoxCall::Expunge)?;
        self.store.expunge(uid);
        self.condition.end(stops, ())
    }

    fn admit(&mut self) -> Result<(), BoxFault> {
        let stops = self.condition.begin(BoxCall::Admit)?;
        let Some(following) = above(self.store.next(), self.waiting.len()) else {
            return Err(is_full(K::side()));
        };
        let Ok(()) = admit(&mut self.store, &mut self.waiting, following) else {
            return Err(self.condition.lack());
        };
        self.condition.end(stops, ())
    }

    fn sync(&mut self, _whose: Whose) -> Result<(), BoxFault> {
        if !self.is_open {
            return Ok(());
        }
        let stops = self.condition.begin_sync()?;
        self.store.sync();
        self.condition.end(stops, ())
    }

    fn reopen(&mut self) {
        self.is_open = false;
        self.condition.reopen();
    }
}
