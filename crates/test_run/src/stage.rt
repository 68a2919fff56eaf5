//! A world in memory, over which runs are made.

ghost use Rattle.std.specs.Prelude.{◌≡◌, ◌↔◌, true, false, IfOk};
ghost use Rattle.run_pair.specs.Pairs.{seen_of};

use crate::calls::{BoxSchedule, Schedule};
use book::mem_shelf::MemShelf;
use mailcore::keywords::Keywords;
use mailcore::mailbox::{Message, StoredMailbox};
use mailcore::octets::Octets;
use mailcore::uid::Uid;
use mem_mailbox::kind::{OfFar, OfNear};
use mem_mailbox::mem_mailbox::MemMailbox;
use mem_mailbox::mem_store::MemStore;
use rules::options::Options;
use rules::state::SyncState;
use run_pair::book_part::BookPart;
use run_pair::pair::Pair;
use run_trial::attempts::settle_trial;
use run_trial::report::Ending;
use run_trial::shelf::{shelf_with, state_in};
use std::alloc::{AllocError, Global};
use sync_state::fault::BookFault;
use test_scripts::failure::Failure;
use worlds::fault::WorldFault;
use worlds::read::read_world;
use worlds::world::{Waiting, WaitingFile, World};
use worlds::write::{WrittenMailbox, WrittenWorld, write_parts};

/// The outside of a run over two mailboxes and a shelf in memory.
pub type MemOutside = Pair<MemMailbox<OfFar>, MemMailbox<OfNear>, MemShelf>;

/// What an outside in memory is made of. Both mailboxes go by one map of keywords.
#[derive(Drop)]
pub struct Parts {
    /// The far mailbox.
    pub far: MemMailbox<OfFar>,
    /// The near mailbox.
    pub near: MemMailbox<OfNear>,
    /// The shelf.
    pub shelf: MemShelf,
    pub ghost one_map: { far.keywords ≡ near.keywords },
}

impl Parts {
    /// How many of their calls have stopped, up to the top of its type.
    fn stops(&self) -> usize {
        let boxes = self.far.stop_count().saturating_add(self.near.stop_count());
        boxes.saturating_add(self.shelf.stops())
    }
}

/// A world in memory between two runs, and what a run may do.
#[derive(Drop)]
pub struct Stage {
    /// What a run may do.
    pub options: Options,
    /// Both mailboxes, which go by the map of the options, and the shelf.
    pub parts: Parts,
    pub ghost map: { parts.far.keywords ≡ options.keywords },
}

/// The world that a text gives, whose calls stop and are refused as the schedule says. There is no journal.
pub fn stage_of(alloc: Global, text: &[u8], schedule: Schedule) -> Result<Stage, Failure> {
    match read_world(alloc, text, Waiting::Kept) {
        Ok(world) => Stage::new(alloc, world, schedule),
        Err(WorldFault::Line(_)) => Err(Failure::Script),
        Err(WorldFault::NoMemory) => Err(Failure::NoMemory),
    }
}

impl Stage {
    fn new(alloc: Global, world: World, schedule: Schedule) -> Result<Stage, Failure> {
        let World {
            options,
            far,
            near,
            waiting,
            state,
        } = world;
        let far = far_box(alloc, far, &options.keywords, schedule.far);
        let near = near_box(alloc, near, waiting, &options.keywords, schedule.near);
        let shelf = shelf_with(alloc, &state, None, schedule.shelf_stops);
        match (far, near, shelf) {
            (Ok(far), Ok(near), Ok(shelf)) => Ok(Stage {
                options,
                parts: Parts { far, near, shelf },
            }),
            (Err(failure), _, _) | (_, Err(failure), _) => Err(failure),
            (_, _, Err(fault)) => Err(failure_of(fault)),
        }
    }

    /// Makes one run, and gives what it came to.
    pub fn run(self, alloc: Global, tries: u32) -> (Stage, Ending) {
        let Stage { options, parts } = self;
        let before = parts.stops();
        let mut outside = outside_of(alloc, parts);
        let settled = settle_trial(alloc, &mut outside, &options, tries);
        let parts = parts_of(outside);
        let stops = parts.stops().saturating_sub(before);
        (Stage { options, parts }, Ending { settled, stops })
    }
}

/// An outside of these parts, opened again.
pub fn outside_of(alloc: Global, parts: Parts) -> MemOutside
    ensures whole { (seen_of result).is_broken ≡ false }
    ensures map { result.far.keywords ≡ parts.far.keywords }
{
    let Parts { far, near, shelf } = parts;
    Pair::new(alloc, far, near, BookPart::new(alloc, shelf))
}

/// Whether this is its map of keywords.
pub fn has_map(outside: &MemOutside, keywords: &Keywords) -> bool
    ensures { result ≡ true ↔ outside.now.far.keywords ≡ keywords.now }
{
    outside.far().keywords().is_same(keywords)
}

/// What an outside is made of.
pub fn parts_of(outside: MemOutside) -> Parts
    ensures map { result.far.keywords ≡ outside.far.keywords }
{
    let (far, near, book) = outside.into_parts();
    Parts {
        far,
        near,
        shelf: book.into_shelf(),
    }
}

/// The world that stands in these parts, from its line `far` on. A text that is no state is written as none.
pub fn left_in(alloc: Global, parts: &Parts) -> Result<String, Failure> {
    let mut text = String::new(alloc);
    match write_left(alloc, &mut text, parts) {
        Ok(()) => Ok(text),
        Err(failure) => Err(failure),
    }
}

fn write_left(alloc: Global, text: &mut String, parts: &Parts) -> Result<(), Failure> {
    let state = written_state(alloc, &parts.shelf)?;
    let waiting = waiting_files(alloc, parts.near.waiting())?;
    let world = WrittenWorld {
        far: written(parts.far.store()),
        near: written(parts.near.store()),
        waiting: &waiting,
        state: &state,
    };
    Ok(write_parts(text, &world)?)
}

fn written_state(alloc: Global, shelf: &MemShelf) -> Result<SyncState, Failure> {
    match state_in(alloc, shelf) {
        Ok(state) => Ok(state),
        Err(BookFault::BadState(_)) => Ok(SyncState::none(alloc)),
        Err(fault) => Err(failure_of(fault)),
    }
}

/// A mailbox as it is written.
fn written(store: &MemStore) -> WrittenMailbox<'_> {
    WrittenMailbox {
        validity: store.validity(),
        next: store.next(),
        messages: store.messages(),
    }
}

fn waiting_files(alloc: Global, files: &[Message]) -> Result<Vec<WaitingFile>, AllocError> {
    let mut waiting = Vec::new(alloc);
    for file in files {
        let bytes = Vec::from_slice(alloc, file.bytes.as_slice())?;
        waiting.push(WaitingFile {
            flags: file.flags,
            bytes: Octets::from_vec(bytes),
        })?;
    }
    Ok(waiting)
}

/// The far mailbox of a world, by this map of keywords.
fn far_box(
    alloc: Global,
    mailbox: StoredMailbox,
    keywords: &Keywords,
    schedule: BoxSchedule,
) -> Result<MemMailbox<OfFar>, Failure>
    ensures { IfOk result (λ far. far.keywords ≡ keywords.now) }
{
    let keywords = keywords.try_clone(alloc)?;
    match store_of(mailbox) {
        Some(store) => Ok(MemMailbox::far(alloc, store, schedule.condition(), keywords)),
        None => Err(Failure::Script),
    }
}

/// The near mailbox of a world, by this map of keywords.
fn near_box(
    alloc: Global,
    mailbox: StoredMailbox,
    waiting: Vec<WaitingFile>,
    keywords: &Keywords,
    schedule: BoxSchedule,
) -> Result<MemMailbox<OfNear>, Failure>
    ensures { IfOk result (λ near. near.keywords ≡ keywords.now) }
{
    let keywords = keywords.try_clone(alloc)?;
    match (store_of(mailbox), files_of(alloc, waiting)) {
        (Some(store), Ok(files)) => Ok(MemMailbox::near(
            alloc,
            store,
            files,
            schedule.condition(),
            keywords,
        )),
        (_, Err(AllocError)) => Err(Failure::NoMemory),
        (None, _) => Err(Failure::Script),
    }
}

/// The messages of a mailbox. None: its UIDVALIDITY or its UIDNEXT is 0, which is no world's.
fn store_of(mailbox: StoredMailbox) -> Option<MemStore> {
    if mailbox.validity == 0 || mailbox.next == 0 {
        return None;
    }
    Some(MemStore::new(mailbox.validity, mailbox.next, mailbox.messages))
}

/// The files that wait, each with a UID that says nothing.
fn files_of(alloc: Global, waiting: Vec<WaitingFile>) -> Result<Vec<Message>, AllocError> {
    let mut files = Vec::new(alloc);
    for file in waiting {
        files.push(Message {
            uid: Uid::new(1).unwrap(),
            flags: file.flags,
            bytes: file.bytes,
        })?;
    }
    Ok(files)
}

fn failure_of(fault: BookFault) -> Failure {
    match fault {
        BookFault::NoMemory => Failure::NoMemory,
        _ => Failure::Script,
    }
}
