//! The shelf of a trial, in memory: its state, and its journal.

ghost use Rattle.std.specs.Prelude.{◌≡◌, false, IfOk};
ghost use Rattle.book.specs.Books.{HoldsState};
ghost use Rattle.book.specs.MemShelves.{files_of, seen_of};
ghost use Rattle.book.specs.Shelves.{bytes_of};
ghost use Rattle.run_trial.specs.Shelves.{shelf_of, state_file};

use book::mem_shelf::{MemShelf, ShelfCall};
use book::shelf::ShelfFile;
use device::schedule::CallStop;
use rules::state::SyncState;
use std::alloc::Global;
use sync_state::fault::BookFault;
use sync_state::state_text::{read_state_text, write_state_text};

/// A shelf with this state, which has a file after the first run, and this journal. Its calls stop as the schedule says.
pub fn shelf_with(
    alloc: Global,
    state: &SyncState,
    journal: Option<Vec<u8>>,
    schedule: Vec<CallStop<ShelfCall>>,
) -> Result<MemShelf, BookFault>
    ensures { IfOk result (λ shelf. seen_of shelf ≡ record {
      stored = shelf_of state.now (bytes_of journal);
      is_broken = false;
      stops = 0;
    }) }
{
    let text = state_file(alloc, state)?;
    let mut shelf = MemShelf::new(alloc, schedule);
    shelf.put(ShelfFile::State, text);
    shelf.put(ShelfFile::Journal, journal);
    Ok(shelf)
}

/// The bytes of the state's file, if it has one.
fn state_file(alloc: Global, state: &SyncState) -> Result<Option<Vec<u8>>, BookFault>
    ensures { IfOk result (λ file. bytes_of file ≡ state_file state.now) }
{
    if state.run == 0 {
        return Ok(None);
    }
    match write_state_text(alloc, state) {
        Ok(text) => Ok(Some(text)),
        Err(fault) => Err(fault),
    }
}

/// The state that stands in a shelf. `BadState`: its text is none of a state.
pub fn state_in(alloc: Global, shelf: &MemShelf) -> Result<SyncState, BookFault>
    ensures { IfOk result (HoldsState (files_of shelf.now).state) }
{
    match shelf.bytes(ShelfFile::State) {
        Some(text) => read_state_text(alloc, text),
        None => Ok(SyncState::none(alloc)),
    }
}
