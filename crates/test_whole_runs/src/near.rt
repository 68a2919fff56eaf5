//! What stands near in a whole run: a mailbox in a folder, and a shelf, in memory.

use book::mem_shelf::MemShelf;
use book::shelf::ShelfFile;
use mailcore::keywords::Keywords;
use mailcore::mailbox::StoredMailbox;
use mailcore::mailbox_name::MailboxName;
use maildir::mem_folder::MemFolder;
use rules::state::SyncState;
use run_trial::folder::folder_with;
use run_trial::shelf::shelf_with;
use std::alloc::Global;
use sync_state::fault::BookFault;
use test_scripts::failure::Failure;
use test_scripts::mail::read_message;
use test_scripts::reported::Reported;
use test_scripts::words::Words;

/// What stands near.
#[derive(Drop)]
pub(crate) enum Near {
    /// Nothing.
    Nothing,
    /// The mailbox that the lines of the script say, up to the first run.
    Said(StoredMailbox),
    /// What a run has left.
    Left(Devices),
}

/// The folder with the near mailbox, and the shelf with state and journal.
#[derive(Drop)]
pub(crate) struct Devices {
    /// The folder.
    pub(crate) folder: MemFolder,
    /// The shelf.
    pub(crate) shelf: MemShelf,
}

impl Near {
    /// `VALIDITY NEXT`: an empty mailbox.
    pub(crate) fn read(alloc: Global, line: &mut Words<'_>) -> Result<Near, Failure> {
        let validity = line.number();
        let next = line.number();
        let name = MailboxName::inbox(alloc)?;
        Ok(Near::Said(StoredMailbox::new(alloc, name, validity, next)))
    }

    /// `UID FLAGS "BYTES"`: adds a message. `Script`: there is no mailbox that lines say, or the UID is not above the others and below
    /// the next one.
    pub(crate) fn push(&mut self, alloc: Global, line: &mut Words<'_>) -> Result<(), Failure> {
        let message = read_message(alloc, line)?;
        match self {
            Near::Said(mailbox) => Ok(mailbox.push(message)?),
            _ => Err(Failure::Script),
        }
    }

    /// The folder and the shelf, on which there is neither a state nor a journal before the first run. `Script`: nothing stands near.
    pub(crate) fn devices(self, alloc: Global) -> Result<Devices, Failure> {
        match self {
            Near::Nothing => Err(Failure::Script),
            Near::Said(mailbox) => devices_with(alloc, mailbox),
            Near::Left(devices) => Ok(devices),
        }
    }

    /// Adds the bytes of a file of the shelf, or that it is missing. `Script`: there was no run.
    pub(crate) fn print_file(
        &self,
        file: ShelfFile,
        reported: &mut Reported,
    ) -> Result<(), Failure> {
        let Near::Left(devices) = self else {
            return Err(Failure::Script);
        };
        match devices.shelf.bytes(file) {
            Some(bytes) => reported.quoted(bytes),
            None => reported.text("missing"),
        }
        Ok(())
    }
}

/// A folder with this mailbox, and a shelf without state and journal.
fn devices_with(alloc: Global, mailbox: StoredMailbox) -> Result<Devices, Failure> {
    let (waiting, schedule) = (Vec::new(alloc), Vec::new(alloc));
    let folder = folder_with(alloc, mailbox, waiting, schedule, &Keywords::new(alloc))?;
    let state = SyncState::none(alloc);
    match shelf_with(alloc, &state, None, Vec::new(alloc)) {
        Ok(shelf) => Ok(Devices { folder, shelf }),
        Err(BookFault::NoMemory) => Err(Failure::NoMemory),
        Err(_) => Err(Failure::Script),
    }
}
