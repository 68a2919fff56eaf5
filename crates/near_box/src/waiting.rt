//! The files that wait for a UID, read without getting one.

ghost use Rattle.std.specs.Prelude.{◌≡◌, ◌≢◌, Err, IfOk, None, Some, false, length, slice_get, true};
ghost use Rattle.std.specs.Option.{option_map};
ghost use Rattle.maildir.specs.FlaggedNames.{flags_by_name};
ghost use Rattle.maildir.specs.Folders.{bytes_at};
ghost use Rattle.near_box.specs.Mailboxes.{waiting_with};
ghost use Rattle.near_box.specs.NearCalls.{Ends, Reads};

use crate::near_box::NearBox;
use crate::near_calls::{named_flags, waiting_at};
use crate::near_fault::NearFault;
use crate::read_fault::ReadFault;
use mailcore::flags::Flags;
use maildir::folder::{FileName, Folder, Source};

impl<F: Folder> NearBox<F> {
    ghost use Rattle.near_box.specs.Boxes.{box_of, mailbox_of, stored_in};

    /// How many files wait for a UID.
    pub fn waiting_count(&self) -> usize
        ensures { F.honest self.now.folder → self.now.is_ready ≡ true → result ≡ length (mailbox_of self.now).waiting }
    {
        self.survey.waiting.len()
    }

    /// Reads the file that waits at this place, counted from 0 in the order in which `admit` gives UIDs: its bytes, which `body` then lends,
    /// and its flags. None: no file waits there. It stays waiting.
    pub fn read_waiting(&mut self, place: usize) -> Result<Option<Flags>, NearFault>
        ensures was_honest { F.honest self.new.folder → F.honest self.old.folder }
        ensures file { F.honest self.new.folder → IfOk result (λ flags. slice_get (mailbox_of self.old).waiting place
            ≡ option_map (waiting_with self.new.body.items) flags) }
        ensures keeps { F.honest self.new.folder
            → (stored_in self.new ≡ stored_in self.old) × (length self.new.missed.items ≡ length self.old.missed.items) }
        ensures ends { Ends false (box_of self.old) (box_of self.new) result }
    {
        self.begin()?;
        let Some(file) = self.survey.waiting.get(place) else {
            self.is_ready = true;
            return Ok(None);
        };
        let flags = named_flags(file.name.as_slice(), &self.keywords);
        match read_file(&mut self.folder, file) {
            Ok(bytes) => {
                self.body = bytes;
                self.is_ready = true;
                Ok(Some(flags))
            }
            Err(fault) => Err(self.failed(fault)),
        }
    }
}

/// The bytes of a file that waits.
fn read_file<F: Folder>(folder: &mut F, file: &FileName) -> Result<Vec<u8>, ReadFault>
    ensures was_honest { F.honest folder.new → F.honest folder.old }
    ensures reads { Reads (F.seen folder.old) (F.seen folder.new) result }
    ensures keeps { F.honest folder.new → (F.seen folder.new).stored ≡ (F.seen folder.old).stored }
    ensures bytes { F.honest folder.new
        → IfOk result (λ bytes. bytes_at file.now.place file.now.name (F.seen folder.old).stored ≡ Some bytes.items) }
    ensures there { F.honest folder.new → bytes_at file.now.place file.now.name (F.seen folder.old).stored ≢ None → result ≢ Err ReadFault.Gone }
{
    match folder.read(Source::Mail(waiting_at(file)))? {
        Some(bytes) => Ok(bytes),
        None => Err(ReadFault::Gone),
    }
}
