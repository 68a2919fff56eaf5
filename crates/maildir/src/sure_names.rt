//! The names in a Maildir folder of a disk, read so that no other program that renames files shortens them.
//!
//! A folder is read in pieces, and a file that gets another name between two of them, as where a mail reader marks its message as seen,
//! may be read under neither name. So the times at which the names changed last are taken before and after. Where they are the
//! same, and older than the disk's notion of time is fine, nothing was renamed meanwhile. A disk whose times are whole seconds costs one
//! reading more, a second later.

ghost use Rattle.std.specs.Prelude.{◌≡◌, None, IfOk};
ghost use Rattle.maildir.specs.DiskFolders.{Gained, KeptWord, ListsAll};

use crate::changes::now;
use crate::folder::{FileName, Place};
use crate::found_names::FoundNames;
use crate::recorded_disk::RecordedDisk;
use std::alloc::Global;
use std::io::ErrorKind;
use std::rt::{Clock, Files};
use std::time::Duration;
use std::{io, thread};
use texts::cut::cut;

/// How often the names are read at most.
const READINGS: u32 = 10;

/// What stands in both folders. Where a message was read before that a sure reading does not have, as one that was removed just then, it
/// is sure after one more such reading.
///
/// `ResourceBusy`: names changed in each of ten readings.
#[tactic(auto, using(crate::proofs::DiskListing::gained_none))]
pub(crate) fn sure_names<R: Files + Clock + AllocGlobal + Clone + Drop>(
    disk: &mut RecordedDisk<R>,
) -> io::Result<FoundNames>
    ensures gained { Gained disk.old disk.new }
    ensures lists { IfOk result (λ found. found.unreached ≡ None → KeptWord disk.new → ListsAll found.names.items disk.new) }
{
    let alloc = disk.alloc();
    let mut shown = Vec::new(alloc);
    for _ in 0..READINGS {
        let NameReading {
            found,
            is_sure,
            grain,
        } = NameReading::make(disk)?;
        if is_sure {
            if are_all_among(alloc, &shown, &found.names)? {
                return Ok(found);
            }
            shown.clear();
        } else {
            thread::sleep(disk.rt(), grain);
        }
        let FoundNames { mut names, .. } = found;
        shown.append(&mut names)?;
    }
    Err(io::Error::from(ErrorKind::ResourceBusy))
}

/// One reading of the names.
#[derive(Drop)]
struct NameReading {
    found: FoundNames,
    /// Whether no name changed meanwhile.
    is_sure: bool,
    /// How long to wait until a change shows another time.
    grain: Duration,
}

impl NameReading {
    #[tactic(auto, using(crate::proofs::DiskListing::gained_none))]
    fn make<R: Files + Clock + AllocGlobal + Clone + Drop>(
        disk: &mut RecordedDisk<R>,
    ) -> io::Result<Self>
        ensures gained { Gained disk.old disk.new }
        ensures lists { IfOk result (λ reading. reading.found.unreached ≡ None → KeptWord disk.new → ListsAll reading.found.names.items disk.new) }
    {
        let begun = now(disk.rt())?;
        let before = disk.changes()?;
        let found = read_both(disk)?;
        let after = disk.changes()?;
        Ok(NameReading {
            found,
            is_sure: before.would_show_another(begun) && before == after,
            grain: after.grain(),
        })
    }
}

/// What stands in both folders, read once.
fn read_both<R: Files + AllocGlobal + Clone + Drop>(
    disk: &mut RecordedDisk<R>,
) -> io::Result<FoundNames>
    ensures gained { Gained disk.old disk.new }
    ensures lists { IfOk result (λ found. found.unreached ≡ None → KeptWord disk.new → ListsAll found.names.items disk.new) }
{
    let new = disk.list(Place::New)?;
    let cur = disk.list(Place::Cur)?;
    new.and(cur)
}

/// Whether each of these messages stands among others, in whatever folder and under whatever flags.
fn are_all_among(alloc: Global, shown: &[FileName], others: &[FileName]) -> io::Result<bool> {
    if shown.is_empty() {
        return Ok(true);
    }
    let mut fronts = Vec::new(alloc);
    for file in others {
        fronts.push(without_flags(file))?;
    }
    fronts.sort_unstable();
    Ok(
        shown
            .iter()
            .all(|file| fronts.binary_search(&without_flags(file)).is_ok()),
    )
}

/// The part of a name that stays where flags change.
fn without_flags(file: &FileName) -> &[u8] {
    let name = file.name.as_slice();
    match cut(name, b':') {
        Some((front, _)) => front,
        None => name,
    }
}
