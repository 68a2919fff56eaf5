//! A shelf in memory, whose calls stop where a schedule says so.

ghost use Rattle.std.specs.Prelude.{◌≡◌, ◌<◌, ◌^◌, ◌++◌, [], false, IfOk, OnOk, OnErr, Some, unwrap_or};
ghost use Rattle.book.specs.Shelves.{bytes_of};

use crate::shelf::{Shelf, ShelfFile};
use device::DeviceFault;
use device::schedule::{CallStop, Moment, Scheduled};
use std::alloc::{AllocError, Global};

/// A call of a shelf that a schedule can stop. Of `append` alone there are parts.
#[derive(Clone, Copy, PartialEq, Eq)]
pub enum ShelfCall {
    /// `read`.
    Read,
    /// `append`.
    Append,
    /// `replace`.
    Replace,
    /// `remove`.
    Remove,
}

/// Two files in memory.
#[derive(Drop)]
pub struct MemShelf {
    alloc: Global,
    state: Option<Vec<u8>>,
    journal: Option<Vec<u8>>,
    stopping: Scheduled<ShelfCall>,
}

impl MemShelf {
    ghost use Rattle.std.specs.Option.{option_map};
    ghost use Rattle.book.specs.MemShelves.{empty, files_of, seen_of};
    ghost use Rattle.book.specs.Shelves.{Appends, file_at, with_file};

    /// A shelf without files, whose calls stop as the schedule says.
    pub fn new(alloc: Global, schedule: Vec<CallStop<ShelfCall>>) -> Self
        ensures { seen_of result ≡ record { stored = empty; is_broken = false; stops = 0 } }
    {
        MemShelf {
            alloc,
            state: None,
            journal: None,
            stopping: Scheduled::new(schedule),
        }
    }

    /// Gives a file these bytes, or takes it away.
    pub fn put(&mut self, file: ShelfFile, bytes: Option<Vec<u8>>)
        ensures { seen_of self.new ≡ record (seen_of self.old) { stored = with_file file (bytes_of bytes) (files_of self.old) } }
    {
        match file {
            ShelfFile::State => self.state = bytes,
            ShelfFile::Journal => self.journal = bytes,
        }
    }

    /// The bytes of a file, if it is there.
    pub fn bytes(&self, file: ShelfFile) -> Option<&[u8]>
        ensures { option_map (λ bytes. bytes.now) result ≡ file_at file (files_of self.now) }
    {
        let bytes = match file {
            ShelfFile::State => self.state.as_ref(),
            ShelfFile::Journal => self.journal.as_ref(),
        };
        bytes.map(|bytes| bytes.as_slice())
    }

    /// How many calls have stopped, up to the top of its type.
    pub fn stops(&self) -> usize
        ensures { (seen_of self.now).stops < 2 ^ 64 → result ≡ (seen_of self.now).stops }
    {
        self.stopping.stop_count()
    }

    /// Adds bytes to a file.
    fn extend(&mut self, file: ShelfFile, bytes: &[u8]) -> Result<(), AllocError>
        ensures ok { OnOk result (Appends file bytes.now (files_of self.old) (files_of self.new)) }
        ensures err { OnErr result (files_of self.new ≡ files_of self.old) }
        ensures stopping { self.new.stopping ≡ self.old.stopping }
    {
        match file {
            ShelfFile::State => extend(&mut self.state, self.alloc, bytes),
            ShelfFile::Journal => extend(&mut self.journal, self.alloc, bytes),
        }
    }
}

/// A copy of a file.
fn copy_of(alloc: Global, bytes: &Option<Vec<u8>>) -> Result<Option<Vec<u8>>, AllocError>
    ensures { IfOk result (λ copy. bytes_of copy ≡ bytes_of bytes.now) }
{
    match bytes {
        Some(bytes) => Ok(Some(Vec::from_slice(alloc, bytes)?)),
        None => Ok(None),
    }
}

/// Adds bytes to a file, which is made if it is missing.
fn extend(file: &mut Option<Vec<u8>>, alloc: Global, bytes: &[u8]) -> Result<(), AllocError>
    ensures ok { OnOk result (bytes_of file.new ≡ Some (unwrap_or (bytes_of file.old) [] ++ bytes.now)) }
    ensures err { OnErr result (bytes_of file.new ≡ bytes_of file.old) }
{
    match file {
        Some(old) => old.extend_from_slice(bytes),
        None => {
            *file = Some(Vec::from_slice(alloc, bytes)?);
            Ok(())
        }
    }
}

impl Shelf for MemShelf {
    ghost use Rattle.book.specs.MemShelves.{seen_of};

    ghost honest = { λ _. Unit {0} };

    ghost seen = { seen_of };

    fn read(&mut self, file: ShelfFile) -> Result<Option<Vec<u8>>, DeviceFault> {
        if self.stopping.begin(ShelfCall::Read)?.is_some() {
            return Err(self.stopping.stop());
        }
        let copy = match file {
            ShelfFile::State => copy_of(self.alloc, &self.state),
            ShelfFile::Journal => copy_of(self.alloc, &self.journal),
        };
        match copy {
            Ok(bytes) => Ok(bytes),
            Err(_) => Err(self.stopping.lack()),
        }
    }

    fn append(&mut self, file: ShelfFile, bytes: &[u8], _lasts: bool) -> Result<(), DeviceFault> {
        let moment = self.stopping.begin(ShelfCall::Append)?;
        let written = match moment {
            None | Some(Moment::After) => bytes,
            Some(Moment::Before) => return Err(self.stopping.stop()),
            Some(Moment::Part(count)) => &bytes[..count.min(bytes.len())],
        };
        if self.extend(file, written).is_err() {
            return Err(self.stopping.lack());
        }
        if moment.is_some() {
            return Err(self.stopping.stop());
        }
        Ok(())
    }

    fn replace(&mut self, file: ShelfFile, bytes: &[u8]) -> Result<(), DeviceFault> {
        let moment = self.stopping.begin(ShelfCall::Replace)?;
        if moment.is_some() && moment != Some(Moment::After) {
            return Err(self.stopping.stop());
        }
        let Ok(copy) = Vec::from_slice(self.alloc, bytes) else {
            return Err(self.stopping.lack());
        };
        self.put(file, Some(copy));
        if moment.is_some() {
            return Err(self.stopping.stop());
        }
        Ok(())
    }

    fn remove(&mut self, file: ShelfFile) -> Result<(), DeviceFault> {
        let moment = self.stopping.begin(ShelfCall::Remove)?;
        if moment.is_some() && moment != Some(Moment::After) {
            return Err(self.stopping.stop());
        }
        self.put(file, None);
        if moment.is_some() {
            return Err(self.stopping.stop());
        }
        Ok(())
    }

    fn reopen(&mut self) {
        self.stopping.reopen();
    }
}
