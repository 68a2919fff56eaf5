//! Where the state and the journal are kept: two files as a device whose calls may stop.

ghost use Rattle.std.specs.Prelude.{◌≡◌, None, Some, false};

use device::DeviceFault;

/// A file of a shelf.
#[derive(Clone, Copy, PartialEq, Eq)]
pub enum ShelfFile {
    /// The state of the last run.
    State,
    /// The journal of the run that is under way.
    Journal,
}

/// Two files. Each call answers Ok with its effect, or a fault with its effect, without it, or (`append` alone) with a
/// beginning of its bytes. After a fault each call answers `Stopped` and changes nothing, until `reopen`, which keeps
/// the files.
pub trait Shelf {
    ghost use Rattle.device.specs.Calls.{Seen, Call, Read, Nothing, Reopens};
    ghost use Rattle.book.specs.Shelves.{Files, Gives, Puts, Appends, AppendsPart};

    /// The shelf has given back what was written so far, and nobody else wrote to it.
    ghost honest: { Self → Type 0 };

    /// The files, whether a call has stopped since the shelf was opened, and how many calls have stopped.
    ghost seen: { Self → Seen Files };

    /// The bytes of a file, or none if it is missing.
    fn read(&mut self, file: ShelfFile) -> Result<Option<Vec<u8>>, DeviceFault>
        ensures was_honest { honest self.new → honest self.old }
        ensures call { Read (honest self.new) (Gives file) (seen self.old) (seen self.new) result };

    /// Adds bytes after those of a file, which is made if it is missing. A stopped call may leave any beginning of them. Where the power
    /// fails, a disk keeps the bytes that a file is made with if this `lasts`; it may lose others, and those that are added later.
    fn append(&mut self, file: ShelfFile, bytes: &[u8], lasts: bool) -> Result<(), DeviceFault>
        ensures was_honest { honest self.new → honest self.old }
        ensures call { Call (honest self.new) (Appends file bytes.now) (AppendsPart file bytes.now) (seen self.old) (seen self.new) result };

    /// Replaces the bytes of a file by these, all of them or none.
    fn replace(&mut self, file: ShelfFile, bytes: &[u8]) -> Result<(), DeviceFault>
        ensures was_honest { honest self.new → honest self.old }
        ensures call { Call (honest self.new) (Puts file (Some bytes.now)) Nothing (seen self.old) (seen self.new) result };

    /// Removes a file, if it is there. A disk may bring it back where the power fails.
    fn remove(&mut self, file: ShelfFile) -> Result<(), DeviceFault>
        ensures was_honest { honest self.new → honest self.old }
        ensures call { Call (honest self.new) (Puts file None) Nothing (seen self.old) (seen self.new) result };

    /// Opens the shelf again, so that calls are answered again.
    fn reopen(&mut self)
        ensures was_honest { honest self.new → honest self.old }
        ensures call { Reopens (seen self.old) (seen self.new) };
}
