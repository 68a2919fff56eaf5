//! A Maildir folder as a device whose calls may stop.

ghost use Rattle.std.specs.Prelude.{◌≡◌, ◌+◌, ℕ, Bool, false, true, OnOk};

use device::DeviceFault;
use device::whose::Whose;
use mailcore::copy_pieces::CopyPieces;
use mailcore::octets::Octets;

/// Where the file of a message stands.
#[derive(Clone, Copy, PartialEq, Eq, PartialOrd, Ord)]
pub enum Place {
    /// The folder `new`.
    New,
    /// The folder `cur`.
    Cur,
}

impl Place {
    /// The name of the folder.
    pub fn folder(self) -> &'static str {
        match self {
            Place::New => "new",
            Place::Cur => "cur",
        }
    }
}

/// A file of `new` or `cur` with its bytes.
#[derive(Drop)]
pub struct File {
    /// Where it stands.
    pub place: Place,
    /// Its name.
    pub name: Octets,
    /// Its bytes.
    pub bytes: Octets,
}

/// The name of a file of `new` or `cur`.
#[derive(Drop)]
pub struct FileName {
    /// Where the file stands.
    pub place: Place,
    /// Its name.
    pub name: Octets,
}

/// The same, borrowed.
#[derive(Clone, Copy)]
pub struct Location<'a> {
    /// Where the file stands.
    pub place: Place,
    /// Its name.
    pub name: &'a [u8],
}

/// What can be read.
#[derive(Clone, Copy)]
pub enum Source<'a> {
    /// The meta file of the mailbox.
    Meta,
    /// A file of `new` or `cur`.
    Mail(Location<'a>),
}

/// What can be renamed.
#[derive(Clone, Copy)]
pub enum Origin<'a> {
    /// The copy that `write_tmp` wrote.
    Tmp,
    /// A file of `new` or `cur`.
    Delivered(Location<'a>),
}

/// A Maildir folder: its files in `new` and `cur`, a copy that is being written in `tmp`, and the meta file.
///
/// Each call answers Ok with its effect, or a fault with its effect, without it, or (`write_tmp` alone) with a beginning
/// of its bytes. After a fault each call answers `Stopped` and changes nothing, until `reopen`, which keeps what is stored.
///
/// Others may add files at any time. They count as stored from the next reading of the names on: until then no call meets them, since a
/// file that comes waits under a name of its own, and a call is asked of a name that was read, or gives one that does not wait. What
/// others add before a call they could as well have added after it (`laws::others_could_come_after`).
pub trait Folder {
    ghost use Rattle.device.specs.Calls.{Seen, Call, Read, Rest, Nothing, Reopens};
    ghost use Rattle.mailcore.specs.CopyPieces.{text_left};
    ghost use Rattle.mailcore.specs.Visitors.{Visitors};
    ghost use Rattle.maildir.specs.FolderCalls.{ReadAnew};
    ghost use Rattle.maildir.specs.Folders.{Stored, Lists, Begins, Removes, Renames, bytes_of, with_copy, with_meta, listed, text_of};

    /// The folder has given back what was written so far, and others did no more than to add files.
    ghost honest: { Self → Type 0 };

    /// The marks that others do not write, and whether nobody else adds files.
    ghost visitors: { Visitors };

    /// What is stored, as far as its names were read since it came, whether a call has stopped since the folder was opened, and how many
    /// calls have stopped.
    ghost seen: { Self → Seen Stored };

    /// What was renamed, removed and replaced since the folder was opened outlives a loss of power.
    ghost is_synced: { Self → Bool };

    /// So does what an earlier process had renamed, removed and replaced.
    ghost is_settled: { Self → Bool };

    /// How many files were asked for so far.
    ghost reads: { Self → ℕ };

    /// The names of files in `new` and `cur`, in any order, or none where `new`, `cur` or `tmp` is missing. What others have added since
    /// the names were read last is among them.
    fn names(&mut self) -> Result<Option<Vec<FileName>>, DeviceFault>
        ensures was_honest { honest self.new → honest self.old }
        ensures call { ReadAnew (honest self.new) visitors (λ names. Lists (listed names)) (seen self.old) (seen self.new) result };

    /// The bytes of a file, or none where it is missing.
    fn read(&mut self, file: Source<'_>) -> Result<Option<Vec<u8>>, DeviceFault>
        ensures was_honest { honest self.new → honest self.old }
        ensures counted { honest self.new → reads self.new ≡ reads self.old + 1 }
        ensures call { Read (honest self.new) (λ bytes s. text_of bytes ≡ bytes_of file.entry s) (seen self.old) (seen self.new) result };

    /// Writes a copy in `tmp`, over one that is there. A stopped one may leave any beginning of its bytes.
    fn write_tmp(&mut self, copy: CopyPieces<'_>) -> Result<(), DeviceFault>
        ensures was_honest { honest self.new → honest self.old }
        ensures call { Call (honest self.new) (λ s s'. s' ≡ with_copy (text_left copy.entry) s) (Begins (text_left copy.entry)) (seen self.old)
            (seen self.new) result };

    /// Gives a file another name, in `new` or `cur`. A file that has that name already goes.
    fn rename(&mut self, from: Origin<'_>, to: Location<'_>) -> Result<(), DeviceFault>
        ensures was_honest { honest self.new → honest self.old }
        ensures synced { honest self.new → OnOk result (is_synced self.new ≡ false) }
        ensures call { Call (honest self.new) (Renames from.entry to.entry) Nothing (seen self.old) (seen self.new) result };

    /// Removes a file. One that is not there is none that was removed, so the call stops.
    fn remove(&mut self, file: Location<'_>) -> Result<(), DeviceFault>
        ensures was_honest { honest self.new → honest self.old }
        ensures synced { honest self.new → OnOk result (is_synced self.new ≡ false) }
        ensures call { Call (honest self.new) (Removes file.entry) Nothing (seen self.old) (seen self.new) result };

    /// Replaces the meta file's text by this one.
    fn replace_meta(&mut self, text: &[u8]) -> Result<(), DeviceFault>
        ensures was_honest { honest self.new → honest self.old }
        ensures synced { honest self.new → OnOk result (is_synced self.new ≡ false) }
        ensures call { Call (honest self.new) (λ s s'. s' ≡ with_meta text.now s) Nothing (seen self.old) (seen self.new) result };

    /// Makes what was renamed, removed and replaced outlive a loss of power. Nothing is done where that is so already.
    fn sync(&mut self, whose: Whose) -> Result<(), DeviceFault>
        ensures was_honest { honest self.new → honest self.old }
        ensures synced { OnOk result (is_synced self.new ≡ true) }
        ensures settled { OnOk result (whose ≡ Whose.All → is_settled self.new ≡ true) }
        ensures call { Rest (honest self.new) (seen self.old) (seen self.new) result };

    /// Opens the folder again, so that calls are answered again.
    fn reopen(&mut self)
        ensures was_honest { honest self.new → honest self.old }
        ensures call { Reopens (seen self.old) (seen self.new) };
}
