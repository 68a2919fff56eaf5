//! What other programs do to the files of messages of a folder in memory.

ghost use Rattle.std.specs.Prelude.{◌≡◌, find, IfOk, OnErr, OnOk};
ghost use Rattle.std.specs.Option.{option_map};
ghost use Rattle.maildir.specs.FileActs.{acted, file_acted, is_file_of, re_flagged};
ghost use Rattle.maildir.specs.FileLists.{files_left};
ghost use Rattle.maildir.specs.MemFolders.{seen_of, stored_in};

use crate::file_list::FileList;
use crate::folder::{File, Location};
use crate::letters::{flags_in, letters_with};
use crate::mem_folder::{FolderCall, MemFolder};
use crate::name::{read_name, spell};
use mailcore::flags::Flags;
use mailcore::keywords::Keywords;
use mailcore::octets::Octets;
use mailcore::uid::Uid;
use std::alloc::{AllocError, Global};

/// What another program does to the file of a message.
#[derive(Clone, Copy)]
pub enum FileDeed {
    /// It gives it the name of a message with more flags, and without others.
    Flag {
        /// Those that the message gets.
        set: Flags,
        /// Those that it loses then.
        clear: Flags,
    },
    /// It removes it.
    Remove,
}

/// When another program does something, and to which file.
#[derive(Clone, Copy)]
pub struct FileAct {
    /// Before which call, whether that stops or not.
    pub call: FolderCall,
    /// Before which of the calls of this name, counted from 1 over the folder's life. At 0 it was done.
    pub number: u64,
    /// The message. Where no file has this UID then, nothing is done.
    pub uid: Uid,
    /// What is done.
    pub deed: FileDeed,
}

impl FileAct {
    /// A call is made. Whether this is done before it.
    pub(crate) fn is_met(&mut self, call: FolderCall) -> bool {
        if self.call != call || self.number == 0 {
            return false;
        }
        self.number -= 1;
        self.number == 0
    }
}

/// Does this to the first file that has this UID, and to no other. `AllocError`: memory ran out, and nothing was done.
pub(crate) fn act_on(
    alloc: Global,
    folder: &mut MemFolder,
    keywords: &Keywords,
    uid: Uid,
    deed: FileDeed,
) -> Result<(), AllocError>
    ensures ok { OnOk result (seen_of folder.new
        ≡ record (seen_of folder.old) { stored = acted keywords.now uid deed (stored_in folder.old) }) }
    ensures err { OnErr result (seen_of folder.new ≡ seen_of folder.old) }
    ensures synced { folder.new.is_synced ≡ folder.old.is_synced }
{
    let Some(file) = file_of(folder.files(), uid) else {
        return Ok(());
    };
    let place = file.place;
    let name = Octets::from_vec(Vec::from_slice(alloc, file.name.as_slice())?);
    let file = Location {
        place,
        name: name.as_slice(),
    };
    match deed {
        FileDeed::Flag { set, clear } => {
            let name = re_flagged(alloc, name.as_slice(), set, clear, keywords)?;
            folder.rename_by_others(file, &name)
        }
        FileDeed::Remove => {
            folder.remove_by_others(file);
            Ok(())
        }
    }
}

/// The first file that has this UID.
fn file_of<'a>(files: FileList<'a>, uid: Uid) -> Option<&'a File>
    ensures { option_map (λ file. file.now) result ≡ find (is_file_of uid) (files_left files.entry) }
{
    for file in files {
        if is_file_of(file, uid) {
            return Some(file);
        }
    }
    None
}

/// Whether the name of a file has this UID.
fn is_file_of(file: &File, uid: Uid) -> bool
    ensures { result ≡ is_file_of uid file.now }
{
    match read_name(file.name.as_slice()) {
        Some(name) => name.uid == Some(uid),
        None => false,
    }
}

/// The name of the same file once its message has more flags, and then loses others.
fn re_flagged(
    alloc: Global,
    name: &[u8],
    set: Flags,
    clear: Flags,
    keywords: &Keywords,
) -> Result<Vec<u8>, AllocError>
    ensures { IfOk result (λ text. text.items ≡ re_flagged keywords.now set clear name.now) }
{
    let Some(parts) = read_name(name) else {
        return Vec::from_slice(alloc, name);
    };
    let before = parts.letters.unwrap_or(b"");
    let flags = flags_in(before).union(set).minus(clear);
    let letters = letters_with(alloc, before, flags, keywords)?;
    spell(alloc, parts.base, parts.uid, Some(&letters))
}
