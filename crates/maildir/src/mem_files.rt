//! The files of a folder in memory, found by place and name.

ghost use Rattle.std.specs.Prelude.{◌≡◌, ◌≢◌, ◌++◌, ◌∷◌, [], false, true, find, IfOk, length, map, OnErr, OnOk, position, Some};
ghost use Rattle.std.specs.List.{list_any};
ghost use Rattle.std.specs.Option.{option_map};
ghost use Rattle.maildir.specs.Folders.{AreApart, is_at, left, moved, name_at, without};
ghost use Rattle.maildir.specs.NameIndexes.{KeepsRoom};
ghost use Rattle.maildir.specs.Slots.{files_in, holds, IsOf, Reports, under};

use crate::file_list::FileList;
use crate::folder::{File, FileName, Location};
use crate::name_index::NameIndex;
use std::alloc::{AllocError, Global};

// The files in the order in which they came, with an index, so that a name is found without a walk. A file that goes leaves its slot
// empty, so that no other one moves; once more than half of the slots are empty, these go.
#[derive(Drop)]
pub(crate) struct MemFiles {
    alloc: Global,
    pub(crate) slots: Vec<Option<File>>,
    // How many slots have a file.
    pub(crate) count: usize,
    pub(crate) index: NameIndex,
    pub(crate) ghost apart: { AreApart (files_in slots.items) },
    pub(crate) ghost reported: { Reports index slots.items },
    pub(crate) ghost counted: { count ≡ length (files_in slots.items) },
}

impl MemFiles {
    ghost use Rattle.maildir.specs.FileLists.{files_left};
    ghost use Rattle.maildir.specs.MemFiles.{files_of, HasSpace};

    // No file.
    pub(crate) fn new(alloc: Global) -> Self
        ensures { files_of result ≡ [] }
    {
        MemFiles {
            alloc,
            slots: Vec::new(alloc),
            count: 0,
            index: NameIndex::new(alloc),
        }
    }

    // All of them.
    pub(crate) fn list(&self) -> FileList<'_>
        ensures { files_left result ≡ files_of self.now }
    {
        FileList::new(&self.slots, self.count)
    }

    // Whether a file stands at this place under this name.
    pub(crate) fn has(&self, at: Location<'_>) -> bool
        ensures { result ≡ list_any (is_at at.entry.place at.entry.name.now) (files_of self.now) }
    {
        self.spot_of(at).is_some()
    }

    // The bytes of the file at this place under this name.
    pub(crate) fn bytes_at(&self, at: Location<'_>) -> Option<&[u8]>
        ensures { option_map (λ bytes. bytes.now) result
            ≡ option_map (λ file. file.bytes) (find (is_at at.entry.place at.entry.name.now) (files_of self.now)) }
    {
        let Some(i) = self.spot_of(at) else {
            return None;
        };
        let file = self.slots[i].as_ref()?;
        Some(file.bytes.as_slice())
    }

    // Takes memory for a file that comes, or gets another name: room, and this copy of its name for the index.
    pub(crate) fn make_room(&mut self, name: &[u8]) -> Result<Vec<u8>, AllocError>
        ensures files { files_of self.new ≡ files_of self.old }
        ensures key { IfOk result (λ key. key.items ≡ name.now) }
        ensures space { OnOk result (HasSpace self.new) }
    {
        let key = Vec::from_slice(self.alloc, name)?;
        self.slots.reserve(1)?;
        self.index.reserve()?;
        Ok(key)
    }

    // Adds a file, in place of one that has its place and name.
    pub(crate) fn put(&mut self, key: Vec<u8>, file: File)
        requires space { HasSpace self.old }
        requires name { key.items ≡ file.name }
        ensures { files_of self.new ≡ without file.place file.name (files_of self.old) ++ file ∷ [] }
    {
        self.remove(Location {
            place: file.place,
            name: file.name.as_slice(),
        });
        self.index.note(file.place, key, self.slots.len());
        self.slots.push_reserved(Some(file));
        self.count += 1;
    }

    // Takes the file at this place under this name out.
    pub(crate) fn remove(&mut self, at: Location<'_>)
        ensures files { files_of self.new ≡ without at.entry.place at.entry.name.now (files_of self.old) }
        ensures space { HasSpace self.old → HasSpace self.new }
    {
        let Some(i) = self.spot_of(at) else {
            return;
        };
        self.clear(i, at);
        if self.count < self.slots.len() / 2 {
            self.close_gaps();
        }
    }

    // Leaves the slot empty in which the file at this place under this name is.
    fn clear(&mut self, spot: usize, at: Location<'_>)
        requires found { position (holds at.place at.name.now) self.old.slots.items ≡ Some spot }
        ensures files { files_of self.new ≡ without at.entry.place at.entry.name.now (files_of self.old) }
        ensures space { HasSpace self.old → HasSpace self.new }
    {
        self.slots[spot] = None;
        self.index.forget(at.place, at.name);
        self.count -= 1;
    }

    // Takes the empty slots away.
    fn close_gaps(&mut self)
        ensures files { files_of self.new ≡ files_of self.old }
        ensures space { HasSpace self.old → HasSpace self.new }
    {
        self.slots.retain(|slot| slot.is_some());
        renumber(&mut self.index, &self.slots);
    }

    // Gives the file a new place and name, where one is there; a file that had them goes.
    pub(crate) fn rename(&mut self, from: Location<'_>, key: Vec<u8>, to: FileName)
        requires space { HasSpace self.old }
        requires name { key.items ≡ to.name }
        ensures { files_of self.new
            ≡ map (moved (name_at from.entry) to) (left (Some (name_at from.entry)) to.place to.name (files_of self.old)) }
    {
        if is_same(from, &to) {
            return;
        }
        self.remove(Location {
            place: to.place,
            name: to.name.as_slice(),
        });
        let Some(i) = self.spot_of(from) else {
            return;
        };
        self.index.forget(from.place, from.name);
        self.index.note(to.place, key, i);
        rename_in(&mut self.slots[i], to);
    }

    // In which slot the file at this place under this name is.
    fn spot_of(&self, at: Location<'_>) -> Option<usize>
        ensures { result ≡ position (holds at.entry.place at.entry.name.now) self.now.slots.items }
    {
        self.index.get(at.place, at.name)
    }
}

// Notes for each file in which slot it is.
fn renumber(index: &mut NameIndex, slots: &[Option<File>])
    requires apart { AreApart (files_in slots.now) }
    requires known { IsOf index.old slots.now }
    ensures reported { Reports index.new slots.now }
    ensures room { KeepsRoom index.old index.new }
{
    for (spot, slot) in slots.iter().enumerate() {
        if let Some(file) = slot {
            index.renumber(file.place, file.name.as_slice(), spot);
        }
    }
}

// Gives the file in this slot its new place and name.
fn rename_in(slot: &mut Option<File>, to: FileName)
    ensures { slot.new ≡ option_map (under to) slot.old }
{
    if let Some(file) = slot {
        file.place = to.place;
        file.name = to.name;
    }
}

// Whether this is the file's place and name.
fn is_same(at: Location<'_>, file: &FileName) -> bool
    ensures same { result ≡ true → name_at at.entry ≡ file.now }
    ensures other { result ≡ false → name_at at.entry ≢ file.now }
{
    at.place == file.place && at.name == file.name.as_slice()
}
