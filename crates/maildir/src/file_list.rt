//! The files of a folder in memory, one after the other.

ghost use Rattle.std.specs.Prelude.{◌≡◌, length};
ghost use Rattle.maildir.specs.Slots.{files_in};

use crate::folder::File;

/// An iterator over the files of a folder in memory, in the order in which they came. It takes no memory.
#[derive(Clone, Copy)]
pub struct FileList<'a> {
    // Some slots are empty.
    slots: &'a [Option<File>],
    // How many are not.
    count: usize,
    pub ghost counted: { count ≡ length (files_in slots.now) },
}

impl<'a> FileList<'a> {
    ghost use Rattle.maildir.specs.FileLists.{files_left};

    // The files in these slots, of which there are so many.
    pub(crate) fn new(slots: &'a [Option<File>], count: usize) -> Self
        requires { count ≡ length (files_in slots.now) }
        ensures { files_left result ≡ files_in slots.now }
    {
        FileList { slots, count }
    }

    /// How many files are left.
    pub fn len(&self) -> usize
        ensures { result ≡ length (files_left self.now) }
    {
        self.count
    }
}

impl<'a> Iterator for FileList<'a> {
    ghost use Rattle.std.specs.Iterator.{YieldsFirstBy, item_count};
    ghost use Rattle.maildir.specs.FileLists.{files_left};

    type Item = &'a File;

    ghost next_gives = { YieldsFirstBy (λ file. file.now) files_left };

    ghost remaining = { item_count files_left };

    fn next(&mut self) -> Option<&'a File> {
        while let Some((slot, following)) = self.slots.split_first() {
            self.slots = following;
            if let Some(file) = slot {
                self.count -= 1;
                return Some(file);
            }
        }
        None
    }
}
