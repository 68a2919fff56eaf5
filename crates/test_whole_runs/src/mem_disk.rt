//! A disk in memory.

use crate::mem_dir::MemDir;
use crate::mem_file::MemFile;
use crate::mem_tree::Tree;
use std::alloc::{Allocator, Global};
use std::cell::RefCell;
use std::fs::{Metadata, OpenOptions};
use std::io;
use std::io::ErrorKind;
use std::rt::Files;

/// Files and folders in memory. There are neither links nor permissions, and folders stay where they are.
#[derive(Drop)]
pub struct MemDisk {
    alloc: Global,
    tree: RefCell<Tree>,
}

impl MemDisk {
    /// The root alone, which is empty.
    pub fn new(rt: &HostRuntime) -> io::Result<MemDisk> {
        Ok(MemDisk {
            alloc: rt.alloc(),
            tree: RefCell::new(Tree::new(rt)?),
        })
    }
}

impl Alloc for MemDisk {
    type A = Global;

    fn alloc(&self) -> Global {
        self.alloc
    }
}

impl Files for MemDisk {
    type File = MemFile;

    type Dir = MemDir;

    fn open_file(&self, how: &OpenOptions, path: &str) -> io::Result<MemFile> {
        how.check()?;
        match self.tree.try_borrow_mut() {
            Ok(mut tree) => Ok(MemFile::new(tree.open(how, path)?, how)),
            Err(_) => Err(busy()),
        }
    }

    fn open_dir(&self, path: &str) -> io::Result<MemDir> {
        match self.tree.try_borrow() {
            Ok(tree) => Ok(MemDir::new(tree.names_in(path)?)),
            Err(_) => Err(busy()),
        }
    }

    fn metadata(&self, path: &str) -> io::Result<Metadata> {
        match self.tree.try_borrow() {
            Ok(tree) => tree.node(path)?.metadata(),
            Err(_) => Err(busy()),
        }
    }

    fn symlink_metadata(&self, path: &str) -> io::Result<Metadata> {
        self.metadata(path)
    }

    fn copy(&self, _from: &str, _to: &str) -> io::Result<u64> {
        Err(io::Error::from(ErrorKind::Unsupported))
    }

    fn rename(&self, from: &str, to: &str) -> io::Result<()> {
        match self.tree.try_borrow_mut() {
            Ok(mut tree) => tree.rename(from, to),
            Err(_) => Err(busy()),
        }
    }

    fn remove_file(&self, path: &str) -> io::Result<()> {
        match self.tree.try_borrow_mut() {
            Ok(mut tree) => tree.remove_file(path),
            Err(_) => Err(busy()),
        }
    }

    fn create_dir(&self, path: &str) -> io::Result<()> {
        match self.tree.try_borrow_mut() {
            Ok(mut tree) => tree.make_folder(path),
            Err(_) => Err(busy()),
        }
    }

    fn create_dir_with_mode(&self, path: &str, _mode: u32) -> io::Result<()> {
        self.create_dir(path)
    }

    fn remove_dir(&self, _path: &str) -> io::Result<()> {
        Err(io::Error::from(ErrorKind::Unsupported))
    }

    fn remove_dir_all<B: Allocator>(&self, _alloc: B, _path: &str) -> io::Result<()> {
        Err(io::Error::from(ErrorKind::Unsupported))
    }
}

fn busy() -> io::Error {
    io::Error::from(ErrorKind::ResourceBusy)
}
