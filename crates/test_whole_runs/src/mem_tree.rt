//! The files and folders of a disk in memory, by their paths.

use crate::mem_content::Content;
use crate::system_folders::SystemFolders;
use std::alloc::{AllocError, Global};
use std::fs::{Metadata, OpenOptions};
use std::io;
use std::io::ErrorKind;
use std::rc::Rc;

/// What stands at a path.
#[derive(Clone, Drop)]
pub enum Node {
    /// A folder.
    Folder(Metadata),
    /// A file.
    File(Rc<Content>),
}

impl Node {
    /// The content, if it is a file.
    pub fn content(&self) -> io::Result<&Content> {
        match self {
            Node::Folder(_) => Err(io::Error::from(ErrorKind::IsADirectory)),
            Node::File(content) => Ok(content.as_ref()),
        }
    }

    /// The metadata.
    pub fn metadata(&self) -> io::Result<Metadata> {
        match self {
            Node::Folder(metadata) => Ok(metadata.clone()?),
            Node::File(content) => Ok(Metadata::of_file(content.len()? as u64)),
        }
    }

    fn is_folder(&self) -> bool {
        matches!(self, Node::Folder(_))
    }
}

/// A path of which each part has a slash before it, and what stands there.
#[derive(Drop)]
struct PathEntry {
    path: String,
    node: Node,
}

/// All that stands on a disk.
#[derive(Drop)]
pub struct Tree {
    alloc: Global,
    entries: Vec<PathEntry>,
    folders: SystemFolders,
}

impl Tree {
    /// The root alone, which is empty.
    pub fn new(rt: &HostRuntime) -> io::Result<Tree> {
        let mut tree = Tree {
            alloc: rt.alloc(),
            entries: Vec::new(rt.alloc()),
            folders: SystemFolders::new(rt),
        };
        let root = tree.folders.root()?;
        tree.add(String::new(rt.alloc()), Node::Folder(root))?;
        Ok(tree)
    }

    /// What stands at this path.
    pub fn node(&self, path: &str) -> io::Result<&Node> {
        let path = plain(self.alloc, path)?;
        self.found(path.as_str()).ok_or(missing())
    }

    /// Opens what stands there, or a new file.
    pub fn open(&mut self, how: &OpenOptions, path: &str) -> io::Result<Node> {
        let path = plain(self.alloc, path)?;
        match self.found(path.as_str()) {
            Some(_) if how.asks_create_new() => Err(io::Error::from(ErrorKind::AlreadyExists)),
            Some(node) => opened(node, how),
            None if how.asks_create() || how.asks_create_new() => self.make_file(path),
            None => Err(missing()),
        }
    }

    /// Makes a folder.
    pub fn make_folder(&mut self, path: &str) -> io::Result<()> {
        let path = plain(self.alloc, path)?;
        if self.found(path.as_str()).is_some() {
            return Err(io::Error::from(ErrorKind::AlreadyExists));
        }
        self.check_above(path.as_str())?;
        let metadata = self.folders.of_name(name_of(path.as_str()))?;
        self.add(path, Node::Folder(metadata))
    }

    /// Gives a file another path, in place of the file that stands there.
    pub fn rename(&mut self, from: &str, to: &str) -> io::Result<()> {
        let from = plain(self.alloc, from)?;
        let to = plain(self.alloc, to)?;
        let node = self.file(from.as_str())?;
        self.check_above(to.as_str())?;
        if self.found(to.as_str()).is_some() {
            drop(self.file(to.as_str())?);
        }
        self.forget(from.as_str());
        self.forget(to.as_str());
        self.add(to, node)
    }

    /// Removes a file.
    pub fn remove_file(&mut self, path: &str) -> io::Result<()> {
        let path = plain(self.alloc, path)?;
        drop(self.file(path.as_str())?);
        self.forget(path.as_str());
        Ok(())
    }

    /// The names in a folder, each ended by a NUL.
    pub fn names_in(&self, folder: &str) -> io::Result<Vec<u8>> {
        let folder = plain(self.alloc, folder)?;
        match self.found(folder.as_str()) {
            Some(Node::Folder(_)) => {}
            Some(Node::File(_)) => return Err(io::Error::from(ErrorKind::NotADirectory)),
            None => return Err(missing()),
        }
        let mut names = Vec::new(self.alloc);
        for entry in &self.entries {
            if above(entry.path.as_str()) == Some(folder.as_str()) {
                names.extend_from_slice(name_of(entry.path.as_str()).as_bytes())?;
                names.push(0)?;
            }
        }
        Ok(names)
    }

    fn found(&self, path: &str) -> Option<&Node> {
        self.entries
            .iter()
            .find(|entry| entry.path.as_str() == path)
            .map(|entry| &entry.node)
    }

    /// The file at a path.
    fn file(&self, path: &str) -> io::Result<Node> {
        match self.found(path) {
            Some(Node::Folder(_)) => Err(io::Error::from(ErrorKind::IsADirectory)),
            Some(node) => Ok(node.clone()?),
            None => Err(missing()),
        }
    }

    /// An error: there is no folder for what is to stand at this path.
    fn check_above(&self, path: &str) -> io::Result<()> {
        match self.found(above(path).unwrap_or_default()) {
            Some(node) if node.is_folder() => Ok(()),
            _ => Err(missing()),
        }
    }

    fn make_file(&mut self, path: String) -> io::Result<Node> {
        self.check_above(path.as_str())?;
        let content = Rc::new(self.alloc, Content::new(self.alloc))?;
        let node = Node::File(content);
        self.add(path, node.clone()?)?;
        Ok(node)
    }

    fn add(&mut self, path: String, node: Node) -> io::Result<()> {
        Ok(self.entries.push(PathEntry { path, node })?)
    }

    fn forget(&mut self, path: &str) {
        self.entries.retain(|entry| entry.path.as_str() != path);
    }
}

/// What is opened so.
fn opened(node: &Node, how: &OpenOptions) -> io::Result<Node> {
    if how.asks_write() || how.asks_append() {
        let content = node.content()?;
        if how.asks_truncate() {
            content.set_len(0)?;
        }
    }
    Ok(node.clone()?)
}

/// The same path, in which each part has one slash before it.
fn plain(alloc: Global, path: &str) -> Result<String, AllocError> {
    let mut plain = String::new(alloc);
    for part in path.split('/') {
        if !part.is_empty() {
            plain.push('/')?;
            plain.push_str(part)?;
        }
    }
    Ok(plain)
}

/// The path of the folder in which this stands, if it is not the root.
fn above(path: &str) -> Option<&str> {
    match path.rsplit_once('/') {
        Some((above, _)) => Some(above),
        None => None,
    }
}

/// The last part of a path.
fn name_of(path: &str) -> &str {
    match path.rsplit_once('/') {
        Some((_, name)) => name,
        None => path,
    }
}

fn missing() -> io::Error {
    io::Error::from(ErrorKind::NotFound)
}
