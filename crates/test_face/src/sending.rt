//! What a server gets over a face.

use crate::taking_link::{Taken, TakingLink};
use imap_link::link::{Link, LinkFault};
use link_face::face_link::FaceLink;
use link_face::words::Words;
use mailcore::copy_pieces::{CopyHead, CopyPieces};
use mailcore::side::LineEnd;
use mailcore::tuid::Tuid;
use std::alloc::Global;
use std::cell::Cell;
use std::rc::Rc;
use test_scripts::failure::Failure;

/// A face, and what is sent over it.
#[derive(Drop)]
pub struct Sending {
    alloc: Global,
    link: FaceLink<TakingLink>,
    taken: Taken,
}

impl Sending {
    /// A face over a new connection.
    pub fn new(alloc: Global) -> Result<Sending, Failure> {
        let taken = Rc::new(alloc, Cell::new(Vec::new(alloc)))?;
        let words = Rc::new(alloc, Words::new(alloc))?;
        let link = TakingLink::new(alloc, taken.clone()?);
        Ok(Sending {
            alloc,
            link: FaceLink::new(alloc, link, words),
            taken,
        })
    }

    /// Sends these bytes, and gives those that the server gets.
    pub fn send(&mut self, bytes: &[u8]) -> Result<Vec<u8>, Failure> {
        let answer = self.link.send(bytes);
        self.got(answer)
    }

    /// Sends the copy of this message under this mark, and gives what the server gets.
    pub fn send_copy(&mut self, mark: Tuid, message: &[u8]) -> Result<Vec<u8>, Failure> {
        let head = CopyHead::new(mark, LineEnd::CrLf);
        let copy = CopyPieces::new(&head, message);
        let answer = self.link.send_copy(self.alloc, copy);
        self.got(answer)
    }

    // What the server got by a call that answers this.
    fn got(&mut self, answer: Result<(), LinkFault>) -> Result<Vec<u8>, Failure> {
        match answer {
            Ok(()) => Ok(self.taken.replace(Vec::new(self.alloc))),
            Err(LinkFault::NoMemory) => Err(Failure::NoMemory),
            Err(LinkFault::Stopped) => Err(Failure::Script),
        }
    }

    /// Starts a new connection.
    pub fn reconnect(&mut self) -> Result<(), Failure> {
        self.link.reconnect().map_err(|_| Failure::NoMemory)
    }
}
