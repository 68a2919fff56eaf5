//! Where in the folder of a mailbox a call stopped, and what the system said.

use crate::folder::{FileName, Location};
use device::trouble::Trouble;
use mailcore::octets::Octets;
use std::alloc::{AllocError, Global};

/// Where in the folder of a mailbox something stands.
#[derive(Drop)]
pub enum Part {
    /// In the folder itself.
    Whole,
    /// A file that is no message, by its path from the folder.
    Own(&'static str),
    /// A message.
    Mail(FileName),
}

impl Part {
    /// The part that a message is, or the whole folder where memory ran out for its name.
    pub(crate) fn of_mail(alloc: Global, file: Location<'_>) -> Part {
        match name_of(alloc, file) {
            Ok(file) => Part::Mail(file),
            Err(AllocError) => Part::Whole,
        }
    }
}

/// Where a call stopped, and what the system said of it.
#[derive(Drop)]
pub struct DiskStop {
    /// Where it stopped.
    pub part: Part,
    /// What the system said.
    pub trouble: Trouble,
}

fn name_of(alloc: Global, file: Location<'_>) -> Result<FileName, AllocError> {
    let name = Vec::from_slice(alloc, file.name)?;
    Ok(FileName {
        place: file.place,
        name: Octets::from_vec(name),
    })
}
