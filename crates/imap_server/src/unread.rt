//! What of the bytes of a connection is not answered yet.

use crate::dropped::Dropped;
use crate::line::LineBuf;

/// The bytes that are read and not answered.
#[derive(Drop)]
pub(crate) enum Unread {
    /// The begin of a line.
    Line(LineBuf),
    /// A line with a fault.
    Dropped(Dropped),
}
