//! What bytes are that end a line: a reply of the profile, its begin, or neither.

ghost use Rattle.std.specs.Prelude.{◌≡◌, IfOk};
ghost use Rattle.link_face.specs.Fronts.{IsFront, IsKind};

use crate::heard::{hides, is_heard};
use imap_replies::reading::read_reply;
use imap_replies::reply::Reply;
use std::alloc::{AllocError, Global};
use wire_reader::answer::{Read, WireFault};

/// What bytes are that end a line.
#[derive(Clone, Copy, PartialEq, Eq)]
pub(crate) enum Front {
    /// A reply of the profile that is heard as it came.
    Heard,
    /// A LIST reply whose name is another near: another reply is heard in its place, or none.
    Listed,
    /// More belongs to the reply.
    Begun,
    /// A server of the profile says no reply that begins so.
    Other,
}

/// What these bytes are.
///
/// `AllocError`: memory ran out.
#[tactic(auto, using(crate::proofs::FrontLemmas::front_whole))]
pub(crate) fn front_of(alloc: Global, bytes: &[u8]) -> Result<Front, AllocError>
    ensures { IfOk result (IsFront bytes.now) }
{
    match read_reply(alloc, bytes) {
        Ok(Read::Whole(reply, used)) => {
            if used == bytes.len() {
                Ok(kind_of(&reply))
            } else {
                Ok(Front::Other)
            }
        }
        Ok(Read::WantsLiteral(_)) => Ok(Front::Begun),
        Ok(Read::Partial) => Ok(Front::Begun),
        Err(WireFault::Syntax(_)) => Ok(Front::Other),
        Err(WireFault::LineTooLong) => Ok(Front::Other),
        Err(WireFault::LiteralTooLong(_)) => Ok(Front::Other),
        Err(WireFault::NoMemory) => Err(AllocError),
    }
}

/// What a reply is.
fn kind_of(reply: &Reply<'_>) -> Front
    ensures { IsKind reply.now result }
{
    match reply {
        Reply::Other(..) | Reply::OtherNumbered(..) => Front::Other,
        Reply::List(attributes, ..) => {
            if is_heard(reply) {
                Front::Heard
            } else if hides(attributes) {
                Front::Other
            } else {
                Front::Listed
            }
        }
        _ => {
            if is_heard(reply) {
                Front::Heard
            } else {
                Front::Other
            }
        }
    }
}
