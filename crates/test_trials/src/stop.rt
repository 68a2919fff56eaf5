//! The stops of a trial, as its lines say them.

use std::fmt;

/// The calls of a trial that can stop.
pub(crate) const CALLS: [&str; 18] = [
    "folder.names",
    "folder.read",
    "folder.write_tmp",
    "folder.rename",
    "folder.remove",
    "folder.replace_meta",
    APPEND,
    "shelf.read",
    "shelf.replace",
    "shelf.remove",
    "CAPABILITY",
    "LOGIN",
    "ENABLE",
    "SELECT",
    "FETCH",
    "STORE",
    "EXPUNGE",
    "APPEND",
];

/// The call of which beginnings are written.
pub(crate) const APPEND: &str = "shelf.append";

/// Where a call stops.
#[derive(Clone, Copy)]
pub(crate) enum Moment {
    /// Without its effect.
    Before,
    /// With its effect.
    After,
    /// With so many bytes of it.
    Part(u32),
}

/// A stop of a trial.
#[derive(Clone, Copy)]
pub(crate) struct Halt {
    /// The name of the call.
    pub(crate) call: &'static str,
    /// Which call of this name, counted from 1.
    pub(crate) number: u32,
    /// Where it stops.
    pub(crate) moment: Moment,
}

impl fmt::Display for Halt {
    fn fmt<W: fmt::Write>(&self, f: &mut fmt::Formatter<W>) -> fmt::Result {
        let Halt {
            call,
            number,
            moment,
        } = *self;
        match moment {
            Moment::Before => write!(f, "stop before {call} {number}"),
            Moment::After => write!(f, "stop after {call} {number}"),
            Moment::Part(bytes) => write!(f, "stop part {call} {number} {bytes}"),
        }
    }
}
