//! Who plays the scripts.

use crate::hearing::Hearing;
use crate::sending::Sending;
use mailcore::tuid::Tuid;
use std::alloc::Global;
use test_scripts::failure::Failure;
use test_scripts::play::{Player, play_all};
use test_scripts::reported::Reported;
use test_scripts::script::Script;
use test_scripts::words::Words;

/// In pieces of so many bytes the replies come, too.
const PIECES: [usize; 2] = [1, 7];

/// So many bytes and more are not cut.
const CUT_MAX: usize = 2000;

/// Plays the lines of a script of `face`.
pub fn run(rt: &HostRuntime, script: &mut Script<'_>) -> Result<(), Failure> {
    let mut faces = Faces {
        alloc: rt.alloc(),
        sending: Sending::new(rt.alloc())?,
    };
    play_all(rt, &mut faces, script)
}

/// What plays them.
#[derive(Drop)]
struct Faces {
    alloc: Global,
    /// The face of this case, over which bytes are sent.
    sending: Sending,
}

impl Faces {
    /// Sends the copy of this message, and gives what the server gets.
    fn copy(&mut self, line: &mut Words<'_>) -> Result<Vec<u8>, Failure> {
        let mark = Tuid::read(line.word().as_bytes()).ok_or(Failure::Script)?;
        let message = line.bytes(self.alloc)?;
        self.sending.send_copy(mark, &message)
    }
}

impl Player for Faces {
    fn begin(&mut self) -> Result<(), Failure> {
        self.sending = Sending::new(self.alloc)?;
        Ok(())
    }

    fn play(&mut self, line: &mut Words<'_>, script: &mut Script<'_>) -> Result<(), Failure> {
        let bytes = match line.word() {
            "reply" => line.bytes(self.alloc)?,
            "line" => {
                let mut bytes = Vec::from_slice(self.alloc, line.rest())?;
                bytes.extend_from_slice(b"\r\n")?;
                bytes
            }
            "send" => {
                let bytes = line.bytes(self.alloc)?;
                print_sent(&self.sending.send(&bytes)?, &mut script.reported);
                return Ok(());
            }
            "copy" => {
                print_sent(&self.copy(line)?, &mut script.reported);
                return Ok(());
            }
            "connect" => return self.sending.reconnect(),
            "times" => return print_often(self.alloc, line, &mut script.reported),
            _ => return Err(Failure::Script),
        };
        print_heard(self.alloc, &bytes, &mut script.reported)
    }
}

/// Reports what the server gets.
fn print_sent(sent: &[u8], reported: &mut Reported) {
    for line in sent.split(|b| *b == b'\n') {
        print_line(reported, "", line);
    }
}

/// Reports how much a client hears if one line comes so often.
fn print_often(
    alloc: Global,
    line: &mut Words<'_>,
    reported: &mut Reported,
) -> Result<(), Failure> {
    let count = line.count();
    let text = line.rest();
    let mut bytes = Vec::new(alloc);
    for _ in 0..count {
        bytes.extend_from_slice(text)?;
        bytes.extend_from_slice(b"\r\n")?;
    }
    let heard = Hearing::of(alloc, &bytes, usize::MAX)?;
    reported.begin();
    reported.number(heard.bytes.len() as u64);
    reported.text(" bytes");
    reported.end();
    print_end(&heard, reported);
    Ok(())
}

/// Reports what a client hears if these bytes come.
fn print_heard(alloc: Global, bytes: &[u8], reported: &mut Reported) -> Result<(), Failure> {
    let heard = Hearing::of(alloc, bytes, usize::MAX)?;
    if heard.bytes.is_empty() {
        reported.answer("nothing");
    }
    for reply in heard.bytes.split(|b| *b == b'\n') {
        print_line(reported, "", reply);
    }
    print_end(&heard, reported);
    for name in &heard.skipped {
        print_line(reported, "skips ", name);
    }
    if let Some(text) = &heard.last {
        print_line(reported, "says ", text);
    }
    for alert in &heard.alerts {
        print_line(reported, "alerts ", alert);
    }
    print_pieces(alloc, bytes, &heard, reported)?;
    print_cuts(alloc, bytes, &heard, reported)
}

/// Reports whether the link gave up, and over which reply.
fn print_end(heard: &Hearing, reported: &mut Reported) {
    if heard.gave_up {
        reported.answer("gives up");
    }
    if let Some(text) = &heard.unread {
        print_line(reported, "cannot read ", text);
    }
}

/// Reports where other bytes are heard if these come in pieces.
fn print_pieces(
    alloc: Global,
    bytes: &[u8],
    whole: &Hearing,
    reported: &mut Reported,
) -> Result<(), Failure> {
    for piece in PIECES {
        let heard = Hearing::of(alloc, bytes, piece)?;
        if heard.bytes != whole.bytes || heard.gave_up != whole.gave_up {
            reported.begin();
            reported.text("otherwise in pieces of ");
            reported.number(piece as u64);
            reported.end();
        }
    }
    Ok(())
}

/// Reports where bytes that are cut give other bytes than a beginning.
fn print_cuts(
    alloc: Global,
    bytes: &[u8],
    whole: &Hearing,
    reported: &mut Reported,
) -> Result<(), Failure> {
    if bytes.len() >= CUT_MAX {
        return Ok(());
    }
    for len in 0..bytes.len() {
        let heard = Hearing::of(alloc, bytes.get(..len).unwrap_or_default(), usize::MAX)?;
        if !whole.bytes.starts_with(&heard.bytes) {
            reported.begin();
            reported.text("otherwise if cut at ");
            reported.number(len as u64);
            reported.end();
        }
    }
    Ok(())
}

/// A line of words and bytes, unless it is empty.
fn print_line(reported: &mut Reported, words: &str, bytes: &[u8]) {
    if !bytes.is_empty() {
        reported.begin();
        reported.text(words);
        reported.quoted(bytes);
        reported.end();
    }
}
