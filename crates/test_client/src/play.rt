//! Scripts of calls over a link whose other end says what the script says.

use crate::client::Client;
use crate::cuts::print_cuts;
use crate::memory::Memory;
use crate::record::Record;
use crate::stage::Stage;
use crate::tape::Tape;
use imap_client::tcp_link::TcpLink;
use std::alloc::Global;
use std::cell::RefCell;
use std::mem;
use test_scripts::failure::Failure;
use test_scripts::play::{Player, play_all, play_part};
use test_scripts::reported::Reported;
use test_scripts::script::{CASE, Script};
use test_scripts::words::Words;

/// Plays the lines of a script.
pub fn run(rt: &HostRuntime, script: &mut Script<'_>) -> Result<(), Failure> {
    let tape = RefCell::new(Tape::new(rt.alloc(), usize::MAX));
    let played = play_over(rt, &tape, script);
    drop(tape);
    played
}

fn play_over(
    rt: &HostRuntime,
    tape: &RefCell<Tape>,
    script: &mut Script<'_>,
) -> Result<(), Failure> {
    let mut player = Calls {
        rt,
        tape,
        stage: Stage::new(rt.alloc(), tape),
        lines: Reported::new(rt.alloc()),
        kept: Vec::new(rt.alloc()),
    };
    let played = play_all(rt, &mut player, script);
    drop(player);
    played
}

/// A case that others go on from.
#[derive(Drop)]
struct Kept {
    name: String,
    lines: Reported,
}

/// What plays the script.
#[derive(Drop)]
struct Calls<'r, 't> {
    rt: &'r HostRuntime,
    tape: &'t RefCell<Tape>,
    stage: Stage<'t>,
    // the lines of this case, with those of the one that it goes on from
    lines: Reported,
    kept: Vec<Kept>,
}

impl Player for Calls<'_, '_> {
    fn begin(&mut self) -> Result<(), Failure> {
        if let Ok(mut tape) = self.tape.try_borrow_mut() {
            tape.begin_anew();
        }
        let stage = Stage::new(self.rt.alloc(), self.tape);
        drop(mem::replace(&mut self.stage, stage));
        self.lines.clear();
        Ok(())
    }

    fn play(&mut self, line: &mut Words<'_>, script: &mut Script<'_>) -> Result<(), Failure> {
        let mut whole = *line;
        match line.word() {
            "keep" => return self.keep(line.text()),
            "after" => self.go_on_after(line),
            "over" => return go_over(self.rt, line, script),
            "cut" => self.cut(line, &mut script.reported),
            word => {
                self.lines.text(whole.text());
                self.lines.end();
                self.make(word, line, &mut script.reported);
            }
        }
        if self.lines.is_lost() {
            line.fail(Failure::NoMemory);
        }
        Ok(())
    }
}

impl Calls<'_, '_> {
    /// Keeps the case by this name.
    fn keep(&mut self, name: &str) -> Result<(), Failure> {
        let name = String::from_str(self.rt.alloc(), name)?;
        let lines = mem::replace(&mut self.lines, Reported::new(self.rt.alloc()));
        Ok(self.kept.push(Kept { name, lines })?)
    }

    /// Goes on from the case that was kept by this name.
    fn go_on_after(&mut self, line: &mut Words<'_>) {
        let name = line.text();
        match lines_of(&self.kept, name) {
            Some(lines) => {
                self.lines.text(lines);
                play_unseen(self.rt.alloc(), &mut self.stage, lines, line);
            }
            None => line.refuse(),
        }
    }

    fn cut(&mut self, line: &mut Words<'_>, reported: &mut Reported) {
        line.expect("everywhere");
        print_cuts(self.rt.alloc(), self.lines.as_str(), reported);
    }

    /// Takes a line of what goes over the link, or makes a call.
    fn make(&mut self, word: &str, line: &mut Words<'_>, reported: &mut Reported) {
        if self.stage.talk(word, line) {
            return;
        }
        reported.begin();
        self.stage.call(word, line, reported);
        reported.end();
        let _ = self.stage.end_call(reported);
    }
}

/// The lines of the case that was kept by this name.
fn lines_of<'a>(all: &'a [Kept], name: &str) -> Option<&'a str> {
    for kept in all {
        if kept.name.as_str() == name {
            return Some(kept.lines.as_str());
        }
    }
    None
}

/// Plays lines that were played before, of which nothing is reported.
fn play_unseen(alloc: Global, stage: &mut Stage<'_>, lines: &str, line: &mut Words<'_>) {
    let mut record = Record::new(alloc);
    record.play(stage, lines);
    if record.is_lost() {
        line.fail(Failure::NoMemory);
    }
    drop(record);
}

/// Plays the lines after this one in its case: calls over another link.
fn go_over(rt: &HostRuntime, line: &mut Words<'_>, script: &mut Script<'_>) -> Result<(), Failure> {
    match line.word() {
        "memory" => play_part(rt, Memory::new(rt.alloc(), None), script, CASE),
        "tcp" => {
            let link = TcpLink::new(rt.clone()?, line.text())?;
            let alloc = rt.alloc();
            let client = Client::Link(link);
            play_part(rt, Connected { alloc, client }, script, CASE)
        }
        _ => {
            line.refuse();
            Ok(())
        }
    }
}

/// A client that has a connection, or none yet.
#[derive(Drop)]
struct Connected {
    alloc: Global,
    client: Client<TcpLink<HostRuntime>>,
}

impl Player for Connected {
    fn begin(&mut self) -> Result<(), Failure> {
        Ok(())
    }

    fn play(&mut self, line: &mut Words<'_>, script: &mut Script<'_>) -> Result<(), Failure> {
        script.reported.begin();
        let word = line.word();
        self.client
            .make(self.alloc, word, line, &mut script.reported);
        script.reported.end();
        Ok(())
    }
}
