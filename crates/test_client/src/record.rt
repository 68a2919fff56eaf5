//! Lines that are played without a transcript.

use crate::stage::Stage;
use crate::tape::Tape;
use std::alloc::Global;
use std::cell::RefCell;
use test_scripts::reported::Reported;
use test_scripts::words::Words;

/// The calls of a script that were made, and what came of them.
#[derive(Drop)]
pub struct Record {
    /// Each call, in a line.
    pub calls: Reported,
    /// The answer of each, in a line, and `(sent)` where anything was sent.
    pub answers: Reported,
    /// How many bytes the server has said.
    pub spoken: usize,
    // what was sent or not, against what the script says
    amiss: Reported,
}

impl Record {
    /// No call.
    pub fn new(alloc: Global) -> Record {
        Record {
            calls: Reported::new(alloc),
            answers: Reported::new(alloc),
            spoken: 0,
            amiss: Reported::new(alloc),
        }
    }

    /// What comes of these lines where the server says so many bytes at most.
    pub fn of(alloc: Global, lines: &str, room: usize) -> Record {
        let tape = RefCell::new(Tape::new(alloc, room));
        let mut record = Record::new(alloc);
        let mut stage = Stage::new(alloc, &tape);
        record.play(&mut stage, lines);
        drop(stage);
        let tape = tape.into_inner();
        record.spoken = tape.spoken();
        drop(tape);
        record
    }

    /// Plays lines, which were played before.
    pub fn play(&mut self, stage: &mut Stage<'_>, lines: &str) {
        for line in lines.lines() {
            let mut words = Words::new(line.as_bytes());
            self.play_line(stage, line, &mut words);
            if words.end().is_err() {
                self.amiss.lose();
            }
        }
    }

    fn play_line(&mut self, stage: &mut Stage<'_>, line: &str, words: &mut Words<'_>) {
        let word = words.word();
        if stage.talk(word, words) {
            return;
        }
        self.calls.text(line);
        self.calls.end();
        stage.call(word, words, &mut self.answers);
        if stage.end_call(&mut self.amiss) {
            self.answers.text(" (sent)");
        }
        self.answers.end();
    }

    /// Whether not all is noted, since memory ran out.
    pub fn is_lost(&self) -> bool {
        self.calls.is_lost() || self.answers.is_lost() || self.amiss.is_lost()
    }
}
