//! How trials are played.

use crate::numbered::{PLACE, numbered};
use run_trial::run::{TrialRequest, run_trial};
use test_scripts::failure::Failure;
use test_scripts::play::{Player, play_all};
use test_scripts::reported::Reported;
use test_scripts::script::Script;
use test_scripts::words::Words;

/// At most so many bytes of what the server says are received at once, where it comes in pieces.
const PIECES: [u32; 3] = [1, 7, 4096];

/// Plays the trials of a script.
pub fn run(rt: &HostRuntime, script: &mut Script<'_>) -> Result<(), Failure> {
    let text = Vec::new(rt.alloc());
    play_all(rt, &mut Trials { rt, text }, script)
}

/// What is printed where pieces make no difference.
const AS_IN_MEMORY: &str = "as in memory";

/// How the far mailbox is reached.
enum Way {
    /// In one way.
    Link(TrialRequest),
    /// In memory, where what the server says comes in pieces of each size.
    Pieces,
}

/// The trial that is played.
#[derive(Drop)]
struct Trials<'a> {
    rt: &'a HostRuntime,
    /// Its text.
    text: Vec<u8>,
}

impl Player for Trials<'_> {
    fn begin(&mut self) -> Result<(), Failure> {
        self.text.clear();
        Ok(())
    }

    fn play(&mut self, line: &mut Words<'_>, script: &mut Script<'_>) -> Result<(), Failure> {
        match line.word() {
            "trial" => self.set_text(script.block(b".")?),
            "play" if line.is_over() => self.play_text(TrialRequest::Memory, &mut script.reported),
            "play" => self.play_as(line, &mut script.reported),
            _ => Err(Failure::Script),
        }
    }
}

impl Trials<'_> {
    fn set_text(&mut self, text: &[u8]) -> Result<(), Failure> {
        self.text.clear();
        Ok(self.text.extend_from_slice(text)?)
    }

    /// `for each B from N to M`, or nothing, and then how the far mailbox is reached.
    fn play_as(&self, line: &mut Words<'_>, reported: &mut Reported) -> Result<(), Failure> {
        match line.word() {
            "for" => {
                expect(line, "each");
                expect(line, PLACE);
                self.play_each(line, reported)
            }
            word => match way_of(word, line) {
                Way::Link(request) => self.play_text(request, reported),
                Way::Pieces => self.play_in_pieces(reported),
            },
        }
    }

    /// Prints that the trial comes to the same as in memory where what the server says comes in pieces, or what it comes to.
    fn play_in_pieces(&self, reported: &mut Reported) -> Result<(), Failure> {
        match self.other_in_pieces(&self.text)? {
            Some((piece, answer)) => print_range(reported, piece, piece, &answer),
            None => reported.answer(AS_IN_MEMORY),
        }
        Ok(())
    }

    /// The first size of pieces in which this trial comes to something else than in memory, and what it comes to.
    fn other_in_pieces(&self, text: &[u8]) -> Result<Option<(u32, Reported)>, Failure> {
        let whole = self.answer(TrialRequest::Memory, text)?;
        for piece in PIECES {
            let answer = self.answer(TrialRequest::Pieces(piece as usize), text)?;
            if answer.as_str() != whole.as_str() {
                return Ok(Some((piece, answer)));
            }
        }
        Ok(None)
    }

    /// Reports what the trial comes to.
    fn play_text(&self, request: TrialRequest, reported: &mut Reported) -> Result<(), Failure> {
        let answer = self.answer(request, &self.text)?;
        reported.text(answer.as_str());
        Ok(())
    }

    /// `from N to M`, and how the far mailbox is reached: prints what it comes to with each of these numbers.
    fn play_each(&self, line: &mut Words<'_>, reported: &mut Reported) -> Result<(), Failure> {
        expect(line, "from");
        let first = line.number();
        expect(line, "to");
        let last = line.number();
        if line.is_over() {
            return self.play_range(TrialRequest::Memory, first, last, reported);
        }
        let word = line.word();
        match way_of(word, line) {
            Way::Link(request) => self.play_range(request, first, last, reported),
            Way::Pieces => self.play_range_in_pieces(first, last, reported),
        }
    }

    /// Prints what it comes to with each of these numbers.
    fn play_range(
        &self,
        request: TrialRequest,
        first: u32,
        last: u32,
        reported: &mut Reported,
    ) -> Result<(), Failure> {
        let mut start = first;
        let mut same = Reported::new(self.rt.alloc());
        for number in first..=last {
            let answer = self.answer_with(request, number)?;
            if number > first && answer.as_str() != same.as_str() {
                print_range(reported, start, number - 1, &same);
                start = number;
            }
            same = answer;
        }
        print_range(reported, start, last, &same);
        Ok(())
    }

    /// Prints that with each of these numbers it comes to the same as in memory where what the server says comes in pieces, or what it
    /// comes to with those for which it does not.
    fn play_range_in_pieces(
        &self,
        first: u32,
        last: u32,
        reported: &mut Reported,
    ) -> Result<(), Failure> {
        let mut are_same = true;
        for number in first..=last {
            let text = numbered(self.rt.alloc(), &self.text, number);
            if let Some((_, answer)) = self.other_in_pieces(text.as_str().as_bytes())? {
                are_same = false;
                print_range(reported, number, number, &answer);
            }
        }
        if are_same {
            reported.answer(AS_IN_MEMORY);
        }
        Ok(())
    }

    /// What the trial comes to with this number.
    fn answer_with(&self, request: TrialRequest, number: u32) -> Result<Reported, Failure> {
        let text = numbered(self.rt.alloc(), &self.text, number);
        self.answer(request, text.as_str().as_bytes())
    }

    /// What a trial comes to: the lines that are printed, those of standard error, and the exit status.
    fn answer(&self, request: TrialRequest, text: &[u8]) -> Result<Reported, Failure> {
        let rt = self.rt.clone()?;
        let (mut out, mut err) = (Vec::new(rt.alloc()), Vec::new(rt.alloc()));
        let mut answer = Reported::new(rt.alloc());
        let mut input = text;
        let status = run_trial(rt, request, &mut input, &mut out, &mut err);
        print_lines(&mut answer, "", &out);
        print_lines(&mut answer, "err ", &err);
        answer.begin();
        answer.text("status ");
        answer.number(u64::from(status));
        answer.end();
        Ok(answer)
    }
}

/// Takes the next word, which is this one.
fn expect(line: &mut Words<'_>, word: &str) {
    if line.word() != word {
        line.refuse();
    }
}

/// How the far mailbox is reached: `over loopback`, `following a face`, or `in pieces`, of which the first word is taken.
fn way_of(word: &str, line: &mut Words<'_>) -> Way {
    match word {
        "over" => {
            expect(line, "loopback");
            Way::Link(TrialRequest::Loopback)
        }
        "behind" => {
            expect(line, "a");
            expect(line, "face");
            Way::Link(TrialRequest::Face)
        }
        "in" => {
            expect(line, "pieces");
            Way::Pieces
        }
        _ => {
            line.refuse();
            Way::Pieces
        }
    }
}

/// An answer for each line of a text, after a word.
fn print_lines(reported: &mut Reported, word: &str, text: &[u8]) {
    for line in str::from_utf8(text).unwrap_or("(no text)").lines() {
        reported.begin();
        reported.text(word);
        reported.text(line);
        reported.end();
    }
}

/// The answer of a range of numbers, after the range.
fn print_range(reported: &mut Reported, first: u32, last: u32, answer: &Reported) {
    reported.begin();
    reported.number(u64::from(first));
    reported.text(" to ");
    reported.number(u64::from(last));
    reported.text(":");
    reported.end();
    reported.text(answer.as_str());
}
