//! How a script of configurations is played.

use crate::configs::print_read;
use crate::patterns::print_chosen;
use std::alloc::Global;
use test_scripts::failure::Failure;
use test_scripts::play::{Player, play_all};
use test_scripts::reported::Reported;
use test_scripts::script::Script;
use test_scripts::words::Words;

/// Plays a script of configurations.
pub fn run(rt: &HostRuntime, script: &mut Script<'_>) -> Result<(), Failure> {
    let mut shorts = Shorts {
        alloc: rt.alloc(),
        kept: Vec::new(rt.alloc()),
    };
    play_all(rt, &mut shorts, script)
}

/// Lines that one line stands for.
#[derive(Drop)]
struct Short {
    name: String,
    text: Reported,
}

/// The lines that stand for others.
#[derive(Drop)]
struct Shorts {
    alloc: Global,
    kept: Vec<Short>,
}

impl Player for Shorts {
    fn begin(&mut self) -> Result<(), Failure> {
        Ok(())
    }

    fn play(&mut self, line: &mut Words<'_>, script: &mut Script<'_>) -> Result<(), Failure> {
        let reported = &mut script.reported;
        let word = line.word();
        match word {
            "let" => self.keep(line),
            "read" | "long" | "advise" => {
                let letters = if word == "long" { line.count() } else { 0 };
                let text = self.text_of(line.text(), letters);
                if text.is_lost() {
                    reported.lose();
                }
                let text = text.as_str().as_bytes();
                print_read(self.alloc, reported, text, word == "advise");
            }
            "bytes" | "advise_bytes" => {
                let text = line.said(self.alloc);
                print_read(self.alloc, reported, &text, word == "advise_bytes");
            }
            "choose" => print_chosen(self.alloc, line, reported),
            _ => line.refuse(),
        }
        Ok(())
    }
}

impl Shorts {
    /// Keeps lines under a name.
    fn keep(&mut self, line: &mut Words<'_>) {
        match String::from_str(self.alloc, line.word()) {
            Ok(name) => {
                let text = self.text_of(line.text(), 0);
                if self.kept.push(Short { name, text }).is_err() {
                    line.fail(Failure::NoMemory);
                }
            }
            Err(_) => line.fail(Failure::NoMemory),
        }
    }

    /// The text of lines that stand between `|`, in which `~~` stands for so many letters.
    fn text_of(&self, lines: &str, letters: usize) -> Reported {
        let mut text = Reported::new(self.alloc);
        for line in lines.split('|') {
            let line = line.strip_prefix(" ").unwrap_or(line);
            let line = line.strip_suffix(" ").unwrap_or(line);
            match self.short(line) {
                Some(lines) => text.add(lines),
                None => add_line(&mut text, line, letters),
            }
        }
        text
    }

    /// The lines that a line stands for.
    fn short(&self, line: &str) -> Option<&Reported> {
        let name = line.strip_prefix("$")?;
        for short in &self.kept {
            if short.name.as_str() == name {
                return Some(&short.text);
            }
        }
        None
    }
}

/// Adds a line, in which `~~` stands for so many letters.
fn add_line(text: &mut Reported, line: &str, letters: usize) {
    match line.split_once("~~") {
        Some((before, following)) => {
            text.text(before);
            for _ in 0..letters {
                text.text("x");
            }
            text.text(following);
        }
        None => text.text(line),
    }
    text.end();
}
