//! How a script is played.

use crate::cells::print_cells;
use crate::changes::{grown, with_line, with_more};
use crate::comparison::print_compared;
use crate::devices::{SOUND, read_devices};
use crate::mail::{print_of_message, print_of_side};
use crate::marks::print_drawn;
use crate::phrases::joined;
use crate::planner_calls::print_planned;
use crate::runs::{print_beginnings, print_run};
use crate::written::print_written;
use mailcore::uid::Uid;
use std::alloc::Global;
use test_scripts::failure::Failure;
use test_scripts::play::{Player, play_all};
use test_scripts::reported::Reported;
use test_scripts::script::Script;
use test_scripts::words::Words;

/// Plays a script of worlds and of words of mail.
pub fn run(rt: &HostRuntime, script: &mut Script<'_>) -> Result<(), Failure> {
    let mut last = LastWorld {
        alloc: rt.alloc(),
        text: Vec::new(rt.alloc()),
    };
    play_all(rt, &mut last, script)
}

/// The text of the last world.
#[derive(Drop)]
struct LastWorld {
    alloc: Global,
    text: Vec<u8>,
}

impl Player for LastWorld {
    fn begin(&mut self) -> Result<(), Failure> {
        Ok(())
    }

    fn play(&mut self, line: &mut Words<'_>, script: &mut Script<'_>) -> Result<(), Failure> {
        let word = line.word();
        match word {
            "world" => self.text = joined(self.alloc, &[script.block(b".")?], line),
            "grow" => self.text = grown(self.alloc, &self.text, line),
            _ => {
                self.ask(word, line, &mut script.reported);
                return Ok(());
            }
        }
        print_run(self.alloc, &mut script.reported, SOUND, &self.text);
        Ok(())
    }
}

impl LastWorld {
    /// Prints what is asked of the last world.
    fn ask(&self, word: &str, line: &mut Words<'_>, reported: &mut Reported) {
        let (alloc, world) = (self.alloc, self.text.as_slice());
        match word {
            "line" => {
                let number = line.number();
                let text = with_line(alloc, world, number, line);
                print_run(alloc, reported, SOUND, &text);
            }
            "behind" => {
                let text = with_more(alloc, world, line);
                print_run(alloc, reported, SOUND, &text);
            }
            "beginnings" => print_beginnings(alloc, reported, world),
            "reader" | "writer" | "error" | "argument" => {
                let devices = read_devices(word, line);
                print_run(alloc, reported, devices, world);
            }
            "written" => print_written(alloc, reported, world, line),
            "news" | "unfit" | "plan" | "turns" => {
                print_planned(alloc, reported, world, word, line);
            }
            "compare" => print_compared(alloc, reported, line),
            _ => ask_mail(alloc, word, line, reported),
        }
    }
}

/// Prints what is asked of words of mail.
fn ask_mail(alloc: Global, word: &str, line: &mut Words<'_>, reported: &mut Reported) {
    match word {
        "sync" => print_cells(alloc, reported, line),
        "marks" => print_drawn(alloc, reported, line),
        "length" | "copy" | "copy_len" | "fit" => print_of_side(alloc, reported, word, line),
        "uid" => match Uid::new(line.number()) {
            Some(uid) => reported.say(&uid.get()),
            None => reported.answer("none"),
        },
        _ => print_of_message(alloc, reported, word, line),
    }
}
