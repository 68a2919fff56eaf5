//! Scripts of calls over a link to a server in memory, which are cut at each byte.

use crate::scene::Scene;
use std::alloc::Global;
use test_scripts::failure::Failure;
use test_scripts::play::{Player, play_all};
use test_scripts::reported::Reported;
use test_scripts::script::Script;
use test_scripts::words::Words;

/// Plays the lines of a script.
pub fn run_cuts(rt: &HostRuntime, script: &mut Script<'_>) -> Result<(), Failure> {
    let mut player = CutCalls {
        alloc: rt.alloc(),
        lines: Reported::new(rt.alloc()),
    };
    play_all(rt, &mut player, script)
}

/// The lines of a case that stand before the next call that is cut.
#[derive(Drop)]
struct CutCalls {
    alloc: Global,
    lines: Reported,
}

impl Player for CutCalls {
    fn begin(&mut self) -> Result<(), Failure> {
        self.lines.clear();
        Ok(())
    }

    fn play(&mut self, line: &mut Words<'_>, script: &mut Script<'_>) -> Result<(), Failure> {
        let text = line.text();
        if let Some(call) = text.strip_prefix("cut ") {
            let scene = Scene {
                alloc: self.alloc,
                lines: self.lines.as_str(),
                call,
            };
            return scene.report(&mut script.reported);
        }
        self.lines.text(text);
        self.lines.end();
        if self.lines.is_lost() {
            return Err(Failure::NoMemory);
        }
        Ok(())
    }
}
