//! The lines of what became of a run's steps (docs/FORMATS.md, "Performed lines").

use rules::plan::Step;
use runner::performed::{Performed, StepResult};
use std::fmt;
use worlds::plan_lines::StepLine;

/// A step that was performed, as a line without its end.
#[derive(Clone, Copy)]
pub struct PerformedLine<'a>(pub &'a Performed);

impl fmt::Display for PerformedLine<'_> {
    ghost use Rattle.std.specs.Prelude.{Some};
    ghost use Rattle.reports.specs.Answers.{performed_line};

    ghost output = { λ line. Some (performed_line line.0.now) };

    fn fmt<W: fmt::Write>(&self, f: &mut fmt::Formatter<W>) -> fmt::Result {
        let step = &self.0.step;
        match self.0.result {
            StepResult::Made(copy) => {
                let copy = copy.get();
                write!(f, "{} -> {copy}", StepLine(step))
            }
            StepResult::Found(copy) => {
                let copy = copy.get();
                write!(f, "{} -> {copy}", SourceLine("found", step))
            }
            StepResult::Void => write!(f, "{}", SourceLine("void", step)),
            StepResult::Plain => write!(f, "{}", StepLine(step)),
        }
    }
}

/// A word, and the direction and the source of the new message to which it happened.
#[derive(Clone, Copy)]
struct SourceLine<'a>(&'static str, &'a Step);

impl fmt::Display for SourceLine<'_> {
    ghost use Rattle.std.specs.Prelude.{Some};
    ghost use Rattle.reports.specs.Answers.{source_text};

    ghost output = { λ line. Some (source_text line.0.now line.1.now) };

    fn fmt<W: fmt::Write>(&self, f: &mut fmt::Formatter<W>) -> fmt::Result {
        let word = self.0;
        match *self.1 {
            Step::New { direction, uid, .. } => {
                let uid = uid.get();
                write!(f, "{word} {direction} {uid}")
            }
            // No other step copies a message.
            _ => write!(f, "{word} {}", StepLine(self.1)),
        }
    }
}
