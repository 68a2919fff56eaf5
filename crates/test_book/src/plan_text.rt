//! A plan from its lines. Unlike a journal's reader it takes any numbers and any order, so that plans without a text can be
//! tried too.

use mailcore::keywords::Keywords;
use rules::plan::{Note, Notes, Plan, PlanSide, Step, Steps};
use std::alloc::{AllocError, Global};
use sync_state::journal_lines::{read_note, read_step};
use test_scripts::failure::Failure;
use test_scripts::words::Words;

/// The lines of a plan that were read: `run RUN`, `far VALIDITY HIGHEST NEXT`, `near ..`, `k LETTER NAME`, and steps and notes. Numbers
/// whose line is missing are 0.
#[derive(Drop)]
pub struct Draft {
    run: u64,
    far: PlanSide,
    near: PlanSide,
    steps: Vec<Step>,
    notes: Vec<Note>,
    keywords: Keywords,
}

impl Draft {
    /// No line.
    pub fn new(alloc: Global) -> Draft {
        let side = PlanSide {
            validity: 0,
            highest: 0,
            next: 0,
        };
        Draft {
            run: 0,
            far: side,
            near: side,
            steps: Vec::new(alloc),
            notes: Vec::new(alloc),
            keywords: Keywords::new(alloc),
        }
    }

    /// Reads these lines. The line before them is bad if one is no line of a plan.
    pub fn read(&mut self, text: &[u8], line: &mut Words<'_>) {
        let text = str::from_utf8(text).unwrap_or("(no text)");
        for row in text.lines() {
            self.read_row(row.as_bytes(), line);
        }
    }

    fn read_row(&mut self, row: &[u8], line: &mut Words<'_>) {
        match row {
            [b's', b' ', ..] => line.note(push_read(&mut self.steps, row, read_step)),
            [b'n', b' ', ..] => line.note(push_read(&mut self.notes, row, read_note)),
            _ => {
                let mut words = Words::new(row);
                self.read_head(&mut words);
                line.note(words.end());
            }
        }
    }

    fn read_head(&mut self, words: &mut Words<'_>) {
        match words.word() {
            "run" => self.run = words.long_number(),
            "far" => self.far = read_side(words),
            "near" => self.near = read_side(words),
            "k" => words.keyword(&mut self.keywords),
            _ => words.refuse(),
        }
    }

    /// The plan.
    pub fn finish(self) -> Plan {
        Plan {
            run: self.run,
            far: self.far,
            near: self.near,
            steps: Steps::from_vec(self.steps),
            notes: Notes::from_vec(self.notes),
            keywords: self.keywords,
        }
    }
}

/// Adds what is read of a line. `Script`: nothing is.
fn push_read<T: Drop, F: Fn(&[u8]) -> Option<T> + Drop>(
    list: &mut Vec<T>,
    line: &[u8],
    read: F,
) -> Result<(), Failure>
    requires { F.IsAlwaysCallable read }
{
    let item = read(line).ok_or(Failure::Script)?;
    Ok(list.push(item)?)
}

/// UIDVALIDITY, highest UID and UIDNEXT.
fn read_side(line: &mut Words<'_>) -> PlanSide {
    let validity = line.number();
    let highest = line.number();
    let next = line.number();
    PlanSide {
        validity,
        highest,
        next,
    }
}

/// The plan of a script once more, since a book takes the plan that it begins.
pub fn copy_of(alloc: Global, plan: &Plan) -> Result<Plan, AllocError> {
    let steps = Vec::from_slice(alloc, plan.steps.as_slice())?;
    let notes = Vec::from_slice(alloc, plan.notes.as_slice())?;
    Ok(Plan {
        run: plan.run,
        far: plan.far,
        near: plan.near,
        steps: Steps::from_vec(steps),
        notes: Notes::from_vec(notes),
        keywords: plan.keywords.try_clone(alloc)?,
    })
}
