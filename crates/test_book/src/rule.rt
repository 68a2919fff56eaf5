//! A rule that a script states of the beginnings of a text: how they are to be read.

use test_scripts::failure::Failure;
use test_scripts::reported::Reported;
use test_scripts::words::Words;

/// The rows of a rule. Each says of the beginnings with so many whole lines how they are to be read: `N: ANSWER` or `N to N: ANSWER`,
/// and `N torn: ANSWER` of those alone whose whole lines a part of one follows. Of rows about one beginning the first counts.
#[derive(Clone, Copy)]
pub struct Rule<'a> {
    rows: &'a str,
}

impl<'a> Rule<'a> {
    /// Reads a rule. `Script`: these are no such rows.
    pub fn read(rows: &'a [u8]) -> Result<Rule<'a>, Failure> {
        match str::from_utf8(rows) {
            Ok(rows) => Ok(Rule { rows }),
            Err(_) => Err(Failure::Script),
        }
    }

    /// Adds to what was printed of a beginning what is wrong with it by the rule, if anything is. The line is bad if a row is none.
    pub fn judge(self, beginning: &[u8], line: &mut Words<'_>, reported: &mut Reported) {
        match self.answer(beginning, line) {
            Some(answer) if answer == reported.as_str() => {}
            Some(answer) => {
                reported.text(", WRONG, by the rule ");
                reported.text(answer);
            }
            None => reported.text(", WRONG, the rule says nothing of it"),
        }
    }

    /// How this beginning is to be read.
    fn answer(self, beginning: &[u8], line: &mut Words<'_>) -> Option<&'a str> {
        let lines = beginning.iter().filter(|byte| **byte == b'\n').count();
        let is_torn = !matches!(beginning, [] | [.., b'\n']);
        for row in self.rows.lines() {
            let Some((head, answer)) = row.split_once(": ") else {
                line.refuse();
                break;
            };
            if is_about(head, lines, is_torn, line) {
                return Some(answer);
            }
        }
        None
    }
}

/// Whether a row that begins so is about a beginning with so many whole lines, which a part of one follows or not.
fn is_about(head: &str, lines: usize, is_torn: bool, line: &mut Words<'_>) -> bool {
    let mut words = Words::new(head.as_bytes());
    let first = words.count();
    let mut last = first;
    let mut is_about_torn = false;
    if !words.is_over() {
        match words.word() {
            "to" => last = words.count(),
            "torn" => is_about_torn = true,
            _ => words.refuse(),
        }
    }
    line.note(words.end());
    first <= lines && lines <= last && (is_torn || !is_about_torn)
}
