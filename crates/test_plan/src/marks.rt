//! Marks of copies.

use crate::generator::Generator;
use mailcore::fault::CoreFault;
use mailcore::marks::draw_marks;
use mailcore::tuid::Tuid;
use std::alloc::Global;
use test_scripts::failure::Failure;
use test_scripts::reported::Reported;
use test_scripts::words::Words;

/// The marks that the rest of the line names.
pub fn read_marks(alloc: Global, line: &mut Words<'_>) -> Vec<Tuid> {
    let mut marks = Vec::new(alloc);
    if !line.is_over() {
        for word in line.text().split(' ') {
            push_mark(&mut marks, word, line);
        }
    }
    marks
}

fn push_mark(marks: &mut Vec<Tuid>, word: &str, line: &mut Words<'_>) {
    match Tuid::read(word.as_bytes()) {
        Some(mark) => {
            if marks.push(mark).is_err() {
                line.fail(Failure::NoMemory);
            }
        }
        None => line.refuse(),
    }
}

/// `COUNT counting` or `COUNT constant`: prints the marks that are drawn, and how many words were drawn.
pub fn print_drawn(alloc: Global, reported: &mut Reported, line: &mut Words<'_>) {
    let count = line.count();
    let step = match line.word() {
        "counting" => 1,
        "constant" => 0,
        _ => {
            line.refuse();
            1
        }
    };
    let mut generator = Generator { drawn: 0, step };
    match drawn(alloc, &mut generator, count) {
        Ok(marks) => {
            for mark in marks.iter() {
                print_mark(reported, Some(*mark));
            }
        }
        Err(CoreFault::NoMemory) => reported.lose(),
        Err(fault) => reported.say(&fault),
    }
    reported.begin();
    reported.number(generator.drawn);
    reported.text(" words drawn");
    reported.end();
}

/// So many marks, which this generator gives.
pub fn drawn(
    alloc: Global,
    generator: &mut Generator,
    count: usize,
) -> Result<Vec<Tuid>, CoreFault> {
    draw_marks(alloc, generator, count)
}

/// Prints a mark, or that there is none.
pub fn print_mark(reported: &mut Reported, mark: Option<Tuid>) {
    reported.begin();
    match mark {
        Some(mark) => reported.quoted(&mark.text()),
        None => reported.text("none"),
    }
    reported.end();
}
