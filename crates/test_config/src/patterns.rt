//! Which names patterns choose.

use config_words::patterns::{Pattern, Patterns, matches};
use std::alloc::Global;
use test_scripts::failure::Failure;
use test_scripts::reported::Reported;
use test_scripts::words::Words;

/// Of `WORD .. : NAME ..` prints for each name whether the words choose it.
pub fn print_chosen(alloc: Global, line: &mut Words<'_>, reported: &mut Reported) {
    let Some((words, names)) = line.text().split_once(" : ") else {
        line.refuse();
        return;
    };
    let mut patterns = Patterns::new(alloc);
    for word in words.split(' ') {
        add_word(alloc, &mut patterns, word, line);
    }
    for name in names.split(' ') {
        reported.begin();
        reported.text(name);
        reported.text(if matches(&patterns, name) {
            " yes"
        } else {
            " no"
        });
        reported.end();
    }
    drop(patterns);
}

fn add_word(alloc: Global, patterns: &mut Patterns, word: &str, line: &mut Words<'_>) {
    match String::from_str(alloc, word) {
        Ok(text) => match Pattern::from_string(text) {
            Some(word) => {
                if patterns.push(word).is_err() {
                    line.fail(Failure::NoMemory);
                }
            }
            None => line.refuse(),
        },
        Err(_) => line.fail(Failure::NoMemory),
    }
}
