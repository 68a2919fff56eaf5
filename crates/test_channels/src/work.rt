//! The run of a case, and what is printed of it.

use crate::facts::Facts;
use crate::failing::Failing;
use crate::mem_stores::MemStores;
use channels::run::run_config;
use config::config::Config;
use config::request::RunRequest;
use std::alloc::Global;
use test_scripts::failure::Failure;
use test_scripts::reported::Reported;
use worlds::trial_generator::TrialGenerator;

/// A command line, its configuration, and what there is.
#[derive(Clone, Copy)]
pub(crate) struct Work<'a> {
    pub(crate) alloc: Global,
    pub(crate) config: &'a Config,
    pub(crate) request: &'a RunRequest,
    pub(crate) facts: &'a Facts,
}

/// What a run left.
#[derive(Drop)]
pub(crate) struct Played<'a> {
    pub(crate) out: Failing,
    pub(crate) err: Failing,
    pub(crate) stores: MemStores<'a>,
    pub(crate) status: u8,
}

impl<'a> Work<'a> {
    /// Makes the run over a standard output and a standard error that fail after so many bytes.
    pub(crate) fn played(self, out: usize, err: usize) -> Result<Played<'a>, Failure> {
        let mut stores = MemStores::new(self.alloc, self.facts);
        let mut out = Failing::with_room(self.alloc, out);
        let mut err = Failing::with_room(self.alloc, err);
        let status = run_config(
            self.alloc,
            self.config,
            self.request,
            &mut stores,
            &mut TrialGenerator::new(),
            &mut out,
            &mut err,
        );
        match stores.failure {
            Some(failure) => Err(failure),
            None => Ok(Played {
                out,
                err,
                stores,
                status,
            }),
        }
    }
}

impl Played<'_> {
    /// Prints the lines of standard output and standard error, what the stores were asked, and the exit status.
    pub(crate) fn report(&self, reported: &mut Reported) {
        print_lines(reported, "out ", &self.out.written);
        print_lines(reported, "err ", &self.err.written);
        print_lines(reported, "ask ", self.stores.asked.as_str().as_bytes());
        reported.begin();
        reported.text("status ");
        reported.number(u64::from(self.status));
        reported.end();
    }
}

/// An answer for each line of a text, after a word.
fn print_lines(reported: &mut Reported, word: &str, text: &[u8]) {
    for line in str::from_utf8(text).unwrap_or("(no text)").lines() {
        reported.begin();
        reported.text(word);
        reported.text(line);
        reported.end();
    }
}
