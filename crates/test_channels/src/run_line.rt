//! What a line `run` asks for.

use config::request::{Chosen, RunRequest};
use mailcore::side::Direction;
use rules::sync_words::{SyncType, SyncWord};
use std::alloc::Global;
use test_scripts::failure::Failure;

/// The flags of Sync.
const FLAGS: [(&str, SyncWord); 7] = [
    ("--pull", SyncWord::Way(Direction::Pull)),
    ("--push", SyncWord::Way(Direction::Push)),
    ("--new", SyncWord::Sort(SyncType::New)),
    ("--gone", SyncWord::Sort(SyncType::Gone)),
    ("--flags", SyncWord::Sort(SyncType::Flags)),
    ("--full", SyncWord::Full),
    ("--noop", SyncWord::Nothing),
];

/// What these words of a command line ask for.
pub(crate) fn request_of(alloc: Global, words: &str) -> Result<RunRequest, Failure> {
    let mut request = RunRequest {
        file: None,
        chosen: Chosen::Named(Vec::new(alloc)),
        lists: false,
        sync_words: Vec::new(alloc),
        expunges: false,
    };
    match add_words(alloc, &mut request, words) {
        Ok(()) => Ok(request),
        Err(failure) => Err(failure),
    }
}

fn add_words(alloc: Global, request: &mut RunRequest, words: &str) -> Result<(), Failure> {
    for word in words.split_whitespace() {
        match word {
            "-a" => request.chosen = Chosen::All,
            "-l" => request.lists = true,
            "--expunge" => request.expunges = true,
            _ => add_word(alloc, request, word)?,
        }
    }
    Ok(())
}

/// Adds a flag of Sync, or a name, which is ignored where all channels are chosen.
fn add_word(alloc: Global, request: &mut RunRequest, word: &str) -> Result<(), Failure> {
    if let Some((_, flag)) = FLAGS.iter().find(|(name, _)| *name == word) {
        return Ok(request.sync_words.push(*flag)?);
    }
    match &mut request.chosen {
        Chosen::Named(names) => Ok(names.push(String::from_str(alloc, word)?)?),
        Chosen::All => Ok(()),
    }
}
