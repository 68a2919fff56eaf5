//! The request that the words of a command line name.

ghost use Rattle.std.specs.Prelude.{◌≡◌, IfOk, IfErr, codes, map, option_map};
ghost use Rattle.std.specs.String.{string_bytes};
ghost use Rattle.clap.specs.Words.{first_of, found_of, rows_of};
ghost use Rattle.command_line.specs.Requests.{found_in, names_in, stands, sync_words_in};
ghost use Rattle.command_line.specs.Requests.{IsChosen, IsFault, IsFound, IsRequest, IsTaken, IsUnfit};

use crate::fault::UsageFault;
use crate::sync_flag::SyncFlag;
use crate::synopsis::command;
use clap::ArgMatches;
use clap::parser::ValueSource;
use config::cells::cells;
use config::request::{Chosen, RunRequest};
use rules::sync_words::SyncWord;
use std::alloc::{AllocError, Global};
use std::convert::AsStr;

/// Reads a command line, of whose words the first is the program's name, as in `std::env::args`.
///
/// `Line`: `clap` does not take the words, or they ask for help. `NoChannel`: they have neither a name nor `-a`.
/// `SyncWords`: the flags of Sync are refused together. The first of these is reported. `NoMemory`: memory ran out.
pub fn read_words<S: AsStr>(alloc: Global, words: &[S]) -> Result<RunRequest, UsageFault>
    ensures ok { IfOk result (IsRequest (map S.text words.now)) }
    ensures err { IfErr result (IsFault (map S.text words.now)) }
{
    let matches = found(alloc, words)?;
    requested(alloc, &matches)
}

/// What `clap` finds of the words.
fn found<'a, S: AsStr>(alloc: Global, words: &'a [S]) -> Result<ArgMatches<'a>, UsageFault>
    ensures taken { IfOk result (λ m. IsTaken (map S.text words.entry.now)) }
    ensures rows { IfOk result (λ m. rows_of (found_of m) ≡ found_in (map S.text words.entry.now)) }
    ensures err { IfErr result (IsFault (map S.text words.entry.now)) }
{
    let command = command(alloc)?;
    Ok(command.try_get_matches_from(words)?)
}

/// The request that was found.
fn requested(alloc: Global, matches: &ArgMatches<'_>) -> Result<RunRequest, UsageFault>
    ensures ok { IfOk result (IsFound (rows_of (found_of matches.now))) }
    ensures err { IfErr result (IsUnfit (rows_of (found_of matches.now))) }
{
    let chosen = chosen(alloc, matches)?;
    let sync_words = sync_words(alloc, matches)?;
    cells(alloc, &sync_words)?;
    Ok(RunRequest {
        file: file(alloc, matches)?,
        chosen,
        lists: stands(matches, "list"),
        sync_words,
        expunges: stands(matches, "expunge"),
    })
}

/// Whether a flag stands on the line.
fn stands(matches: &ArgMatches<'_>, id: &str) -> bool
    ensures { result ≡ stands (rows_of (found_of matches.now)) id.now }
{
    match matches.value_source(id) {
        Some(ValueSource::CommandLine) => true,
        Some(ValueSource::DefaultValue) => false,
        None => false,
    }
}

/// The file that is named, if one is.
fn file(alloc: Global, matches: &ArgMatches<'_>) -> Result<Option<String>, AllocError>
    ensures { IfOk result (λ file. option_map string_bytes file ≡ first_of (codes "file") (rows_of (found_of matches.now))) }
{
    match matches.get_str("file") {
        Some(file) => Ok(Some(String::from_str(alloc, file)?)),
        None => Ok(None),
    }
}

/// The channels that are named.
fn chosen(alloc: Global, matches: &ArgMatches<'_>) -> Result<Chosen, UsageFault>
    ensures ok { IfOk result (IsChosen (rows_of (found_of matches.now))) }
    ensures err { IfErr result (IsUnfit (rows_of (found_of matches.now))) }
{
    if stands(matches, "all") {
        return Ok(Chosen::All);
    }
    let names = names(alloc, matches)?;
    if names.is_empty() {
        return Err(UsageFault::NoChannel);
    }
    Ok(Chosen::Named(names))
}

/// The names of channels and groups, in the order of the line.
fn names(alloc: Global, matches: &ArgMatches<'_>) -> Result<Vec<String>, AllocError>
    ensures { IfOk result (λ names. map string_bytes names.items ≡ names_in (rows_of (found_of matches.now))) }
{
    let mut names = Vec::new(alloc);
    if let Some(found) = matches.get_strs("channel") {
        for name in found {
            names.push(String::from_str(alloc, name)?)?;
        }
    }
    Ok(names)
}

/// The Sync words of the line, in the order of the synopsis.
fn sync_words(alloc: Global, matches: &ArgMatches<'_>) -> Result<Vec<SyncWord>, AllocError>
    ensures { IfOk result (λ words. words.items ≡ sync_words_in (rows_of (found_of matches.now))) }
{
    let mut words = Vec::new(alloc);
    for flag in SyncFlag::ALL {
        if stands(matches, flag.name()) {
            words.push(flag.word())?;
        }
    }
    Ok(words)
}
