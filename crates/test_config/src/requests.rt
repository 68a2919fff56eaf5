//! What is printed of requests.

use config::cells::{CellsFault, cells};
use config::request::{Chosen, RunRequest};
use rules::options::{Cells, Directions};
use std::alloc::Global;
use test_scripts::reported::Reported;

/// Prints what a request asks for, on one line.
pub fn print_request(alloc: Global, reported: &mut Reported, request: &RunRequest) {
    reported.begin();
    add_chosen(reported, &request.chosen);
    if let Some(file) = &request.file {
        reported.text(", file");
        add_name(reported, file.as_str());
    }
    if request.lists {
        reported.text(", only listed");
    }
    add_sync(alloc, reported, request);
    if request.expunges {
        reported.text(", expunge both");
    }
    reported.end();
}

fn add_chosen(reported: &mut Reported, chosen: &Chosen) {
    match chosen {
        Chosen::All => reported.text("all channels"),
        Chosen::Named(names) => {
            reported.text("channels");
            for name in names {
                add_name(reported, name.as_str());
            }
        }
    }
}

fn add_name(reported: &mut Reported, name: &str) {
    reported.text(" '");
    reported.text(name);
    reported.text("'");
}

/// Adds the Sync words, if there are some, and the cells that they choose.
fn add_sync(alloc: Global, reported: &mut Reported, request: &RunRequest) {
    if !request.sync_words.is_empty() {
        reported.text(", sync");
    }
    for word in &request.sync_words {
        reported.text(" ");
        reported.bytes(word.text());
    }
    match cells(alloc, &request.sync_words) {
        Ok(None) => {}
        Ok(Some(cells)) => add_cells(reported, cells),
        Err(CellsFault::Refused(_)) => reported.text(" (refused)"),
        Err(CellsFault::NoMemory) => reported.lose(),
    }
}

fn add_cells(reported: &mut Reported, cells: Cells) {
    reported.text(" (new ");
    reported.text(ways(cells.new));
    reported.text(", gone ");
    reported.text(ways(cells.gone));
    reported.text(", flags ");
    reported.text(ways(cells.flags));
    reported.text(")");
}

fn ways(on: Directions) -> &'static str {
    match (on.pull, on.push) {
        (true, true) => "both ways",
        (true, false) => "pulled",
        (false, true) => "pushed",
        (false, false) => "not",
    }
}
