//! Stops of calls of a folder, as words.

use device::schedule::{CallStop, Moment};
use maildir::mem_folder::FolderCall;
use test_scripts::reported::Reported;
use test_scripts::words::Words;

/// The calls.
const CALLS: [FolderCall; 7] = [
    FolderCall::Names,
    FolderCall::Read,
    FolderCall::WriteTmp,
    FolderCall::Rename,
    FolderCall::Remove,
    FolderCall::ReplaceMeta,
    FolderCall::Sync,
];

/// The word of a call.
pub fn word_of(call: FolderCall) -> &'static str {
    match call {
        FolderCall::Names => "names",
        FolderCall::Read => "read",
        FolderCall::WriteTmp => "write_tmp",
        FolderCall::Rename => "rename",
        FolderCall::Remove => "remove",
        FolderCall::ReplaceMeta => "replace_meta",
        FolderCall::Sync => "sync",
    }
}

/// `before CALL K`, `after CALL K` or `following B CALL K`: a stop in the K-th call of this name, after B bytes of it.
pub fn read_stop(line: &mut Words<'_>) -> CallStop<FolderCall> {
    let moment = line.moment();
    let call = read_call(line);
    CallStop {
        call,
        number: line.long_number(),
        moment,
    }
}

/// The call that a word means.
pub fn read_call(line: &mut Words<'_>) -> FolderCall {
    let word = line.word();
    for call in CALLS {
        if word_of(call) == word {
            return call;
        }
    }
    line.refuse();
    FolderCall::Names
}

/// Prints a stop as `read_stop` reads it.
pub fn print_stop(reported: &mut Reported, stop: CallStop<FolderCall>) {
    match stop.moment {
        Moment::Before => reported.text("before "),
        Moment::After => reported.text("after "),
        Moment::Part(count) => {
            reported.text("behind ");
            reported.number(count as u64);
            reported.text(" ");
        }
    }
    reported.text(word_of(stop.call));
    reported.text(" ");
    reported.number(stop.number);
}
