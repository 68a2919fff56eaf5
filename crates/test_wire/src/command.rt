//! Commands.

use crate::reporting::{print_bytes, print_flags};
use crate::sets::print_set;
use crate::tokens::Tokens;
use imap_wire::{Command, FetchItems, Request, StoreMode, write_command};
use mailcore::flags::Flags;
use mailcore::keywords::Keywords;
use test_scripts::reported::Reported;
use wire_tokens::flag_list::FlagList;

/// Reports what a command is and how it is written.
pub fn print_command(tokens: &mut Tokens, reported: &mut Reported, command: &Command) {
    reported.begin();
    print_bytes(reported, "is tag ", command.tag.text());
    print_request(tokens, reported, &command.request);
    reported.end();
    let done = write_command(command, &mut tokens.out);
    tokens.print_written(reported, done);
}

fn print_request(tokens: &Tokens, reported: &mut Reported, request: &Request) {
    match request {
        Request::Capability => reported.text(", CAPABILITY"),
        Request::Noop => reported.text(", NOOP"),
        Request::Logout => reported.text(", LOGOUT"),
        Request::Login(user, password) => {
            print_bytes(reported, ", LOGIN of ", user.as_slice());
            print_bytes(reported, ", password ", password.as_slice());
        }
        Request::Enable(list) => print_bytes(reported, ", ENABLE of ", list.names().text()),
        Request::List(pattern) => print_bytes(reported, ", LIST of ", pattern.bytes()),
        Request::Create(mailbox) => print_bytes(reported, ", CREATE of ", mailbox.as_slice()),
        Request::Select(mailbox) => print_bytes(reported, ", SELECT of ", mailbox.as_slice()),
        Request::Append(mailbox, flags, message) => {
            print_bytes(reported, ", APPEND to ", mailbox.as_slice());
            print_flags(reported, ", flags ", named(tokens, flags));
            print_bytes(reported, ", message ", message.octets());
        }
        Request::Fetch(set, items) => {
            print_set(reported, ", FETCH of ", set);
            reported.text(items_word(*items));
        }
        Request::Store(set, mode, flags) => {
            print_set(reported, ", STORE of ", set);
            reported.text(mode_word(*mode));
            print_flags(reported, " flags ", named(tokens, flags));
        }
        Request::Expunge(set) => print_set(reported, ", EXPUNGE of ", set),
    }
}

/// The flags that have these names, without a map.
fn named(tokens: &Tokens, flags: &FlagList) -> Flags {
    flags.names().named(&Keywords::new(tokens.alloc))
}

fn items_word(items: FetchItems) -> &'static str {
    match items {
        FetchItems::Listing => ", Listing",
        FetchItems::Body => ", Body",
        FetchItems::Head => ", Head",
    }
}

fn mode_word(mode: StoreMode) -> &'static str {
    match mode {
        StoreMode::Add => ", Add",
        StoreMode::Remove => ", Remove",
    }
}
