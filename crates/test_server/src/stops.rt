//! Where links stop.

use mem_link::command::{CommandName, Nth};
use mem_link::schedule::LinkStop;
use test_scripts::words::Words;

/// `before NAME K`, `after NAME K`, `literal K B`, `reply K B`, `sent N` or `received N`: where a link stops.
pub fn read_stop(line: &mut Words<'_>) -> LinkStop {
    match line.word() {
        "before" => LinkStop::Before(read_nth(line)),
        "after" => LinkStop::After(read_nth(line)),
        "literal" => LinkStop::InLiteral {
            append: line.long_number(),
            octets: line.count(),
        },
        "reply" => LinkStop::InReply {
            append: line.long_number(),
            bytes: line.count(),
        },
        "received" => LinkStop::Received(line.count()),
        "sent" => LinkStop::Sent(line.count()),
        _ => {
            line.refuse();
            LinkStop::Sent(0)
        }
    }
}

/// `NAME K`: the K-th command of this name.
fn read_nth(line: &mut Words<'_>) -> Nth {
    let name = match line.word() {
        "SELECT" => CommandName::Select,
        "FETCH" => CommandName::Fetch,
        "STORE" => CommandName::Store,
        "EXPUNGE" => CommandName::Expunge,
        "APPEND" => CommandName::Append,
        _ => {
            line.refuse();
            CommandName::Append
        }
    };
    Nth {
        name,
        number: line.long_number(),
    }
}
