//! The faults of servers and of mailboxes, as the lines of a case name them.

use channels::store_fault::ConnectFault;
use mailcore::side::Side;
use runner::fault::RunFault;
use std::io::ErrorKind;

/// Why a server does not open, by its word.
pub(crate) fn server_fault(word: &str) -> Option<ConnectFault> {
    match word {
        "unreached" => Some(ConnectFault::Unreached(None)),
        "connection_refused" => Some(ConnectFault::Unreached(Some(ErrorKind::ConnectionRefused))),
        "ended" => Some(ConnectFault::Ended),
        "dismissed" => Some(ConnectFault::Dismissed),
        "no_answer" => Some(ConnectFault::NoAnswer),
        "no_rev2" => Some(ConnectFault::NoRev2),
        "login" => Some(ConnectFault::LoginRefused),
        "refused" => Some(ConnectFault::Refused),
        "unsendable" => Some(ConnectFault::Unsendable),
        _ => None,
    }
}

/// A fault of a mailbox, by its words.
pub(crate) fn run_fault(words: &str) -> Option<RunFault> {
    match words {
        "stopped" => Some(RunFault::Stopped),
        "marks repeat" => Some(RunFault::MarksRepeat),
        "no memory" => Some(RunFault::NoMemory),
        "keywords changed" => Some(RunFault::KeywordsChanged),
        _ => box_fault(words),
    }
}

/// A fault of a side's mailbox, by the side and its number.
fn box_fault(words: &str) -> Option<RunFault> {
    let (side, number) = words.split_once(' ')?;
    let number = number.parse::<u8>().ok()?;
    match side {
        "far" => Some(RunFault::StoreFault(Side::Far, number)),
        "near" => Some(RunFault::StoreFault(Side::Near, number)),
        _ => None,
    }
}
