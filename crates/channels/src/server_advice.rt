//! What to do after a fault of an IMAP server, printed on a line that begins with two spaces.

use crate::store_fault::ConnectFault;
use std::io;
use std::io::{ErrorKind, Write};

/// Prints why the server of this IMAP store does not open or ended a run, and what can be done. The password is not printed.
pub(crate) fn advise_server<E: Write>(
    err: &mut E,
    store: &str,
    why: ConnectFault,
) -> io::Result<()> {
    match why {
        ConnectFault::Unreached(kind) => advise_unreached(err, store, kind),
        ConnectFault::Ended => writeln!(
            err,
            "  the connection to the server of IMAPStore {store} ended: run again"
        ),
        ConnectFault::Dismissed => writeln!(
            err,
            "  the server of IMAPStore {store} ended the session: run again"
        ),
        ConnectFault::NoAnswer => writeln!(
            err,
            "  the server of IMAPStore {store} sent something that is not IMAP: is an IMAP server at its Host and Port?"
        ),
        ConnectFault::NoRev2 => writeln!(
            err,
            "  the server of IMAPStore {store} does not offer IMAP4rev2, which mbsync needs"
        ),
        ConnectFault::LoginRefused => writeln!(
            err,
            "  the server rejected the login: correct User or Pass of IMAPStore {store}, and run again"
        ),
        ConnectFault::Refused => writeln!(
            err,
            "  the server of IMAPStore {store} refused a command after the login"
        ),
        ConnectFault::Unsendable => writeln!(
            err,
            "  User or Pass of IMAPStore {store} has more than 1024 bytes, or characters that cannot be sent"
        ),
    }
}

/// Prints that a server cannot be reached, and what the system says of it.
fn advise_unreached<E: Write>(err: &mut E, store: &str, kind: Option<ErrorKind>) -> io::Result<()> {
    match kind {
        // Above all a name of a host that is not known.
        Some(ErrorKind::Uncategorized) => writeln!(
            err,
            "  the server of IMAPStore {store} cannot be reached: is its name in Host known, and this machine online? Run again then"
        ),
        Some(kind) => writeln!(
            err,
            "  the server of IMAPStore {store} cannot be reached ({kind}): check its Host and Port, and run again"
        ),
        None => writeln!(
            err,
            "  the server of IMAPStore {store} cannot be reached: check its Host and Port, and run again"
        ),
    }
}
