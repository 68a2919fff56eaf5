//! What is printed on a terminal: where the server listens, and each connection.

use serve::fault::ServeFault;
use std::io::{IsTerminal, Write};

/// Notes on standard error, where that is a terminal.
#[derive(Drop)]
pub struct TerminalNotes<'a> {
    rt: &'a HostRuntime,
    is_reported: bool,
}

impl<'a> TerminalNotes<'a> {
    /// Notes on this standard error.
    pub fn new(rt: &'a HostRuntime) -> TerminalNotes<'a> {
        TerminalNotes {
            rt,
            is_reported: rt.stderr().is_terminal(),
        }
    }

    /// Prints where the server listens. It is no fault if nobody reads it.
    pub fn listening(&self, address: &str) {
        if self.is_reported {
            let _ = writeln!(self.rt.stderr(), "trial-imapd: listens on {address}");
        }
    }

    /// Prints how a connection ended; the first has the number 1.
    pub fn served(&self, number: u32, ended: Result<(), ServeFault>) {
        if !self.is_reported {
            return;
        }
        let _ = match ended {
            Ok(()) => writeln!(self.rt.stderr(), "trial-imapd: connection {number} served"),
            Err(fault) => writeln!(
                self.rt.stderr(),
                "trial-imapd: connection {number}: {fault}"
            ),
        };
    }
}
