//! The line on a terminal that shows which mailbox is at work, how far its run is, and what mbsync waits for.

use channels::channel_box::ChannelBox;
use config::config::ImapStore;
use imap_client::waits::{Wait, Waits};
use runner::progress::Progress;
use std::cell::Cell;
use std::io;
use std::io::Write;

/// Takes the cursor to the first column, and clears the line from there on (ECMA-48, CR and EL).
const WIPE: &str = "\r\x1b[K";

/// Keeps where the cursor is (DECSC).
const KEEP: &str = "\x1b7";

/// Takes the cursor back there, and clears the line from there on (DECRC, and EL of ECMA-48).
const BACK: &str = "\x1b8\x1b[K";

/// How many characters of a name are shown: two of them, and how many of 999999 steps are logged, fit into a line of 80 columns.
const NAME_MAX: usize = 27;

/// How many characters of a store's name are shown, and of its host: both, and what the server is waited for, fit into such a line.
const STORE_MAX: usize = 25;

/// A line on a terminal, if there is one, which is overwritten. That it cannot be written is no fault.
#[derive(Drop)]
pub(crate) struct Screen<T: Write + Copy> {
    terminal: Option<T>,
    is_shown: Cell<bool>,
}

impl<T: Write + Copy> Screen<T> {
    /// The line of this terminal, in which nothing stands.
    pub(crate) fn new(terminal: Option<T>) -> Self {
        Screen {
            terminal,
            is_shown: Cell::new(false),
        }
    }

    /// Shows which mailbox is at work, in place of what was shown before.
    pub(crate) fn show(&self, place: ChannelBox<'_>) {
        if let Some(mut terminal) = self.terminal {
            let channel = shortened(place.of.channel.name.as_str(), NAME_MAX);
            let far = shortened(place.far.as_str(), NAME_MAX);
            let _ = write!(terminal, "{WIPE}{channel}:{far}{KEEP}");
            self.is_shown.set(true);
        }
    }

    /// Shows which server is asked, in place of what was shown before.
    pub(crate) fn show_store(&self, store: &ImapStore) {
        if let Some(mut terminal) = self.terminal {
            let name = shortened(store.name.as_str(), STORE_MAX);
            let host = shortened(store.host.as_str(), STORE_MAX);
            let _ = write!(terminal, "{WIPE}{name} at {host}{KEEP}");
            self.is_shown.set(true);
        }
    }

    /// Shows that the sessions are ended, in place of what was shown before.
    pub(crate) fn show_end(&self) {
        if let Some(mut terminal) = self.terminal {
            let _ = write!(terminal, "{WIPE}mbsync{KEEP}");
            self.is_shown.set(true);
        }
    }

    /// Shows how far the run over this mailbox is, and what mbsync waits for.
    pub(crate) fn steps(&self) -> ProgressLine<T> {
        ProgressLine {
            terminal: self.terminal,
        }
    }

    /// Wipes what is shown.
    pub(crate) fn wipe(&self) {
        if let Some(mut terminal) = self.terminal {
            if self.is_shown.replace(false) {
                let _ = terminal.write_all(WIPE.as_bytes());
            }
        }
    }
}

/// The end of the line: how far the run over this mailbox is, or what mbsync waits for. It is written only while nothing is printed: a
/// run and a server print nothing before they have ended or answered.
#[derive(Clone, Copy)]
pub(crate) struct ProgressLine<T: Write + Copy> {
    terminal: Option<T>,
}

impl<T: Write + Copy> Progress for ProgressLine<T> {
    /// Shows after the name of the mailbox how many steps are logged. Where there is nothing to do, the name stands alone.
    fn report(&self, logged: usize, steps: usize) {
        if steps == 0 {
            return;
        }
        if let Some(mut terminal) = self.terminal {
            let _ = write!(terminal, "{BACK}: {logged} of {steps} steps");
        }
    }
}

impl<T: Write + Copy> Waits for ProgressLine<T> {
    /// Shows after the name what mbsync waits for.
    fn wait(&self, wait: Wait) {
        let text = text_of(wait);
        if let Some(mut terminal) = self.terminal {
            let _ = write!(terminal, "{BACK}: {text} ..");
        }
    }
}

/// What a server is waited for, in at most 19 characters.
fn text_of(wait: Wait) -> &'static str {
    match wait {
        Wait::Connection => "connecting",
        Wait::Greeting => "waiting for server",
        Wait::Login => "logging in",
        Wait::List => "listing mailboxes",
        Wait::Mailbox => "opening the mailbox",
        Wait::Messages => "reading the mailbox",
        Wait::Creation => "making the mailbox",
        Wait::Logout => "logging out",
    }
}

/// So many first characters of a name, which are ASCII.
fn shortened(name: &str, max: usize) -> &str {
    name.get(..max).unwrap_or(name)
}

/// A stream. Before it is written to, the line is wiped.
#[derive(Drop)]
pub(crate) struct Wiping<'s, 'w, T: Write + Copy, W: Write> {
    screen: &'s Screen<T>,
    stream: &'w mut W,
}

impl<'s, 'w, T: Write + Copy, W: Write> Wiping<'s, 'w, T, W> {
    /// This stream.
    pub(crate) fn new(screen: &'s Screen<T>, stream: &'w mut W) -> Self {
        Wiping { screen, stream }
    }
}

impl<T: Write + Copy, W: Write> Write for Wiping<'_, '_, T, W> {
    fn write(&mut self, buf: &[u8]) -> io::Result<usize> {
        self.screen.wipe();
        self.stream.write(buf)
    }

    fn flush(&mut self) -> io::Result<()> {
        self.stream.flush()
    }
}
