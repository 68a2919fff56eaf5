//! What a server is waited for, so that a person can be shown it before the wait begins.

/// What a server is waited for.
#[derive(Clone, Copy, PartialEq, Eq)]
pub enum Wait {
    /// The connection.
    Connection,
    /// What a server says first (RFC 9051, section 7.1: greeting).
    Greeting,
    /// That it takes the user and the password.
    Login,
    /// The names of its mailboxes.
    List,
    /// That it opens a mailbox.
    Mailbox,
    /// What the mailbox has.
    Messages,
    /// That it makes a mailbox.
    Creation,
    /// The end of the session.
    Logout,
}

/// Shows what mbsync waits for, before it waits.
pub trait Waits {
    /// A server is waited for this from now on.
    fn wait(&self, wait: Wait);
}

/// Shows nothing.
impl Waits for () {
    fn wait(&self, wait: Wait) {
        let _ = wait;
    }
}

impl Wait {
    /// What the server is waited for that is sent this: for the answer to a command that comes a few times in a session. None: it is another
    /// one, or a part of one.
    pub(crate) fn following(sent: &[u8]) -> Option<Wait> {
        let mut words = sent.split(|b| b.is_ascii_whitespace());
        let _tag = words.next()?;
        match words.next()? {
            b"LOGIN" => Some(Wait::Login),
            b"LIST" => Some(Wait::List),
            b"SELECT" => Some(Wait::Mailbox),
            b"CREATE" => Some(Wait::Creation),
            b"LOGOUT" => Some(Wait::Logout),
            b"UID" => Wait::after_uid(words.next()?, words.next()?),
            _ => None,
        }
    }

    /// The same of a command over messages of these UIDs: for that over all.
    fn after_uid(command: &[u8], uids: &[u8]) -> Option<Wait> {
        match (command, uids) {
            (b"FETCH", b"1:*") => Some(Wait::Messages),
            _ => None,
        }
    }
}
