//! Which command is sent.

ghost use Rattle.std.specs.Prelude.{◌<◌};

use texts::number::read_u32;

/// The name of a command at which a link can stop.
#[derive(Clone, Copy, PartialEq, Eq)]
pub enum CommandName {
    /// CAPABILITY.
    Capability,
    /// LOGIN.
    Login,
    /// ENABLE.
    Enable,
    /// SELECT.
    Select,
    /// UID FETCH.
    Fetch,
    /// UID STORE.
    Store,
    /// UID EXPUNGE.
    Expunge,
    /// APPEND.
    Append,
}

/// The first, second, .. command of a name that is sent over a link.
#[derive(Clone, Copy, PartialEq, Eq)]
pub struct Nth {
    /// Its name.
    pub name: CommandName,
    /// Which one of that name, counted from 1 over the life of the link.
    pub number: u64,
}

/// How many names there are.
const NAMES: usize = 8;

/// How many commands of each name were sent.
#[derive(Drop)]
pub(crate) struct Counts {
    /// Each at the place of its name.
    sent: [u64; NAMES],
}

impl CommandName {
    /// That of the command whose line begins with these bytes: the word after the tag, or after `UID`, in upper case as
    /// `imap_commands` writes it.
    pub(crate) fn read(line: &[u8]) -> Option<CommandName> {
        let mut words = line.split(|byte| *byte == b' ').skip(1);
        let word = match words.next()? {
            b"UID" => words.next()?,
            word => word,
        };
        // Of a command without arguments the line ends after its name.
        match word.strip_suffix(b"\r\n".as_slice()).unwrap_or(word) {
            b"CAPABILITY" => Some(CommandName::Capability),
            b"LOGIN" => Some(CommandName::Login),
            b"ENABLE" => Some(CommandName::Enable),
            b"SELECT" => Some(CommandName::Select),
            b"FETCH" => Some(CommandName::Fetch),
            b"STORE" => Some(CommandName::Store),
            b"EXPUNGE" => Some(CommandName::Expunge),
            b"APPEND" => Some(CommandName::Append),
            _ => None,
        }
    }

    /// Its place among the names.
    fn place(self) -> usize
        ensures { result < 8 }
    {
        match self {
            CommandName::Capability => 0,
            CommandName::Login => 1,
            CommandName::Enable => 2,
            CommandName::Select => 3,
            CommandName::Fetch => 4,
            CommandName::Store => 5,
            CommandName::Expunge => 6,
            CommandName::Append => 7,
        }
    }
}

impl Counts {
    /// None was sent.
    pub(crate) fn new() -> Counts {
        Counts { sent: [0; NAMES] }
    }

    /// Which one the next command of this name is.
    pub(crate) fn next(&self, name: CommandName) -> Nth {
        let sent = self.sent[name.place()];
        Nth {
            name,
            number: sent.saturating_add(1),
        }
    }

    /// Counts a command that is sent, and returns which one it is.
    pub(crate) fn push(&mut self, name: CommandName) -> Nth {
        let next = self.next(name);
        self.sent[name.place()] = next.number;
        next
    }
}

/// How many octets are to follow, where the front of a command ends with `{n}` and so asks for `+`.
pub(crate) fn octets_asked(front: &[u8]) -> Option<usize> {
    let text = front.strip_suffix(b"}\r\n".as_slice())?;
    let digits = text.rsplit(|byte| *byte == b'{').next()?;
    Some(read_u32(digits, u32::MAX)? as usize)
}
