//! The command line of `mbworld`.

use box_worlds::bodies::Bodies;

/// What `mbworld -h` prints.
pub(crate) const HELP: &str = "\
Prints the world of a mailbox: what mbsync would find there, as text for mbplan.

Usage: mbworld [-c FILE] [--bodies] CHANNEL[:BOX]

  -c FILE    Read the configuration from FILE, not from ~/.mbsyncrc
  --bodies   Print the messages as they are stored, for mbtrial
  -h         Print help

BOX is needed where the channel has patterns. Nothing is synchronised.
mbworld CHANNEL | mbplan lists what mbsync CHANNEL would do.

Exit status: 0, 1 after an error, 2 for a wrong command line or an unknown channel.
";

/// What the command line of `mbworld` asks for.
#[derive(Clone, Copy)]
pub struct WorldRequest<'a> {
    /// The configuration file, if one is named (`-c FILE`).
    pub file: Option<&'a str>,
    /// What the world has as the bytes of its messages.
    pub bodies: Bodies,
    /// The mailbox: CHANNEL, or CHANNEL:BOX.
    pub mailbox: &'a str,
}

/// What the words of a command line come to.
#[derive(Clone, Copy)]
pub enum WorldLine<'a> {
    /// They ask for help.
    Help,
    /// They ask for a world.
    World(WorldRequest<'a>),
    /// They are refused.
    Refused,
}

/// Reads a command line, of whose words the first is the program's name.
pub fn read_line(words: &[String]) -> WorldLine<'_> {
    let mut words = words.iter();
    let _program = words.next();
    let (mut file, mut bodies, mut mailbox) = (None, Bodies::Short, None);
    let mut is_file = false;
    for word in words {
        let word = word.as_str();
        if is_file {
            file = Some(word);
            is_file = false;
            continue;
        }
        match word {
            "-h" | "--help" => return WorldLine::Help,
            "-c" => is_file = true,
            "--bodies" => bodies = Bodies::Stored,
            _ => {
                if word.starts_with('-') || mailbox.is_some() {
                    return WorldLine::Refused;
                }
                mailbox = Some(word);
            }
        }
    }
    match mailbox {
        Some(mailbox) if !is_file => WorldLine::World(WorldRequest {
            file,
            bodies,
            mailbox,
        }),
        _ => WorldLine::Refused,
    }
}
