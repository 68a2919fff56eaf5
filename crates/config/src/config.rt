//! Configurations: the stores, channels and groups that a file names (docs/FORMATS.md, "Configuration").

ghost use Rattle.std.specs.Prelude.{◌≡◌, []};

use config_words::patterns::Patterns;
use mailcore::keywords::Keywords;
use mailcore::mailbox_name::MailboxName;
use rules::options::{Cells, Sides};
use std::alloc::Global;

/// What a configuration file says. Names are unlike among the IMAP stores, among the Maildir stores, and among the
/// channels and groups.
#[derive(Drop)]
pub struct Config {
    /// The IMAP stores, in the order of the file.
    pub imap_stores: Vec<ImapStore>,
    /// The Maildir stores, in the order of the file.
    pub maildir_stores: Vec<MaildirStore>,
    /// The channels, in the order of the file.
    pub channels: Vec<Channel>,
    /// The groups, in the order of the file.
    pub groups: Vec<Group>,
}

impl Config {
    /// The configuration of an empty file.
    pub fn new(alloc: Global) -> Self
        ensures imap_stores { result.imap_stores.items ≡ [] }
        ensures maildir_stores { result.maildir_stores.items ≡ [] }
        ensures channels { result.channels.items ≡ [] }
        ensures groups { result.groups.items ≡ [] }
    {
        Config {
            imap_stores: Vec::new(alloc),
            maildir_stores: Vec::new(alloc),
            channels: Vec::new(alloc),
            groups: Vec::new(alloc),
        }
    }
}

/// Where the far mailboxes of channels are: an account on an IMAP server.
#[derive(Drop)]
pub struct ImapStore {
    /// The name that channels say.
    pub name: String,
    /// The host of the server.
    pub host: String,
    /// Its port, 1 to 65535; 143 if the file says none.
    pub port: u16,
    /// Who logs in.
    pub user: String,
    /// The password.
    pub pass: String,
}

/// Where the near mailboxes of channels are: folders of a disk.
#[derive(Drop)]
pub struct MaildirStore {
    /// The name that channels say.
    pub name: String,
    /// What the folder of each mailbox but INBOX begins with: it ends with `/`. A leading `~/` stands for the home folder.
    pub path: String,
    /// The folder of INBOX, `~/Maildir` if the file says none.
    pub inbox: String,
}

/// Far and near mailboxes that are synchronised, and how.
#[derive(Drop)]
pub struct Channel {
    /// The name that the command line and groups say.
    pub name: String,
    /// The place of the far store among the IMAP stores, from 0.
    pub far: usize,
    /// The place of the near store among the Maildir stores, from 0.
    pub near: usize,
    /// Which mailboxes.
    pub boxes: Boxes,
    /// What is propagated.
    pub cells: Cells,
    /// The sides on which a mailbox that is missing is made.
    pub create: Sides,
    /// The sides on which messages that are marked as deleted are expunged.
    pub expunge: Sides,
    /// By this map keywords have a letter.
    pub keywords: Keywords,
}

/// The mailboxes of a channel.
#[derive(Drop)]
pub enum Boxes {
    /// One on each side, whose names may differ.
    Pair {
        /// The far mailbox.
        far: MailboxName,
        /// The near mailbox.
        near: MailboxName,
    },
    /// Those of either store that the patterns choose, under the same name on both sides.
    Matching(Patterns),
}

/// Channels under one name.
#[derive(Drop)]
pub struct Group {
    /// The name that the command line says.
    pub name: String,
    /// The places of the group's channels among the channels, from 0, in the order of the file. One may stand twice.
    pub channels: Vec<usize>,
}
