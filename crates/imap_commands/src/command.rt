//! What commands are.

ghost use Rattle.std.specs.Prelude.{◌≡◌};
ghost use Rattle.imap_commands.specs.Requests.{verb_of, items_word, mode_word};

use crate::message::SentMessage;
use crate::pattern::ListPattern;
use crate::verb::Verb;
use wire_strings::text::Text;
use wire_tokens::flag_list::FlagList;
use wire_tokens::names::NameList;
use wire_tokens::tag::Tag;
use wire_tokens::uid_set::UidSet;

/// A command, with the tag by which its reply names it.
#[derive(Drop)]
pub struct Command {
    /// The tag.
    pub tag: Tag,
    /// What is asked for.
    pub request: Request,
}

/// What a command asks for.
#[derive(Drop)]
pub enum Request {
    /// What the server can do.
    Capability,
    /// Nothing.
    Noop,
    /// The end of the connection.
    Logout,
    /// To be let in as this user, with this password.
    Login(Text, Text),
    /// That these extensions be used.
    Enable(NameList),
    /// The mailboxes whose names match the pattern.
    List(ListPattern),
    /// A new mailbox of this name.
    Create(Text),
    /// The mailbox of this name, for the requests that follow.
    Select(Text),
    /// That this message with these flags be put into the mailbox of this name.
    Append(Text, FlagList, SentMessage),
    /// Items of the messages of the set.
    Fetch(UidSet, FetchItems),
    /// That the messages of the set get these flags or lose them, without a reply about each.
    Store(UidSet, StoreMode, FlagList),
    /// That the messages of the set which are marked as deleted be removed.
    Expunge(UidSet),
}

impl Request {
    /// The word that it begins with.
    pub(crate) fn verb(&self) -> Verb
        ensures { result ≡ verb_of self.now }
    {
        match self {
            Request::Capability => Verb::Capability,
            Request::Noop => Verb::Noop,
            Request::Logout => Verb::Logout,
            Request::Login(..) => Verb::Login,
            Request::Enable(_) => Verb::Enable,
            Request::List(_) => Verb::List,
            Request::Create(_) => Verb::Create,
            Request::Select(_) => Verb::Select,
            Request::Append(..) => Verb::Append,
            Request::Fetch(..) => Verb::Fetch,
            Request::Store(..) => Verb::Store,
            Request::Expunge(_) => Verb::Expunge,
        }
    }
}

/// Which items of messages are asked for.
#[derive(Clone, Copy, PartialEq, Eq)]
pub enum FetchItems {
    /// `(UID FLAGS RFC822.SIZE)`
    Listing,
    /// `(UID BODY.PEEK[])`: the whole message.
    Body,
    /// `(UID BODY.PEEK[]<0.22>)`: the first 22 octets of the message.
    Head,
}

impl FetchItems {
    /// The list of the items, in brackets.
    pub(crate) fn word(self) -> &'static [u8]
        ensures { result.now ≡ items_word self }
    {
        match self {
            FetchItems::Listing => b"(UID FLAGS RFC822.SIZE)",
            FetchItems::Body => b"(UID BODY.PEEK[])",
            FetchItems::Head => b"(UID BODY.PEEK[]<0.22>)",
        }
    }
}

/// What is to be done with flags.
#[derive(Clone, Copy, PartialEq, Eq)]
pub enum StoreMode {
    /// `+FLAGS.SILENT`: they are set.
    Add,
    /// `-FLAGS.SILENT`: they are taken away.
    Remove,
}

impl StoreMode {
    /// Its word, with the space after it.
    pub(crate) fn word(self) -> &'static [u8]
        ensures { result.now ≡ mode_word self }
    {
        match self {
            StoreMode::Add => b"+FLAGS.SILENT ",
            StoreMode::Remove => b"-FLAGS.SILENT ",
        }
    }
}
