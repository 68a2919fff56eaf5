//! The words that commands begin with.

ghost use Rattle.std.specs.Prelude.{◌≡◌};
ghost use Rattle.wire_reader.specs.Given.{Gives, viewed};
ghost use Rattle.wire_reader.specs.Reading.{mapped};
ghost use Rattle.wire_reader.specs.Words.{word_at, keys_at};
ghost use Rattle.imap_commands.specs.Verbs.{word_of, mailbox_verbs, message_verbs, verb_at};

use wire_reader::keyword::{either, keyed};
use wire_reader::stop::Stop;

/// The word that a command begins with.
#[derive(Clone, Copy, PartialEq, Eq)]
pub enum Verb {
    /// CAPABILITY
    Capability,
    /// NOOP
    Noop,
    /// LOGOUT
    Logout,
    /// LOGIN
    Login,
    /// ENABLE
    Enable,
    /// LIST
    List,
    /// CREATE
    Create,
    /// SELECT
    Select,
    /// APPEND
    Append,
    /// UID FETCH
    Fetch,
    /// UID STORE
    Store,
    /// UID EXPUNGE
    Expunge,
}

impl Verb {
    /// The word, with the space after it where something follows.
    pub(crate) fn word(self) -> &'static [u8]
        ensures { result.now ≡ word_of self }
    {
        match self {
            Verb::Capability => b"CAPABILITY",
            Verb::Noop => b"NOOP",
            Verb::Logout => b"LOGOUT",
            Verb::Login => b"LOGIN ",
            Verb::Enable => b"ENABLE ",
            Verb::List => b"LIST \"\" ",
            Verb::Create => b"CREATE ",
            Verb::Select => b"SELECT ",
            Verb::Append => b"APPEND ",
            Verb::Fetch => b"UID FETCH ",
            Verb::Store => b"UID STORE ",
            Verb::Expunge => b"UID EXPUNGE ",
        }
    }
}

/// Reads the word of a command, in any case, with the space after it where something follows.
pub(crate) fn read_verb(bytes: &[u8]) -> Result<(Verb, &[u8]), Stop>
    ensures { viewed (λ r. (r.0, r.1.now)) result ≡ verb_at bytes.now }
{
    let login = either(one(Verb::Login, bytes), mailbox_verb(bytes));
    let logout = either(one(Verb::Logout, bytes), login);
    let noop = either(one(Verb::Noop, bytes), logout);
    either(one(Verb::Capability, bytes), noop)
}

/// The words from ENABLE on.
fn mailbox_verb(bytes: &[u8]) -> Result<(Verb, &[u8]), Stop>
    ensures { viewed (λ r. (r.0, r.1.now)) result ≡ keys_at word_of Verb.Enable mailbox_verbs bytes.now }
{
    let select = either(one(Verb::Select, bytes), message_verb(bytes));
    let create = either(one(Verb::Create, bytes), select);
    let list = either(one(Verb::List, bytes), create);
    either(one(Verb::Enable, bytes), list)
}

/// The words from APPEND on.
fn message_verb(bytes: &[u8]) -> Result<(Verb, &[u8]), Stop>
    ensures { viewed (λ r. (r.0, r.1.now)) result ≡ keys_at word_of Verb.Append message_verbs bytes.now }
{
    let store = either(one(Verb::Store, bytes), one(Verb::Expunge, bytes));
    let fetch = either(one(Verb::Fetch, bytes), store);
    either(one(Verb::Append, bytes), fetch)
}

/// This word.
fn one(verb: Verb, bytes: &[u8]) -> Result<(Verb, &[u8]), Stop>
    ensures { Gives (λ r. (r.0, r.1.now)) result (mapped (λ _. verb) (word_at (word_of verb)) bytes.now) }
{
    keyed(verb, verb.word(), bytes)
}
