//! What keywords are called, where they stand, and what they take.

use config_words::keyword::{FirstWord, LinePlace};

/// The keyword as the manual page writes it.
pub(crate) fn name_of(keyword: FirstWord) -> &'static str {
    match keyword {
        FirstWord::ImapStore => "IMAPStore",
        FirstWord::MaildirStore => "MaildirStore",
        FirstWord::Channel => "Channel",
        FirstWord::Group => "Group",
        FirstWord::Host => "Host",
        FirstWord::Port => "Port",
        FirstWord::User => "User",
        FirstWord::Pass => "Pass",
        FirstWord::Path => "Path",
        FirstWord::Inbox => "Inbox",
        FirstWord::SubFolders => "SubFolders",
        FirstWord::Far => "Far",
        FirstWord::Near => "Near",
        FirstWord::Patterns => "Patterns",
        FirstWord::Sync => "Sync",
        FirstWord::Create => "Create",
        FirstWord::Expunge => "Expunge",
        FirstWord::SyncState => "SyncState",
        FirstWord::Keyword => "Keyword",
        FirstWord::Channels => "Channels",
    }
}

/// What a keyword takes.
pub(crate) fn taken_by(keyword: FirstWord) -> &'static str {
    match keyword {
        FirstWord::ImapStore | FirstWord::MaildirStore | FirstWord::Channel => "one name",
        FirstWord::Group => "a name, and channels",
        FirstWord::Channels => "one channel or more",
        FirstWord::Host => "one name or address",
        FirstWord::Port => "a number from 1 to 65535",
        FirstWord::User | FirstWord::Pass => "one word; put one with spaces between quotes",
        FirstWord::Path => "one path, which ends with /",
        FirstWord::Inbox => "one path",
        FirstWord::SubFolders =>
            "the word Verbatim alone: mailbox a/b is the folder a/b below Path",
        FirstWord::Far | FirstWord::Near => ":STORE:BOX, or :STORE: where the channel has Patterns",
        FirstWord::Patterns => "one pattern or more, and then Far and Near name no mailbox",
        FirstWord::Sync => {
            "Pull, Push, New, Gone, Flags, Full, None, PullNew and so on (isync's All is Full, its Delete is Gone)"
        }
        FirstWord::Create | FirstWord::Expunge => "one of None, Far, Near and Both",
        FirstWord::SyncState => "* alone: the state stands in the near mailbox",
        FirstWord::Keyword => "a letter from a to z, and the name of a label",
    }
}

/// Where a keyword stands.
pub(crate) fn home_of(keyword: FirstWord) -> &'static str {
    match keyword {
        FirstWord::ImapStore | FirstWord::MaildirStore | FirstWord::Channel | FirstWord::Group => {
            "after an empty line"
        }
        FirstWord::Host | FirstWord::Port | FirstWord::User | FirstWord::Pass => "in an IMAPStore",
        FirstWord::Path | FirstWord::Inbox | FirstWord::SubFolders => "in a MaildirStore",
        FirstWord::Far | FirstWord::Near | FirstWord::Patterns => "in a Channel",
        FirstWord::Channels => "in a Group",
        FirstWord::Sync
        | FirstWord::Create
        | FirstWord::Expunge
        | FirstWord::SyncState
        | FirstWord::Keyword => "in a Channel, or before all sections",
    }
}

/// The keywords that may stand at a place.
pub(crate) fn allowed_at(place: LinePlace) -> &'static str {
    match place {
        LinePlace::Start => {
            "IMAPStore, MaildirStore, Channel, Group, Sync, Create, Expunge, SyncState, Keyword"
        }
        LinePlace::Between => "IMAPStore, MaildirStore, Channel, Group",
        LinePlace::ImapStore => "Host, Port, User, Pass",
        LinePlace::MaildirStore => "Path, Inbox, SubFolders",
        LinePlace::Channel => "Far, Near, Patterns, Sync, Create, Expunge, SyncState, Keyword",
        LinePlace::Group => "Channels",
    }
}

/// What begins a section at this place.
pub(crate) fn head_of(place: LinePlace) -> &'static str {
    match place {
        LinePlace::ImapStore => "IMAPStore",
        LinePlace::MaildirStore => "MaildirStore",
        LinePlace::Channel => "Channel",
        LinePlace::Group => "Group",
        LinePlace::Start | LinePlace::Between => "this section",
    }
}
