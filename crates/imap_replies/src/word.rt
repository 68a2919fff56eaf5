//! The words that have lines of their own, by the place where they stand.

ghost use Rattle.std.specs.Prelude.{◌≡◌};
ghost use Rattle.imap_replies.specs.Words.{find_reply_word, find_event_word, find_code_word, find_listing_word};

/// The word after `* `.
#[derive(Clone, Copy, PartialEq, Eq)]
pub(crate) enum ReplyWord {
    Ok,
    No,
    Bad,
    Bye,
    Preauth,
    Capability,
    Enabled,
    List,
    Flags,
}

/// The word after `* ` and a number.
#[derive(Clone, Copy, PartialEq, Eq)]
pub(crate) enum EventWord {
    Exists,
    Expunge,
    Fetch,
}

/// The word of a response code.
#[derive(Clone, Copy, PartialEq, Eq)]
pub(crate) enum CodeWord {
    UidNext,
    UidValidity,
    PermanentFlags,
    AppendUid,
    ReadOnly,
    ReadWrite,
}

/// The word of an item of a FETCH reply.
#[derive(Clone, Copy, PartialEq, Eq)]
pub(crate) enum ItemWord {
    Uid,
    Flags,
    Size,
    Body,
    Head,
}

/// How a command ended.
#[derive(Clone, Copy, PartialEq, Eq)]
pub enum Status {
    /// It was carried out.
    Ok,
    /// It was refused.
    No,
    /// It was not understood.
    Bad,
}

/// The condition that an untagged line reports.
#[derive(Clone, Copy, PartialEq, Eq)]
pub enum NoticeKind {
    /// A notice.
    Ok,
    /// A warning.
    No,
    /// A line was not understood.
    Bad,
    /// The server closes the connection.
    Bye,
    /// The client is known without login.
    Preauth,
}

/// The word that these bytes are in any case.
pub(crate) fn find_reply_word(text: &[u8]) -> Option<ReplyWord>
    ensures { result ≡ find_reply_word text.now }
{
    if text.eq_ignore_ascii_case(b"OK") {
        Some(ReplyWord::Ok)
    } else if text.eq_ignore_ascii_case(b"NO") {
        Some(ReplyWord::No)
    } else if text.eq_ignore_ascii_case(b"BAD") {
        Some(ReplyWord::Bad)
    } else if text.eq_ignore_ascii_case(b"BYE") {
        Some(ReplyWord::Bye)
    } else {
        find_listing_word(text)
    }
}

/// The same, of the words from PREAUTH on.
fn find_listing_word(text: &[u8]) -> Option<ReplyWord>
    ensures { result ≡ find_listing_word text.now }
{
    if text.eq_ignore_ascii_case(b"PREAUTH") {
        Some(ReplyWord::Preauth)
    } else if text.eq_ignore_ascii_case(b"CAPABILITY") {
        Some(ReplyWord::Capability)
    } else if text.eq_ignore_ascii_case(b"ENABLED") {
        Some(ReplyWord::Enabled)
    } else if text.eq_ignore_ascii_case(b"LIST") {
        Some(ReplyWord::List)
    } else if text.eq_ignore_ascii_case(b"FLAGS") {
        Some(ReplyWord::Flags)
    } else {
        None
    }
}

/// The word that these bytes are in any case.
pub(crate) fn find_event_word(text: &[u8]) -> Option<EventWord>
    ensures { result ≡ find_event_word text.now }
{
    if text.eq_ignore_ascii_case(b"EXISTS") {
        Some(EventWord::Exists)
    } else if text.eq_ignore_ascii_case(b"EXPUNGE") {
        Some(EventWord::Expunge)
    } else if text.eq_ignore_ascii_case(b"FETCH") {
        Some(EventWord::Fetch)
    } else {
        None
    }
}

/// The word that these bytes are in any case.
pub(crate) fn find_code_word(text: &[u8]) -> Option<CodeWord>
    ensures { result ≡ find_code_word text.now }
{
    if text.eq_ignore_ascii_case(b"UIDNEXT") {
        Some(CodeWord::UidNext)
    } else if text.eq_ignore_ascii_case(b"UIDVALIDITY") {
        Some(CodeWord::UidValidity)
    } else if text.eq_ignore_ascii_case(b"PERMANENTFLAGS") {
        Some(CodeWord::PermanentFlags)
    } else if text.eq_ignore_ascii_case(b"APPENDUID") {
        Some(CodeWord::AppendUid)
    } else if text.eq_ignore_ascii_case(b"READ-ONLY") {
        Some(CodeWord::ReadOnly)
    } else if text.eq_ignore_ascii_case(b"READ-WRITE") {
        Some(CodeWord::ReadWrite)
    } else {
        None
    }
}
