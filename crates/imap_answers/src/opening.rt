//! What the replies to SELECT say of a mailbox (RFC 9051, section 6.3.2).

ghost use Rattle.std.specs.Prelude.{◌≡◌, true};
ghost use Rattle.std.specs.List.{list_all};
ghost use Rattle.mailcore.specs.FlagNames.{place};
ghost use Rattle.mailcore.specs.FlagSet.{has};
ghost use Rattle.imap_answers.specs.Openings.{permits_all, system_flags, code_more, opening_more, nothing_reported, opening_of, IsPositive};

use imap_replies::reply::Reply;
use imap_replies::response::{Code, ResponseText};
use imap_replies::word::NoticeKind;
use mailcore::flags::{Flag, Flags};
use mailcore::keywords::Keywords;

/// The flags that are no keywords.
const SYSTEM: [Flag; 5] = [
    Flag::Answered,
    Flag::Deleted,
    Flag::Draft,
    Flag::Flagged,
    Flag::Seen,
];

/// What was said of a mailbox so far.
#[derive(Clone, Copy, PartialEq, Eq)]
pub struct Opening {
    /// Its UIDNEXT.
    pub next: Option<u32>,
    /// Its UIDVALIDITY.
    pub validity: Option<u32>,
    /// It cannot be changed, or a flag that has a name cannot be kept in it.
    pub is_read_only: bool,
}

impl Opening {
    /// What these replies say, where flags have the names of this map.
    pub fn of(replies: &[Reply<'_>], keywords: &Keywords) -> Opening
        ensures reported { result ≡ opening_of keywords.now replies.now }
        ensures positive { IsPositive result }
    {
        let mut opening = Opening::none();
        for reply in replies {
            opening = opening.with(reply, keywords);
        }
        opening
    }

    /// Nothing.
    fn none() -> Opening
        ensures { result ≡ nothing_reported }
    {
        Opening {
            next: None,
            validity: None,
            is_read_only: false,
        }
    }

    /// The same with one reply more.
    fn with(self, reply: &Reply<'_>, keywords: &Keywords) -> Opening
        ensures reported { result ≡ opening_more keywords.now self reply.now }
        ensures positive { IsPositive self → IsPositive result }
    {
        match reply {
            Reply::Notice(NoticeKind::Ok, ResponseText::Coded(code, _)) => {
                self.with_code(code, keywords)
            }
            Reply::Tagged(_, _, ResponseText::Coded(code, _)) => self.with_code(code, keywords),
            _ => self,
        }
    }

    /// The same with one code more.
    fn with_code(self, code: &Code<'_>, keywords: &Keywords) -> Opening
        ensures reported { result ≡ code_more keywords.now self code.now }
        ensures positive { IsPositive self → IsPositive result }
    {
        match code {
            Code::UidNext(next) => Opening {
                next: Some(next.get()),
                ..self
            },
            Code::UidValidity(validity) => Opening {
                validity: Some(validity.get()),
                ..self
            },
            Code::PermanentFlags(names) => {
                if permits_all(names.named(keywords), names.contains(b"\\*"), keywords) {
                    self
                } else {
                    self.read_only()
                }
            }
            Code::ReadOnly => self.read_only(),
            _ => self,
        }
    }

    fn read_only(self) -> Opening
        ensures { result ≡ record self { is_read_only = true } }
    {
        Opening {
            is_read_only: true,
            ..self
        }
    }
}

/// Whether each flag that has a name can be kept; `\*` stands for keywords.
fn permits_all(flags: Flags, others: bool, keywords: &Keywords) -> bool
    ensures { result ≡ permits_all keywords.now flags others }
{
    permits_system(flags) && (others || keywords.known().minus(flags).is_empty())
}

/// Whether each of the flags that are no keywords can be kept.
fn permits_system(flags: Flags) -> bool
    ensures { result ≡ list_all (λ flag. has flags (place flag)) system_flags }
{
    SYSTEM.iter().all(|flag| flags.has(*flag))
}
