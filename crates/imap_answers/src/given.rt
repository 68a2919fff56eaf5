//! What the replies to APPEND report about the message that was added (RFC 9051, section 7.1: APPENDUID).

ghost use Rattle.std.specs.Prelude.{◌≡◌};
ghost use Rattle.imap_answers.specs.Given.{given_by_code, given_more, given_in, uid_reported};

use imap_link::fault::FarFault;
use imap_replies::reply::Reply;
use imap_replies::response::{Code, ResponseText};
use mailcore::uid::Uid;
use wire_tokens::number::NonZero;

/// The validity and the UID of a message, as a server reported them.
#[derive(Drop)]
pub struct Given {
    /// The UIDVALIDITY of its mailbox.
    pub validity: u32,
    /// Its UID.
    pub uid: NonZero,
}

/// What these replies report.
pub fn given_in(replies: &[Reply<'_>]) -> Option<Given>
    ensures { result ≡ given_in replies.now }
{
    replies
        .iter()
        .fold(None, |given, reply| given_more(given, reply))
}

/// What was reported before, or what this reply reports.
fn given_more(given: Option<Given>, reply: &Reply<'_>) -> Option<Given>
    ensures { result ≡ given_more given reply.now }
{
    match reply {
        Reply::Tagged(_, _, ResponseText::Coded(code, _)) => given_by_code(given, code),
        _ => given,
    }
}

/// What was reported before, or what this code reports.
fn given_by_code(given: Option<Given>, code: &Code<'_>) -> Option<Given>
    ensures { result ≡ given_by_code given code.now }
{
    match code {
        Code::AppendUid(validity, uid) => match NonZero::new(uid.get()) {
            Some(uid) => Some(Given {
                validity: validity.get(),
                uid,
            }),
            None => unreachable!(),
        },
        _ => given,
    }
}

/// The UID that was reported, if one was, in a mailbox of this validity whose next UID was at least this.
///
/// `Protocol`: the mailbox cannot have given it.
pub fn uid_reported(given: Option<Given>, validity: u32, next: u32) -> Result<Option<Uid>, FarFault>
    ensures { result ≡ uid_reported given validity next }
{
    let Some(given) = given else {
        return Ok(None);
    };
    match Uid::new(given.uid.get()) {
        Some(uid) if given.validity == validity && next <= uid.get() => Ok(Some(uid)),
        _ => Err(FarFault::Protocol),
    }
}
