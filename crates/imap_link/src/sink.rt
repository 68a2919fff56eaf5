//! What is given the replies about messages, one by one as they are heard.

ghost use Rattle.std.specs.Prelude.{[], List, OnOk};
ghost use Rattle.imap_replies.specs.declared.reply.Reply.{Reply};
ghost use Rattle.imap_link.specs.Sinks.{TakesReply};

use imap_replies::reply::Reply;
use std::alloc::AllocError;

/// What is given the replies to a command, one after another, as they are heard. It takes what it needs of each: no reply has to be kept.
pub trait ReplySink {
    /// Given these replies, in this order, the first became the second: FETCH replies, `+` and tagged ones. Others say nothing about
    /// messages.
    ghost took: { Self → List Reply → Self → Type 0 };

    /// Given no reply, it stays as it is.
    ghost none: { (sink : Self) → took sink [] sink };

    /// Takes one reply more.
    ///
    /// `AllocError`: memory ran out, and what was taken so far is of no use.
    fn take(&mut self, reply: &Reply<'_>) -> Result<(), AllocError>
        ensures { OnOk result (TakesReply took reply.now self.old self.new) };
}

/// It keeps nothing of the replies.
#[derive(Drop)]
pub struct NoSink {}

impl ReplySink for NoSink {
    ghost use Rattle.imap_link.specs.Sinks.{any_replies};

    ghost took = { λ _ replies _. any_replies replies };

    ghost none = { λ _. tt };

    fn take(&mut self, _reply: &Reply<'_>) -> Result<(), AllocError> {
        Ok(())
    }
}
