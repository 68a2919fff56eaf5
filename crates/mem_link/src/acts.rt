//! What other clients do to the messages of a server in memory.

ghost use Rattle.std.specs.Prelude.{◌≡◌, [], IfErr};
ghost use Rattle.mem_link.specs.MemLinks.{stops_of};

use crate::command::Nth;
use crate::mem_link::MemLink;
use imap_link::link::LinkFault;
use mailcore::flags::Flags;
use mailcore::octets::Octets;
use mailcore::uid::Uid;
use std::alloc::Global;

/// What another client does to a message.
#[derive(Clone, Copy)]
pub enum MessageDeed {
    /// It sets flags, and then clears others.
    Flag {
        /// Those that it sets.
        set: Flags,
        /// Those that it clears.
        clear: Flags,
    },
    /// It removes the message.
    Remove,
}

/// When another client does something, and to which message.
#[derive(Clone, Copy)]
pub struct MailboxAct {
    /// Before which command, whether that stops or not. Before a command that is never sent it is not done.
    pub at: Nth,
    /// The message. Where none has this UID then, nothing is done.
    pub uid: Uid,
    /// What is done.
    pub deed: MessageDeed,
}

/// What other clients do to the messages of a mailbox: each before the first bytes of its command are sent.
#[derive(Drop)]
pub struct MailboxActs {
    /// The name of the mailbox.
    pub mailbox: Octets,
    /// What they do. Of two before one command the first is done first.
    pub list: Vec<MailboxAct>,
}

impl MailboxActs {
    /// They do nothing.
    pub fn none(alloc: Global) -> MailboxActs
        ensures { result.list.items ≡ [] }
    {
        MailboxActs {
            mailbox: Octets::from_vec(Vec::new(alloc)),
            list: Vec::new(alloc),
        }
    }

    /// These bytes are sent next: what is to be done before the command that begins with them is done. `NoMemory`: a part of it.
    pub(crate) fn happen(&self, link: &mut MemLink, bytes: &[u8]) -> Result<(), LinkFault>
        ensures stops { stops_of link.new ≡ stops_of link.old }
        ensures fault { IfErr result (λ fault. fault ≡ LinkFault.NoMemory) }
    {
        match link.coming(bytes) {
            Some(at) => act_before(link, self.mailbox.as_slice(), &self.list, at),
            None => Ok(()),
        }
    }
}

/// What is to be done before this command is done.
fn act_before(
    link: &mut MemLink,
    mailbox: &[u8],
    acts: &[MailboxAct],
    at: Nth,
) -> Result<(), LinkFault>
    ensures stops { stops_of link.new ≡ stops_of link.old }
    ensures fault { IfErr result (λ fault. fault ≡ LinkFault.NoMemory) }
{
    for act in acts {
        if act.at == at {
            link.act(mailbox, act.uid, act.deed)?;
        }
    }
    Ok(())
}
