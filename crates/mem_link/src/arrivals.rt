//! What others add to the mailbox of a server in memory.

ghost use Rattle.std.specs.Prelude.{◌≡◌, ◌<◌, ◌≤◌, ℕ, Bool, List, Err, OnOk};
ghost use Rattle.imap_session.specs.Visits.{Visits};
ghost use Rattle.imap_link.specs.Sending.{visited};
ghost use Rattle.mem_link.specs.MemLinks.{line_of, stops_of};
ghost use Rattle.mem_link.specs.Others.{AreForeign};
ghost use Rattle.mailcore.specs.Visitors.{others_but};

use crate::command::Nth;
use crate::mem_link::MemLink;
use imap_link::link::LinkFault;
use mailcore::flags::Flags;
use mailcore::octets::Octets;
use std::alloc::Global;

/// A message that others add.
#[derive(Drop)]
pub struct Arrival {
    /// Before which command it comes, whether that stops or not. Before a command that is never sent it does not come.
    pub at: Nth,
    /// Its flags.
    pub flags: Flags,
    /// Its bytes.
    pub bytes: Octets,
}

/// The messages that others add to a mailbox: each comes before the first bytes of its command are sent. One that the server cannot
/// take does not come.
#[derive(Drop)]
pub struct Arrivals {
    /// The name of the mailbox.
    pub mailbox: Octets,
    /// The messages. Of two that come before one command the first comes first.
    pub list: Vec<Arrival>,
}

impl Arrivals {
    /// Nobody adds any.
    pub fn none(alloc: Global) -> Arrivals {
        Arrivals {
            mailbox: Octets::from_vec(Vec::new(alloc)),
            list: Vec::new(alloc),
        }
    }

    /// These bytes are sent next: those messages come that come before the command that begins with them.
    pub(crate) fn come(&self, link: &mut MemLink, bytes: &[u8]) -> Result<(), LinkFault>
        ensures line { OnOk result (line_of link.new ≡ visited (line_of link.old) (line_of link.new).end.server) }
        ensures visits { (ours : List ℕ → Bool) → AreForeign ours self.now.list.items
            → Visits (others_but ours) (line_of link.old).end.server (line_of link.new).end.server }
        ensures steady { OnOk result (stops_of link.new ≡ stops_of link.old) }
        ensures counted { result ≡ Err LinkFault.Stopped → stops_of link.old < stops_of link.new }
        ensures no_less { stops_of link.old ≤ stops_of link.new }
    {
        match link.coming(bytes) {
            Some(at) => bring(link, self.mailbox.as_slice(), &self.list, at),
            None => Ok(()),
        }
    }
}

/// Those messages come that come before this command.
fn bring(link: &mut MemLink, mailbox: &[u8], arrivals: &[Arrival], at: Nth) -> Result<(), LinkFault>
    ensures line { OnOk result (line_of link.new ≡ visited (line_of link.old) (line_of link.new).end.server) }
    ensures visits { (ours : List ℕ → Bool) → AreForeign ours arrivals.now
        → Visits (others_but ours) (line_of link.old).end.server (line_of link.new).end.server }
    ensures steady { OnOk result (stops_of link.new ≡ stops_of link.old) }
    ensures counted { result ≡ Err LinkFault.Stopped → stops_of link.old < stops_of link.new }
    ensures no_less { stops_of link.old ≤ stops_of link.new }
{
    for arrival in arrivals {
        if arrival.at == at {
            link.arrive(mailbox, arrival.flags, arrival.bytes.as_slice())?;
        }
    }
    Ok(())
}
