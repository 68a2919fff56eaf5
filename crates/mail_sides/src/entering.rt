//! How a user logs in: over a new connection.

ghost use Rattle.std.specs.Prelude.{◌≡◌, ◌≤◌, false};
ghost use Rattle.imap_client.specs.Requests.{IsWord};
ghost use Rattle.imap_client.specs.Seen.{KeepsMap};
ghost use Rattle.imap_client.specs.Sessions.{server_of, state_of};
ghost use Rattle.imap_link.specs.Outcomes.{Outcome};
ghost use Rattle.imap_session.specs.Visits.{Among};
ghost use Rattle.mail_sides.specs.Chosen.{IsUnknown, KeepsMailboxes, LogsIn};
ghost use Rattle.mail_sides.specs.FarStops.{Ends};

use imap_client::far_box::FarBox;
use imap_link::fault::FarFault;
use imap_link::link::Link;

/// Connects anew, and logs in. The box is closed then.
pub(crate) fn log_in<L: Link>(
    far: &mut FarBox<L>,
    user: &[u8],
    password: &[u8],
) -> Result<(), FarFault>
    requires user { IsWord user.now }
    requires password { IsWord password.now }
    ensures was_honest { L.honest far.new.session.wire.link → L.honest far.old.session.wire.link }
    ensures letters { L.honest far.new.session.wire.link → KeepsMap (server_of far.old.session) (server_of far.new.session) }
    ensures keywords { far.new.keywords ≡ far.old.keywords }
    ensures closed { far.new.is_selected ≡ false }
    ensures ends { Ends (state_of far.old.session) (state_of far.new.session) result }
    ensures outcome { L.honest far.new.session.wire.link
        → Among L.visitors (Outcome (λ _. LogsIn) (IsUnknown user.now password.now) KeepsMailboxes result)
        (server_of far.old.session) (server_of far.new.session) }
{
    far.reconnect()?;
    far.login(user, password)
}
