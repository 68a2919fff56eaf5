//! Whether a configuration names mailboxes that no Maildir store can have.

ghost use Rattle.std.specs.Prelude.{◌≡◌, option_map};
ghost use Rattle.std.specs.List.{find};
ghost use Rattle.mail_run.specs.NamedBoxes.{names_own_part};

use config::config::{Boxes, Channel, Config};
use near_places::names::has_own_part;

/// The first channel that names a mailbox of which a part is that of a folder or a file of each mailbox in a Maildir store.
pub(crate) fn refused_channel(config: &Config) -> Option<&Channel>
    ensures { option_map (λ channel. channel.now) result ≡ find (λ channel. names_own_part channel.boxes) config.now.channels.items }
{
    config
        .channels
        .iter()
        .find(|channel| names_own_part(&channel.boxes))
}

fn names_own_part(boxes: &Boxes) -> bool
    ensures { result ≡ names_own_part boxes.now }
{
    match boxes {
        Boxes::Pair { far, near } => has_own_part(far.as_str()) || has_own_part(near.as_str()),
        Boxes::Matching(_) => false,
    }
}

/// The mailboxes that a channel names: the far one that is so, or else the near one. Of a channel with patterns this is none.
pub(crate) fn refused_name(channel: &Channel) -> Option<&str> {
    match &channel.boxes {
        Boxes::Pair { far, .. } if has_own_part(far.as_str()) => Some(far.as_str()),
        Boxes::Pair { near, .. } => Some(near.as_str()),
        Boxes::Matching(_) => None,
    }
}
