//! The mailboxes of a channel, with the stores that they are in.

ghost use Rattle.std.specs.Prelude.{◌↔◌, IsTrue, MatchOption};
ghost use Rattle.channels.specs.Asked.{IsJoined, IsUnjoined, joined_of};
ghost use Rattle.channels.specs.Founds.{CouldChoose};

use config::config::{Boxes, Channel, Config, ImapStore, MaildirStore};
use config_words::patterns::matches;
use mailcore::mailbox_name::MailboxName;

/// A channel and its stores.
#[derive(Clone, Copy)]
pub struct ChannelStores<'a> {
    /// The channel.
    pub channel: &'a Channel,
    /// The far store.
    pub far_store: &'a ImapStore,
    /// The near store.
    pub near_store: &'a MaildirStore,
}

impl<'a> ChannelStores<'a> {
    /// The channel of this place, or none if it or a store of it is not in the configuration.
    #[tactic(auto, using(std::proofs::lemmas::Option::gets))]
    pub fn at(config: &'a Config, place: usize) -> Option<Self>
        ensures { MatchOption result (IsUnjoined config.now place) (λ of. IsJoined config.now place (joined_of of)) }
    {
        let channel = config.channels.get(place)?;
        let far_store = config.imap_stores.get(channel.far)?;
        let near_store = config.maildir_stores.get(channel.near)?;
        Some(ChannelStores {
            channel,
            far_store,
            near_store,
        })
    }

    /// Whether the channel could choose the mailbox of this name in the store of this name, if its name were within the limits: one of its
    /// stores has it, and the patterns match it or the channel names it there.
    pub fn could_choose(self, store: &str, name: &str) -> bool
        ensures { IsTrue result ↔ CouldChoose (joined_of self.entry) store.now name.now }
    {
        let is_far = self.far_store.name.as_str() == store;
        let is_near = self.near_store.name.as_str() == store;
        match &self.channel.boxes {
            Boxes::Pair { far, near } => {
                (is_far && far.as_str() == name) || (is_near && near.as_str() == name)
            }
            Boxes::Matching(patterns) => (is_far || is_near) && matches(patterns, name),
        }
    }
}

/// A mailbox of a channel.
#[derive(Clone, Copy)]
pub struct ChannelBox<'a> {
    /// The channel and its stores.
    pub of: ChannelStores<'a>,
    /// The mailbox's name on the far side, which printed lines name it by.
    pub far: &'a MailboxName,
    /// Its name on the near side. It is another one only where the channel has no patterns.
    pub near: &'a MailboxName,
}
