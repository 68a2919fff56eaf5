//! How many messages the selected mailbox has (RFC 9051, sections 7.4.1 and 7.5.1), and how many of them a listing has not reported.

ghost use Rattle.std.specs.Prelude.{◌≡◌};
ghost use Rattle.link_face.specs.GatheredRows.{asked, expunged, none_standing, reported, with_exists};

/// The messages of the selected mailbox, by their numbers, as its server says.
#[derive(Clone, Copy)]
pub(crate) struct MessageCount {
    /// How many there are.
    pub(crate) exists: u32,
    /// How many of them were there when a command was sent. Those that have come since have greater numbers.
    pub(crate) asked: u32,
    /// The greatest number that was reported since.
    pub(crate) reached: u32,
    /// How many of those that were there were not reported since.
    pub(crate) missing: u32,
}

impl MessageCount {
    /// None: the server has not said how many there are.
    pub(crate) fn none() -> MessageCount
        ensures { result ≡ none_standing }
    {
        MessageCount {
            exists: 0,
            asked: 0,
            reached: 0,
            missing: 0,
        }
    }

    /// A command is sent.
    pub(crate) fn asked(self) -> MessageCount
        ensures { result ≡ asked self }
    {
        MessageCount {
            exists: self.exists,
            asked: self.exists,
            reached: 0,
            missing: self.exists,
        }
    }

    /// EXISTS with this number.
    pub(crate) fn with_exists(self, count: u32) -> MessageCount
        ensures { result ≡ with_exists count self }
    {
        MessageCount {
            exists: count,
            ..self
        }
    }

    /// EXPUNGE with this number. A message with a number up to the greatest that was reported counts as one that was reported, so that none of
    /// the others counts as reported in its place.
    pub(crate) fn expunged(self, number: u32) -> MessageCount
        ensures { result ≡ expunged number self }
    {
        let exists = self.exists.saturating_sub(1);
        if number > self.asked {
            return MessageCount { exists, ..self };
        }
        let asked = self.asked.saturating_sub(1);
        if number > self.reached {
            MessageCount {
                exists,
                asked,
                missing: self.missing.saturating_sub(1),
                ..self
            }
        } else {
            MessageCount {
                exists,
                asked,
                reached: self.reached.saturating_sub(1),
                ..self
            }
        }
    }

    /// A message with this number is reported that was not reported before.
    pub(crate) fn reported(self, number: u32) -> MessageCount
        ensures { result ≡ reported number self }
    {
        if number > self.asked {
            return self;
        }
        let reached = if number > self.reached {
            number
        } else {
            self.reached
        };
        MessageCount {
            reached,
            missing: self.missing.saturating_sub(1),
            ..self
        }
    }
}
