//! How far a far mailbox is.

/// How far a far mailbox is.
#[derive(Clone, Copy, Debug, PartialEq, Eq, Drop)]
pub(crate) enum Stage {
    /// The link is to be connected anew.
    Closed,
    /// The user has logged in.
    LoggedIn,
    /// The mailbox was selected.
    Open,
}
