//! The condition of a connection (RFC 9051, section 3).

use wire_strings::text::Text;

/// What a connection may ask for.
#[derive(Drop)]
pub(crate) enum ConnectionState {
    /// Nobody is logged in.
    NotAuthenticated,
    /// Somebody is, and no mailbox is selected.
    Authenticated,
    /// The mailbox of this name is selected.
    Selected(Text),
    /// Nothing more is read.
    LoggedOut,
}
