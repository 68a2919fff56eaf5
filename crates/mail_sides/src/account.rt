//! Whose mailbox it is.

ghost use Rattle.imap_client.specs.Requests.{IsWord};
ghost use Rattle.std.proofs.Props.{props};

/// The name of a far mailbox, and the user who logs in for it: words of at most 1024 bytes that can be quoted.
#[derive(Drop)]
pub struct Account {
    pub(crate) user: Vec<u8>,
    pub(crate) password: Vec<u8>,
    pub(crate) mailbox: Vec<u8>,
    pub ghost user_word: { IsWord user.items },
    pub ghost password_word: { IsWord password.items },
    pub ghost mailbox_word: { IsWord mailbox.items },
}

impl Account {
    ghost use Rattle.std.specs.Prelude.{◌≡◌};

    /// The mailbox of this name, of a user with this password.
    pub fn new(user: Vec<u8>, password: Vec<u8>, mailbox: Vec<u8>) -> Self
        requires user { IsWord user.items }
        requires password { IsWord password.items }
        requires mailbox { IsWord mailbox.items }
        ensures user { result.user.items ≡ user.items }
        ensures password { result.password.items ≡ password.items }
        ensures mailbox { result.mailbox.items ≡ mailbox.items }
    {
        Account {
            user,
            password,
            mailbox,
        }
    }

    /// The name of the mailbox.
    pub fn mailbox(&self) -> &[u8]
        ensures { result.now ≡ self.now.mailbox.items }
    {
        &self.mailbox
    }
}
