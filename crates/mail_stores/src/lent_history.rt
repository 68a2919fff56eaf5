//! Which mailboxes were lent, for contracts alone.

ghost use Rattle.std.specs.Prelude.{◌≡◌, List, [], ◌∷◌};
ghost use Rattle.std.specs.Borrow.{ftrue};
ghost use Rattle.mail_stores.specs.Lent.{Loan};

use std::marker::Model;

/// Each mailbox that was lent, the last first: its names, and how it was before and after. Contracts alone read it: it takes no memory.
#[derive(Drop)]
pub struct LentHistory {
    pub ghost loans: { List Loan },
}

impl Model for LentHistory {
    ghost also_owns = { λ _. ftrue };
}

impl LentHistory {
    /// None was lent.
    pub fn new() -> Self
        ensures { result.loans ≡ [] }
    {
        LentHistory {}
    }

    /// The same, and this mailbox after them.
    pub fn and(&self) -> Self
        ghost this: { Loan }
        ensures { result.loans ≡ this ∷ self.now.loans }
    {
        LentHistory {}
    }
}
