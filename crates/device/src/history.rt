//! A list that contracts alone read.

ghost use Rattle.std.specs.Prelude.{◌≡◌, List, [], ◌∷◌};
ghost use Rattle.std.specs.Borrow.{ftrue};

use std::marker::{Model, PhantomData};

/// A list that contracts alone read, the last item first. It takes no memory, and its functions do nothing when they run.
#[derive(Drop)]
pub struct History<T> {
    of: PhantomData<T>,
    pub ghost items: { List T },
}

impl<T> Model for History<T> {
    ghost also_owns = { λ _. ftrue };
}

impl<T> History<T> {
    /// No item.
    pub fn new() -> History<T>
        ensures { result.items ≡ [] }
    {
        History { of: PhantomData }
    }

    /// The same list, with this item before the others.
    pub fn and(&self, item: &T) -> History<T>
        ensures { result.items ≡ item.now ∷ self.now.items }
    {
        History { of: PhantomData }
    }
}
