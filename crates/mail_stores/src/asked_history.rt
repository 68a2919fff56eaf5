//! What stores were asked for, for contracts alone.

ghost use Rattle.std.specs.Prelude.{◌≡◌, List, [], ◌∷◌};
ghost use Rattle.std.specs.Borrow.{ftrue};
ghost use Rattle.channels.specs.Asked.{Asked};

use channels::channel_box::ChannelBox;
use mailcore::side::Side;
use std::marker::Model;

/// Each thing that stores were asked for, the last first. Contracts alone read it: it takes no memory.
#[derive(Drop)]
pub struct AskedHistory {
    pub ghost asked: { List Asked },
}

impl Model for AskedHistory {
    ghost also_owns = { λ _. ftrue };
}

impl AskedHistory {
    /// They were asked for nothing.
    pub fn new() -> Self
        ensures { result.asked ≡ [] }
    {
        AskedHistory {}
    }

    /// The same, and this after it.
    pub fn and(&self) -> Self
        ghost this: { Asked }
        ensures { result.asked ≡ this ∷ self.now.asked }
    {
        AskedHistory {}
    }
}

/// They were asked for something with this answer. Both are there for contracts alone, which name by them what is noted.
pub(crate) fn note<X, Y>(history: &mut AskedHistory, _of: &X, _answer: &Y)
    ghost this: { Asked }
    ensures { history.new.asked ≡ this ∷ history.old.asked }
{
    *history = history.and();
}

/// The same of something about this mailbox, on this side if it is about one.
pub(crate) fn note_at<Y>(
    history: &mut AskedHistory,
    _place: ChannelBox<'_>,
    _side: Side,
    _answer: &Y,
)
    ghost this: { Asked }
    ensures { history.new.asked ≡ this ∷ history.old.asked }
{
    *history = history.and();
}
