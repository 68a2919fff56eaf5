//! A work over a mailbox that is lent, which is noted for contracts alone.

ghost use Rattle.std.specs.Prelude.{◌≡◌, ◌∷◌};
ghost use Rattle.outside.specs.Calls.{Seen};
ghost use Rattle.channels.specs.Asked.{place_of};
ghost use Rattle.channels.specs.Lendings.{lent_by};
ghost use Rattle.mail_stores.specs.Lent.{Loan};

use crate::lent_history::LentHistory;
use channels::channel_box::ChannelBox;
use channels::stores::Work;
use outside::outside::Outside;
use runner::progress::Progress;

/// Does this over an outside, which is that of this mailbox, and notes how it was before and after.
pub(crate) fn lend<W: Work + Drop, O: Outside, P: Progress>(
    place: ChannelBox<'_>,
    outside: &mut O,
    work: W,
    progress: &P,
    lent: &mut LentHistory,
) -> W::Answer
    requires map { O.keywords outside.old ≡ (W.options work).keywords }
    ensures noted { lent.new.loans ≡ record {
      place = place_of place.entry;
      old = O.seen outside.old;
      new = O.seen outside.new;
      opened = O.opened outside.new;
    } ∷ lent.old.loans }
    ensures did { O.honest outside.new → W.did work (lent_by O.Outside outside.old outside.new) result }
{
    lend_from(place, outside, work, progress, lent)
}

/// The same. The outside is noted as one that was seen so before.
fn lend_from<W: Work + Drop, O: Outside, P: Progress>(
    place: ChannelBox<'_>,
    outside: &mut O,
    work: W,
    progress: &P,
    lent: &mut LentHistory,
) -> W::Answer
    ghost before: { Seen }
    requires map { O.keywords outside.old ≡ (W.options work).keywords }
    ensures noted { lent.new.loans ≡ record {
      place = place_of place.entry;
      old = before;
      new = O.seen outside.new;
      opened = O.opened outside.new;
    } ∷ lent.old.loans }
    ensures did { O.honest outside.new → W.did work (lent_by O.Outside outside.old outside.new) result }
{
    let answer = work.over(outside, progress);
    note(lent, place, outside);
    answer
}

/// This outside was given back, which is that of this mailbox. They are there for contracts alone, which name by them what is noted.
fn note<O: Outside>(lent: &mut LentHistory, _place: ChannelBox<'_>, _outside: &O)
    ghost this: { Loan }
    ensures { lent.new.loans ≡ this ∷ lent.old.loans }
{
    *lent = lent.and();
}
