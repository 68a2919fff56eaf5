//! A message of one mailbox is copied to the other.

ghost use Rattle.std.specs.Prelude.{◌≡◌, ◌⊎◌, ℕ, List, Bool, false, true, IfErr, OnOk};
ghost use Rattle.device.specs.Calls.{Follows};
ghost use Rattle.mailcore.specs.KeywordNames.{kept};
ghost use Rattle.mailcore.specs.Sides.{source, target};
ghost use Rattle.outside.specs.MailboxCalls.{HasCause, Never};
ghost use Rattle.outside.specs.MailboxOperations.{NoRoom};
ghost use Rattle.outside.specs.Arrivals.{Arrives};
ghost use Rattle.outside.specs.Devices.{Device};
ghost use Rattle.run_pair.specs.Copies.{carries, with_two};
ghost use Rattle.run_pair.specs.Faults.{IsReported};
ghost use Rattle.run_pair.specs.Parts.{IsLess};
ghost use Rattle.rules.specs.Copies.{line_end};

use crate::tally::reported;
use mailcore::content::fit;
use mailcore::copy_pieces::{CopyHead, CopyPieces};
use mailcore::flags::Flags;
use mailcore::side::{Direction, LineEnd, Side};
use mailcore::tuid::Tuid;
use mailcore::uid::Uid;
use outside::fault::OutsideFault;
use outside::mailbox::Mailbox;
use outside::outside::Carried;

/// Copies the message with this UID from one mailbox to the other, under this mark and with these flags. The copy is made piece by piece from
/// the message, as the one mailbox lends it.
pub(crate) fn copy<A: Mailbox, B: Mailbox>(
    direction: Direction,
    from: &mut A,
    to: &mut B,
    uid: Uid,
    mark: Tuid,
    flags: Flags,
) -> Result<Carried, OutsideFault>
    requires source { A.side ≡ source direction }
    requires target { B.side ≡ target direction }
    requires from_whole { (A.seen from.old).is_broken ≡ false }
    requires to_whole { (B.seen to.old).is_broken ≡ false }
    requires from_open { A.is_open from.old ≡ true }
    requires to_open { B.is_open to.old ≡ true }
    ensures from_was { A.honest from.new → A.honest from.old }
    ensures to_was { B.honest to.new → B.honest to.old }
    ensures from_keywords { A.keywords from.new ≡ A.keywords from.old }
    ensures to_keywords { B.keywords to.new ≡ B.keywords to.old }
    ensures from_open { A.is_open from.new ≡ true }
    ensures to_open { B.is_open to.new ≡ true }
    ensures from_whole { OnOk result ((A.seen from.new).is_broken ≡ false) }
    ensures to_whole { OnOk result ((B.seen to.new).is_broken ≡ false) }
    ensures why { IfErr result (λ fault.
        IsReported (A.honest from.new) (HasCause (A.ended from.old from.new) (A.seen from.old) (A.seen from.new))
        (source direction) Never (A.seen from.new).stored fault
        ⊎ IsReported (B.honest to.new) (HasCause (B.ended to.old to.new) (B.seen to.old) (B.seen to.new))
        (target direction) (NoRoom (target direction) (λ _. 1)) (B.seen to.new).stored fault) }
    ensures effect { A.honest from.new → B.honest to.new → (ours : List ℕ → Bool) (alone : Bool) (d : Device)
        → IsLess A.ours ours → IsLess B.ours ours → (alone ≡ true → A.alone ≡ true) → (alone ≡ true → B.alone ≡ true)
        → Follows (Arrives ours alone) (carries direction uid (kept (B.keywords to.old) flags) mark result)
        (with_two direction (A.seen from.old).stored (B.seen to.old).stored d)
        (with_two direction (A.seen from.new).stored (B.seen to.new).stored d) }
{
    match from.load(uid) {
        Ok(true) => {}
        Ok(false) => return Ok(Carried::Absent),
        Err(fault) => return Err(reported(direction.source(), fault)),
    }
    let message = from.body();
    if !fit(direction.source(), message) {
        return Ok(Carried::Unfit);
    }
    let head = CopyHead::new(mark, line_end(direction.target()));
    match to.append_copy(CopyPieces::new(&head, message), flags) {
        Ok(copy) => Ok(Carried::Made(copy)),
        Err(fault) => Err(reported(direction.target(), fault)),
    }
}

/// How a side's store ends its lines.
fn line_end(side: Side) -> LineEnd
    ensures { result ≡ line_end side }
{
    match side {
        Side::Far => LineEnd::CrLf,
        Side::Near => LineEnd::Lf,
    }
}
