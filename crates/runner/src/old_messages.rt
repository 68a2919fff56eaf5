//! Which near messages are not asked whether they are fit, since they cannot be new.

ghost use Rattle.std.specs.Prelude.{IfOk};
ghost use Rattle.mailcore.specs.Spared.{spares};
ghost use Rattle.runner.specs.Before.{AreOld};

use mailcore::side::Side;
use mailcore::spared::Spared;
use rules::state::SyncState;
use std::alloc::{AllocError, Global};

/// The near messages that cannot be new: each is not above the highest one that was pushed, or an entry names it.
pub(crate) fn old_messages(alloc: Global, state: &SyncState) -> Result<Spared, AllocError>
    ensures { IfOk result (λ spared. AreOld state.now.max_pushed state.now.entries (spares spared)) }
{
    let mut others = Vec::new(alloc);
    for entry in state.entries.as_slice() {
        let near = entry.number(Side::Near);
        if near > state.max_pushed {
            others.push(near)?;
        }
    }
    Ok(Spared::of(state.max_pushed, others))
}
