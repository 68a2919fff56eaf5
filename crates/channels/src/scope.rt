//! What a run over a mailbox may do, and on which sides the mailbox is made.

ghost use Rattle.std.specs.Prelude.{◌≡◌, IfOk};
ghost use Rattle.channels.specs.Scope.{options_of, uncovered};

use config::config::Channel;
use mailcore::side::Side;
use rules::options::{Cells, Options, Sides};
use std::alloc::{AllocError, Global};

/// What a run over a mailbox of this channel may do: the cells of the command line, if it says any, stand in place of the channel's,
/// and Both in place of its Expunge. Its keywords are the channel's. `AllocError`: memory ran out.
pub fn options_of(
    alloc: Global,
    channel: &Channel,
    cells: Option<Cells>,
    expunges: bool,
) -> Result<Options, AllocError>
    ensures { IfOk result (λ options. options ≡ options_of channel.now cells expunges) }
{
    let expunge = if expunges {
        Sides {
            far: true,
            near: true,
        }
    } else {
        channel.expunge
    };
    Ok(Options {
        cells: cells.unwrap_or(channel.cells),
        expunge,
        keywords: channel.keywords.try_clone(alloc)?,
    })
}

/// The first side, far before near, on which a mailbox is absent and Create does not cover.
pub fn uncovered(absent: Sides, create: Sides) -> Option<Side>
    ensures { result ≡ uncovered absent create }
{
    if absent.far && !create.far {
        return Some(Side::Far);
    }
    if absent.near && !create.near {
        return Some(Side::Near);
    }
    None
}
