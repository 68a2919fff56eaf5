//! A mailbox at a server, one in a folder, and a book, as the outside of a run.

use crate::far_side::FarSide;
use crate::near_side::NearSide;
use run_pair::pair::Pair;

/// The outside of a run over a mailbox that is reached by the link `L`, one in the folder `F`, and a book on the shelf `S`.
pub type Both<L, F, S> = Pair<FarSide<L>, NearSide<F>, S>;
