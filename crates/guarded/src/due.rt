//! Messages that are asked about in a part of a plan.

ghost use Rattle.std.specs.Prelude.{◌≡◌, ◌<◌, ◌≤◌, IfOk, filter, map, nat_lt, nat_le};
ghost use Rattle.guarded.specs.Dues.{is_ahead, is_due, is_past};

use mailcore::uid::Uid;
use std::alloc::{AllocError, Global};

/// A message that is asked about in a part of a plan, whose steps are counted from 0.
#[derive(Clone, Copy)]
pub(crate) struct Due {
    /// Its UID.
    pub(crate) uid: Uid,
    /// It is asked about once this step is logged, or from the first on.
    pub(crate) after: Option<usize>,
    /// And until this step is logged, or to the end.
    pub(crate) until: Option<usize>,
}

impl Due {
    /// Whether it is asked about when so many steps are logged.
    pub(crate) fn is_due(&self, logged: usize) -> bool
        ensures { result ≡ is_due logged self.now }
    {
        is_past(self.after, logged) && is_ahead(self.until, logged)
    }
}

/// Whether a step, if there is one, is logged.
fn is_past(step: Option<usize>, logged: usize) -> bool
    ensures { result ≡ is_past logged step }
{
    match step {
        Some(step) => step < logged,
        None => true,
    }
}

/// Whether a step, if there is one, is not logged.
fn is_ahead(step: Option<usize>, logged: usize) -> bool
    ensures { result ≡ is_ahead logged step }
{
    match step {
        Some(step) => logged <= step,
        None => true,
    }
}

/// The UIDs of those that are asked about when so many steps are logged, in their order.
pub(crate) fn due_of(alloc: Global, dues: &[Due], logged: usize) -> Result<Vec<Uid>, AllocError>
    ensures { IfOk result (λ uids. uids.items ≡ map (λ due. due.uid) (filter (is_due logged) dues.now)) }
{
    dues.iter()
        .filter(|due| due.is_due(logged))
        .map(|due| due.uid)
        .collect(alloc)
}
