//! Who is informed how far a run is.

ghost use Rattle.runner.specs.Going.{HasUntorn};

use outside::outside::Outside;

/// Who is informed how far a run is.
pub trait Progress {
    /// So many steps of the plan are logged, of so many that it has.
    fn report(&self, logged: usize, steps: usize);
}

/// Nobody is informed.
impl Progress for () {
    fn report(&self, logged: usize, steps: usize) {
        let _ = (logged, steps);
    }
}

/// Reports how many steps of the plan that is pending are logged.
pub(crate) fn report_logged<O: Outside, P: Progress>(outside: &O, progress: &P)
    requires going { HasUntorn (O.opened outside.now) }
{
    if let Some(journal) = outside.pending() {
        let logged = journal.log.as_slice().len();
        progress.report(logged, journal.plan.steps.as_slice().len());
    }
}
