//! A call stops of itself only where a guard does not let the run go on.

ghost use Rattle.std.specs.Prelude.{◌≡◌, false};
ghost use Rattle.outside.specs.Calls.{stopped};

use crate::guard::Guard;
use outside::fault::OutsideFault;
use outside::outside::Outside;

/// Stops before anything is done, since this guard does not let the run go on.
pub(crate) fn stop_refused<O: Outside, G: Guard>(outside: &mut O, _guard: &G) -> OutsideFault
    requires { G.goes_on _guard.now ≡ false }
    ensures was_honest { O.honest outside.new → O.honest outside.old }
    ensures keywords { O.keywords outside.new ≡ O.keywords outside.old }
    ensures fault { result ≡ OutsideFault.Stopped }
    ensures stopped { O.seen outside.new ≡ stopped (O.seen outside.old) }
    ensures opened { O.opened outside.new ≡ O.opened outside.old }
{
    outside.stop()
}
