//! The run of a trial, over any outside.

ghost use Rattle.std.specs.Prelude.{◌≡◌, ◌≤◌, IfErr, IfOk};
ghost use Rattle.rand_core.specs.Stream.{Stream};
ghost use Rattle.run_states.specs.Openings.{Opening};
ghost use Rattle.runner.specs.Attempts.{FromOpening, HasNoNext};
ghost use Rattle.runner.specs.Parts.{IsStuck};
ghost use Rattle.runner.specs.Results.{HasResults};
ghost use Rattle.runner.specs.Settled.{CountsAttempts, HasReason, IsSettled, IsUnsettled};
ghost use Rattle.run_trial.specs.Openings.{trial_stream};

use outside::outside::Outside;
use rules::options::Options;
use runner::fault::RunFault;
use runner::pass::Settled;
use runner::settle::settle;
use std::alloc::Global;
use worlds::trial_generator::TrialGenerator;

/// Carries out one run in up to `tries` attempts, with the marks of the trial generator: what is answered, and what stands after a
/// fault, is as of `settle`.
pub fn settle_trial<O: Outside>(
    alloc: Global,
    outside: &mut O,
    options: &Options,
    tries: u32,
) -> Result<Settled, RunFault>
    ghost opening: { Opening O.ours O.alone }
    requires map { O.keywords outside.old ≡ options.now.keywords }
    ensures was_honest { O.honest outside.new → O.honest outside.old }
    ensures keywords { O.keywords outside.new ≡ O.keywords outside.old }

    // From an opening: an answer leaves the run over, and reports what the last attempt answered; a fault leaves the run underway.
    ensures done { IfOk result (λ settled. FromOpening (O.honest outside.new) opening options.now trial_stream
        (O.seen outside.old).device
        (IsSettled opening (O.opened outside.new) options.now trial_stream settled (O.seen outside.old) (O.seen outside.new))) }
    ensures left { IfErr result (λ fault. FromOpening (O.honest outside.new) opening options.now trial_stream
        (O.seen outside.old).device
        (IsUnsettled opening tries trial_stream fault (O.seen outside.old) (O.seen outside.new))) }
    ensures results { IfOk result (λ settled. O.honest outside.new → HasResults settled.last (O.seen outside.new).device) }

    // A fault that is no stop has its reason, and after the greatest run number there is no other.
    ensures caused { IfErr result (λ fault. (after : Stream) × HasReason (O.opened outside.new) (O.honest outside.new) opening options.now
        trial_stream after fault (O.seen outside.old) (O.seen outside.new)) }
    ensures greatest { HasNoNext (O.honest outside.new) O.alone (O.seen outside.old).device (O.seen outside.new).device result }

    // Each attempt but the last met one stop, and each of all where a stop is answered.
    ensures counts { CountsAttempts tries (O.seen outside.old) (O.seen outside.new) result }
    ensures stuck { tries ≤ 1 → IsStuck (O.seen outside.old) (O.seen outside.new) result }
{
    settle(
        alloc,
        outside,
        options,
        tries,
        &mut TrialGenerator::new(),
        &(),
    )
}
