//! The end of a run: its state is committed.

ghost use Rattle.std.specs.Prelude.{◌≡◌, None, OnOk};
ghost use Rattle.outside.specs.Opened.{TakesCommit};
ghost use Rattle.run_states.specs.Conditions.{Underway};
ghost use Rattle.run_states.specs.Openings.{Opening};
ghost use Rattle.runner.specs.Answers.{RunEnd};
ghost use Rattle.runner.specs.Going.{BeforeStep, IsGoing, next_at};
ghost use Rattle.runner.specs.Parts.{Part};
ghost use Rattle.runner.specs.PassStages.{Concluded, Frame};

use crate::fault::{RunFault, call_fault};
use outside::outside::Outside;

/// The new state takes the old one's place, and the journal goes.
pub(crate) fn conclude<O: Outside>(outside: &mut O, is_resumed: bool) -> Result<(), RunFault>
    ghost opening: { Opening O.ours O.alone }
    requires going { IsGoing (O.opened outside.old) }
    requires takes { TakesCommit (O.opened outside.old) }
    requires ended { next_at (O.opened outside.old) ≡ None }
    ensures frame { Frame O.Outside outside.old outside.new }
    ensures concluded { OnOk result (Concluded O.Outside opening is_resumed outside.old outside.new) }
    ensures part { Part (O.honest outside.new) (BeforeStep opening (O.opened outside.old) is_resumed) (Underway opening) (λ _. 0)
        (λ _. RunEnd opening) (O.seen outside.old) (O.seen outside.new) result }
    ensures asked { O.asked outside.new ≡ O.asked outside.old }
{
    match outside.commit() {
        Ok(()) => Ok(()),
        Err(fault) => Err(call_fault(fault)),
    }
}
