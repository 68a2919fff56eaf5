//! Why there is no plan.

ghost use Rattle.std.specs.Prelude.{◌≡◌};

use mailcore::fault::CoreFault;
use mailcore::side::Side;
use planner::fault::PlanFault;
use std::alloc::AllocError;
use std::io;
use std::io::ErrorKind;
use thiserror::Error;
use worlds::fault::WorldFault;

/// Why there is no plan, as the program reports it.
#[derive(Clone, Copy, Debug, PartialEq, Eq, Error)]
pub(crate) enum PlanFailure {
    #[error("usage")]
    Usage,
    #[error("cannot read")]
    Input,
    #[error("world line {0}")]
    World(usize),
    #[error("validity changed {0}")]
    ValidityChanged(Side),
    #[error("marks repeat")]
    MarksRepeat,
    #[error("no memory")]
    NoMemory,
}

impl PlanFailure {
    ghost use Rattle.run_plan.specs.Failures.{status_of};

    /// The program's exit status.
    pub(crate) fn status(self) -> u8
        ensures { result ≡ status_of self }
    {
        match self {
            PlanFailure::Usage | PlanFailure::World(_) => 2,
            _ => 1,
        }
    }
}

impl From<AllocError> for PlanFailure {
    ghost use Rattle.run_plan.specs.declared.failure.PlanFailure.TheVariants.{NoMemory};

    ghost from_gives = { λ _ e. e ≡ NoMemory };

    fn from(_fault: AllocError) -> PlanFailure {
        PlanFailure::NoMemory
    }
}

impl From<WorldFault> for PlanFailure {
    ghost use Rattle.run_plan.specs.Failures.{of_world};

    ghost from_gives = { λ fault e. e ≡ of_world fault };

    fn from(fault: WorldFault) -> PlanFailure {
        match fault {
            WorldFault::Line(line) => PlanFailure::World(line),
            WorldFault::NoMemory => PlanFailure::NoMemory,
        }
    }
}

impl From<PlanFault> for PlanFailure {
    ghost use Rattle.run_plan.specs.Failures.{of_plan};

    ghost from_gives = { λ fault e. e ≡ of_plan fault };

    fn from(fault: PlanFault) -> PlanFailure {
        match fault {
            PlanFault::ValidityChanged(side) => PlanFailure::ValidityChanged(side),
            PlanFault::NoMemory => PlanFailure::NoMemory,
        }
    }
}

impl From<CoreFault> for PlanFailure {
    ghost use Rattle.run_plan.specs.Failures.{of_marks};

    ghost from_gives = { λ fault e. e ≡ of_marks fault };

    fn from(fault: CoreFault) -> PlanFailure {
        match fault {
            CoreFault::MarksRepeat => PlanFailure::MarksRepeat,
            CoreFault::NoMemory => PlanFailure::NoMemory,
        }
    }
}

impl From<io::Error> for PlanFailure {
    ghost use Rattle.run_plan.specs.Failures.{OfInput};

    ghost from_gives = { λ _ e. OfInput e };

    fn from(fault: io::Error) -> PlanFailure {
        match fault.kind() {
            ErrorKind::OutOfMemory => PlanFailure::NoMemory,
            _ => PlanFailure::Input,
        }
    }
}
