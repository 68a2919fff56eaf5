//! Reads a world from standard input and prints its plan.
#![tactic(auto)]

use run_plan::run::{PlanArguments, run_plan};
use std::env::{Env, FillError};
use std::process::ExitCode;

fn main(rt: HostRuntime) -> ExitCode {
    // Argument 0 is the program's name.
    let arguments = match rt.arg(1, &mut []) {
        Err(FillError::NotPresent) => PlanArguments::Absent,
        _ => PlanArguments::Given,
    };
    let (mut input, mut out, mut err) = (rt.stdin(), rt.stdout(), rt.stderr());
    ExitCode::from(run_plan(rt.alloc(), arguments, &mut input, &mut out, &mut err))
}
