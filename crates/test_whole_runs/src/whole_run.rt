//! A whole run over a link, a folder and a shelf.

ghost use Rattle.std.specs.Prelude.{◌≡◌, []};

use crate::near::Devices;
use imap_link::link::Link;
use mail_sides::account::Account;
use mail_sides::far_side::FarSide;
use mail_sides::sides::BothSides;
use mailcore::keywords::Keywords;
use mailcore::side::Side;
use outside::outside::Outside;
use reports::answer::answer_word;
use reports::performed::PerformedLine;
use rules::options;
use rules::options::{Cells, Directions, Options};
use run_trial::attempts::settle_trial;
use runner::fault::RunFault;
use runner::pass::{Pass, Settled};
use runner::performed::Performed;
use std::alloc::{AllocError, Global};
use std::num::NonZeroU32;
use test_scripts::reported::Reported;

/// Everything is propagated, and nothing is expunged. Only the six flags have a name.
fn everything(alloc: Global) -> Options
    ensures { result.keywords ≡ [] }
{
    Options {
        cells: Cells {
            new: BOTH,
            gone: BOTH,
            flags: BOTH,
        },
        expunge: options::Sides {
            far: false,
            near: false,
        },
        keywords: Keywords::new(alloc),
    }
}

const BOTH: Directions = Directions {
    pull: true,
    push: true,
};

/// Makes one run, in one attempt and with the marks of a trial, and adds its answer. Only the six flags have a name. Gives the devices
/// back.
pub(crate) fn settle<L: Link + Drop>(
    alloc: Global,
    far: FarSide<L>,
    devices: Devices,
    reported: &mut Reported,
) -> Devices
    requires { far.far.keywords ≡ [] }
{
    let Devices { folder, shelf } = devices;
    let sides = BothSides { far, folder, shelf };
    // The folder has a meta file, so that this is of no use.
    let fresh = NonZeroU32::MIN;
    let both = sides.together(alloc, fresh, Keywords::new(alloc));
    let options = everything(alloc);
    let (outside, settled) = settle_over(alloc, both, &options);
    print_settled(reported, settled);
    let BothSides { folder, shelf, .. } = BothSides::of(outside);
    Devices { folder, shelf }
}

/// Makes one run over an outside, and gives it back beside what the run came to.
fn settle_over<O: Outside>(
    alloc: Global,
    outside: O,
    options: &Options,
) -> (O, Result<Settled, RunFault>)
    requires { O.keywords outside ≡ options.now.keywords }
{
    let mut outside = outside;
    let settled = settle_trial(alloc, &mut outside, options, 1);
    (outside, settled)
}

/// The INBOX of the user `u` with the password `p`.
pub(crate) fn account(alloc: Global) -> Result<Account, AllocError> {
    let user = Vec::from_slice(alloc, b"u")?;
    let password = Vec::from_slice(alloc, b"p")?;
    Ok(Account::new(user, password, Vec::from_slice(alloc, b"INBOX")?))
}

/// Adds the word of the answer and the steps that were performed, or the fault by its name.
fn print_settled(reported: &mut Reported, settled: Result<Settled, RunFault>) {
    match settled {
        Ok(Settled { last, .. }) => {
            reported.text(answer_word(&last));
            match &last {
                Pass::Already => {}
                Pass::Ran(performed, _) | Pass::Finished(performed) => {
                    print_performed(reported, performed);
                }
            }
        }
        Err(fault) => report_fault(reported, fault),
    }
}

fn print_performed(reported: &mut Reported, performed: &[Performed]) {
    for one in performed {
        reported.text("; ");
        reported.shown(&PerformedLine(one));
    }
}

/// A fault by its name, with its side and its numbers.
fn report_fault(reported: &mut Reported, fault: RunFault) {
    match fault {
        RunFault::Stopped => reported.text("Stopped"),
        RunFault::Refused(step) => print_number(reported, "Refused", step as u64),
        RunFault::ValidityChanged(side) => print_side(reported, "ValidityChanged", side),
        RunFault::BadState(line) => print_number(reported, "BadState", line as u64),
        RunFault::BadJournal(line) => print_number(reported, "BadJournal", line as u64),
        RunFault::StoreFault(side, number) => {
            print_side(reported, "StoreFault", side);
            reported.text(" ");
            reported.number(u64::from(number));
        }
        RunFault::MarksRepeat => reported.text("MarksRepeat"),
        RunFault::NoMemory => reported.text("NoMemory"),
        RunFault::KeywordsChanged => reported.text("KeywordsChanged"),
    }
}

fn print_side(reported: &mut Reported, name: &str, side: Side) {
    reported.text(name);
    reported.text(" ");
    reported.text(side.as_str());
}

fn print_number(reported: &mut Reported, name: &str, number: u64) {
    reported.text(name);
    reported.text(" ");
    reported.number(number);
}
