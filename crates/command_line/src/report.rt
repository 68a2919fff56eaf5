//! What is printed where words name no request.

ghost use Rattle.std.specs.Prelude.{◌≡◌, ◌⊎◌, true, false};
ghost use Rattle.command_line.specs.Statuses.{is_help, status_of};

use crate::fault::UsageFault;
use clap::error::ErrorKind;
use std::io;
use std::io::Write;

/// Prints why the words name no request, and gives the exit status of the program: help goes to `out`, with status 0. To
/// `err` go, with status 2, `clap`'s text of other words that it does not take, `mbsync: no channel` and
/// `mbsync: sync words`, each with a second line that says what to write, and with status 1 `mbsync: no memory`. The
/// status is 1 too where writing fails.
pub fn report<O: Write, E: Write>(fault: &UsageFault, out: &mut O, err: &mut E) -> u8
    ensures status { (result ≡ status_of fault.now) ⊎ (result ≡ 1) }
    ensures help { is_help fault.now ≡ true → err.new ≡ err.old }
    ensures faults { is_help fault.now ≡ false → out.new ≡ out.old }
{
    let reported = if is_help(fault) {
        print_help(fault, out)
    } else {
        report_fault(fault, err)
    };
    match reported {
        Ok(()) => status_of(fault),
        Err(_) => 1,
    }
}

fn print_help<O: Write>(fault: &UsageFault, out: &mut O) -> io::Result<()> {
    write!(out, "{fault}")?;
    out.flush()
}

fn report_fault<E: Write>(fault: &UsageFault, err: &mut E) -> io::Result<()> {
    match fault {
        UsageFault::Line(error) => write!(err, "{error}")?,
        _ => writeln!(err, "mbsync: {fault}{}", advice(fault))?,
    }
    err.flush()
}

/// What to write instead, each line after a line end.
fn advice(fault: &UsageFault) -> &'static str {
    match fault {
        UsageFault::NoChannel => {
            "\n  name a channel or a group of the configuration, or give -a for all channels"
        }
        UsageFault::SyncWords => {
            "\n  --noop stands alone, and no two words may name the same changes: mbsync -h says what each names"
        }
        UsageFault::Line(_) | UsageFault::NoMemory => "",
    }
}

/// Whether the words ask for help.
fn is_help(fault: &UsageFault) -> bool
    ensures { result ≡ is_help fault.now }
{
    status_of(fault) == 0
}

/// The exit status where everything was printed.
fn status_of(fault: &UsageFault) -> u8
    ensures { result ≡ status_of fault.now }
{
    match fault {
        UsageFault::Line(error) => match error.kind() {
            ErrorKind::DisplayHelp => 0,
            _ => 2,
        },
        UsageFault::NoChannel | UsageFault::SyncWords => 2,
        UsageFault::NoMemory => 1,
    }
}
