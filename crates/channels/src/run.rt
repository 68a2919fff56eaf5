//! What a command line asks for, over any stores.

ghost use Rattle.std.specs.Prelude.{◌≡◌, ◌≤◌, ◌<◌, true, false, IsSome, IfOk, OnOk};
ghost use Rattle.channels.specs.Chosen.{unknown_among};
ghost use Rattle.channels.specs.declared.verdict.Verdict.TheVariants.{Clean};
ghost use Rattle.channels.specs.Asks.{GoesAll, GoesAt, GoesOver, GoesThrough, ways_of};
ghost use Rattle.channels.specs.Courses.{Goes, GoesAsFar, GoesUntil, IsLineAsked, IsPlaceAsked, SoFar};
ghost use Rattle.channels.specs.Refusals.{IsRefused};
ghost use Rattle.channels.specs.Runs.{RunsAt, RunsOnly, RunsOver, RunsThrough};
ghost use Rattle.channels.specs.Settlings.{SettlesAll, SettlesAt, SettlesOver, SettlesThrough};
ghost use Rattle.channels.specs.Streams.{Extends, HasNotices, IsQuiet, Notes};

use crate::channel_box::ChannelStores;
use crate::course::{Course, course_of};
use crate::listing::list_channel;
use crate::run_stores::RunStores;
use crate::scope::options_of;
use crate::settling::{ChannelWork, settle_channel};
use crate::store_fault::ListFault;
use crate::stores::Stores;
use crate::verdict::Verdict;
use config::config::Config;
use config::request::RunRequest;
use rand_core::Rng;
use rules::options::Cells;
use std::alloc::{AllocError, Global};
use std::io;
use std::io::Write;

/// A command line and its configuration.
#[derive(Clone, Copy)]
struct LineWork<'a> {
    alloc: Global,
    config: &'a Config,
    request: &'a RunRequest,
}

/// Does what a command line asks for: lists the mailboxes of the channels that it names, or synchronises them one after another, and prints
/// to `out` what it does (docs/FORMATS.md, "Lines of `mbsync`"). Faults are reported on `err`, and the next mailbox follows. It gives the
/// exit status: 0 where no fault was reported, else 1; notices leave it as it is. After a failed write nothing more is done, and the status
/// is 1.
///
/// Status 2: a name is neither a channel nor a group, or the words of Sync are refused; then no store was opened.
pub fn run_config<S: Stores, R: Rng, O: Write, E: Write>(
    alloc: Global,
    config: &Config,
    request: &RunRequest,
    stores: &mut S,
    rng: &mut R,
    out: &mut O,
    err: &mut E,
) -> u8
    ensures status { result ≤ 2 }
    ensures clean { result ≡ 0 → HasNotices (E.contents err.old) (E.contents err.new) }
    ensures whole { result ≡ 0 → Extends (O.contents out.old) (O.contents out.new) }
    ensures asks { result ≡ 0 → GoesAll S.noted config.now request.now (S.asked stores.old) (S.asked stores.new) }
    ensures asked { GoesAsFar S.noted config.now request.now result (E.contents err.old) (E.contents err.new)
        (S.asked stores.old) (S.asked stores.new) }
    ensures usage { result ≡ 2 → IsRefused config.now request.now }
    ensures refused { IsRefused config.now request.now → (0 < result) × (stores.new ≡ stores.old) × (rng.new ≡ rng.old) × (out.new ≡ out.old) }
    ensures settled { result ≡ 0 → request.now.lists ≡ false
        → SettlesAll S.BoxLists R.stream config.now request.now stores.old stores.new }
    ensures runs { RunsOnly S.BoxLists R.stream config.now request.now stores.old stores.new }
{
    let work = LineWork {
        alloc,
        config,
        request,
    };
    match course_of(alloc, config, request) {
        Ok(course) => run_reported(work, &course, &mut RunStores::new(stores, out, err), rng),
        Err(refusal) => match writeln!(err, "mbsync: {refusal}{}", refusal.advice()) {
            Ok(()) => refusal.status(),
            Err(_) => 1,
        },
    }
}

/// Lists or synchronises the mailboxes of these channels, and gives the exit status. Where a write failed, nothing was asked of the stores
/// after it (`RunStores`), and the status is 1.
fn run_reported<S: Stores, R: Rng, O: Write, E: Write>(
    work: LineWork<'_>,
    course: &Course,
    stores: &mut RunStores<'_, S, O, E>,
    rng: &mut R,
) -> u8
    requires going { stores.old.write_failed ≡ false }
    ensures out { stores.new.out.ghost_name ≡ stores.old.out.ghost_name }
    ensures err { stores.new.err.ghost_name ≡ stores.old.err.ghost_name }
    ensures status { result ≤ 1 }
    ensures clean { result ≡ 0 → HasNotices (E.contents stores.old.err.now) (E.contents stores.new.err.now) }
    ensures whole { result ≡ 0 → Extends (O.contents stores.old.out.now) (O.contents stores.new.out.now) }
    ensures unwritten { stores.new.write_failed ≡ true → result ≡ 1 }
    ensures stores { stores.new.stores.ghost_name ≡ stores.old.stores.ghost_name }
    ensures asks { result ≡ 0 → GoesThrough S.noted work.entry.config.now (ways_of work.entry.request.now course.now.cells)
        course.now.places.items (S.asked stores.old.stores.now) (S.asked stores.new.stores.now) }
    ensures asked { GoesUntil S.noted stores.new.write_failed (IsLineAsked work.entry.config.now (ways_of work.entry.request.now course.now.cells)
        course.now.places.items) result (S.asked stores.old.stores.now) (S.asked stores.new.stores.now) }
    ensures settled { result ≡ 0 → work.entry.request.now.lists ≡ false → SettlesThrough S.BoxLists R.stream work.entry.config.now
        (ways_of work.entry.request.now course.now.cells) course.now.places.items stores.old.stores.now stores.new.stores.now }
    ensures runs { RunsThrough S.BoxLists R.stream work.entry.config.now (ways_of work.entry.request.now course.now.cells) course.now.places.items
        stores.old.stores.now stores.new.stores.now }
{
    match run_course(work, course, stores, rng) {
        Ok(verdict) => {
            stores.end();
            verdict.status()
        }
        Err(_) => 1,
    }
}

/// Lists or synchronises the mailboxes of these channels, one channel after another.
#[tactic(auto, using(crate::proofs::StreamLemmas::stream_steps, crate::proofs::StreamLemmas::quiet_steps))]
fn run_course<S: Stores, R: Rng, O: Write, E: Write>(
    work: LineWork<'_>,
    course: &Course,
    stores: &mut RunStores<'_, S, O, E>,
    rng: &mut R,
) -> io::Result<Verdict>
    requires going { stores.old.write_failed ≡ false }
    ensures out { stores.new.out.ghost_name ≡ stores.old.out.ghost_name }
    ensures err { stores.new.err.ghost_name ≡ stores.old.err.ghost_name }
    ensures quiet { IfOk result (IsQuiet (E.contents stores.old.err.now) (E.contents stores.new.err.now)) }
    ensures whole { OnOk result (Extends (O.contents stores.old.out.now) (O.contents stores.new.out.now)) }
    ensures failed { Notes false stores.new.write_failed result }
    ensures stores { stores.new.stores.ghost_name ≡ stores.old.stores.ghost_name }
    ensures asks { IfOk result (λ verdict. verdict ≡ Clean
        → GoesOver S.noted work.entry.config.now (ways_of work.entry.request.now course.now.cells) course.now.places.items
        (S.asked stores.old.stores.now) (S.asked stores.new.stores.now)) }
    ensures asked { Goes S.noted (S.asked stores.old.stores.now) (S.asked stores.new.stores.now)
        (SoFar result (IsLineAsked work.entry.config.now (ways_of work.entry.request.now course.now.cells) course.now.places.items)) }
    ensures settled { work.entry.request.now.lists ≡ false → IfOk result (λ verdict. verdict ≡ Clean
        → SettlesOver S.BoxLists R.stream work.entry.config.now (ways_of work.entry.request.now course.now.cells) course.now.places.items
        stores.old.stores.now stores.new.stores.now) }
    ensures runs { RunsOver S.BoxLists R.stream work.entry.config.now (ways_of work.entry.request.now course.now.cells) course.now.places.items
        stores.old.stores.now stores.new.stores.now }
{
    let mut verdict = Verdict::Clean;
    for place in &course.places {
        verdict = verdict.and(run_place(work, course.cells, *place, stores, rng)?);
    }
    Ok(verdict)
}

/// Lists or synchronises the mailboxes of the channel of this place. Where memory for the options of its runs is wanting, that is reported,
/// and nothing is asked of its stores.
fn run_place<S: Stores, R: Rng, O: Write, E: Write>(
    work: LineWork<'_>,
    cells: Option<Cells>,
    place: usize,
    stores: &mut RunStores<'_, S, O, E>,
    rng: &mut R,
) -> io::Result<Verdict>
    requires going { stores.old.write_failed ≡ false }
    ensures out { stores.new.out.ghost_name ≡ stores.old.out.ghost_name }
    ensures err { stores.new.err.ghost_name ≡ stores.old.err.ghost_name }
    ensures quiet { IfOk result (IsQuiet (E.contents stores.old.err.now) (E.contents stores.new.err.now)) }
    ensures whole { OnOk result (Extends (O.contents stores.old.out.now) (O.contents stores.new.out.now)) }
    ensures failed { Notes false stores.new.write_failed result }
    ensures stores { stores.new.stores.ghost_name ≡ stores.old.stores.ghost_name }
    ensures asks { IfOk result (λ verdict. verdict ≡ Clean
        → GoesAt S.noted work.entry.config.now (ways_of work.entry.request.now cells) place
        (S.asked stores.old.stores.now) (S.asked stores.new.stores.now)) }
    ensures asked { Goes S.noted (S.asked stores.old.stores.now) (S.asked stores.new.stores.now)
        (SoFar result (IsPlaceAsked work.entry.config.now (ways_of work.entry.request.now cells) place)) }
    ensures settled { work.entry.request.now.lists ≡ false → IfOk result (λ verdict. verdict ≡ Clean
        → SettlesAt S.BoxLists R.stream work.entry.config.now (ways_of work.entry.request.now cells) place stores.old.stores.now
        stores.new.stores.now) }
    ensures runs { RunsAt S.BoxLists R.stream work.entry.config.now (ways_of work.entry.request.now cells) place stores.old.stores.now
        stores.new.stores.now }
{
    let Some(of) = ChannelStores::at(work.config, place) else {
        return stores.print_no_channel();
    };
    if work.request.lists {
        return list_channel(work.alloc, of, stores);
    }
    match options_of(work.alloc, of.channel, cells, work.request.expunges) {
        Ok(options) => {
            let channel_work = ChannelWork {
                alloc: work.alloc,
                of,
                options: &options,
            };
            settle_channel(channel_work, stores, rng)
        }
        Err(AllocError) => stores.print_list(&ListFault::NoMemory),
    }
}
