//! How a trial is read from its text (docs/FORMATS.md, "Trial").

ghost use Rattle.std.specs.Prelude.{◌≡◌, ◌+◌, ◌≤◌, ◌<◌, IfErr, IfOk, IfSome, OnOk, codes};
ghost use Rattle.worlds.specs.Lines.{IsOf, IsUpTo};
ghost use Rattle.texts.specs.Lines.{line_count, line_ends};
ghost use Rattle.run_trial.specs.CourseLines.{Adds, AddsJournal, AddsMute, AllSay, SaysStop, said_in};
ghost use Rattle.run_trial.specs.Courses.{HasTries, IsCourse, IsTextOf, LacksLine, LacksStart};
ghost use Rattle.run_trial.specs.Worlds.{IsNamed, world_of};

use crate::act::TrialActs;
use crate::arrival::TrialArrivals;
use crate::count::read_ordinal;
use crate::stop::{DeviceStop, Stops, read_cut, read_stop};
use crate::trial::{Trial, TrialCourse};
use mailcore::keywords::Keywords;
use std::alloc::Global;
use texts::lines::{Line, Lines};
use worlds::fault::WorldFault;
use worlds::line::take_line;
use worlds::read::take_world;
use worlds::read_mailbox::read_bytes;
use worlds::world::Waiting;

/// The trial that a text gives: after its world stands its course. `Line`: after this line no valid trial is possible, or one is, and the
/// text ends too early, and this is the line after its last whole one.
pub fn read_trial(alloc: Global, text: &[u8]) -> Result<Trial, WorldFault>
    ensures text { IfOk result (λ trial. IsTextOf trial text.now) }
    ensures named { IfOk result (λ trial. IsNamed trial.world.options.keywords (world_of trial.world)) }
    ensures fault { IfErr result (IsUpTo (line_ends text.now + 1)) }
{
    let mut lines = Lines::new(text);
    let world = take_world(alloc, Waiting::Kept, &mut lines)?;
    match read_course(alloc, &world.options.keywords, &mut lines) {
        Ok(course) => Ok(Trial { world, course }),
        Err(fault) => Err(fault),
    }
}

/// What the lines after a world's say, up to the end of the text.
fn read_course(
    alloc: Global,
    keywords: &Keywords,
    lines: &mut Lines<'_>,
) -> Result<TrialCourse, WorldFault>
    ensures course { IfOk result (λ course. IsCourse course lines.old.rest.now) }
    ensures fault { IfErr result (IsUpTo (line_count lines.old + 1)) }
{
    let mut course = TrialCourse {
        tries: take_tries(lines)?,
        journal: None,
        stops: Stops::new(alloc),
        mutes: Vec::new(alloc),
        arrivals: TrialArrivals::new(alloc),
        acts: TrialActs::new(alloc),
    };
    match take_course(alloc, keywords, &mut course, lines) {
        Ok(()) => Ok(course),
        Err(fault) => Err(fault),
    }
}

/// The number of the line `tries`: how many attempts a run has.
pub fn take_tries(lines: &mut Lines<'_>) -> Result<u32, WorldFault>
    ensures positive { IfOk result (λ tries. 0 < tries) }
    ensures tries { IfOk result (λ tries. HasTries tries lines.new.rest.now lines.old.rest.now) }
    ensures count { line_count lines.new ≤ line_count lines.old }
    ensures fault { IfErr result (IsUpTo (line_count lines.old + 1)) }
{
    let line = take_line(lines, b"tries ")?;
    match read_ordinal(line.text) {
        // No run meets so many stops.
        Some(tries) => Ok(u32::try_from(tries).unwrap_or(u32::MAX)),
        None => Err(WorldFault::of(line)),
    }
}

/// Adds what the next lines say, which are the last ones.
fn take_course(
    alloc: Global,
    keywords: &Keywords,
    course: &mut TrialCourse,
    lines: &mut Lines<'_>,
) -> Result<(), WorldFault>
    ensures tries { course.new.tries ≡ course.old.tries }
    ensures journal { OnOk result (LacksLine (codes "journal ") lines.old.rest.now → course.new.journal ≡ course.old.journal) }
    ensures arrivals { OnOk result (LacksLine (codes "arrive ") lines.old.rest.now → course.new.arrivals ≡ course.old.arrivals) }
    ensures acts { OnOk result (LacksLine (codes "flag ") lines.old.rest.now → LacksLine (codes "remove ") lines.old.rest.now
        → course.new.acts ≡ course.old.acts) }
    ensures lines { OnOk result (AllSay lines.old.rest.now (said_in course.old) (said_in course.new)) }
    ensures fault { IfErr result (IsUpTo (line_count lines.old + 1)) }
{
    while let Some(line) = lines.take_if(b"") {
        add_line(alloc, keywords, course, line)?;
    }
    if lines.rest.is_empty() {
        Ok(())
    } else {
        Err(WorldFault::of_next(lines))
    }
}

/// Adds what a line says: the journal, what others add, an APPEND without APPENDUID, what other clients do, or a stop.
fn add_line(
    alloc: Global,
    keywords: &Keywords,
    course: &mut TrialCourse,
    line: Line<'_>,
) -> Result<(), WorldFault>
    ensures fault { IfErr result (IsOf line.entry.number) }
    ensures tries { course.new.tries ≡ course.old.tries }
    ensures journal { LacksStart (codes "journal ") line.entry.text.now → course.new.journal ≡ course.old.journal }
    ensures arrivals { LacksStart (codes "arrive ") line.entry.text.now → course.new.arrivals ≡ course.old.arrivals }
    ensures acts { LacksStart (codes "flag ") line.entry.text.now → LacksStart (codes "remove ") line.entry.text.now
        → course.new.acts ≡ course.old.acts }
    ensures adds { OnOk result (Adds line.entry.text.now (said_in course.old) (said_in course.new)) }
{
    if let Some(text) = line.text.strip_prefix(b"journal ") {
        return add_journal(alloc, course, text, line);
    }
    if let Some(text) = line.text.strip_prefix(b"arrive ") {
        return course.arrivals.add(alloc, text, keywords, line);
    }
    if let Some(text) = line.text.strip_prefix(b"mute ") {
        return add_mute(course, text, line);
    }
    if let Some(text) = line.text.strip_prefix(b"flag ") {
        return course.acts.add_flags(text, keywords, line);
    }
    if let Some(text) = line.text.strip_prefix(b"remove ") {
        return course.acts.add_removal(text, line);
    }
    match stop_of(line.text) {
        Some(stop) => Ok(course.stops.push(stop)?),
        None => Err(WorldFault::of(line)),
    }
}

/// Adds the journal. A trial has one at most.
fn add_journal(
    alloc: Global,
    course: &mut TrialCourse,
    text: &[u8],
    line: Line<'_>,
) -> Result<(), WorldFault>
    ensures fault { IfErr result (IsOf line.entry.number) }
    ensures tries { course.new.tries ≡ course.old.tries }
    ensures arrivals { course.new.arrivals ≡ course.old.arrivals }
    ensures acts { course.new.acts ≡ course.old.acts }
    ensures adds { OnOk result (AddsJournal text.now (said_in course.old) (said_in course.new)) }
{
    if course.journal.is_some() {
        return Err(WorldFault::of(line));
    }
    course.journal = Some(read_bytes(alloc, text, line)?);
    Ok(())
}

/// Adds the number of an APPEND whose reply comes without APPENDUID.
fn add_mute(course: &mut TrialCourse, text: &[u8], line: Line<'_>) -> Result<(), WorldFault>
    ensures fault { IfErr result (IsOf line.entry.number) }
    ensures tries { course.new.tries ≡ course.old.tries }
    ensures journal { course.new.journal ≡ course.old.journal }
    ensures arrivals { course.new.arrivals ≡ course.old.arrivals }
    ensures acts { course.new.acts ≡ course.old.acts }
    ensures adds { OnOk result (AddsMute text.now (said_in course.old) (said_in course.new)) }
{
    match read_ordinal(text) {
        Some(number) => Ok(course.mutes.push(number)?),
        None => Err(WorldFault::of(line)),
    }
}

/// The stop that a line says.
fn stop_of(text: &[u8]) -> Option<DeviceStop>
    ensures { IfSome result (λ stop. SaysStop stop text.now) }
{
    if let Some(text) = text.strip_prefix(b"stop ") {
        return read_stop(text);
    }
    read_cut(text.strip_prefix(b"cut ")?)
}
