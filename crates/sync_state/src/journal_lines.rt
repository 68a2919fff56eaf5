//! The lines of a journal: steps, notes, and what logs a step.

ghost use Rattle.std.specs.Prelude.{◌≡◌, ◌≢◌, ◌<◌, ◌^◌, ◌++◌, ◌∷◌, [], ℕ, IfSome, IfNone, MatchBool, decimal};
ghost use Rattle.rules.specs.declared.plan.Step.{Step};
ghost use Rattle.rules.specs.declared.plan.Step.TheVariants as step;
ghost use Rattle.rules.specs.declared.plan.Note.{Note};
ghost use Rattle.mailcore.specs.declared.side.Direction.{Direction};
ghost use Rattle.sync_state.specs.Adding.{Adds};
ghost use Rattle.sync_state.specs.declared.journal.Logged.{Logged};
ghost use Rattle.sync_state.specs.JournalText.{IsStep, IsNote, FitsStep, LogsNew, step_line, note_line, log_line};

use crate::fields::after;
use crate::journal::Logged;
use crate::lines::push_line;
use crate::words::{Minus, Number, Plus};
use mailcore::flags::Flags;
use mailcore::side::{Direction, Side};
use mailcore::tuid::Tuid;
use mailcore::uid::Uid;
use rules::plan::{Note, Step};
use std::alloc::AllocError;

/// A source's UID, its flags and the mark of its copy.
type NewFields = (Direction, (Uid, (Flags, Tuid)));

/// A direction, a far and a near UID.
type PairFields = (Direction, (Uid, Uid));

/// The same, with flags that are set.
type PlusFields = (Direction, (Uid, (Uid, Plus)));

/// The same, with flags that are cleared.
type MinusFields = (Direction, (Uid, (Uid, Minus)));

/// The same, with both.
type BothFields = (Direction, (Uid, (Uid, (Plus, Minus))));

/// Far UID, near UID and flags.
type RecordFields = (Uid, (Uid, Flags));

/// The UIDs of an entry, of which one may have vanished.
type DropFields = (Option<Uid>, Option<Uid>);

/// The step with this line.
pub fn read_step(line: &[u8]) -> Option<Step>
    ensures some { IfSome result (λ step. IsStep step × (line.now ≡ step_line step)) }
    ensures none { IfNone result ((step : Step) → IsStep step → line.now ≢ step_line step) }
{
    if let Some((direction, (uid, (flags, mark)))) = after::<NewFields>(line, b"s new ") {
        return Some(Step::New {
            direction,
            uid,
            flags,
            mark,
        });
    }
    if let Some((direction, (far, near))) = after::<PairFields>(line, b"s gone ") {
        return Some(Step::Gone {
            direction,
            far,
            near,
        });
    }
    if let Some((side, uid)) = after::<(Side, Uid)>(line, b"s expunge ") {
        return Some(Step::Expunge { side, uid });
    }
    read_flags_step(line)
}

/// The step with this line, if it is one that changes flags.
fn read_flags_step(line: &[u8]) -> Option<Step>
    ensures some { IfSome result (λ step. IsStep step × (line.now ≡ step_line step)) }
    ensures none { IfNone result ((direction : Direction) (far near set cleared : ℕ) → IsStep (step.Flags direction far near set cleared)
        → line.now ≢ step_line (step.Flags direction far near set cleared)) }
{
    if let Some((direction, (far, (near, (set, cleared))))) = after::<BothFields>(
        line,
        b"s flags ",
    ) {
        return Some(flags_step(direction, far, near, set.0, cleared.0));
    }
    if let Some((direction, (far, (near, set)))) = after::<PlusFields>(line, b"s flags ") {
        return Some(flags_step(direction, far, near, set.0, Flags::none()));
    }
    if let Some((direction, (far, (near, cleared)))) = after::<MinusFields>(line, b"s flags ") {
        return Some(flags_step(direction, far, near, Flags::none(), cleared.0));
    }
    let (direction, (far, near)) = after::<PairFields>(line, b"s flags ")?;
    Some(flags_step(direction, far, near, Flags::none(), Flags::none()))
}

fn flags_step(direction: Direction, far: Uid, near: Uid, set: Flags, cleared: Flags) -> Step
    ensures { result ≡ step.Flags direction far near set cleared }
{
    Step::Flags {
        direction,
        far,
        near,
        set,
        cleared,
    }
}

/// The note with this line.
pub fn read_note(line: &[u8]) -> Option<Note>
    ensures some { IfSome result (λ note. IsNote note × (line.now ≡ note_line note)) }
    ensures none { IfNone result ((note : Note) → IsNote note → line.now ≢ note_line note) }
{
    if let Some((far, (near, flags))) = after::<RecordFields>(line, b"n record ") {
        return Some(Note::Record { far, near, flags });
    }
    let (far, near) = after::<DropFields>(line, b"n drop ")?;
    Some(Note::Drop { far, near })
}

/// How this line logs the step of this number.
pub fn read_logged(line: &[u8], number: u64, step: &Step) -> Option<Logged>
    ensures some { IfSome result (λ logged. FitsStep step.now logged × (line.now ≡ log_line number logged)) }
    ensures none { IfNone result ((logged : Logged) → FitsStep step.now logged → line.now ≢ log_line number logged) }
{
    match step {
        Step::New { .. } => read_new_logged(line, number),
        Step::Gone { .. } | Step::Flags { .. } | Step::Expunge { .. } => {
            if is_number(line, b"d ", number) {
                Some(Logged::Done)
            } else {
                None
            }
        }
    }
}

/// How this line logs a new message.
fn read_new_logged(line: &[u8], number: u64) -> Option<Logged>
    ensures some { IfSome result (λ logged. LogsNew logged × (line.now ≡ log_line number logged)) }
    ensures none { IfNone result ((logged : Logged) → LogsNew logged → line.now ≢ log_line number logged) }
{
    if is_number(line, b"v ", number) {
        return Some(Logged::Void);
    }
    let (read, uid) = after::<(Number, Uid)>(line, b"d ")?;
    if read.0 == number {
        Some(Logged::Copied(uid))
    } else {
        None
    }
}

fn is_number(line: &[u8], start: &[u8], number: u64) -> bool
    ensures { MatchBool result (line.now ≡ start.now ++ decimal number) (line.now ≢ start.now ++ decimal number) }
{
    match after::<Number>(line, start) {
        Some(read) => read.0 == number,
        None => false,
    }
}

/// Adds the line of a step.
pub(crate) fn push_step(text: &mut Vec<u8>, step: &Step) -> Result<(), AllocError>
    ensures { Adds result text.old.items (step_line step.now ++ 10 ∷ []) text.new.items }
{
    match *step {
        Step::New {
            direction,
            uid,
            flags,
            mark,
        } => push_line(text, b"s new ", (direction, (uid, (flags, mark)))),
        Step::Gone {
            direction,
            far,
            near,
        } => push_line(text, b"s gone ", (direction, (far, near))),
        Step::Flags {
            direction,
            far,
            near,
            set,
            cleared,
        } => push_change(text, (direction, (far, near)), set, cleared),
        Step::Expunge { side, uid } => push_line(text, b"s expunge ", (side, uid)),
    }
}

fn push_change(
    text: &mut Vec<u8>,
    pair: PairFields,
    set: Flags,
    cleared: Flags,
) -> Result<(), AllocError>
    ensures { Adds result text.old.items (step_line (step.Flags pair.0 pair.1.0 pair.1.1 set cleared) ++ 10 ∷ []) text.new.items }
{
    let (direction, (far, near)) = pair;
    match (set.is_empty(), cleared.is_empty()) {
        (true, true) => push_line(text, b"s flags ", (direction, (far, near))),
        (false, true) => push_line(text, b"s flags ", (direction, (far, (near, Plus(set))))),
        (true, false) => push_line(
            text,
            b"s flags ",
            (direction, (far, (near, Minus(cleared)))),
        ),
        (false, false) => {
            let both = (Plus(set), Minus(cleared));
            push_line(text, b"s flags ", (direction, (far, (near, both))))
        }
    }
}

/// Adds the line of a note.
pub(crate) fn push_note(text: &mut Vec<u8>, note: &Note) -> Result<(), AllocError>
    ensures { Adds result text.old.items (note_line note.now ++ 10 ∷ []) text.new.items }
{
    match *note {
        Note::Record { far, near, flags } => push_line(text, b"n record ", (far, (near, flags))),
        Note::Drop { far, near } => push_line(text, b"n drop ", (far, near)),
    }
}

/// Adds the line that logs the step of this number.
///
/// `AllocError`: a growth was refused. What the text was stands at its front, and some of the line may follow.
pub fn push_logged(text: &mut Vec<u8>, number: u64, logged: Logged) -> Result<(), AllocError>
    ensures { Adds result text.old.items (log_line number logged ++ 10 ∷ []) text.new.items }
{
    match logged {
        Logged::Copied(uid) => push_line(text, b"d ", (Number(number), uid)),
        Logged::Done => push_line(text, b"d ", Number(number)),
        Logged::Void => push_line(text, b"v ", Number(number)),
    }
}
