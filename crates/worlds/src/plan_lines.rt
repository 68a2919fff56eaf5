//! The lines of a plan as they are printed: a step that a run performs, a note that it records, and a message that cannot be copied
//! (docs/FORMATS.md, "Plan lines"). `mbplan` prints the lines of a whole plan, and `mbsync` those of the steps that it performs.

ghost use Rattle.std.specs.Prelude.{◌≡◌, ◌++◌, decimal, length};
ghost use Rattle.std.specs.Fmt.{WritesOnOk};
ghost use Rattle.mailcore.specs.FlagNames.{letters_of};
ghost use Rattle.mailcore.specs.Words.{flags_word};
ghost use Rattle.worlds.specs.PlanLines.{change_text, line_start, number_text};

use itoa::Buffer;
use mailcore::flags::Flags;
use mailcore::side::{Direction, Side};
use mailcore::uid::Uid;
use rules::plan::{Note, Step};
use std::fmt;

/// A step as a line without its end. A plan has one for each step: written part by part, and its numbers by `itoa`, it takes
/// a fifth less than by `write!`.
#[derive(Clone, Copy)]
pub struct StepLine<'a>(pub &'a Step);

impl fmt::Display for StepLine<'_> {
    ghost use Rattle.std.specs.Prelude.{Some};
    ghost use Rattle.worlds.specs.PlanLines.{step_line};

    ghost output = { λ line. Some (step_line line.0.now) };

    fn fmt<W: fmt::Write>(&self, f: &mut fmt::Formatter<W>) -> fmt::Result {
        f.write_str(line_start(self.0))?;
        match *self.0 {
            Step::New { uid, .. } => write_number(f, uid.get()),
            Step::Gone { far, near, .. } => write_pair(f, far.get(), near.get()),
            Step::Flags {
                far,
                near,
                set,
                cleared,
                ..
            } => {
                write_pair(f, far.get(), near.get())?;
                write_change(f, " +", set)?;
                write_change(f, " -", cleared)
            }
            Step::Expunge { uid, .. } => write_number(f, uid.get()),
        }
    }
}

/// How the line of a step begins: what precedes its first number, as one text, since a plan has many lines.
fn line_start(step: &Step) -> &'static str
    ensures { result.now ≡ line_start step.now }
{
    match *step {
        Step::New {
            direction: Direction::Pull,
            ..
        } => "new pull ",
        Step::New {
            direction: Direction::Push,
            ..
        } => "new push ",
        Step::Gone {
            direction: Direction::Pull,
            ..
        } => "gone pull ",
        Step::Gone {
            direction: Direction::Push,
            ..
        } => "gone push ",
        Step::Flags {
            direction: Direction::Pull,
            ..
        } => "flags pull ",
        Step::Flags {
            direction: Direction::Push,
            ..
        } => "flags push ",
        Step::Expunge {
            side: Side::Far,
            ..
        } => "expunge far ",
        Step::Expunge {
            side: Side::Near,
            ..
        } => "expunge near ",
    }
}

/// A note as a line without its end.
#[derive(Clone, Copy)]
pub struct NoteLine<'a>(pub &'a Note);

impl fmt::Display for NoteLine<'_> {
    ghost use Rattle.std.specs.Prelude.{Some};
    ghost use Rattle.worlds.specs.PlanLines.{note_line};

    ghost output = { λ line. Some (note_line line.0.now) };

    fn fmt<W: fmt::Write>(&self, f: &mut fmt::Formatter<W>) -> fmt::Result {
        match *self.0 {
            Note::Record { far, near, flags } => {
                f.write_str("record ")?;
                write_pair(f, far.get(), near.get())?;
                f.write_str(" ")?;
                write_flags(f, flags)
            }
            Note::Drop { far, near } => {
                let far = far.map_or(0, |uid| uid.get());
                let near = near.map_or(0, |uid| uid.get());
                f.write_str("drop ")?;
                write_pair(f, far, near)
            }
        }
    }
}

/// A message that cannot be copied, as a line without its end.
#[derive(Clone, Copy)]
pub struct UnfitLine(pub Side, pub Uid);

impl fmt::Display for UnfitLine {
    ghost use Rattle.std.specs.Prelude.{Some};
    ghost use Rattle.worlds.specs.PlanLines.{unfit_line};

    ghost output = { λ line. Some (unfit_line line.0 line.1) };

    fn fmt<W: fmt::Write>(&self, f: &mut fmt::Formatter<W>) -> fmt::Result {
        f.write_str("unfit ")?;
        f.write_str(self.0.as_str())?;
        f.write_str(" ")?;
        write_number(f, self.1.get())
    }
}

/// Flags as a word: their letters, or `-` for none.
#[derive(Clone, Copy)]
pub struct FlagsWord(pub Flags);

impl fmt::Display for FlagsWord {
    ghost use Rattle.std.specs.Prelude.{Some};
    ghost use Rattle.mailcore.specs.Words.{flags_word};

    ghost output = { λ word. Some (flags_word word.0) };

    fn fmt<W: fmt::Write>(&self, f: &mut fmt::Formatter<W>) -> fmt::Result {
        write_flags(f, self.0)
    }
}

fn write_flags<W: fmt::Write>(f: &mut fmt::Formatter<W>, flags: Flags) -> fmt::Result
    ensures { WritesOnOk W.write_str_gives f.old result (flags_word flags) f.new }
{
    if flags.is_empty() {
        return f.write_str("-");
    }
    write_letters(f, flags)
}

/// Flags that are set or cleared, after the sign that says which, or nothing if there are none.
fn write_change<W: fmt::Write>(f: &mut fmt::Formatter<W>, sign: &str, flags: Flags) -> fmt::Result
    ensures { WritesOnOk W.write_str_gives f.old result (change_text sign.now flags) f.new }
{
    if flags.is_empty() {
        return Ok(());
    }
    f.write_str(sign)?;
    write_letters(f, flags)
}

/// The numbers of a far and a near message, with a space between.
fn write_pair<W: fmt::Write>(f: &mut fmt::Formatter<W>, far: u32, near: u32) -> fmt::Result
    ensures { WritesOnOk W.write_str_gives f.old result (decimal far ++ number_text near) f.new }
{
    write_number(f, far)?;
    f.write_str(" ")?;
    write_number(f, near)
}

fn write_number<W: fmt::Write>(f: &mut fmt::Formatter<W>, number: u32) -> fmt::Result
    ensures { WritesOnOk W.write_str_gives f.old result (decimal number) f.new }
{
    f.write_str(Buffer::new().format(number))
}

fn write_letters<W: fmt::Write>(f: &mut fmt::Formatter<W>, flags: Flags) -> fmt::Result
    ensures { WritesOnOk W.write_str_gives f.old result (letters_of flags) f.new }
{
    // After the last one no other is sought: that would take longer than all before.
    let mut left = letter_count(flags);
    for letter in flags.letters() {
        f.write_char(char::from(letter))?;
        left -= 1;
        if left == 0 {
            break;
        }
    }
    Ok(())
}

/// How many letters flags have.
fn letter_count(flags: Flags) -> u32
    ensures { result ≡ length (letters_of flags) }
{
    flags.bits().count_ones()
}
