//! Lists of flags in brackets (RFC 9051, section 9: flag-list, flag-perm, mbx-list-flags).

ghost use Rattle.std.specs.Prelude.{◌≡◌, [], ◌∷◌, ◌++◌, length, take, IfOk, OnOk, OnErr};
ghost use Rattle.mailcore.specs.KeywordNames.{named_set, names_of as names_of_set};
ghost use Rattle.wire_reader.specs.Given.{Gives};
ghost use Rattle.wire_tokens.specs.Names.{has_name};
ghost use Rattle.wire_tokens.specs.FlagLists.{FlagsText, PermanentFlagsText, IsListed, listed, bracketed_at, flags_at, permanent_flags_at};
ghost use Rattle.wire_tokens.specs.Writing.{Appended};

use crate::flag_text::spaced_names;
use crate::spaced::{NameKind, has_name, read_spaced};
use mailcore::flags::Flags;
use mailcore::keywords::Keywords;
use std::alloc::{AllocError, Global};
use std::marker::Model;
use wire_reader::punctuation::byte;
use wire_reader::stop::Stop;

/// Flags, lent, as a line names them: those of a message, of a mailbox, or of a mailbox in a LIST reply. Clauses see the list of their
/// names.
#[derive(Drop)]
pub struct FlagNames<'a> {
    text: &'a [u8],
}

impl<'a> Model for FlagNames<'a> {
    ghost use Rattle.std.specs.Prelude.{ℕ, List};
    ghost use Rattle.wire_tokens.specs.declared.spaced.NameKind.TheVariants.{Flag};
    ghost use Rattle.wire_tokens.specs.FlagLists.{IsListed, listed};

    ghost Value = { List (List ℕ) };

    ghost view = { λ f. listed f.text.now };

    ghost invariant = { λ f. IsListed Flag f.text.now };
}

impl<'a> FlagNames<'a> {
    /// No flag.
    pub fn none() -> FlagNames<'static>
        ensures { result ≡ [] }
    {
        FlagNames { text: &[] }
    }

    /// Whether a flag has this name, without case.
    pub fn contains(&self, name: &[u8]) -> bool
        ensures { result ≡ has_name name.now self.now }
    {
        has_listed(self.text, name)
    }

    /// The flags that have these names, one of the six or a keyword of the map; a name that no flag has is skipped.
    pub fn named(&self, keywords: &Keywords) -> Flags
        ensures { result ≡ named_set keywords.now self.now }
    {
        named_set(self.text, keywords)
    }

    /// The same as flags that may be changed.
    pub fn permanent(&self) -> PermanentFlags<'a>
        ensures { result ≡ self.now }
    {
        PermanentFlags { text: self.text }
    }

    /// Writes them at the end, with their brackets.
    ///
    /// `AllocError`: memory ran out, and nothing is written.
    pub fn write(&self, out: &mut Vec<u8>) -> Result<(), AllocError>
        ensures ok { OnOk result (Appended (FlagsText self.now) out.old.items out.new.items) }
        ensures err { OnErr result (out.new.items ≡ out.old.items) }
    {
        append_whole(self.text, out)
    }
}

/// The same, owned; clauses see the list of the names.
#[derive(Drop)]
pub struct FlagList {
    text: Vec<u8>,
}

impl Model for FlagList {
    ghost use Rattle.std.specs.Prelude.{ℕ, List};
    ghost use Rattle.wire_tokens.specs.declared.spaced.NameKind.TheVariants.{Flag};
    ghost use Rattle.wire_tokens.specs.FlagLists.{IsListed, listed};

    ghost Value = { List (List ℕ) };

    ghost view = { λ f. listed f.text.items };

    ghost invariant = { λ f. IsListed Flag f.text.items };
}

impl FlagList {
    /// The names of the flags of a set, by a map: those of the six, and then those of keywords. A flag without a name is left out.
    ///
    /// An error means that memory ran out.
    pub fn of(alloc: Global, flags: Flags, keywords: &Keywords) -> Result<FlagList, AllocError>
        ensures { IfOk result (λ list. list ≡ names_of_set keywords.now flags) }
    {
        let text = spaced_names(alloc, flags, keywords)?;
        Ok(FlagList { text })
    }

    /// A copy of these flags.
    ///
    /// An error means that memory ran out.
    pub fn copy_of(alloc: Global, flags: &FlagNames<'_>) -> Result<FlagList, AllocError>
        ensures { IfOk result (λ list. list ≡ flags.now) }
    {
        let text = Vec::from_slice(alloc, flags.text)?;
        Ok(FlagList { text })
    }

    /// The flags, lent.
    pub fn names(&self) -> FlagNames<'_>
        ensures { result ≡ self.now }
    {
        FlagNames { text: &self.text }
    }

    /// Writes them at the end, with their brackets.
    ///
    /// `AllocError`: memory ran out, and nothing is written.
    pub fn write(&self, out: &mut Vec<u8>) -> Result<(), AllocError>
        ensures ok { OnOk result (Appended (FlagsText self.now) out.old.items out.new.items) }
        ensures err { OnErr result (out.new.items ≡ out.old.items) }
    {
        append_whole(&self.text, out)
    }
}

/// Flags of a mailbox that may be changed, lent, and `\*` where others may be made; clauses see the list of the names.
#[derive(Drop)]
pub struct PermanentFlags<'a> {
    text: &'a [u8],
}

impl<'a> Model for PermanentFlags<'a> {
    ghost use Rattle.std.specs.Prelude.{ℕ, List};
    ghost use Rattle.wire_tokens.specs.declared.spaced.NameKind.TheVariants.{PermanentFlag};
    ghost use Rattle.wire_tokens.specs.FlagLists.{IsListed, listed};

    ghost Value = { List (List ℕ) };

    ghost view = { λ f. listed f.text.now };

    ghost invariant = { λ f. IsListed PermanentFlag f.text.now };
}

impl<'a> PermanentFlags<'a> {
    /// Whether this name stands among them, without case.
    pub fn contains(&self, name: &[u8]) -> bool
        ensures { result ≡ has_name name.now self.now }
    {
        has_listed(self.text, name)
    }

    /// The flags that have these names, one of the six or a keyword of the map; a name that no flag has is skipped.
    pub fn named(&self, keywords: &Keywords) -> Flags
        ensures { result ≡ named_set keywords.now self.now }
    {
        named_set(self.text, keywords)
    }

    /// Writes them at the end, with their brackets.
    ///
    /// `AllocError`: memory ran out, and nothing is written.
    pub fn write(&self, out: &mut Vec<u8>) -> Result<(), AllocError>
        ensures ok { OnOk result (Appended (PermanentFlagsText self.now) out.old.items out.new.items) }
        ensures err { OnErr result (out.new.items ≡ out.old.items) }
    {
        append_whole(self.text, out)
    }
}

/// Writes a text in brackets, all of it or nothing.
fn append_whole(text: &[u8], out: &mut Vec<u8>) -> Result<(), AllocError>
    ensures ok { OnOk result (out.new.items ≡ out.old.items ++ 40 ∷ text.now ++ 41 ∷ []) }
    ensures err { OnErr result (out.new.items ≡ out.old.items) }
{
    let len = out.len();
    let written = append_bracketed(text, out);
    if written.is_err() {
        out.truncate(len);
    }
    written
}

/// Writes a text in brackets; where memory runs out, a part of it may stand at the end.
fn append_bracketed(text: &[u8], out: &mut Vec<u8>) -> Result<(), AllocError>
    ensures ok { OnOk result (out.new.items ≡ out.old.items ++ 40 ∷ text.now ++ 41 ∷ []) }
    ensures kept { OnErr result (take (length out.old.items) out.new.items ≡ out.old.items) }
{
    out.extend_from_slice(b"(")?;
    out.extend_from_slice(text)?;
    out.extend_from_slice(b")")?;
    Ok(())
}

/// Reads a list of flags, with its brackets; gives them and the bytes after it.
pub fn read_flags(bytes: &[u8]) -> Result<(FlagNames<'_>, &[u8]), Stop>
    ensures { Gives (λ r. (r.0, r.1.now)) result (flags_at bytes.now) }
{
    let (text, rest) = read_bracketed(NameKind::Flag, bytes)?;
    Ok((FlagNames { text }, rest))
}

/// Reads a list of flags and `\*`, with its brackets; gives them and the bytes after it.
pub fn read_permanent_flags(bytes: &[u8]) -> Result<(PermanentFlags<'_>, &[u8]), Stop>
    ensures { Gives (λ r. (r.0, r.1.now)) result (permanent_flags_at bytes.now) }
{
    let (text, rest) = read_bracketed(NameKind::PermanentFlag, bytes)?;
    Ok((PermanentFlags { text }, rest))
}

/// Reads a list of names in brackets, which may be empty; gives the text between them, and the bytes after it.
fn read_bracketed(kind: NameKind, bytes: &[u8]) -> Result<(&[u8], &[u8]), Stop>
    ensures gives { Gives (λ r. (listed r.0.now, r.1.now)) result (bracketed_at kind bytes.now) }
    ensures listed { IfOk result (λ r. IsListed kind r.0.now) }
{
    let rest = byte(b'(', bytes)?;
    match rest {
        [] => Err(Stop::Ends(None)),
        [b')', after @ ..] => Ok((&[], after)),
        _ => {
            let (text, rest) = read_spaced(kind, rest)?;
            let rest = byte(b')', rest)?;
            Ok((text, rest))
        }
    }
}

/// Whether one of the names is this one, without case.
fn has_listed(text: &[u8], name: &[u8]) -> bool
    ensures { result ≡ has_name name.now (listed text.now) }
{
    !text.is_empty() && has_name(text, name)
}

/// The flags that have these names.
fn named_set(text: &[u8], keywords: &Keywords) -> Flags
    ensures { result ≡ named_set keywords.now (listed text.now) }
{
    if text.is_empty() {
        return Flags::none();
    }
    text.split(|b| *b == b' ').fold(
        Flags::none(),
        |set, name| set.union(Flags::from_imap(name, keywords)),
    )
}
