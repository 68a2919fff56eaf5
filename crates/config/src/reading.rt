//! The lines of a configuration, read one after another, and the first faulty one.

ghost use Rattle.std.specs.Prelude.{◌≡◌, ◌<◌, ◌+◌, ℕ, List, [], All, IfErr, IfOk, IfSome, MatchResult, None, OnOk, Some, IsSome, not, is_none, true, ◌&&◌, ◌||◌};
ghost use Rattle.config.specs.Accepted.{IsOneOrMatching};
ghost use Rattle.config.specs.Lines.{IsUpTo};
ghost use Rattle.config.specs.Configurations.{Means, Parts, ended, meaning_of, no_parts, parted, parted_words};
ghost use Rattle.config.specs.Drafts.{HasRequired, standing_of};
ghost use Rattle.config.specs.Meant.{Draws, IsMeant, Knows, Took, TookLine};
ghost use Rattle.config.specs.Views.{view};
ghost use Rattle.config.specs.Outlines.{IsAfterWords, IsOutlined, IsReportedOf, Reports, earlier};
ghost use Rattle.config_words.specs.Places.{closed, is_section};
ghost use Rattle.config.specs.Readings.{IsLine, IsRead};
ghost use Rattle.config.specs.Standing.{Outline, no_lines, outlined, standing_at};

use crate::config::Config;
use crate::draft::Draft;
use crate::first::first_of;
use config_words::fault::{ConfigFault, FaultKind};
use config_words::words::LineKind;
use std::alloc::{AllocError, Global};
use texts::lines::Line;

/// What is known of the lines so far.
#[derive(Drop)]
pub(crate) struct Reading {
    /// What they say.
    pub draft: Draft,
    /// The first line of the section that is open.
    pub begun: Option<usize>,
    /// The first faulty line.
    pub first: Option<ConfigFault>,
}

impl Reading {
    /// Before the first line.
    pub fn new(alloc: Global) -> Self
        ensures read { IsRead 0 result }
        ensures outlined { IsOutlined no_lines result }
        ensures meant { IsMeant no_parts result }
    {
        Reading {
            draft: Draft::new(alloc),
            begun: None,
            first: None,
        }
    }

    /// Reads the next line.
    pub fn read(&mut self, line: Line<'_>) -> Result<(), AllocError>
        requires counted { 0 < line.number }
        requires read { IsRead line.number self.old }
        ensures read { OnOk result (IsRead line.entry.number self.new) }
        ensures outlined { (o : Outline) → IsOutlined o self.old → line.entry.number ≡ o.count + 1 →
            OnOk result (IsOutlined (outlined o line.entry.text.now) self.new) }
        ensures meant { (p : Parts) → Knows p self.old → OnOk result (Knows (parted p line.entry.text.now) self.new) }
        ensures took { (p : Parts) → Knows p self.old → OnOk result (TookLine p line.entry.text.now self.old self.new) }
    {
        match LineKind::of(line.text) {
            LineKind::Empty => self.end_section(),
            LineKind::Comment => Ok(()),
            LineKind::Words(keyword, arguments) => self.read_words(line.number, keyword, arguments),
        }
    }

    /// Reads a line of words.
    fn read_words(
        &mut self,
        number: usize,
        keyword: &[u8],
        arguments: &[u8],
    ) -> Result<(), AllocError>
        requires counted { 0 < number }
        requires read { IsRead number self.old }
        ensures read { OnOk result (IsRead number self.new) }
        ensures outlined { (o : Outline) → IsOutlined o self.old →
            OnOk result (IsAfterWords o (keyword.now, arguments.now) number self.new) }
        ensures meant { (p : Parts) → Knows p self.old → OnOk result (Knows (parted_words (Some (keyword.now, arguments.now)) p) self.new) }
        ensures took { OnOk result (Took (standing_of self.old.draft).at (keyword.now, arguments.now) self.old self.new) }
    {
        self.take_words(number, keyword, arguments)?;
        self.begin(number);
        Ok(())
    }

    /// Notes that a section begins at this line, if one does.
    fn begin(&mut self, line: usize)
        ensures read { (last : ℕ) → IsRead last self.old → IsLine last line → IsRead last self.new }
        ensures first { self.new.first ≡ self.old.first }
        ensures draft { self.new.draft ≡ self.old.draft }
        ensures begun { is_section (standing_of self.new.draft).at ≡ true → IsSome self.new.begun }
    {
        if self.begun.is_none() && self.draft.is_in_section() {
            self.begun = Some(line);
        }
    }

    /// Takes what a line of words says, or its fault.
    fn take_words(
        &mut self,
        number: usize,
        keyword: &[u8],
        arguments: &[u8],
    ) -> Result<(), AllocError>
        requires counted { 0 < number }
        requires read { IsRead number self.old }
        ensures read { OnOk result (IsRead number self.new) }
        ensures outlined { (o : Outline) → IsOutlined o self.old →
            OnOk result (IsAfterWords o (keyword.now, arguments.now) number self.new) }
        ensures meant { (p : Parts) → Knows p self.old → OnOk result (Draws (parted_words (Some (keyword.now, arguments.now)) p) self.new) }
        ensures took { OnOk result (Took (standing_of self.old.draft).at (keyword.now, arguments.now) self.old self.new) }
    {
        match self.draft.read(number, keyword, arguments) {
            Ok(()) => Ok(()),
            Err(kind) => match kind {
                FaultKind::NoMemory => Err(AllocError),
                _ => {
                    self.note(number, kind);
                    Ok(())
                }
            },
        }
    }

    /// Keeps a fault, unless one that was met before is reported before it.
    fn note(&mut self, line: usize, kind: FaultKind)
        ensures read { (last : ℕ) → IsRead last self.old → IsLine last line → IsRead last self.new }
        ensures first { self.new.first ≡ Some (earlier self.old.first (record { line = line; kind = kind })) }
        ensures draft { self.new.draft ≡ self.old.draft }
    {
        self.first = Some(first_of(self.first, ConfigFault { line, kind }));
    }

    /// Ends the section that is open, if one is: at an empty line, and at the end of the text.
    fn end_section(&mut self) -> Result<(), AllocError>
        ensures read { (last : ℕ) → IsRead last self.old → OnOk result (IsRead last self.new) }
        ensures reported { (again : List ConfigFault) → Reports again self.old.first → Reports again self.new.first }
        ensures standing { standing_of self.new.draft ≡ standing_at (closed (standing_of self.old.draft).at) (standing_of self.old.draft) }
        ensures meant { (p : Parts) → Knows p self.old → OnOk result (Knows (ended p) self.new) }
        ensures none { self.new.first ≡ None → self.old.first ≡ None }
        ensures missing { (line : ℕ) → self.old.begun ≡ Some line → ¬ HasRequired self.old.draft
            → OnOk result (self.new.first ≡ Some (earlier self.old.first (record { line = line; kind = FaultKind.KeywordMissing }))) }
    {
        let is_whole = self.draft.is_whole();
        let is_kept = self.draft.end_section()?;
        if let Some(line) = self.begun {
            if self.lacks(is_whole, is_kept) {
                self.note(line, FaultKind::KeywordMissing);
            }
            self.begun = None;
        }
        Ok(())
    }

    /// Whether a section lacks a keyword. One that goes though no line was faulty never passes.
    fn lacks(&self, is_whole: bool, is_kept: bool) -> bool
        ensures { result ≡ (not is_whole || not is_kept && is_none self.now.first) }
    {
        !is_whole || (!is_kept && self.first.is_none())
    }

    /// The configuration after the last line, or the first faulty line.
    pub fn finish(mut self) -> Result<Result<Config, ConfigFault>, AllocError>
        ensures lines { (last : ℕ) → IsRead last self → IfOk result (λ reported. IfErr reported (IsUpTo last)) }
        ensures again { (again : List ConfigFault) → Reports again self.first →
            IfOk result (λ reported. MatchResult reported (λ config. again ≡ []) (IsReportedOf again)) }
        ensures means { (p : Parts) → Knows p self → IfOk result (λ reported. IfOk reported (Means (meaning_of (ended p)))) }
        ensures unmixed { (p : Parts) → Knows p self → IfOk result (λ reported. OnOk reported (All IsOneOrMatching (ended p).ended)) }
        ensures none { IfOk result (λ reported. OnOk reported (self.first ≡ None)) }
    {
        self.end_section()?;
        let mut first = self.first;
        let config = self.draft.into_config(&mut first)?;
        match first {
            Some(fault) => Ok(Err(fault)),
            None => Ok(Ok(config)),
        }
    }
}
