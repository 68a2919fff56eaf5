//! A configuration while it is read: what its lines say, whatever their numbers.

ghost use Rattle.std.specs.Prelude.{◌≡◌, ◌↔◌, ℕ, List, IfOk, IfSome, IsTrue, OnOk, None, Some, false, true, map, string_bytes};
ghost use Rattle.config.specs.Accepted.{IsAccepted, IsClear};
ghost use Rattle.config.specs.Drafts.{HasRequired, IsMet, IsMisplaced, IsTaken, entered, entered_again, given, standing_of, unless_misplaced};
ghost use Rattle.config.specs.Lines.{IsUpTo};
ghost use Rattle.config.specs.Outlines.{Reports};
ghost use Rattle.config.specs.Readings.{HasLines, IsLine, NamesLines, SectionLines};
ghost use Rattle.config.specs.Sections.{IsTitled, keyword_in, line_said};
ghost use Rattle.config.specs.Views.{IsUnmixed, Shows, is_mixed, begun_view, ended_view, first_view, titled_view, imap_place, maildir_place, put_view, set_in_section, sketch, view, view_said, view_with};
ghost use Rattle.config_words.specs.Keywords.{fits_at, section_of};
ghost use Rattle.config_words.specs.Meanings.{ChannelsAre, FarIs, NearIs, said, said_of};
ghost use Rattle.config_words.specs.Words.{Split, arguments_of, is_plain};
ghost use Rattle.config_words.specs.Places.{closed, is_section, opened};
ghost use Rattle.config_words.specs.Settings.{name_said};
ghost use Rattle.config.specs.Standing.{before_all, after_words, keyword_again, with_keyword_at, keyword_from, name_again, named, standing_at, words_again};

use crate::config::Config;
use crate::group::{NamedGroup, place_groups};
use crate::names::claim;
use crate::section::{Manner, Section};
use config_words::fault::{ConfigFault, FaultKind};
use config_words::keyword::{FirstWord, LinePlace};
use config_words::setting::{BoxPlace, Setting};
use config_words::words::{Arguments, is_plain};
use std::alloc::{AllocError, Global};
use std::mem;

/// What the lines so far say. A faulty line is taken as far as it can be, so that what stands after it is read in the
/// section that was meant.
#[derive(Drop)]
pub(crate) struct Draft {
    alloc: Global,
    /// The sections that have ended, but for groups.
    config: Config,
    /// The groups that have ended.
    groups: Vec<NamedGroup>,
    /// What was said before any section.
    defaults: Manner,
    section: Section,
    /// The name of the section.
    name: String,
    /// The keywords of the section so far, or of the lines before any section.
    seen: Vec<FirstWord>,
    /// The names of IMAP stores so far, also of those that are faulty.
    imap_names: Vec<String>,
    /// Those of Maildir stores.
    maildir_names: Vec<String>,
    /// Those of channels and groups together.
    names: Vec<String>,
    /// Those of channels.
    channels: Vec<String>,
}

impl Draft {
    /// Before the first line.
    pub fn new(alloc: Global) -> Self
        ensures standing { standing_of result ≡ before_all }
        ensures view { view result ≡ first_view }
    {
        Draft {
            alloc,
            config: Config::new(alloc),
            groups: Vec::new(alloc),
            defaults: Manner::new(alloc),
            section: Section::Start,
            name: String::new(alloc),
            seen: Vec::new(alloc),
            imap_names: Vec::new(alloc),
            maildir_names: Vec::new(alloc),
            names: Vec::new(alloc),
            channels: Vec::new(alloc),
        }
    }

    /// The configuration: the sections that have ended. A line that names no channel is faulty: `first` becomes the first
    /// faulty line of all.
    pub fn into_config(self, first: &mut Option<ConfigFault>) -> Result<Config, AllocError>
        ensures lines { (last : ℕ) → HasLines last self.groups.items → IfSome first.old (IsUpTo last) → OnOk result (IfSome first.new (IsUpTo last)) }
        ensures again { (again : List ConfigFault) → Reports again first.old → OnOk result (Reports again first.new) }
        ensures none { OnOk result (first.new ≡ None → first.old ≡ None) }
        ensures shows { IfOk result (λ config. first.new ≡ None → Shows (view self) config) }
    {
        let Draft {
            alloc,
            mut config,
            groups,
            channels,
            ..
        } = self;
        config.groups = place_groups(alloc, &channels, groups, first)?;
        Ok(config)
    }

    /// Whether a section is open.
    pub fn is_in_section(&self) -> bool
        ensures { result ≡ is_section (standing_of self.now).at }
    {
        self.section.place().is_section()
    }

    /// Whether the section has each keyword that it has to have.
    pub fn is_whole(&self) -> bool
        ensures { IsTrue result ↔ HasRequired self.now }
    {
        let required = self.section.place().required();
        required.iter().all(|keyword| self.seen.contains(keyword))
    }

    /// Reads the line of words of this number. The fault is the one with the lowest number, but for keywords that the
    /// section lacks.
    pub fn read(&mut self, line: usize, keyword: &[u8], arguments: &[u8]) -> Result<(), FaultKind>
        ensures standing { let words = Some (keyword.now, arguments.now) in
            IsTaken (words_again words (standing_of self.old)) (after_words words (standing_of self.old)) (standing_of self.new) result }
        ensures view { let at = (standing_of self.old).at in
            OnOk result (view self.new ≡ view_said (line_said at (keyword.now, arguments.now)) (begun_view (opened at keyword.now) (view self.old))) }
        ensures titled { let at = (standing_of self.old).at in
            OnOk result (IsTitled (opened at keyword.now) (line_said at (keyword.now, arguments.now))) }
        ensures accepted { OnOk result (IsAccepted (standing_of self.old).at (keyword.now, arguments.now)) }
        ensures unmixed { is_mixed (view self.old).section ≡ false → OnOk result (is_mixed (view self.new).section ≡ false) }
        ensures lines { (last : ℕ) → IsLine last line → NamesLines last self.old → NamesLines last self.new }
    {
        let Some(keyword) = FirstWord::read(keyword) else {
            return Err(FaultKind::UnknownKeyword);
        };
        let keyword = keyword.at(self.section.place());
        let misplaced = self.meet(keyword)?;
        self.read_arguments(keyword, misplaced, line, arguments)
    }

    /// Reads what stands after a keyword, which may be misplaced.
    fn read_arguments(
        &mut self,
        keyword: FirstWord,
        misplaced: Option<FaultKind>,
        line: usize,
        arguments: &[u8],
    ) -> Result<(), FaultKind>
        requires { IfSome misplaced (IsMisplaced (standing_of self.old).at keyword) }
        ensures standing { let name = given misplaced (section_of keyword) arguments.now in
            let keyword = unless_misplaced misplaced (keyword_from (said keyword (arguments_of arguments.now).list) arguments.now) in
            IsTaken (entered_again name keyword (standing_of self.old)) (entered name keyword (standing_of self.old)) (standing_of self.new) result }
        ensures placed { OnOk result (misplaced ≡ None) }
        ensures view { OnOk result (view self.new ≡ view_said (said keyword (arguments_of arguments.now).list) (view self.old)) }
        ensures titled { OnOk result (IsTitled (section_of keyword) (said keyword (arguments_of arguments.now).list)) }
        ensures clear { OnOk result (IsClear (said keyword (arguments_of arguments.now).list)) }
        ensures unmixed { OnOk result (IsUnmixed (sketch self.old.section) (said keyword (arguments_of arguments.now).list)) }
        ensures plain { OnOk result (is_plain arguments.now ≡ true) }
        ensures closed { OnOk result ((arguments_of arguments.now).quoted ≡ false) }
        ensures lines { (last : ℕ) → IsLine last line → NamesLines last self.old → NamesLines last self.new }
    {
        let is_plain = is_plain(arguments);
        let arguments = Arguments::read(self.alloc, arguments)?;
        let setting = Setting::read(self.alloc, keyword, &arguments.list)?;
        if misplaced != Some(FaultKind::OutsideSection) && self.section.contradicts(&setting) {
            return Err(FaultKind::WrongArguments);
        }
        if !is_plain || !arguments.is_closed {
            return Err(FaultKind::BadText);
        }
        match misplaced {
            Some(fault) => Err(fault),
            None => self.set(line, setting),
        }
    }

    /// Notes that a keyword stands here, and opens the section that it begins. It reports whether the keyword may not.
    fn meet(&mut self, keyword: FirstWord) -> Result<Option<FaultKind>, AllocError>
        ensures standing { IfOk result (λ misplaced.
            IsMet (is_section (standing_of self.old).at) keyword (section_of keyword) (standing_of self.old) (standing_of self.new) misplaced) }
        ensures view { IfOk result (λ misplaced. misplaced ≡ None → view self.new ≡ begun_view (section_of keyword) (view self.old)) }
        ensures fits { IfOk result (λ misplaced. misplaced ≡ None → fits_at (standing_of self.old).at keyword ≡ true) }
        ensures lines { (last : ℕ) → NamesLines last self.old → NamesLines last self.new }
    {
        if !keyword.fits(self.section.place()) {
            return Ok(Some(FaultKind::OutsideSection));
        }
        if let Some(place) = keyword.section() {
            self.open(place);
            return Ok(None);
        }
        if self.seen.contains(&keyword) && !keyword.adds_up() {
            return Ok(Some(FaultKind::KeywordTwice));
        }
        self.seen.push(keyword)?;
        Ok(None)
    }

    fn open(&mut self, place: LinePlace)
        ensures standing { standing_of self.new ≡ standing_at place (standing_of self.old) }
        ensures view { view self.new ≡ begun_view (Some place) (view self.old) }
        ensures lines { (last : ℕ) → NamesLines last self.old → NamesLines last self.new }
    {
        self.section = Section::new(self.alloc, place);
        self.name = String::new(self.alloc);
        self.seen = Vec::new(self.alloc);
    }

    /// Takes what the line of this number says.
    fn set(&mut self, line: usize, setting: Setting) -> Result<(), FaultKind>
        ensures standing { let name = name_said setting in
            let keyword = keyword_in (said_of setting) in
            IsTaken (entered_again name keyword (standing_of self.old)) (entered name keyword (standing_of self.old)) (standing_of self.new) result }
        ensures view { OnOk result (view self.new ≡ view_with (said_of setting) (view self.old)) }
        ensures clear { OnOk result (IsClear (Some (said_of setting))) }
        ensures lines { (last : ℕ) → IsLine last line → NamesLines last self.old → NamesLines last self.new }
    {
        match setting {
            Setting::Section(name) => self.set_name(name),
            Setting::Group(name, channels) => {
                self.add_members(line, channels)?;
                self.set_name(name)
            }
            Setting::Channels(channels) => Ok(self.add_members(line, channels)?),
            Setting::Far(place) => self.set_far(place),
            Setting::Near(place) => self.set_near(place),
            Setting::Sync(None) => Err(FaultKind::CellTwice),
            setting => self.set_in_section(setting),
        }
    }

    /// Takes what a line says of the section, or before any. `KeywordGiven`: a line before it gives the letter or the name.
    fn set_in_section(&mut self, setting: Setting) -> Result<(), FaultKind>
        ensures standing { let old = standing_of self.old in
            let keyword = keyword_in (said_of setting) in
            IsTaken (keyword_again old.at keyword old) (with_keyword_at old.at keyword old) (standing_of self.new) result }
        ensures view { OnOk result (view self.new ≡ set_in_section (said_of setting) (view self.old)) }
        ensures lines { (last : ℕ) → NamesLines last self.old → NamesLines last self.new }
    {
        match &mut self.section {
            Section::Start => self.defaults.set(setting)?,
            Section::ImapStore(draft) => draft.set(setting),
            Section::MaildirStore(draft) => draft.set(setting),
            Section::Channel(draft) => draft.set(setting)?,
            Section::Between | Section::Group(_) => {}
        }
        Ok(())
    }

    /// Adds channels to the group that is open.
    fn add_members(&mut self, line: usize, names: Vec<String>) -> Result<(), AllocError>
        ensures standing { standing_of self.new ≡ standing_of self.old }
        ensures view { OnOk result (view self.new ≡ view_with (ChannelsAre (map string_bytes names.items)) (view self.old)) }
        ensures lines { (last : ℕ) → IsLine last line → NamesLines last self.old → NamesLines last self.new }
    {
        if let Section::Group(draft) = &mut self.section {
            draft.add(line, names)?;
        }
        Ok(())
    }

    /// Names the section. `DefinedTwice`: the name is another's.
    fn set_name(&mut self, name: String) -> Result<(), FaultKind>
        ensures standing { IsTaken (name_again (Some (string_bytes name)) (standing_of self.old))
            (named (Some (string_bytes name)) (standing_of self.old)) (standing_of self.new) result }
        ensures view { OnOk result (view self.new ≡ titled_view (string_bytes name) (view self.old)) }
        ensures lines { (last : ℕ) → NamesLines last self.old → NamesLines last self.new }
    {
        self.name = name.clone()?;
        match self.section.place() {
            LinePlace::ImapStore => claim(&mut self.imap_names, name),
            LinePlace::MaildirStore => claim(&mut self.maildir_names, name),
            LinePlace::Channel => {
                self.channels.push(name.clone()?)?;
                claim(&mut self.names, name)
            }
            _ => claim(&mut self.names, name),
        }
    }

    /// The place of the IMAP store of this name.
    fn imap_store(&self, name: &str) -> Option<usize>
        ensures { result ≡ imap_place (view self.now) name.now }
    {
        self.config
            .imap_stores
            .iter()
            .position(|store| store.name.as_str() == name)
    }

    /// The place of the Maildir store of this name.
    fn maildir_store(&self, name: &str) -> Option<usize>
        ensures { result ≡ maildir_place (view self.now) name.now }
    {
        self.config
            .maildir_stores
            .iter()
            .position(|store| store.name.as_str() == name)
    }

    /// Takes the far store and mailbox of a channel. `UnknownName`: no IMAP store above has this name.
    fn set_far(&mut self, place: BoxPlace) -> Result<(), FaultKind>
        ensures standing { IsTaken None (standing_of self.old) (standing_of self.new) result }
        ensures view { OnOk result (view self.new ≡ view_with (FarIs (string_bytes place.store) place.mailbox) (view self.old)) }
        ensures lines { (last : ℕ) → NamesLines last self.old → NamesLines last self.new }
    {
        let store = self.imap_store(&place.store);
        if let Section::Channel(draft) = &mut self.section {
            draft.far = store;
            draft.far_box = place.mailbox;
        }
        match store {
            Some(_) => Ok(()),
            None => Err(FaultKind::UnknownName),
        }
    }

    /// Takes the near store and mailbox of a channel. `UnknownName`: no Maildir store above has this name.
    fn set_near(&mut self, place: BoxPlace) -> Result<(), FaultKind>
        ensures standing { IsTaken None (standing_of self.old) (standing_of self.new) result }
        ensures view { OnOk result (view self.new ≡ view_with (NearIs (string_bytes place.store) place.mailbox) (view self.old)) }
        ensures lines { (last : ℕ) → NamesLines last self.old → NamesLines last self.new }
    {
        let store = self.maildir_store(&place.store);
        if let Section::Channel(draft) = &mut self.section {
            draft.near = store;
            draft.near_box = place.mailbox;
        }
        match store {
            Some(_) => Ok(()),
            None => Err(FaultKind::UnknownName),
        }
    }

    /// Ends the section, if one is open, and reports whether it is kept: one that lacks a keyword, or has a faulty one, goes.
    pub fn end_section(&mut self) -> Result<bool, AllocError>
        ensures standing { standing_of self.new ≡ standing_at (closed (standing_of self.old).at) (standing_of self.old) }
        ensures view { IfOk result (λ kept. IsTrue kept → view self.new ≡ ended_view (is_section (standing_of self.old).at) (view self.old)) }
        ensures kept { IfOk result (λ kept. is_section (standing_of self.old).at ≡ false → kept ≡ true) }
        ensures lines { (last : ℕ) → NamesLines last self.old → NamesLines last self.new }
    {
        if !self.is_in_section() {
            return Ok(true);
        }
        let section = mem::replace(&mut self.section, Section::Between);
        let name = mem::replace(&mut self.name, String::new(self.alloc));
        self.put(section, name)
    }

    /// Puts a section to those that have ended, and reports whether it is kept.
    fn put(&mut self, section: Section, name: String) -> Result<bool, AllocError>
        ensures standing { standing_of self.new ≡ standing_of self.old }
        ensures view { IfOk result (λ kept. IsTrue kept → view self.new ≡ put_view (sketch section) (string_bytes name) (view self.old)) }
        ensures lines { (last : ℕ) → SectionLines last section → HasLines last self.old.groups.items → HasLines last self.new.groups.items }
        ensures section { self.new.section ≡ self.old.section }
    {
        match section {
            Section::ImapStore(draft) => match draft.finish(name) {
                Some(store) => self.config.imap_stores.push(store)?,
                None => return Ok(false),
            },
            Section::MaildirStore(draft) => match draft.finish(self.alloc, name)? {
                Some(store) => self.config.maildir_stores.push(store)?,
                None => return Ok(false),
            },
            Section::Channel(draft) => match draft.finish(self.alloc, name, &self.defaults)? {
                Some(channel) => self.config.channels.push(channel)?,
                None => return Ok(false),
            },
            Section::Group(draft) => self.groups.push(NamedGroup {
                name,
                members: draft.members,
            })?,
            Section::Start | Section::Between => {}
        }
        Ok(true)
    }
}
