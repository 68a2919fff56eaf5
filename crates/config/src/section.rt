//! Sections of a configuration while they are read.

ghost use Rattle.std.specs.Prelude.{◌≡◌, ◌++◌, ◌||◌, not, ℕ, [], IsTrue, is_some, IfOk, MatchOption, None, OnOk, codes, option_map, string_bytes, unwrap_or};
ghost use Rattle.config.specs.Configurations.{channel_value, imap_value, maildir_value};
ghost use Rattle.config.specs.Drafts.{IsTaken, own_of, place_of};
ghost use Rattle.config.specs.Readings.{SectionLines};
ghost use Rattle.config.specs.Sections.{boxes_of, imap_store_of, keyword_in, own_or};
ghost use Rattle.config.specs.Views.{channel_ended, channel_said, channel_view, channel_with, imap_view, imap_with, maildir_ended, maildir_said, maildir_view};
ghost use Rattle.config.specs.Views.{contradicts, is_empty, maildir_with, manner_said, manner_view, manner_with, sketch, sketch_at, IsStoreOf, IsMaildirOf, IsChannelOf};
ghost use Rattle.config.specs.Standing.{joined, joined_again};
ghost use Rattle.config_words.specs.Meanings.{said_of};
ghost use Rattle.config_words.specs.Settings.{name_said};

use crate::config::{Boxes, Channel, ImapStore, MaildirStore};
use crate::group::GroupDraft;
use config_words::fault::FaultKind;
use config_words::keyword::LinePlace;
use config_words::patterns::{Pattern, Patterns};
use config_words::setting::Setting;
use mailcore::keywords::Keywords;
use mailcore::mailbox_name::MailboxName;
use rules::options::{Cells, Directions, Sides};
use std::alloc::{AllocError, Global};

/// The port of IMAP (RFC 9051, section 2.1).
const PORT: u16 = 143;

/// The section that is open, with what its lines have said so far.
#[derive(Drop)]
pub(crate) enum Section {
    /// None, and none was.
    Start,
    /// None any more.
    Between,
    ImapStore(ImapDraft),
    MaildirStore(MaildirDraft),
    Channel(ChannelDraft),
    Group(GroupDraft),
}

impl Section {
    /// The section that begins at this place.
    pub fn new(alloc: Global, place: LinePlace) -> Self
        ensures place { place_of result ≡ place }
        ensures sketch { sketch result ≡ sketch_at place }
        ensures own { own_of result ≡ [] }
        ensures lines { (last : ℕ) → SectionLines last result }
    {
        match place {
            LinePlace::Start => Section::Start,
            LinePlace::Between => Section::Between,
            LinePlace::ImapStore => Section::ImapStore(ImapDraft::new()),
            LinePlace::MaildirStore => Section::MaildirStore(MaildirDraft::new()),
            LinePlace::Channel => Section::Channel(ChannelDraft::new(alloc)),
            LinePlace::Group => Section::Group(GroupDraft::new(alloc)),
        }
    }

    /// Where the next line stands.
    pub fn place(&self) -> LinePlace
        ensures { result ≡ place_of self.now }
    {
        match self {
            Section::Start => LinePlace::Start,
            Section::Between => LinePlace::Between,
            Section::ImapStore(_) => LinePlace::ImapStore,
            Section::MaildirStore(_) => LinePlace::MaildirStore,
            Section::Channel(_) => LinePlace::Channel,
            Section::Group(_) => LinePlace::Group,
        }
    }

    /// Whether a channel has both a mailbox and a pattern once this is set.
    pub fn contradicts(&self, setting: &Setting) -> bool
        ensures name { IsTrue result → name_said setting.now ≡ None }
        ensures keyword { IsTrue result → keyword_in (said_of setting.now) ≡ None }
        ensures both { result ≡ contradicts (sketch self.now) (said_of setting.now) }
    {
        match self {
            Section::Channel(draft) => match setting {
                Setting::Patterns(_) => draft.names_a_box(),
                _ => setting.names_a_box() && draft.has_patterns(),
            },
            _ => false,
        }
    }
}

/// An IMAP store without its name.
#[derive(Drop)]
pub(crate) struct ImapDraft {
    host: Option<String>,
    port: u16,
    user: Option<String>,
    pass: Option<String>,
}

impl ImapDraft {
    fn new() -> Self
        ensures { imap_view result ≡ imap_store_of [] [] }
    {
        ImapDraft {
            host: None,
            port: PORT,
            user: None,
            pass: None,
        }
    }

    /// Takes what a line of the section says.
    pub fn set(&mut self, setting: Setting)
        ensures { imap_view self.new ≡ imap_with (said_of setting) (imap_view self.old) }
    {
        match setting {
            Setting::Host(host) => self.host = Some(host),
            Setting::Port(port) => self.port = port,
            Setting::User(user) => self.user = Some(user),
            Setting::Pass(pass) => self.pass = Some(pass),
            _ => {}
        }
    }

    /// The store, or none if a keyword is missing that it has to have.
    pub fn finish(self, name: String) -> Option<ImapStore>
        ensures { IsStoreOf (string_bytes name) (imap_view self) result }
    {
        Some(ImapStore {
            name,
            host: self.host?,
            port: self.port,
            user: self.user?,
            pass: self.pass?,
        })
    }
}

/// A Maildir store without its name.
#[derive(Drop)]
pub(crate) struct MaildirDraft {
    path: Option<String>,
    inbox: Option<String>,
}

impl MaildirDraft {
    fn new() -> Self
        ensures { maildir_view result ≡ maildir_said [] }
    {
        MaildirDraft {
            path: None,
            inbox: None,
        }
    }

    /// Takes what a line of the section says.
    pub fn set(&mut self, setting: Setting)
        ensures { maildir_view self.new ≡ maildir_with (said_of setting) (maildir_view self.old) }
    {
        match setting {
            Setting::Path(path) => self.path = Some(path),
            Setting::Inbox(inbox) => self.inbox = Some(inbox),
            _ => {}
        }
    }

    /// The store, or none if its path is missing.
    pub fn finish(self, alloc: Global, name: String) -> Result<Option<MaildirStore>, AllocError>
        ensures { IfOk result (IsMaildirOf (string_bytes name) (maildir_view self)) }
    {
        let MaildirDraft { path, inbox } = self;
        let Some(path) = path else {
            return Ok(None);
        };
        let inbox = match inbox {
            Some(inbox) => inbox,
            None => String::from_str(alloc, "~/Maildir")?,
        };
        Ok(Some(MaildirStore { name, path, inbox }))
    }
}

/// How mailboxes are synchronised, as far as lines say it.
#[derive(Drop)]
pub(crate) struct Manner {
    cells: Option<Cells>,
    create: Option<Sides>,
    expunge: Option<Sides>,
    keywords: Keywords,
}

impl Manner {
    /// Nothing is said.
    pub fn new(alloc: Global) -> Self
        ensures { manner_view result ≡ manner_said [] }
    {
        Manner {
            cells: None,
            create: None,
            expunge: None,
            keywords: Keywords::new(alloc),
        }
    }

    /// Takes what a line says. `KeywordGiven`: a line before it gives the letter or the name.
    pub fn set(&mut self, setting: Setting) -> Result<(), FaultKind>
        ensures view { OnOk result (manner_view self.new ≡ manner_with (said_of setting) (manner_view self.old)) }
        ensures keyword { let keyword = keyword_in (said_of setting) in
            IsTaken (joined_again keyword self.old.keywords) (joined keyword self.old.keywords) self.new.keywords result }
    {
        match setting {
            Setting::Sync(Some(cells)) => self.cells = Some(cells),
            Setting::Create(sides) => self.create = Some(sides),
            Setting::Expunge(sides) => self.expunge = Some(sides),
            Setting::Keyword(letter, name) => self.keywords.add(letter, name.as_bytes())?,
            _other => {}
        }
        Ok(())
    }
}

/// What is propagated where no line says it: all.
const FULL: Cells = Cells {
    new: BOTH_WAYS,
    gone: BOTH_WAYS,
    flags: BOTH_WAYS,
};

const BOTH_WAYS: Directions = Directions {
    pull: true,
    push: true,
};

/// The sides of Create and Expunge where no line says them.
const NEITHER: Sides = Sides {
    far: false,
    near: false,
};

/// A channel without its name.
#[derive(Drop)]
pub(crate) struct ChannelDraft {
    /// The place of the far store.
    pub far: Option<usize>,
    /// The far mailbox, if one is named.
    pub far_box: Option<MailboxName>,
    /// The place of the near store.
    pub near: Option<usize>,
    /// The near mailbox, if one is named.
    pub near_box: Option<MailboxName>,
    /// Its patterns so far.
    pub patterns: Patterns,
    /// What it says itself of how mailboxes are synchronised.
    pub manner: Manner,
}

impl ChannelDraft {
    fn new(alloc: Global) -> Self
        ensures { channel_view result ≡ channel_said [] [] [] }
    {
        ChannelDraft {
            far: None,
            far_box: None,
            near: None,
            near_box: None,
            patterns: Patterns::new(alloc),
            manner: Manner::new(alloc),
        }
    }

    fn names_a_box(&self) -> bool
        ensures { result ≡ (is_some self.now.far_box || is_some self.now.near_box) }
    {
        self.far_box.is_some() || self.near_box.is_some()
    }

    fn has_patterns(&self) -> bool
        ensures { result ≡ not (is_empty self.now.patterns) }
    {
        !self.patterns.as_slice().is_empty()
    }

    /// Takes what a line of the section says, but for its stores. `KeywordGiven`: a line before it gives the letter or the name.
    pub fn set(&mut self, setting: Setting) -> Result<(), FaultKind>
        ensures view { OnOk result (channel_view self.new ≡ channel_with (said_of setting) (channel_view self.old)) }
        ensures keyword { let keyword = keyword_in (said_of setting) in
            IsTaken (joined_again keyword self.old.manner.keywords) (joined keyword self.old.manner.keywords) self.new.manner.keywords result }
    {
        match setting {
            Setting::Patterns(patterns) => Ok(self.add_patterns(patterns)?),
            setting => self.manner.set(setting),
        }
    }

    fn add_patterns(&mut self, patterns: Vec<Pattern>) -> Result<(), AllocError>
        ensures view { let before = channel_view self.old in
            OnOk result (channel_view self.new ≡ record before { patterns = before.patterns ++ patterns.items }) }
        ensures manner { self.new.manner ≡ self.old.manner }
    {
        for pattern in patterns {
            self.patterns.push(pattern)?;
        }
        Ok(())
    }

    /// The channel, or none if a store is missing.
    pub fn finish(
        self,
        alloc: Global,
        name: String,
        defaults: &Manner,
    ) -> Result<Option<Channel>, AllocError>
        ensures { IfOk result (IsChannelOf (channel_ended (string_bytes name) (manner_view defaults.now) (channel_view self))) }
    {
        let ChannelDraft {
            far,
            far_box,
            near,
            near_box,
            patterns,
            manner,
        } = self;
        let (Some(far), Some(near)) = (far, near) else {
            return Ok(None);
        };
        Ok(Some(Channel {
            name,
            far,
            near,
            boxes: boxes(alloc, patterns, far_box, near_box)?,
            cells: manner.cells.or(defaults.cells).unwrap_or(FULL),
            create: manner.create.or(defaults.create).unwrap_or(NEITHER),
            expunge: manner.expunge.or(defaults.expunge).unwrap_or(NEITHER),
            keywords: own_or(alloc, manner.keywords, &defaults.keywords)?,
        }))
    }
}

/// The mailboxes of a channel with these patterns, or else with these mailboxes.
fn boxes(
    alloc: Global,
    patterns: Patterns,
    far: Option<MailboxName>,
    near: Option<MailboxName>,
) -> Result<Boxes, AllocError>
    ensures { IfOk result (λ boxes. boxes ≡ boxes_of patterns (unwrap_or far (codes "INBOX")) (unwrap_or near (codes "INBOX"))) }
{
    if !patterns.as_slice().is_empty() {
        return Ok(Boxes::Matching(patterns));
    }
    let far = box_or_inbox(alloc, far)?;
    let near = box_or_inbox(alloc, near)?;
    Ok(Boxes::Pair { far, near })
}

/// The keywords of a channel: its own, or those that were given before any section if it has none.
fn own_or(alloc: Global, own: Keywords, before: &Keywords) -> Result<Keywords, AllocError>
    ensures { IfOk result (λ keywords. keywords ≡ own_or own before.now) }
{
    if own.as_slice().is_empty() {
        before.try_clone(alloc)
    } else {
        Ok(own)
    }
}

fn box_or_inbox(alloc: Global, mailbox: Option<MailboxName>) -> Result<MailboxName, AllocError>
    ensures { IfOk result (λ name. name ≡ unwrap_or mailbox (codes "INBOX")) }
{
    match mailbox {
        Some(mailbox) => Ok(mailbox),
        None => MailboxName::inbox(alloc),
    }
}
