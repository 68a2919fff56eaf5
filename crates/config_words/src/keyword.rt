//! The keywords of a configuration, and where each may stand.

ghost use Rattle.std.specs.Prelude.{◌≡◌, false, not, IfNone, IsSome, option_and_then};
ghost use Rattle.config_words.specs.Keywords.{adds_up, fits_at, is_default, keyword_named, manner_keyword, meant_at, opened_by, required_at, section_keyword, section_of, setting_keyword};
ghost use Rattle.config_words.specs.Places.{is_section, section_named};

/// What the first word of a line is.
#[derive(Clone, Copy, PartialEq, Eq)]
pub enum FirstWord {
    ImapStore,
    MaildirStore,
    Channel,
    Group,
    Host,
    Port,
    User,
    Pass,
    Path,
    Inbox,
    SubFolders,
    Far,
    Near,
    Patterns,
    Sync,
    Create,
    Expunge,
    SyncState,
    Keyword,
    Channels,
}

/// Where a line stands.
#[derive(Clone, Copy, PartialEq, Eq)]
pub enum LinePlace {
    /// Before any section.
    Start,
    /// After a section, and in none.
    Between,
    ImapStore,
    MaildirStore,
    Channel,
    Group,
}

impl FirstWord {
    /// The keyword of this word, or none if it is none. Words compare without case.
    pub fn read(word: &[u8]) -> Option<FirstWord>
        ensures section { option_and_then section_of result ≡ section_named word.now }
        ensures named { result ≡ keyword_named word.now }
    {
        match FirstWord::of_section(word) {
            Some(keyword) => Some(keyword),
            None => FirstWord::of_setting(word),
        }
    }

    /// The keyword of this word, if it is one that begins a section.
    fn of_section(word: &[u8]) -> Option<FirstWord>
        ensures section { option_and_then section_of result ≡ section_named word.now }
        ensures none { IfNone result (section_named word.now ≡ None) }
        ensures named { result ≡ section_keyword word.now }
    {
        if word.eq_ignore_ascii_case(b"IMAPStore") {
            Some(FirstWord::ImapStore)
        } else if word.eq_ignore_ascii_case(b"MaildirStore") {
            Some(FirstWord::MaildirStore)
        } else if word.eq_ignore_ascii_case(b"Channel") {
            Some(FirstWord::Channel)
        } else if word.eq_ignore_ascii_case(b"Group") {
            Some(FirstWord::Group)
        } else {
            None
        }
    }

    /// The keyword of this word, if it is one that begins no section.
    fn of_setting(word: &[u8]) -> Option<FirstWord>
        ensures section { option_and_then section_of result ≡ None }
        ensures named { result ≡ setting_keyword word.now }
    {
        if word.eq_ignore_ascii_case(b"Host") {
            Some(FirstWord::Host)
        } else if word.eq_ignore_ascii_case(b"Port") {
            Some(FirstWord::Port)
        } else if word.eq_ignore_ascii_case(b"User") {
            Some(FirstWord::User)
        } else if word.eq_ignore_ascii_case(b"Pass") {
            Some(FirstWord::Pass)
        } else if word.eq_ignore_ascii_case(b"Path") {
            Some(FirstWord::Path)
        } else if word.eq_ignore_ascii_case(b"Inbox") {
            Some(FirstWord::Inbox)
        } else if word.eq_ignore_ascii_case(b"SubFolders") {
            Some(FirstWord::SubFolders)
        } else if word.eq_ignore_ascii_case(b"Far") {
            Some(FirstWord::Far)
        } else if word.eq_ignore_ascii_case(b"Near") {
            Some(FirstWord::Near)
        } else if word.eq_ignore_ascii_case(b"Pattern") || word.eq_ignore_ascii_case(b"Patterns") {
            Some(FirstWord::Patterns)
        } else {
            FirstWord::of_manner(word)
        }
    }

    /// The keyword of this word, if it is one of those that are left.
    fn of_manner(word: &[u8]) -> Option<FirstWord>
        ensures section { option_and_then section_of result ≡ None }
        ensures named { result ≡ manner_keyword word.now }
    {
        if word.eq_ignore_ascii_case(b"Sync") {
            Some(FirstWord::Sync)
        } else if word.eq_ignore_ascii_case(b"Create") {
            Some(FirstWord::Create)
        } else if word.eq_ignore_ascii_case(b"Expunge") {
            Some(FirstWord::Expunge)
        } else if word.eq_ignore_ascii_case(b"SyncState") {
            Some(FirstWord::SyncState)
        } else if word.eq_ignore_ascii_case(b"Keyword") {
            Some(FirstWord::Keyword)
        } else if word.eq_ignore_ascii_case(b"Channels") {
            Some(FirstWord::Channels)
        } else {
            None
        }
    }

    /// What it means at this place: in a group `Channel` adds channels.
    pub fn at(self, place: LinePlace) -> FirstWord
        ensures opened { opened_by place result ≡ opened_by place self }
        ensures meant { result ≡ meant_at place self }
    {
        if self == FirstWord::Channel && place == LinePlace::Group {
            FirstWord::Channels
        } else {
            self
        }
    }

    /// The place after it, if it begins a section.
    pub fn section(self) -> Option<LinePlace>
        ensures { result ≡ section_of self }
    {
        match self {
            FirstWord::ImapStore => Some(LinePlace::ImapStore),
            FirstWord::MaildirStore => Some(LinePlace::MaildirStore),
            FirstWord::Channel => Some(LinePlace::Channel),
            FirstWord::Group => Some(LinePlace::Group),
            _ => None,
        }
    }

    /// Whether it may stand in a section more than once.
    pub fn adds_up(self) -> bool
        ensures { result ≡ adds_up self }
    {
        matches!(
            self,
            FirstWord::Patterns | FirstWord::Keyword | FirstWord::Channels
        )
    }

    /// Whether it may stand at this place.
    pub fn fits(self, place: LinePlace) -> bool
        ensures section { IsSome (section_of self) → result ≡ not (is_section place) }
        ensures fits { result ≡ fits_at place self }
    {
        match place {
            LinePlace::Start => self.section().is_some() || self.is_default(),
            LinePlace::Between => self.section().is_some(),
            LinePlace::ImapStore => matches!(
                self,
                FirstWord::Host | FirstWord::Port | FirstWord::User | FirstWord::Pass
            ),
            LinePlace::MaildirStore => matches!(
                self,
                FirstWord::Path | FirstWord::Inbox | FirstWord::SubFolders
            ),
            LinePlace::Channel => matches!(
                self,
                FirstWord::Far | FirstWord::Near | FirstWord::Patterns
            ) || self.is_default(),
            LinePlace::Group => self == FirstWord::Channels,
        }
    }

    /// Whether it may also stand before any section, for all channels.
    fn is_default(self) -> bool
        ensures section { IsSome (section_of self) → result ≡ false }
        ensures default { result ≡ is_default self }
    {
        matches!(
            self,
            FirstWord::Sync
                | FirstWord::Create
                | FirstWord::Expunge
                | FirstWord::SyncState
                | FirstWord::Keyword
        )
    }
}

impl LinePlace {
    /// The keywords that a section has to have.
    pub fn required(self) -> &'static [FirstWord]
        ensures { result.now ≡ required_at self }
    {
        match self {
            LinePlace::ImapStore => &[FirstWord::Host, FirstWord::User, FirstWord::Pass],
            LinePlace::MaildirStore => &[FirstWord::Path],
            LinePlace::Channel => &[FirstWord::Far, FirstWord::Near],
            LinePlace::Start | LinePlace::Between | LinePlace::Group => &[],
        }
    }

    /// Whether a section is open here.
    pub fn is_section(self) -> bool
        ensures { result ≡ is_section self }
    {
        !matches!(self, LinePlace::Start | LinePlace::Between)
    }
}
