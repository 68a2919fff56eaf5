//! What the lines of a configuration say: a keyword with arguments that it takes.

ghost use Rattle.std.specs.Prelude.{◌≡◌, ◌==◌, not, IfErr, IfOk, MatchOption, map, option_and_then, string_bytes};
ghost use Rattle.std.specs.List.{list_all};
ghost use Rattle.config_words.specs.Keywords.{section_of};
ghost use Rattle.config_words.specs.Meanings.{Gives, all_said, box_of, cells_of, group_of, keyword_of, names_a_box, one_said, parts_of, path_of, patterns_of, place_of};
ghost use Rattle.config_words.specs.Meanings.{place_value, port_of, said, said_of, sides_of, some_of, text_said, word_said};
ghost use Rattle.config_words.specs.Settings.{IsRefusal, SaysName, SaysNoName, SaysOne, heading, is_argument, name_among};
ghost use Rattle.config_words.specs.declared.keyword.LinePlace.TheVariants.{Group as in_group};

use crate::fault::FaultKind;
use crate::inbox::is_inbox;
use crate::keyword::FirstWord;
use crate::patterns::Pattern;
use mailcore::keywords::is_keyword_name;
use mailcore::mailbox_name::MailboxName;
use rules::options::{Cells, Sides};
use rules::sync_words::{SyncFault, sync_ops};
use std::alloc::{AllocError, Global};
use texts::number::read_u32;

/// The greatest number of bytes of an argument.
const ARGUMENT_MAX: usize = 1024;

/// A mailbox of a store, as a channel says it.
#[derive(Drop)]
pub struct BoxPlace {
    /// The name of the store.
    pub store: String,
    /// The mailbox, if one is named.
    pub mailbox: Option<MailboxName>,
}

/// What a line says.
#[derive(Drop)]
pub enum Setting {
    /// A section of this name begins.
    Section(String),
    /// A group of this name begins, with these channels.
    Group(String, Vec<String>),
    Host(String),
    Port(u16),
    User(String),
    Pass(String),
    Path(String),
    Inbox(String),
    Far(BoxPlace),
    Near(BoxPlace),
    Patterns(Vec<Pattern>),
    /// The cells that are chosen, or none where one is asserted twice.
    Sync(Option<Cells>),
    Create(Sides),
    Expunge(Sides),
    /// A letter from `a` to `z`, and the name of a keyword that it stands for.
    Keyword(u8, String),
    Channels(Vec<String>),
    /// What could not be said otherwise: `SyncState *`, `SubFolders Verbatim`.
    Nothing,
}

impl Setting {
    /// What this keyword says with these arguments. `WrongArguments`: it does not take them. `NoMemory`.
    pub fn read(alloc: Global, keyword: FirstWord, arguments: &[String]) -> Result<Self, FaultKind>
        ensures name { SaysName (heading keyword (map string_bytes arguments.now)) result }
        ensures means { Gives said_of (said keyword (map string_bytes arguments.now)) result }
    {
        if are_arguments(arguments) {
            read_plainly(alloc, keyword, arguments)
        } else {
            Err(FaultKind::WrongArguments)
        }
    }

    /// Whether it names a mailbox.
    pub fn names_a_box(&self) -> bool
        ensures { result ≡ names_a_box self.now }
    {
        match self {
            Setting::Far(place) | Setting::Near(place) => place.mailbox.is_some(),
            _ => false,
        }
    }
}

/// What this keyword says with arguments of which each is one.
fn read_plainly(
    alloc: Global,
    keyword: FirstWord,
    arguments: &[String],
) -> Result<Setting, FaultKind>
    ensures name { SaysName (option_and_then (λ p. name_among p (map string_bytes arguments.now)) (section_of keyword)) result }
    ensures means { Gives said_of (all_said keyword (map string_bytes arguments.now)) result }
{
    match keyword {
        FirstWord::Group => read_group(alloc, arguments),
        FirstWord::Channels => Ok(Setting::Channels(some_copies(alloc, arguments)?)),
        FirstWord::Patterns => Ok(Setting::Patterns(read_patterns(alloc, arguments)?)),
        FirstWord::Sync => Ok(Setting::Sync(read_cells(alloc, arguments)?)),
        FirstWord::Keyword => read_keyword(arguments),
        _ => match arguments {
            [argument] => read_one(alloc, keyword, argument),
            _ => Err(FaultKind::WrongArguments),
        },
    }
}

fn are_arguments(arguments: &[String]) -> bool
    ensures { result ≡ list_all is_argument (map string_bytes arguments.now) }
{
    arguments.iter().all(|argument| is_argument(argument))
}

fn is_argument(argument: &str) -> bool
    ensures { result ≡ is_argument argument.now }
{
    argument.len() <= ARGUMENT_MAX && has_no_tab(argument.as_bytes())
}

fn has_no_tab(text: &[u8]) -> bool
    ensures { result ≡ list_all (λ b. not (b == 9)) text.now }
{
    text.iter().all(|byte| *byte != b'\t')
}

/// What a keyword says that takes one argument.
fn read_one(alloc: Global, keyword: FirstWord, argument: &str) -> Result<Setting, FaultKind>
    ensures name { SaysOne keyword argument.now result }
    ensures means { Gives said_of (one_said keyword argument.now) result }
{
    match keyword {
        FirstWord::Port => Ok(Setting::Port(read_port(argument)?)),
        FirstWord::Path => Ok(Setting::Path(read_path(alloc, argument)?)),
        FirstWord::Far => Ok(Setting::Far(read_place(alloc, argument)?)),
        FirstWord::Near => Ok(Setting::Near(read_place(alloc, argument)?)),
        FirstWord::Create => Ok(Setting::Create(read_sides(argument)?)),
        FirstWord::Expunge => Ok(Setting::Expunge(read_sides(argument)?)),
        FirstWord::SyncState => read_word(argument, "*"),
        FirstWord::SubFolders => read_word(argument, "Verbatim"),
        _ => read_text(keyword, String::from_str(alloc, argument)?),
    }
}

/// What a keyword says that takes any text.
fn read_text(keyword: FirstWord, text: String) -> Result<Setting, FaultKind>
    ensures name { SaysOne keyword (string_bytes text) result }
    ensures means { Gives said_of (text_said keyword (string_bytes text)) result }
{
    match keyword {
        FirstWord::ImapStore | FirstWord::MaildirStore | FirstWord::Channel => Ok(Setting::Section(
            text,
        )),
        FirstWord::Host => Ok(Setting::Host(text)),
        FirstWord::User => Ok(Setting::User(text)),
        FirstWord::Pass => Ok(Setting::Pass(text)),
        FirstWord::Inbox => Ok(Setting::Inbox(text)),
        _ => Err(FaultKind::WrongArguments),
    }
}

/// The one word that a keyword takes.
fn read_word(argument: &str, word: &str) -> Result<Setting, FaultKind>
    ensures name { SaysNoName result }
    ensures means { Gives said_of (word_said word.now argument.now) result }
{
    if argument == word {
        Ok(Setting::Nothing)
    } else {
        Err(FaultKind::WrongArguments)
    }
}

fn read_port(argument: &str) -> Result<u16, FaultKind>
    ensures refused { IfErr result IsRefusal }
    ensures means { Gives (λ p. p) (port_of argument.now) result }
{
    let Some(port) = read_u32(argument.as_bytes(), 65535) else {
        return Err(FaultKind::WrongArguments);
    };
    if port == 0 {
        return Err(FaultKind::WrongArguments);
    }
    Ok(port as u16)
}

fn read_path(alloc: Global, argument: &str) -> Result<String, FaultKind>
    ensures refused { IfErr result IsRefusal }
    ensures means { Gives string_bytes (path_of argument.now) result }
{
    if argument.as_bytes().ends_with(b"/") {
        Ok(String::from_str(alloc, argument)?)
    } else {
        Err(FaultKind::WrongArguments)
    }
}

/// A mailbox of a store, from `:STORE:BOX`.
fn read_place(alloc: Global, argument: &str) -> Result<BoxPlace, FaultKind>
    ensures refused { IfErr result IsRefusal }
    ensures means { Gives place_value (place_of argument.now) result }
{
    let Some((store, mailbox)) = split_place(argument) else {
        return Err(FaultKind::WrongArguments);
    };
    let mailbox = read_box(alloc, mailbox)?;
    let store = String::from_str(alloc, store)?;
    Ok(BoxPlace { store, mailbox })
}

/// STORE and BOX of `:STORE:BOX`.
fn split_place(argument: &str) -> Option<(&str, &str)>
    ensures { MatchOption result (parts_of argument.now ≡ None) (λ parts. parts_of argument.now ≡ Some (parts.0.now, parts.1.now)) }
{
    match argument.strip_prefix(':') {
        Some(parts) => parts.split_once(':'),
        None => None,
    }
}

/// The mailbox of this name, or none for an empty name. INBOX is meant in any spelling.
fn read_box(alloc: Global, name: &str) -> Result<Option<MailboxName>, FaultKind>
    ensures refused { IfErr result IsRefusal }
    ensures means { Gives (λ b. b) (box_of name.now) result }
{
    if name.is_empty() {
        return Ok(None);
    }
    if is_inbox(name.as_bytes()) {
        return Ok(Some(MailboxName::inbox(alloc)?));
    }
    match MailboxName::from_bytes(alloc, name.as_bytes())? {
        Some(name) => Ok(Some(name)),
        None => Err(FaultKind::WrongArguments),
    }
}

fn read_sides(argument: &str) -> Result<Sides, FaultKind>
    ensures refused { IfErr result IsRefusal }
    ensures means { Gives (λ s. s) (sides_of argument.now) result }
{
    let (far, near) = match argument {
        "None" => (false, false),
        "Far" => (true, false),
        "Near" => (false, true),
        "Both" => (true, true),
        _ => return Err(FaultKind::WrongArguments),
    };
    Ok(Sides { far, near })
}

/// The name of a group and its channels.
fn read_group(alloc: Global, arguments: &[String]) -> Result<Setting, FaultKind>
    ensures name { SaysName (name_among in_group (map string_bytes arguments.now)) result }
    ensures means { Gives said_of (group_of (map string_bytes arguments.now)) result }
{
    let [name, channels @ ..] = arguments else {
        return Err(FaultKind::WrongArguments);
    };
    let channels = copies(alloc, channels)?;
    let name = name.clone()?;
    Ok(Setting::Group(name, channels))
}

/// The letter and the name of a keyword.
fn read_keyword(arguments: &[String]) -> Result<Setting, FaultKind>
    ensures name { SaysNoName result }
    ensures means { Gives said_of (keyword_of (map string_bytes arguments.now)) result }
{
    let [letter, name] = arguments else {
        return Err(FaultKind::WrongArguments);
    };
    match letter.as_bytes() {
        [letter] if letter.is_ascii_lowercase() && is_keyword_name(name.as_bytes()) => {
            Ok(Setting::Keyword(*letter, name.clone()?))
        }
        _ => Err(FaultKind::WrongArguments),
    }
}

/// One name or more.
fn some_copies(alloc: Global, names: &[String]) -> Result<Vec<String>, FaultKind>
    ensures refused { IfErr result IsRefusal }
    ensures means { Gives (λ v. map string_bytes v.items) (some_of (map string_bytes names.now)) result }
{
    if names.is_empty() {
        return Err(FaultKind::WrongArguments);
    }
    Ok(copies(alloc, names)?)
}

fn copies(alloc: Global, names: &[String]) -> Result<Vec<String>, AllocError>
    ensures { IfOk result (λ v. map string_bytes v.items ≡ map string_bytes names.now) }
{
    let mut list = Vec::with_capacity(alloc, names.len())?;
    for name in names {
        list.push(name.clone()?)?;
    }
    Ok(list)
}

/// One pattern or more.
fn read_patterns(alloc: Global, words: &[String]) -> Result<Vec<Pattern>, FaultKind>
    ensures refused { IfErr result IsRefusal }
    ensures means { Gives (λ v. v.items) (patterns_of (map string_bytes words.now)) result }
{
    if words.is_empty() {
        return Err(FaultKind::WrongArguments);
    }
    let mut patterns = Vec::with_capacity(alloc, words.len())?;
    for word in words {
        let Some(pattern) = Pattern::from_string(word.clone()?) else {
            return Err(FaultKind::WrongArguments);
        };
        patterns.push(pattern)?;
    }
    Ok(patterns)
}

/// The cells that Sync words choose, or none where one is asserted twice.
fn read_cells(alloc: Global, arguments: &[String]) -> Result<Option<Cells>, FaultKind>
    ensures refused { IfErr result IsRefusal }
    ensures means { Gives (λ c. c) (cells_of (map string_bytes arguments.now)) result }
{
    match sync_ops(&bytes_of(alloc, arguments)?) {
        Ok(cells) => Ok(Some(cells)),
        Err(SyncFault::CellTwice) => Ok(None),
        Err(SyncFault::BadWord) => Err(FaultKind::WrongArguments),
    }
}

/// The bytes of each of these.
fn bytes_of<'a>(alloc: Global, arguments: &'a [String]) -> Result<Vec<&'a [u8]>, AllocError>
    ensures { IfOk result (λ v. map (λ word. word.now) v.items ≡ map string_bytes arguments.now) }
{
    let mut words = Vec::with_capacity(alloc, arguments.len())?;
    for argument in arguments {
        words.push(argument.as_bytes())?;
    }
    Ok(words)
}
