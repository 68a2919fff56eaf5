//! What stands in a folder: its messages by their UIDs, and the files that wait for one.

ghost use Rattle.std.specs.Prelude.{◌≡◌, ◌<◌, filter, All, AllPairs, List, IfOk, IfErr, OnOk, IfSome, MatchBool, Some, ◌++◌, ◌∷◌, []};
ghost use Rattle.std.specs.List.{filter_map};
ghost use Rattle.std.specs.List.Sorted.{IsPermutation, IsSortedBy, IsSortedByKey};
ghost use Rattle.std.specs.Ordering.{nat_cmp};
ghost use Rattle.std.specs.Int.NonZero.{non_zero_u32_get};
ghost use Rattle.mailcore.specs.declared.keywords.Keyword.{Keyword};
ghost use Rattle.maildir.specs.declared.meta.Meta.{Meta};
ghost use Rattle.maildir.specs.Folders.{Stored, Lists, text_of};
ghost use Rattle.maildir.specs.Gains.{Adds};
ghost use Rattle.near_box.specs.Mailboxes.{first_meta, meta_in};
ghost use Rattle.maildir.specs.Names.{name_of};
ghost use Rattle.near_box.specs.NearCalls.{Looks};
ghost use Rattle.near_box.specs.SurveyParts.{IsKind, IsOwnFault, SurveyReports, file_cmp, is_before, named_entry, waits};

use crate::known_mark::KnownMarks;
use crate::near_fault::NearFault;
use mailcore::octets::Octets;
use mailcore::uid::Uid;
use maildir::folder::{FileName, Folder, Place, Source};
use maildir::meta::Meta;
use maildir::name::read_name;
use std::alloc::{AllocError, Global};
use std::cmp::Ordering;
use std::num::NonZeroU32;

/// A message of the mailbox: its UID, and where its file stands.
#[derive(Drop)]
pub struct SurveyEntry {
    /// Its UID.
    pub uid: Uid,
    /// Where its file stands.
    pub place: Place,
    /// The name of its file.
    pub name: Octets,
}

/// What stands in a folder.
#[derive(Drop)]
pub struct Survey {
    /// Its messages, in the order of their UIDs.
    pub entries: Vec<SurveyEntry>,
    /// The files that wait for a UID, in the order of their names, `new` before `cur`.
    pub waiting: Vec<FileName>,
    /// What the meta file says, or what a mailbox without one begins with.
    pub meta: Meta,
    /// Whether there is a meta file.
    pub has_meta: bool,
    /// What is known of the marks of the messages.
    pub marks: KnownMarks,
}

impl Survey {
    /// That of a folder that was not read yet.
    pub fn none(alloc: Global, fresh: NonZeroU32) -> Self
        ensures numbers { (0 < result.meta.validity) × (0 < result.meta.next) }
    {
        Survey {
            entries: Vec::new(alloc),
            waiting: Vec::new(alloc),
            meta: first_meta(fresh),
            has_meta: false,
            marks: KnownMarks::new(alloc),
        }
    }
}

/// What stands in a folder, whose validity is `fresh` where it has no meta file. It reads and changes nothing; others may have added
/// files.
///
/// Faults: `Stopped` and `NoMemory`, and the first that holds of `Absent`, `TwoWithOneUid` and `BadMeta`.
pub fn survey_of<F: Folder>(
    alloc: Global,
    folder: &mut F,
    fresh: NonZeroU32,
) -> Result<Survey, NearFault>
    ensures was_honest { F.honest folder.new → F.honest folder.old }
    ensures looks { Looks (F.seen folder.old) (F.seen folder.new) result }
    ensures numbers { IfOk result (λ survey. (0 < survey.meta.validity) × (0 < survey.meta.next)) }
    ensures adds { F.honest folder.new → Adds F.visitors (F.seen folder.old).stored (F.seen folder.new).stored }
    ensures states { F.honest folder.new
        → (keywords : List Keyword) → SurveyReports (non_zero_u32_get fresh) keywords (F.seen folder.new).stored result }
{
    let Some(names) = folder.names()? else {
        return Err(NearFault::Absent);
    };
    let text = folder.read(Source::Meta)?;
    survey_from(alloc, names, text, fresh)
}

/// What these names and this text of the meta file say.
fn survey_from(
    alloc: Global,
    names: Vec<FileName>,
    text: Option<Vec<u8>>,
    fresh: NonZeroU32,
) -> Result<Survey, NearFault>
    ensures numbers { IfOk result (λ survey. (0 < survey.meta.validity) × (0 < survey.meta.next)) }
    ensures calls_nothing { IfErr result (λ fault. IsOwnFault fault) }
    ensures states { (s : Stored) (keywords : List Keyword) → Lists (Some names.items) s → text_of text ≡ s.meta
        → SurveyReports (non_zero_u32_get fresh) keywords s result }
{
    let mut found = FoundFiles::among(alloc, names)?;
    found.sort()?;
    let FoundFiles { entries, waiting } = found;
    if !rise(&entries) {
        return Err(NearFault::TwoWithOneUid);
    }
    let has_meta = text.is_some();
    let Some(meta) = meta_from(text, fresh) else {
        return Err(NearFault::BadMeta);
    };
    if !are_below(&entries, meta.next) {
        return Err(NearFault::BadMeta);
    }
    Ok(Survey {
        entries,
        waiting,
        meta,
        has_meta,
        marks: KnownMarks::new(alloc),
    })
}

/// The messages and the waiting files of a folder.
#[derive(Drop)]
struct FoundFiles {
    entries: Vec<SurveyEntry>,
    waiting: Vec<FileName>,
}

impl FoundFiles {
    /// Those among these names, in the order of the names.
    #[tactic(auto, using(crate::proofs::SurveyLemmas::filter_map_push, crate::proofs::SurveyLemmas::filter_push))]
    fn among(alloc: Global, names: Vec<FileName>) -> Result<FoundFiles, AllocError>
        ensures entries { IfOk result (λ found. found.entries.items ≡ filter_map named_entry names.items) }
        ensures waiting { IfOk result (λ found. found.waiting.items ≡ filter waits names.items) }
    {
        let mut found = FoundFiles {
            entries: Vec::new(alloc),
            waiting: Vec::new(alloc),
        };
        for file in names {
            found.add(file)?;
        }
        Ok(found)
    }

    fn add(&mut self, file: FileName) -> Result<(), AllocError>
        ensures entries { OnOk result (self.new.entries.items ≡ self.old.entries.items ++ filter_map named_entry (file ∷ [])) }
        ensures waiting { OnOk result (self.new.waiting.items ≡ self.old.waiting.items ++ filter waits (file ∷ [])) }
    {
        match kind_of(file.name.as_slice()) {
            FileKind::Message(uid) => self.entries.push(entry_of(uid, file))?,
            FileKind::Waiting => self.waiting.push(file)?,
            FileKind::Other => {}
        }
        Ok(())
    }

    /// Puts the messages in the order of their UIDs, and the waiting files in theirs.
    fn sort(&mut self) -> Result<(), AllocError>
        ensures entries { IsPermutation self.old.entries.items self.new.entries.items }
        ensures rise { OnOk result (IsSortedByKey (λ entry. entry.uid) nat_cmp self.new.entries.items) }
        ensures waiting { IsPermutation self.old.waiting.items self.new.waiting.items }
        ensures in_order { OnOk result (IsSortedBy is_before self.new.waiting.items) }
    {
        self.entries.sort_by_key(|entry| entry.uid.get())?;
        self.waiting.sort_by(by_name)?;
        Ok(())
    }
}

/// What a name makes of its file.
enum FileKind {
    /// A message with this UID.
    Message(Uid),
    /// A file that waits for a UID.
    Waiting,
    /// No message.
    Other,
}

fn kind_of(name: &[u8]) -> FileKind
    ensures { IsKind (name_of name.now) result }
{
    match read_name(name) {
        Some(name) => match name.uid {
            Some(uid) => FileKind::Message(uid),
            None => FileKind::Waiting,
        },
        None => FileKind::Other,
    }
}

fn entry_of(uid: Uid, file: FileName) -> SurveyEntry
    ensures { result ≡ record { uid = uid; place = file.place; name = file.name } }
{
    SurveyEntry {
        uid,
        place: file.place,
        name: file.name,
    }
}

/// The order of waiting files.
fn by_name(a: &FileName, b: &FileName) -> Ordering
    ensures { result ≡ file_cmp a.now b.now }
{
    a.name
        .as_slice()
        .cmp(b.name.as_slice())
        .then(a.place.cmp(&b.place))
}

/// Whether the UIDs rise, from each message to the next.
fn rise(entries: &[SurveyEntry]) -> bool
    ensures { MatchBool result (AllPairs (λ a b. a.uid < b.uid) entries.now) (¬ AllPairs (λ a b. a.uid < b.uid) entries.now) }
{
    entries.is_sorted_by(|a, b| a.uid.get() < b.uid.get())
}

/// What the meta file says, or what a mailbox without one begins with; none where the file is not spelled as one.
fn meta_from(text: Option<Vec<u8>>, fresh: NonZeroU32) -> Option<Meta>
    ensures value { result ≡ meta_in (non_zero_u32_get fresh) (text_of text) }
    ensures numbers { IfSome result (λ meta. (0 < meta.validity) × (0 < meta.next)) }
{
    match text {
        Some(text) => Meta::read(&text),
        None => Some(first_meta(fresh)),
    }
}

/// What a mailbox without a meta file begins with.
fn first_meta(fresh: NonZeroU32) -> Meta
    ensures value { result ≡ first_meta (non_zero_u32_get fresh) }
    ensures numbers { (0 < result.validity) × (0 < result.next) }
{
    Meta {
        validity: fresh.get(),
        next: 1,
    }
}

/// Whether the UIDs, which rise, are below the next one.
fn are_below(entries: &[SurveyEntry], next: u32) -> bool
    requires { AllPairs (λ a b. a.uid < b.uid) entries.now }
    ensures { MatchBool result (All (λ e. e.uid < next) entries.now) (¬ All (λ e. e.uid < next) entries.now) }
{
    match entries.last() {
        Some(last) => last.uid.get() < next,
        None => true,
    }
}
