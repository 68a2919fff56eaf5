//! The near mailbox that stands in the folder of a trial, read without a call of it.

ghost use Rattle.std.specs.Prelude.{◌≡◌, ◌++◌, ◌∷◌, [], ◌<◌, ℕ, true, filter, map, AllPairs, IfOk, IfSome, OnOk};
ghost use Rattle.maildir.specs.FileLists.{files_left};
ghost use Rattle.maildir.specs.FlaggedNames.{flags_by_name, letters_by_name};
ghost use Rattle.maildir.specs.MemFolders.{stored_in};
ghost use Rattle.maildir.specs.Names.{is_waiting, uid_in};
ghost use Rattle.near_box.specs.Mailboxes.{by_uid, messages_in, meta_at, near_of, place_cmp, name_cmp, waiting_files, waiting_of as waiting_in};
ghost use Rattle.std.specs.Ordering.{ordering_then};
ghost use Rattle.run_trial.specs.Printed.{mailbox_in};
ghost use Rattle.run_trial.specs.Worlds.{waiting_of};

use crate::failure::TrialError;
use mailcore::flags::Flags;
use mailcore::keywords::Keywords;
use mailcore::mailbox::Message;
use mailcore::octets::Octets;
use mailcore::uid::Uid;
use maildir::file_list::FileList;
use maildir::folder::File;
use maildir::letters::flags_in;
use maildir::mem_folder::MemFolder;
use maildir::meta::Meta;
use maildir::name::read_name;
use std::alloc::{AllocError, Global};
use std::cmp::Ordering;
use worlds::world::WaitingFile;

/// A near mailbox as its folder holds it.
#[derive(Drop)]
pub struct Contents {
    /// Its UIDVALIDITY and its UIDNEXT.
    pub meta: Meta,
    /// Its messages, in the order of their UIDs.
    pub messages: Vec<Message>,
    /// The files that wait for a UID, in the order in which they get one.
    pub waiting: Vec<WaitingFile>,
}

/// The near mailbox that stands in this folder, seen by this map. `NoWorld`: there is no meta file, or it is not spelled as one, or two
/// files have one UID.
pub fn contents_of(
    alloc: Global,
    folder: &MemFolder,
    keywords: &Keywords,
) -> Result<Contents, TrialError>
    ensures { (fresh : ℕ) → IfOk result (λ near. mailbox_in near ≡ near_of fresh keywords.now (stored_in folder.now)) }
{
    let Some(meta) = meta_in(folder) else {
        return Err(TrialError::NoWorld);
    };
    let messages = messages_in(alloc, folder, keywords)?;
    match waiting_in(alloc, folder, keywords) {
        Ok(waiting) => Ok(Contents {
            meta,
            messages,
            waiting,
        }),
        Err(fault) => Err(fault.into()),
    }
}

/// What its meta file says.
fn meta_in(folder: &MemFolder) -> Option<Meta>
    ensures { (fresh : ℕ) → IfSome result (λ meta. meta ≡ meta_at fresh (stored_in folder.now)) }
{
    match folder.meta() {
        Some(text) => Meta::read(text),
        None => None,
    }
}

/// Its messages. `NoWorld`: two of them have one UID.
fn messages_in(
    alloc: Global,
    folder: &MemFolder,
    keywords: &Keywords,
) -> Result<Vec<Message>, TrialError>
    ensures { IfOk result (λ messages. messages.items ≡ by_uid (messages_in keywords.now (stored_in folder.now).files)) }
{
    let mut messages = messages_among(alloc, folder.files(), keywords)?;
    messages.sort_unstable_by_key(|message| message.uid.get());
    if rise(&messages) {
        Ok(messages)
    } else {
        Err(TrialError::NoWorld)
    }
}

/// The messages that stand in these files, in the order of the files.
#[tactic(auto, using(crate::proofs::ContentsLemmas::one_more))]
fn messages_among(
    alloc: Global,
    files: FileList<'_>,
    keywords: &Keywords,
) -> Result<Vec<Message>, AllocError>
    ensures { IfOk result (λ messages. messages.items ≡ messages_in keywords.now (files_left files.entry)) }
{
    let mut messages = Vec::new(alloc);
    for file in files {
        add_message(alloc, &mut messages, file, keywords)?;
    }
    Ok(messages)
}

/// Adds the message that a file is, if its name has a UID.
fn add_message(
    alloc: Global,
    messages: &mut Vec<Message>,
    file: &File,
    keywords: &Keywords,
) -> Result<(), AllocError>
    ensures { OnOk result (messages.new.items ≡ messages.old.items ++ messages_in keywords.now (file.now ∷ [])) }
{
    if let Some(uid) = uid_in(file.name.as_slice()) {
        messages.push(Message {
            uid,
            flags: flags_of(file.name.as_slice(), keywords),
            bytes: copy_of(alloc, &file.bytes)?,
        })?;
    }
    Ok(())
}

/// Whether the UIDs rise, from each message to the next.
fn rise(messages: &[Message]) -> bool
    ensures { result ≡ true → AllPairs (λ a b. a.uid < b.uid) messages.now }
{
    messages.is_sorted_by(|a, b| a.uid.get() < b.uid.get())
}

/// The files of a folder that wait for a UID.
fn waiting_in(
    alloc: Global,
    folder: &MemFolder,
    keywords: &Keywords,
) -> Result<Vec<WaitingFile>, AllocError>
    ensures { IfOk result (λ waiting. map waiting_of waiting.items
        ≡ map (waiting_in keywords.now) (waiting_files (stored_in folder.now).files)) }
{
    let files = waiting_files(alloc, folder)?;
    let mut waiting = Vec::new(alloc);
    for file in &files {
        waiting.push(WaitingFile {
            flags: flags_of(file.name.as_slice(), keywords),
            bytes: copy_of(alloc, &file.bytes)?,
        })?;
    }
    Ok(waiting)
}

/// The files of a folder without a UID, in the order in which they get one.
fn waiting_files(alloc: Global, folder: &MemFolder) -> Result<Vec<&File>, AllocError>
    ensures { IfOk result (λ files. map (λ file. file.now) files.items ≡ waiting_files (stored_in folder.now).files) }
{
    let mut files = waiting_among(alloc, folder.files())?;
    files.sort_by(by_name)?;
    Ok(files)
}

/// Those of some files, in the order of the files.
fn waiting_among<'a>(alloc: Global, files: FileList<'a>) -> Result<Vec<&'a File>, AllocError>
    ensures { IfOk result (λ waiting. map (λ file. file.now) waiting.items
        ≡ filter (λ file. is_waiting file.name) (files_left files.entry)) }
{
    let mut waiting = Vec::new(alloc);
    for file in files {
        if is_waiting(file.name.as_slice()) {
            waiting.push(file)?;
        }
    }
    Ok(waiting)
}

/// The order of waiting files: that of their names, `new` before `cur`.
fn by_name(a: &&File, b: &&File) -> Ordering
    ensures { result ≡ ordering_then (name_cmp a.now.now.name b.now.now.name) (place_cmp a.now.now.place b.now.now.place) }
{
    a.name
        .as_slice()
        .cmp(b.name.as_slice())
        .then(a.place.cmp(&b.place))
}

/// The UID in a name.
fn uid_in(name: &[u8]) -> Option<Uid>
    ensures { result ≡ uid_in name.now }
{
    match read_name(name) {
        Some(name) => name.uid,
        None => None,
    }
}

/// Whether a file of this name waits for a UID.
fn is_waiting(name: &[u8]) -> bool
    ensures { result ≡ is_waiting name.now }
{
    match read_name(name) {
        Some(name) => name.uid.is_none(),
        None => false,
    }
}

/// The flags of a file of this name: those of its letters that have a name in IMAP.
fn flags_of(name: &[u8], keywords: &Keywords) -> Flags
    ensures { result ≡ flags_by_name keywords.now name.now }
{
    flags_in(letters_in(name)).kept(keywords)
}

/// The letters in the name of a file.
fn letters_in(name: &[u8]) -> &[u8]
    ensures { result.now ≡ letters_by_name name.now }
{
    match read_name(name) {
        Some(name) => name.letters.unwrap_or(b""),
        None => b"",
    }
}

/// The bytes once more.
pub(crate) fn copy_of(alloc: Global, bytes: &Octets) -> Result<Octets, AllocError>
    ensures { IfOk result (λ copy. copy ≡ bytes.now) }
{
    Ok(Octets::from_vec(Vec::from_slice(alloc, bytes.as_slice())?))
}
