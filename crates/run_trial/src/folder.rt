//! The near mailbox of a trial, as files of a folder in memory.

ghost use Rattle.std.specs.Prelude.{◌≡◌, ◌++◌, false, fold, map, IfOk, OnOk};
ghost use Rattle.maildir.specs.MemFolders.{seen_of, stored_in, with_file};
ghost use Rattle.run_trial.specs.Folders.{digits, folder_of, message_name, put_message, put_waiting, waiting_name};
ghost use Rattle.run_trial.specs.Worlds.{store_of, waiting_of};

use device::schedule::CallStop;
use mailcore::flags::Flags;
use mailcore::keywords::Keywords;
use mailcore::mailbox::{Message, StoredMailbox};
use mailcore::octets::Octets;
use maildir::folder::{File, Place};
use maildir::letters::letters_with;
use maildir::mem_folder::{FolderCall, MemFolder};
use maildir::meta::Meta;
use maildir::name::spell;
use std::alloc::{AllocError, Global};
use worlds::world::WaitingFile;

/// How many digits the name of a waiting file has.
const DIGITS: u32 = 20;

/// How many digits the name of a file that others add has.
const ARRIVAL_DIGITS: u32 = 8;

/// A folder with this mailbox: a message of UID 7 stands in `cur` as `m,U=7:2,LETTERS`, a waiting file after which nine files stand
/// already as `w00000000000000000009:2,LETTERS`, and there is a meta file. Its calls stop as the schedule says.
pub fn folder_with(
    alloc: Global,
    near: StoredMailbox,
    waiting: Vec<WaitingFile>,
    schedule: Vec<CallStop<FolderCall>>,
    keywords: &Keywords,
) -> Result<MemFolder, AllocError>
    ensures { IfOk result (λ folder. seen_of folder ≡ record {
      stored = folder_of keywords.now (store_of near) (map waiting_of waiting.items);
      is_broken = false;
      stops = 0;
    }) }
{
    let meta = Meta {
        validity: near.validity,
        next: near.next,
    };
    let mut folder = MemFolder::new(alloc, schedule);
    folder.put_meta(Octets::from_vec(meta.text(alloc)?));
    put_messages(alloc, &mut folder, near.messages.into_vec(), keywords)?;
    put_waiting(alloc, &mut folder, waiting, keywords)?;
    Ok(folder)
}

fn put_messages(
    alloc: Global,
    folder: &mut MemFolder,
    messages: Vec<Message>,
    keywords: &Keywords,
) -> Result<(), AllocError>
    ensures { OnOk result (seen_of folder.new
        ≡ record (seen_of folder.old) { stored = fold (put_message keywords.now) (stored_in folder.old) messages.items }) }
{
    for message in messages {
        let name = message_name(alloc, &message, keywords)?;
        put(folder, name, message.bytes)?;
    }
    Ok(())
}

fn put_waiting(
    alloc: Global,
    folder: &mut MemFolder,
    waiting: Vec<WaitingFile>,
    keywords: &Keywords,
) -> Result<(), AllocError>
    ensures { OnOk result (seen_of folder.new
        ≡ record (seen_of folder.old) { stored = fold (λ s f. put_waiting keywords.now s (waiting_of f)) (stored_in folder.old) waiting.items }) }
{
    for file in waiting {
        let name = waiting_name(alloc, folder.files().len(), file.flags, keywords)?;
        put(folder, name, file.bytes)?;
    }
    Ok(())
}

fn put(folder: &mut MemFolder, name: Vec<u8>, bytes: Octets) -> Result<(), AllocError>
    ensures { OnOk result (seen_of folder.new
        ≡ record (seen_of folder.old) { stored = with_file (record { place = Place.Cur; name = name.items; bytes = bytes }) (stored_in folder.old) }) }
{
    folder.put(File {
        place: Place::Cur,
        name: Octets::from_vec(name),
        bytes,
    })
}

fn message_name(
    alloc: Global,
    message: &Message,
    keywords: &Keywords,
) -> Result<Vec<u8>, AllocError>
    ensures { IfOk result (λ name. name.items ≡ message_name keywords.now message.now) }
{
    let letters = letters_with(alloc, b"", message.flags, keywords)?;
    spell(alloc, b"m", Some(message.uid), Some(&letters))
}

/// The name of the file that waits with so many others before it.
fn waiting_name(
    alloc: Global,
    number: usize,
    flags: Flags,
    keywords: &Keywords,
) -> Result<Vec<u8>, AllocError>
    ensures { IfOk result (λ name. name.items ≡ waiting_name keywords.now number flags) }
{
    let mut base = Vec::from_slice(alloc, b"w")?;
    push_digits(&mut base, number, DIGITS)?;
    let letters = letters_with(alloc, b"", flags, keywords)?;
    spell(alloc, &base, None, Some(&letters))
}

/// The name of the file that others add by the line of this number: `a`, the number in eight digits, and the letters.
pub(crate) fn arrival_name(
    alloc: Global,
    number: usize,
    flags: Flags,
    keywords: &Keywords,
) -> Result<Vec<u8>, AllocError> {
    let mut base = Vec::from_slice(alloc, b"a")?;
    push_digits(&mut base, number, ARRIVAL_DIGITS)?;
    let letters = letters_with(alloc, b"", flags, keywords)?;
    spell(alloc, &base, None, Some(&letters))
}

/// Adds so many digits of a number, the most significant first.
#[tactic(auto, unfolding(crate::specs::Folders::digits))]
fn push_digits(text: &mut Vec<u8>, number: usize, count: u32) -> Result<(), AllocError>
    ensures { OnOk result (text.new.items ≡ text.old.items ++ digits count number) }
{
    if count == 0 {
        return Ok(());
    }
    push_digits(text, number / 10, count - 1)?;
    text.push(b'0' + (number % 10) as u8)?;
    Ok(())
}
