//! Which of some messages stand in a Maildir folder of a disk, whatever kind of thing bears their names, and whether these are marked as
//! deleted.
//!
//! What is a message, and which, the whole spelling of a name says: such a name is its own UID's alone, also where another `,U=` stands in
//! its base, as `NAME,U=2,FMD5=HASH,U=5:2,S` after OfflineIMAP. Here a name that only begins as that of a message counts as well, so that a
//! file which got an odd tail, as `NAME,U=5:2,SF` or `NAME,U=5:2,S~`, is not taken for one that was removed. A name that begins with a dot
//! is no message's: so other programs name what they are still writing, or hide.

ghost use Rattle.std.specs.Prelude.{◌≡◌, ◌++◌, [], ◌∷◌, None, IfOk, OnErr, find};
ghost use Rattle.std.specs.List.Sorted.{IsNonDecreasingBy};
ghost use Rattle.maildir.specs.Standings.{HasBegun, HasLooked, HasMet, files_in, first, first_stale, is_among, is_marked, is_spelled};
ghost use Rattle.maildir.specs.Names.{uid_in};
ghost use Rattle.maildir.specs.Standings.{is_hidden, odd_shown, reported_among, shown, shown_by, uid_ahead, uids_ahead};

use crate::entries::entries_in;
use crate::folder::{FileName, Place};
use crate::name::{read_name, read_uid};
use device::history::History;
use mailcore::octets::Octets;
use mailcore::uid::Uid;
use std::alloc::{AllocError, Global};
use std::io;
use std::rt::Files;
use texts::cut::cut;

/// The messages of a look, by their UIDs, which rise.
#[derive(Clone, Copy)]
pub struct Sought<'a> {
    /// Those that count as removed.
    pub gone: &'a [Uid],
    /// Those that count as marked as deleted.
    pub marked: &'a [Uid],
    ghost gone_rise: { IsNonDecreasingBy (λ uid. uid) gone.now },
    ghost marked_rise: { IsNonDecreasingBy (λ uid. uid) marked.now },
}

/// A message that is not as it was counted.
#[derive(Drop)]
pub enum Stale {
    /// It counts as removed, and is there under this name.
    There(Uid, FileName),
    /// It counts as marked as deleted, and its name does not say so.
    Unmarked(Uid, FileName),
}

/// The names that stood in `new` or `cur` when they were read.
#[derive(Drop)]
pub struct NameReading {
    /// In which of the two.
    pub place: Place,
    /// The names, whatever bears them.
    pub names: Vec<Octets>,
}

/// The first of these messages that is not as it was counted, by one reading of the names in `new` and `cur` of the folder at this path.
/// Both readings are noted.
///
/// An error of the system, or want of memory: those that were read until then are noted.
pub fn first_stale<R: Files + AllocGlobal>(
    rt: &R,
    folder: &str,
    readings: &mut History<NameReading>,
    sought: Sought<'_>,
) -> io::Result<Option<Stale>>
    ensures ok { IfOk result (λ found. HasLooked sought.entry.gone.now sought.entry.marked.now found readings.old.items readings.new.items) }
    ensures err { OnErr result (HasBegun readings.old.items readings.new.items) }
{
    let new = read_names(rt, folder, Place::New, readings)?;
    let cur = read_names(rt, folder, Place::Cur, readings)?;
    let found = stale_among(rt.alloc(), new, cur, sought)?;
    Ok(found)
}

/// Reads the names in `new` or `cur` of the folder at this path, and notes them. That it reads what it notes is to be read.
fn read_names<R: Files + AllocGlobal>(
    rt: &R,
    folder: &str,
    place: Place,
    readings: &mut History<NameReading>,
) -> io::Result<Vec<Octets>>
    ensures ok { IfOk result (λ names. readings.new.items ≡ record { place = place; names = names } ∷ readings.old.items) }
    ensures err { OnErr result (readings.new.items ≡ readings.old.items) }
{
    let part = place.folder();
    let path = format!(in rt.alloc(); "{folder}/{part}/")?;
    let reading = NameReading {
        place,
        names: entries_in(rt, path.as_str())?,
    };
    *readings = readings.and(&reading);
    let NameReading { names, .. } = reading;
    Ok(names)
}

/// The first of these messages that is not as it was counted, by these names in `new` and `cur`.
fn stale_among(
    alloc: Global,
    new: Vec<Octets>,
    cur: Vec<Octets>,
    sought: Sought<'_>,
) -> Result<Option<Stale>, AllocError>
    ensures { IfOk result (λ found. found
        ≡ first_stale sought.entry.gone.now sought.entry.marked.now (files_in Place.New new.items ++ files_in Place.Cur cur.items)) }
{
    let mut look = Look::new(alloc, sought);
    if let Some(stale) = look.meet_all(Place::New, new)? {
        return Ok(Some(stale));
    }
    if let Some(stale) = look.meet_all(Place::Cur, cur)? {
        return Ok(Some(stale));
    }
    Ok(look.odd_one())
}

/// A look at names, one after the other.
#[derive(Drop)]
struct Look<'a> {
    sought: Sought<'a>,
    /// The messages that were met, marked as deleted.
    marked: Vec<Uid>,
    /// The names that only begin as that of a message which counts as marked as deleted, and do not say so.
    odd: Vec<(Uid, FileName)>,
}

impl<'a> Look<'a> {
    /// No name was met.
    fn new(alloc: Global, sought: Sought<'a>) -> Self
        ensures sought { result.sought ≡ sought.entry }
        ensures marked { result.marked.items ≡ [] }
        ensures odd { result.odd.items ≡ [] }
    {
        Look {
            sought,
            marked: Vec::new(alloc),
            odd: Vec::new(alloc),
        }
    }

    /// Takes the names in this folder. Some: the first that shows by itself that a message is not as it was counted.
    fn meet_all(&mut self, place: Place, names: Vec<Octets>) -> Result<Option<Stale>, AllocError>
        ensures found { IfOk result (λ found. found
            ≡ first (shown_by self.old.sought.gone.now self.old.sought.marked.now (files_in place names.items))) }
        ensures met { IfOk result (λ found. found ≡ None → HasMet self.old.sought.marked.now (files_in place names.items)
            self.old.marked.items self.new.marked.items self.old.odd.items self.new.odd.items) }
        ensures sought { self.new.sought ≡ self.old.sought }
    {
        for name in names {
            if let Some(stale) = self.meet(FileName { place, name })? {
                return Ok(Some(stale));
            }
        }
        Ok(None)
    }

    /// Takes one name more. Some: it shows by itself that a message is not as it was counted.
    fn meet(&mut self, file: FileName) -> Result<Option<Stale>, AllocError>
        ensures found { IfOk result (λ found. found ≡ shown self.old.sought.gone.now self.old.sought.marked.now file) }
        ensures met { IfOk result (λ found. found ≡ None → HasMet self.old.sought.marked.now (file ∷ [])
            self.old.marked.items self.new.marked.items self.old.odd.items self.new.odd.items) }
        ensures sought { self.new.sought ≡ self.old.sought }
    {
        let name = file.name.as_slice();
        if let Some(uid) = reported_among(name, self.sought.gone) {
            return Ok(Some(Stale::There(uid, file)));
        }
        let Some(uid) = reported_among(name, self.sought.marked) else {
            return Ok(None);
        };
        match (is_spelled(name), is_marked(name)) {
            (true, true) => self.marked.push(uid)?,
            (true, false) => return Ok(Some(Stale::Unmarked(uid, file))),
            (false, true) => {}
            (false, false) => self.odd.push((uid, file))?,
        }
        Ok(None)
    }

    /// The first message that is there under an odd name alone, which does not say that it is marked as deleted.
    fn odd_one(self) -> Option<Stale>
        ensures { result ≡ odd_shown self.entry.marked.items self.entry.odd.items }
    {
        let Look {
            mut marked,
            odd,
            ..
        } = self;
        marked.sort_unstable_by_key(|uid| uid.get());
        let met = marked.as_slice();
        odd.into_iter()
            .find(|(uid, _)| !is_among(*uid, met))
            .map(|(uid, file)| Stale::Unmarked(uid, file))
    }
}

/// The UID that a name reports, if it is one of these, which rise: its own, where it is the whole name of a message, and none, where it begins
/// with a dot. Otherwise the first that stands in it.
fn reported_among(name: &[u8], uids: &[Uid]) -> Option<Uid>
    requires { IsNonDecreasingBy (λ uid. uid) uids.now }
    ensures { result ≡ reported_among uids.now name.now }
{
    if uids.is_empty() {
        return None;
    }
    match uid_in(name) {
        Some(uid) if is_among(uid, uids) => Some(uid),
        Some(_) => None,
        None if is_hidden(name) => None,
        None => ahead_among(name, uids),
    }
}

/// The first UID that stands in a name, after a comma, and is one of these, which rise.
fn ahead_among(name: &[u8], uids: &[Uid]) -> Option<Uid>
    requires { IsNonDecreasingBy (λ uid. uid) uids.now }
    ensures { result ≡ find (is_among uids.now) (uids_ahead name.now) }
{
    name.split(|byte| *byte == b',')
        .skip(1)
        .filter_map(|piece| reported_uid(piece))
        .find(|uid| is_among(*uid, uids))
}

/// The UID after `U=` at the head of this piece of a name, whatever comes after its digits.
fn reported_uid(piece: &[u8]) -> Option<Uid>
    ensures { result ≡ uid_ahead piece.now }
{
    let following = piece.strip_prefix(b"U=")?;
    let end = following
        .iter()
        .position(|byte| !byte.is_ascii_digit())
        .unwrap_or(following.len());
    read_uid(&following[..end])
}

/// Whether a UID is one of these, which rise.
fn is_among(uid: Uid, uids: &[Uid]) -> bool
    ensures { IsNonDecreasingBy (λ uid. uid) uids.now → result ≡ is_among uids.now uid }
{
    uids.binary_search_by_key(&uid.get(), |one| one.get())
        .is_ok()
}

/// The UID of the message whose whole name this is.
fn uid_in(name: &[u8]) -> Option<Uid>
    ensures { result ≡ uid_in name.now }
{
    match read_name(name) {
        Some(name) => name.uid,
        None => None,
    }
}

/// Whether this is the whole name of a message.
fn is_spelled(name: &[u8]) -> bool
    ensures { result ≡ is_spelled name.now }
{
    uid_in(name).is_some()
}

/// Whether a name begins with a dot.
fn is_hidden(name: &[u8]) -> bool
    ensures { result ≡ is_hidden name.now }
{
    name.starts_with(b".")
}

/// Whether the letter of a message that is marked as deleted stands among the flags of a name.
fn is_marked(name: &[u8]) -> bool
    ensures { result ≡ is_marked name.now }
{
    match cut(name, b':') {
        Some((_, flags)) => flags.contains(&b'T'),
        None => false,
    }
}
