//! Which messages the answer to a listing has reported, and which by half: a server may say a message in more than one FETCH reply
//! (RFC 9051, section 7.5.2).

ghost use Rattle.std.specs.Prelude.{◌≡◌, ◌++◌, [], true, List, ℕ, None, IfOk, OnOk};
ghost use Rattle.link_face.specs.declared.row.ItemName.{ItemName};
ghost use Rattle.link_face.specs.Faces.{IsHeard};
ghost use Rattle.link_face.specs.Rows.{Holds, IsRowOf, Item};
ghost use Rattle.link_face.specs.GatheredRows.{AddsWhole, EndsWhole, Gathers, HoldsHalf, IsComplete, IsHalfOf, JoinsRow, Keeps, NotesText, held, items_of};

use crate::head::{ReplyHead, head_of, is_tagged_ok};
use crate::message_count::MessageCount;
use crate::row::FetchRow;
use crate::token::number_of;
use crate::turning::{Turn, whole_row};
use std::alloc::{AllocError, Global};
use std::collections::{BTreeMap, BTreeSet};
use wire_tokens::appending::append;
use wire_tokens::number::write_number;

/// The end of the command that lists the messages of a mailbox.
const LISTING_END: &[u8] = b" (UID FLAGS RFC822.SIZE)\r\n";

/// The most bytes that messages reported by half take: those of some hundred thousand.
const HALVES_MAX: usize = 16_777_216;

/// What a message reported by half takes beside its values.
const HALF_BYTES: usize = 64;

/// What was reported of a message of which something is missing.
#[derive(Drop)]
pub(crate) struct Half {
    pub(crate) flags: Option<Vec<u8>>,
    pub(crate) size: Option<Vec<u8>>,
}

impl Half {
    /// Nothing.
    fn none() -> Half
        ensures { items_of result ≡ [] }
    {
        Half {
            flags: None,
            size: None,
        }
    }

    /// What this row says. `AllocError`: memory ran out.
    fn new(alloc: Global, row: &FetchRow<'_>) -> Result<Half, AllocError>
        ensures { (items : List Item) → IsRowOf items row.now → IfOk result (IsHalfOf items) }
    {
        Ok(Half {
            flags: copied(alloc, row.flags)?,
            size: copied(alloc, row.size)?,
        })
    }

    /// The row without its UID.
    #[tactic(auto, using(crate::proofs::GatheredRowsLemmas::half_row))]
    fn row(&self) -> FetchRow<'_>
        ensures { IsRowOf (items_of self.now) result }
    {
        FetchRow {
            uid: None,
            flags: lent(&self.flags),
            size: lent(&self.size),
            body: None,
            head: None,
        }
    }

    /// How many bytes it takes.
    fn len(&self) -> usize {
        HALF_BYTES
            .saturating_add(len_of(&self.flags))
            .saturating_add(len_of(&self.size))
    }
}

/// What the answer to the command that was sent last has reported of messages. Of the answer to another command than a listing that is
/// nothing: what a server says unasked is not used there.
#[derive(Drop)]
pub(crate) struct ListedRows {
    alloc: Global,
    /// Whether that command is a listing.
    pub(crate) is_listing: bool,
    /// The UIDs of the messages that were reported whole.
    pub(crate) whole: BTreeSet<u32>,
    /// What was reported of others, by their UIDs.
    pub(crate) halves: BTreeMap<u32, Half>,
    /// How many bytes more those may take.
    left: usize,
    /// The messages of the selected mailbox.
    pub(crate) standing: MessageCount,
}

impl ListedRows {
    /// Nothing, of no mailbox.
    pub(crate) fn new(alloc: Global) -> ListedRows {
        ListedRows::of(alloc, MessageCount::none())
    }

    /// Nothing, of these messages.
    fn of(alloc: Global, standing: MessageCount) -> ListedRows {
        ListedRows {
            alloc,
            is_listing: false,
            whole: BTreeSet::new(alloc),
            halves: BTreeMap::new(alloc),
            left: HALVES_MAX,
            standing,
        }
    }

    /// This command is sent.
    pub(crate) fn begin(&mut self, command: &[u8]) {
        let standing = if opens_mailbox(command) {
            MessageCount::none()
        } else {
            self.standing.asked()
        };
        *self = ListedRows::of(self.alloc, standing);
        self.is_listing = command.ends_with(LISTING_END);
    }

    /// Octets of a message are sent.
    pub(crate) fn pass(&mut self) {
        *self = ListedRows::of(self.alloc, self.standing);
    }

    /// Whether no message is reported by half, and none is missing of those that the mailbox had when the listing was sent.
    fn is_complete(&self) -> bool
        ensures { result ≡ true → IsComplete self.now }
    {
        self.halves.is_empty() && self.standing.missing == 0
    }

    /// Notes what a reply says of messages. False: it must not be heard, since it is the OK of a listing that has reported a message by half
    /// or has left one out, and the message would count as none of the mailbox; or it is a row that cannot be read.
    ///
    /// `AllocError`: memory ran out.
    #[tactic(auto, using(crate::proofs::GatheredRowsLemmas::other_reply))]
    pub(crate) fn note(&mut self, raw: &[u8]) -> Result<bool, AllocError>
        ensures { IfOk result (λ is_heard. is_heard ≡ true → EndsWhole raw.now self.old) }
    {
        if is_tagged_ok(raw) {
            return Ok(!self.is_listing || self.is_complete());
        }
        match head_of(raw) {
            ReplyHead::Numbered(number, event, rest) => self.note_event(number, event, rest),
            _ => Ok(true),
        }
    }

    /// The same of a reply with this number, this word after it, and this rest.
    fn note_event(&mut self, number: &[u8], event: &[u8], rest: &[u8]) -> Result<bool, AllocError> {
        let Some(number) = number_of(number) else {
            return Ok(false);
        };
        if event.eq_ignore_ascii_case(b"FETCH") {
            return self.note_row(number, rest);
        }
        if event.eq_ignore_ascii_case(b"EXISTS") {
            self.standing = self.standing.with_exists(number);
        } else if event.eq_ignore_ascii_case(b"EXPUNGE") {
            self.standing = self.standing.expunged(number);
        }
        Ok(true)
    }

    /// The same of the row of the message with this number.
    #[tactic(auto, using(crate::proofs::GatheredRowsLemmas::notes_whole, crate::proofs::GatheredRowsLemmas::notes_none))]
    fn note_row(&mut self, number: u32, rest: &[u8]) -> Result<bool, AllocError>
        ensures { self.old.is_listing ≡ true → IfOk result (λ is_heard. is_heard ≡ true → NotesText self.old self.new number rest.now) }
    {
        if !self.is_listing {
            return Ok(true);
        }
        let Some(row) = FetchRow::read(rest) else {
            return Ok(false);
        };
        if !row.has_listing() {
            return Ok(true);
        }
        let Some(uid) = row.uid_number() else {
            return Ok(false);
        };
        self.note_whole(number, uid)?;
        Ok(true)
    }

    /// The message with this number and this UID is reported whole.
    #[tactic(auto, using(crate::proofs::GatheredRowsLemmas::adds_new, crate::proofs::GatheredRowsLemmas::adds_again))]
    fn note_whole(&mut self, number: u32, uid: u32) -> Result<(), AllocError>
        ensures { OnOk result (AddsWhole self.old self.new number uid) }
    {
        self.take_half(uid);
        if self.whole.insert(uid)? {
            self.standing = self.standing.reported(number);
        }
        Ok(())
    }

    /// Takes out what was reported by half of this message.
    #[tactic(auto, using(crate::proofs::GatheredRowsLemmas::holds_half, crate::proofs::GatheredRowsLemmas::taken_items, crate::proofs::GatheredRowsLemmas::none_taken))]
    fn take_half(&mut self, uid: u32) -> Half
        ensures items { items_of result ≡ held self.old uid }
        ensures halves { HoldsHalf self.old self.new uid None }
        ensures whole { self.new.whole ≡ self.old.whole }
        ensures standing { self.new.standing ≡ self.old.standing }
    {
        let Some(half) = self.halves.remove(&uid) else {
            return Half::none();
        };
        self.left = self.left.saturating_add(half.len());
        half
    }

    /// What a client hears of a row that lacks items: where the message was reported by half before, and is whole with this row, the row of
    /// both; otherwise nothing. What was reported by half is kept; where the message was reported whole before, it is not, since the other half
    /// would be missing.
    ///
    /// `AllocError`: memory ran out.
    pub(crate) fn joined(&mut self, raw: &[u8]) -> Result<Turn, AllocError>
        ensures heard { IfOk result IsHeard }
    {
        if !self.is_listing {
            return Ok(Turn::Omit);
        }
        match head_of(raw) {
            ReplyHead::Numbered(number, event, rest) if event.eq_ignore_ascii_case(b"FETCH") => {
                match FetchRow::read(rest) {
                    Some(row) => self.joined_row(number, row),
                    None => Ok(Turn::Stop),
                }
            }
            _ => Ok(Turn::Omit),
        }
    }

    /// The same of a row with this number.
    #[tactic(auto, using(crate::proofs::GatheredRowsLemmas::joins_gathered, crate::proofs::GatheredRowsLemmas::held_row, crate::proofs::GatheredRowsLemmas::joins_whole, crate::proofs::GatheredRowsLemmas::joins_stopped, crate::proofs::GatheredRowsLemmas::joins_unnamed))]
    fn joined_row(&mut self, number: &[u8], row: FetchRow<'_>) -> Result<Turn, AllocError>
        ensures heard { IfOk result IsHeard }
        ensures row { (items : List Item) → IsRowOf items row.entry → IfOk result (JoinsRow self.old self.new number.now items) }
    {
        let Some(_) = row.uid else {
            return Ok(Turn::Omit);
        };
        let Some(uid) = row.uid_number() else {
            return Ok(Turn::Stop);
        };
        if self.whole.contains(&uid) {
            return Ok(Turn::Omit);
        }
        let half = self.take_half(uid);
        self.all_rows(number, uid, row.after(&half.row()))
    }

    /// The same of all rows of the message, in one.
    #[tactic(auto, using(crate::proofs::GatheredRowsLemmas::gathered_if))]
    fn all_rows(&mut self, number: &[u8], uid: u32, row: FetchRow<'_>) -> Result<Turn, AllocError>
        ensures heard { IfOk result IsHeard }
        ensures row { (items : List Item) → IsRowOf items row.entry → IfOk result (Gathers self.old self.new number.now items uid) }
    {
        let Some(place) = number_of(number) else {
            return Ok(Turn::Stop);
        };
        if row.has_listing() {
            self.note_whole(place, uid)?;
            whole_row(self.alloc, number, row)
        } else {
            self.keep_half(uid, &row)
        }
    }

    /// Keeps what is reported by half of a message, if there is room for it.
    #[tactic(auto, using(crate::proofs::GatheredRowsLemmas::kept_half))]
    fn keep_half(&mut self, uid: u32, row: &FetchRow<'_>) -> Result<Turn, AllocError>
        ensures heard { IfOk result IsHeard }
        ensures kept { (number : List ℕ) (items : List Item) → IsRowOf items row.now → IfOk result (Gathers self.old self.new number items uid) }
    {
        let half = Half::new(self.alloc, row)?;
        let Some(left) = self.left.checked_sub(half.len()) else {
            return Ok(Turn::Stop);
        };
        self.halves.insert(uid, half)?;
        self.left = left;
        Ok(Turn::Omit)
    }

    /// What is missing in the answer that this reply ends, for people. None: nothing is, or it ends none.
    ///
    /// `AllocError`: memory ran out.
    pub(crate) fn complaint(&self, raw: &[u8]) -> Result<Option<Vec<u8>>, AllocError> {
        if !self.is_listing || !is_tagged_ok(raw) {
            return Ok(None);
        }
        let mut text = Vec::new(self.alloc);
        if let Some((uid, _)) = self.halves.first_key_value() {
            append(
                b"the list of messages lacks FLAGS or RFC822.SIZE of the message with UID ",
                &mut text,
            )?;
            write_number(*uid, &mut text)?;
            return Ok(Some(text));
        }
        if self.standing.missing == 0 {
            return Ok(None);
        }
        append(b"the list of messages lacks ", &mut text)?;
        write_number(self.standing.missing, &mut text)?;
        append(b" of those that the mailbox has", &mut text)?;
        Ok(Some(text))
    }
}

/// Whether this command opens a mailbox.
fn opens_mailbox(command: &[u8]) -> bool {
    command.split(|b| *b == b' ').nth(1) == Some(b"SELECT".as_slice())
}

fn copied(alloc: Global, value: Option<&[u8]>) -> Result<Option<Vec<u8>>, AllocError>
    ensures { (name : ItemName) (items : List Item) → Holds name items value.entry → IfOk result (Keeps name items) }
{
    match value {
        Some(bytes) => Ok(Some(Vec::from_slice(alloc, bytes)?)),
        None => Ok(None),
    }
}

fn lent(value: &Option<Vec<u8>>) -> Option<&[u8]>
    ensures { (name : ItemName) (items : List Item) → Keeps name items value.now → Holds name items result }
{
    match value {
        Some(bytes) => Some(bytes),
        None => None,
    }
}

fn len_of(value: &Option<Vec<u8>>) -> usize {
    match value {
        Some(bytes) => bytes.len(),
        None => 0,
    }
}
