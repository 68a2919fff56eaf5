//! The lines of the mailboxes of a world: `far` and `near`, `f`, `n` and `w`.

ghost use Rattle.std.specs.Prelude.{◌≡◌, ◌+◌, ◌<◌, ◌≤◌, ◌^◌, ◌++◌, [], ◌∷◌, IfErr, IfOk, IfSome, IsErrOf, OnOk, decimal, map};
ghost use Rattle.std.specs.List.{flat_map, join_with_byte};
ghost use Rattle.mailcore.specs.Words.{flags_word, side_word};
ghost use Rattle.mailcore.specs.KeywordNames.{IsWithin};
ghost use Rattle.worlds.specs.Lines.{IsOf, IsUpTo};
ghost use Rattle.texts.specs.Lines.{line_count};
ghost use Rattle.worlds.specs.Admission.{message_of};
ghost use Rattle.worlds.specs.WorldText.{mailbox_text, message_word, message_words, quoted, waiting_line, waiting_words};
ghost use Rattle.worlds.specs.Worlds.{AreNamed, store_of, waiting_of};

use crate::fault::WorldFault;
use crate::line::{pushed, take_line};
use crate::words::{read_named, split_word};
use crate::world::{Waiting, WaitingFile};
use mailcore::content::MESSAGE_MAX;
use mailcore::fault::PushFault;
use mailcore::flags::Flags;
use mailcore::keywords::Keywords;
use mailcore::mailbox::{Message, StoredMailbox};
use mailcore::mailbox_name::MailboxName;
use mailcore::octets::Octets;
use mailcore::side::Side;
use mailcore::uid::Uid;
use mailcore::words::{read_positive, read_uid};
use memchr::memchr;
use std::alloc::Global;
use texts::escape::unescape_into;
use texts::fault::EscapeFault;
use texts::lines::{Line, Lines};

/// The greatest number of bytes of a far message: those of the longest one that is copied, and a mark line of 22.
pub const FAR_BYTES_MAX: usize = MESSAGE_MAX + 22;

/// The mailbox of a side with its messages, from the next lines. Its name is INBOX.
pub fn read_mailbox(
    alloc: Global,
    side: Side,
    keywords: &Keywords,
    lines: &mut Lines<'_>,
) -> Result<StoredMailbox, WorldFault>
    ensures text { IfOk result (λ mailbox. lines.old.rest.now ≡ mailbox_text side (store_of mailbox) ++ lines.new.rest.now) }
    ensures named { IfOk result (λ mailbox. AreNamed keywords.now mailbox.messages []) }
    ensures count { line_count lines.new ≤ line_count lines.old }
    ensures fault { IfErr result (IsUpTo (line_count lines.old + 1)) }
{
    let (mailbox_start, message_start) = line_starts(side);
    let line = take_line(lines, mailbox_start)?;
    let (validity, next) = read_numbers(line.text).ok_or(WorldFault::of(line))?;
    let name = MailboxName::inbox(alloc)?;
    let mut mailbox = StoredMailbox::new(alloc, name, validity, next);
    while let Some(line) = lines.take_if(message_start) {
        let message = read_message(alloc, side, keywords, line)?;
        pushed(line, mailbox.push(message))?;
    }
    Ok(mailbox)
}

/// How the line of a mailbox begins, and how those of its messages do.
pub(crate) fn line_starts(side: Side) -> (&'static [u8], &'static [u8])
    ensures { (result.0.now ≡ side_word side ++ 32 ∷ []) × (result.1.now ≡ message_word side ++ 32 ∷ []) }
{
    match side {
        Side::Far => (b"far ", b"f "),
        Side::Near => (b"near ", b"n "),
    }
}

/// The UIDVALIDITY and the UIDNEXT of a mailbox.
pub(crate) fn read_numbers(text: &[u8]) -> Option<(u32, u32)>
    ensures words { IfSome result (λ numbers. text.now ≡ decimal numbers.0 ++ 32 ∷ decimal numbers.1) }
    ensures positive { IfSome result (λ numbers. (0 < numbers.0) × (0 < numbers.1)) }
{
    let (validity, next) = split_word(text)?;
    Some((read_positive(validity)?, read_positive(next)?))
}

fn read_message(
    alloc: Global,
    side: Side,
    keywords: &Keywords,
    line: Line<'_>,
) -> Result<Message, WorldFault>
    ensures words { IfOk result (λ message. line.entry.text.now ≡ join_with_byte 32 (message_words message)) }
    ensures named { IfOk result (λ message. IsWithin keywords.now message.flags) }
    ensures fault { IfErr result (IsOf line.entry.number) }
{
    let Some((uid, flags, text)) = split_message(line.text, keywords) else {
        return Err(WorldFault::of(line));
    };
    let bytes = read_bytes(alloc, text, line)?;
    if side == Side::Far && !is_far(&bytes) {
        return Err(WorldFault::of(line));
    }
    Ok(Message {
        uid,
        flags,
        bytes: Octets::from_vec(bytes),
    })
}

/// The UID and the flags of a message, and the quoted text of its bytes.
pub(crate) fn split_message<'a>(
    text: &'a [u8],
    keywords: &Keywords,
) -> Option<(Uid, Flags, &'a [u8])>
    ensures words { IfSome result (λ parts. text.now ≡ decimal parts.0 ++ 32 ∷ (flags_word parts.1 ++ 32 ∷ parts.2.now)) }
    ensures within { IfSome result (λ parts. IsWithin keywords.now parts.1) }
{
    let (uid, text) = split_word(text)?;
    let (flags, text) = split_word(text)?;
    Some((read_uid(uid)?, read_named(flags, keywords)?, text))
}

/// Whether a far mailbox may store these bytes: not too many, and no NUL (RFC 9051, section 9, `CHAR8`).
pub fn is_far(bytes: &[u8]) -> bool {
    bytes.len() <= FAR_BYTES_MAX && memchr(0, bytes).is_none()
}

/// The bytes whose escaped text stands between quotes, on this line.
pub fn read_bytes(alloc: Global, text: &[u8], line: Line<'_>) -> Result<Vec<u8>, WorldFault>
    ensures bytes { IfOk result (λ bytes. text.now ≡ quoted bytes.items) }
    ensures fault { IfErr result (IsOf line.entry.number) }
{
    let mut bytes = Vec::new(alloc);
    read_bytes_into(&mut bytes, text, line)?;
    Ok(bytes)
}

/// The same, in the place of what `bytes` holds.
pub(crate) fn read_bytes_into(
    bytes: &mut Vec<u8>,
    text: &[u8],
    line: Line<'_>,
) -> Result<(), WorldFault>
    ensures bytes { OnOk result (text.now ≡ quoted bytes.new.items) }
    ensures fault { IfErr result (IsOf line.entry.number) }
{
    let [b'"', escaped @ .., b'"'] = text else {
        return Err(WorldFault::of(line));
    };
    match unescape_into(bytes, escaped) {
        Ok(()) => Ok(()),
        Err(EscapeFault::NotEscaped) => Err(WorldFault::of(line)),
        Err(EscapeFault::NoMemory) => Err(WorldFault::NoMemory),
    }
}

/// The near files that wait for a UID, from the next lines: all that stay waiting.
pub fn read_waiting(
    alloc: Global,
    waiting: Waiting,
    near: &mut StoredMailbox,
    keywords: &Keywords,
    lines: &mut Lines<'_>,
) -> Result<Vec<WaitingFile>, WorldFault>
    ensures text { waiting ≡ Waiting.Kept → IfOk result (λ files.
        (lines.old.rest.now ≡ flat_map waiting_line (map waiting_of files.items) ++ lines.new.rest.now) × (near.new ≡ near.old)) }
    ensures named { IfOk result (λ files. AreNamed keywords.now near.old.messages []
        → AreNamed keywords.now near.new.messages (map waiting_of files.items)) }
    ensures count { line_count lines.new ≤ line_count lines.old }
    ensures fault { IfErr result (IsUpTo (line_count lines.old + 1)) }
{
    let mut kept = Vec::new(alloc);
    while let Some(line) = lines.take_if(b"w ") {
        let file = read_waiting_file(alloc, keywords, line)?;
        match waiting {
            Waiting::Kept => kept.push(file)?,
            Waiting::Admitted => pushed(line, admit(near, file))?,
        }
    }
    Ok(kept)
}

fn read_waiting_file(
    alloc: Global,
    keywords: &Keywords,
    line: Line<'_>,
) -> Result<WaitingFile, WorldFault>
    ensures words { IfOk result (λ file. line.entry.text.now ≡ join_with_byte 32 (waiting_words (waiting_of file))) }
    ensures named { IfOk result (λ file. IsWithin keywords.now file.flags) }
    ensures fault { IfErr result (IsOf line.entry.number) }
{
    let Some((flags, text)) = split_file(line.text, keywords) else {
        return Err(WorldFault::of(line));
    };
    let bytes = read_bytes(alloc, text, line)?;
    Ok(WaitingFile {
        flags,
        bytes: Octets::from_vec(bytes),
    })
}

/// The flags of a waiting file, and the quoted text of its bytes.
pub(crate) fn split_file<'a>(text: &'a [u8], keywords: &Keywords) -> Option<(Flags, &'a [u8])>
    ensures words { IfSome result (λ parts. text.now ≡ flags_word parts.0 ++ 32 ∷ parts.1.now) }
    ensures within { IfSome result (λ parts. IsWithin keywords.now parts.0) }
{
    let (flags, text) = split_word(text)?;
    Some((read_named(flags, keywords)?, text))
}

/// Makes a waiting file the message with the next UID. `OutOfOrder`: no UID is left.
fn admit(near: &mut StoredMailbox, file: WaitingFile) -> Result<(), PushFault>
    ensures last { OnOk result (near.new.messages ≡ near.old.messages ++ message_of near.old.next file ∷ []) }
    ensures next { OnOk result (near.new.next ≡ near.old.next + 1) }
    ensures full { IsErrOf result PushFault.OutOfOrder → 0 < near.old.next → near.old.next + 1 ≡ 2 ^ 32 }
{
    let uid = Uid::new(near.next).ok_or(PushFault::OutOfOrder)?;
    near.next = uid.get() + 1;
    near.push(Message {
        uid,
        flags: file.flags,
        bytes: file.bytes,
    })
}
