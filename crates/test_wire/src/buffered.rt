//! What a buffer of replies answers, to which an example comes in pieces.

use crate::reader::{print_answer, without_value};
use imap_wire::{Read, Reply, ReplyBuf, WireFault, read_reply, write_reply};
use std::alloc::Global;
use test_scripts::reported::Reported;

/// How many bytes a piece has.
const SIZES: &[usize] = &[1, 2, 7];

/// An answer as it is reported, and its reply as it is written.
#[derive(Drop)]
struct Shown {
    answer: Reported,
    reply: Reported,
}

/// Reports, for each size of the pieces, what the buffer answers at the end, how many bytes it holds then, and how many once those that
/// were read are dropped; and the answer of the reader to the whole, if it is another one.
pub fn answer_buffered(alloc: Global, reported: &mut Reported, bytes: &[u8]) {
    let whole = show(alloc, read_reply(alloc, bytes));
    for size in SIZES {
        let mut buffer = ReplyBuf::new(alloc);
        put_pieces(&mut buffer, bytes, *size, reported);
        reported.begin();
        print_next(alloc, reported, &mut buffer, &whole);
        reported.text(", held ");
        reported.number(buffer.held() as u64);
        buffer.forget();
        reported.text(", then ");
        reported.number(buffer.held() as u64);
        reported.end();
        drop(buffer);
    }
    if whole.reply.is_lost() {
        reported.lose();
    }
}

/// Reports the next answer, and that of the reader if it is another one.
fn print_next(alloc: Global, reported: &mut Reported, buffer: &mut ReplyBuf, whole: &Shown) {
    let next = show(alloc, buffer.next());
    reported.add(&next.answer);
    if next.answer.as_str() != whole.answer.as_str()
        || next.reply.as_str() != whole.reply.as_str()
    {
        reported.text(", and the reader ");
        reported.add(&whole.answer);
        reported.add(&whole.reply);
    }
    if next.reply.is_lost() {
        reported.lose();
    }
}

/// Puts the bytes in, in pieces of this size, and reads before each piece.
fn put_pieces(buffer: &mut ReplyBuf, bytes: &[u8], size: usize, reported: &mut Reported) {
    let mut rest = bytes;
    for _ in 0..bytes.len() {
        let piece = rest.get(..size).unwrap_or(rest);
        if piece.is_empty() {
            break;
        }
        if matches!(buffer.step(), Err(WireFault::NoMemory)) || buffer.put(piece).is_err() {
            reported.lose();
            break;
        }
        rest = rest.get(size..).unwrap_or_default();
    }
}

fn show(alloc: Global, answer: Result<Read<Reply<'_>>, WireFault>) -> Shown {
    let mut shown = Shown {
        answer: Reported::new(alloc),
        reply: Reported::new(alloc),
    };
    if let Ok(Read::Whole(reply, _)) = &answer {
        print_written(alloc, reply, &mut shown.reply);
    }
    print_answer(&mut shown.answer, without_value(answer));
    shown
}

/// Adds how a reply is written.
fn print_written(alloc: Global, reply: &Reply<'_>, reported: &mut Reported) {
    let mut written = Vec::new(alloc);
    if write_reply(reply, &mut written).is_err() {
        reported.lose();
    }
    reported.text(" ");
    reported.quoted(written.as_slice());
}
