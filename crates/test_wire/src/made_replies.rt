//! Replies that are made, since no server sends so many.

use std::alloc::Global;
use test_scripts::reported::Reported;

/// What a body is made of.
const BODY_LINE: &str = "a line of a message\r\n";

/// So many FETCH replies, as a listing has them.
pub fn listings(alloc: Global, count: u32) -> Reported {
    let mut replies = Reported::new(alloc);
    for index in 0..count {
        push_listing(&mut replies, u64::from(index).saturating_add(1));
    }
    replies
}

fn push_listing(replies: &mut Reported, number: u64) {
    replies.text("* ");
    replies.number(number);
    replies.text(" FETCH (UID ");
    replies.number(number.saturating_mul(2));
    replies.text(match number % 4 {
        0 => " FLAGS () RFC822.SIZE ",
        1 => " FLAGS (\\Seen) RFC822.SIZE ",
        2 => " FLAGS (\\Answered \\Seen) RFC822.SIZE ",
        _ => " FLAGS (\\Flagged $Forwarded keyword) RFC822.SIZE ",
    });
    replies.number(number.saturating_mul(37));
    replies.text(")\r\n");
}

/// A FETCH reply with a body of so many octets.
pub fn body(alloc: Global, octets: u32) -> Reported {
    let mut replies = Reported::new(alloc);
    replies.text("* 1 FETCH (UID 7 BODY[] {");
    replies.number(u64::from(octets));
    replies.text("}\r\n");
    let mut left = octets as usize;
    for _ in 0..octets {
        let piece = BODY_LINE.get(..left).unwrap_or(BODY_LINE);
        replies.text(piece);
        left = left.saturating_sub(piece.len());
        if left == 0 {
            break;
        }
    }
    replies.text(")\r\n");
    replies
}
