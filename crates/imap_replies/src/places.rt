//! What stands between the places at which a scanner stops, in the bytes of a reply.

ghost use Rattle.wire_reader.specs.Places.{EachIsDecided, EndAtPlaces, WaitsBetween};
ghost use Rattle.imap_replies.specs.Replies.{ReplyText};

/// Any bytes have a whole reply at their front, or begin a longer one, or have a byte at which none goes on.
pub fn each_text_is_decided()
    ensures { EachIsDecided ReplyText }
{}

/// A reply ends at a place: with a LF that is no octet of a literal.
pub fn replies_end_at_places()
    ensures { EndAtPlaces ReplyText }
{}

/// If `read_reply` asked for more, and no place has come since, it would ask for more again, or report a fault in what came since, whose
/// line goes on.
pub fn replies_wait_between_places()
    ensures { WaitsBetween ReplyText }
{}
