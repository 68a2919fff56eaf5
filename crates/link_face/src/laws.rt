//! Laws of what the crate defines, each shown by a function that does nothing.

ghost use Rattle.link_face.specs.Handing.{RepliesAreHandedOut};
ghost use Rattle.link_face.specs.Names.{AreOneToOne, EachHasNearName};
ghost use Rattle.link_face.specs.Profile.{ProfileIsHeard};
ghost use Rattle.link_face.specs.Said.{HonestSpeak};

/// Of two names in UTF-8 no one name in modified UTF-7 is made, and of two in modified UTF-7 no one in UTF-8: so what `to_near` and
/// `to_far` make of a name is turned back into it.
pub fn names_are_one_to_one()
    ensures { AreOneToOne }
{}

/// Each name in UTF-8 without control characters has one in modified UTF-7, which `to_near` makes of it and `to_far` turns back.
pub fn each_text_has_a_near_name()
    ensures { EachHasNearName }
{}

/// Each reply of a server of the profile over mailboxes whose names have no `&`, as its greeting and what it says to a line that is no
/// command, is one that `turned` passes byte for byte.
pub fn the_profile_is_heard()
    ensures { ProfileIsHeard }
{}

/// What comes over a connection to an honest server are replies, one after another, each one that is heard as it came or a LIST reply.
pub fn honest_servers_speak()
    ensures { HonestSpeak }
{}

/// Whatever comes over a connection: what is handed out of it, call after call, are replies, each cut where it ends. A call of `recv` waits
/// until a reply is ready (`FaceLink::wait`: `ready`), and hands out the next bytes of what is (`Ready::take`: `took`).
pub fn replies_are_handed_out()
    ensures { RepliesAreHandedOut }
{}
