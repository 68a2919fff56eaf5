//! What stands between the places at which a scanner stops, in the bytes of a command.

ghost use Rattle.wire_reader.specs.Places.{EachIsDecided, EndAtPlaces, WaitsBetween};
ghost use Rattle.imap_commands.specs.Commands.{Spelled};

/// Any bytes have a whole command at their front, or begin a longer one, or have a byte at which none goes on.
pub fn each_text_is_decided()
    ensures { EachIsDecided Spelled }
{}

/// A command ends at a place: with a LF that is no octet of a literal.
pub fn commands_end_at_places()
    ensures { EndAtPlaces Spelled }
{}

/// If `read_command` asked for more, and no place has come since, it would ask for more again, or report a fault in what came since, whose
/// line goes on.
pub fn commands_wait_between_places()
    ensures { WaitsBetween Spelled }
{}
