//! Laws of one command over a connection and of its replies, each shown by a function that does nothing.

ghost use Rattle.imap_session.specs.ExchangeLaws.{AnsweredIsDone, FrontIsAsked, StoppedIsHalf, AnswersAreApart, NewLinesAreIdle};

/// Once the replies to a command were heard up to a tagged one, that command alone was done, and nothing is on the way.
pub fn answered_is_done()
    ensures { AnsweredIsDone }
{}

/// Where sending is stopped, the command was done or nothing was.
pub fn stopped_is_half()
    ensures { StoppedIsHalf }
{}

/// The same bytes are the same answer.
pub fn answers_are_apart()
    ensures { AnswersAreApart }
{}

/// Where the front of a command is sent up to a literal, the next reply asks for it.
pub fn front_is_asked()
    ensures { FrontIsAsked }
{}

/// A new connection is idle, once its greeting was heard.
pub fn new_lines_are_idle()
    ensures { NewLinesAreIdle }
{}
