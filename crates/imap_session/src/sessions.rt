//! Laws of sessions with a server, each shown by a function that does nothing.

ghost use Rattle.imap_session.specs.SessionLaws as law;
ghost use Rattle.imap_session.specs.VisitLaws as visit;
ghost use Rattle.imap_session.specs.Short.{RepliesAreShort, ShortRepliesFit};

/// A stream in two pieces is the stream as one: the replies to one piece and then to another are those to both joined.
pub fn pieces_join()
    ensures { law.PiecesJoin }
{}

/// A new connection has no unread bytes. What is unread is what the server keeps, unless it drops a line.
pub fn new_connections_are_empty()
    ensures empty { law.NewEndsAreEmpty }
    ensures known { law.UnreadIsKept }
{}

/// Whatever is sent, UIDs are never given twice: a UIDVALIDITY stays, UIDNEXT never falls, and under a UID below it
/// stands the message that stood there, or none.
pub fn uids_are_given_once()
    ensures kept { law.UidsAreKept }
    // A message that is appended gets a UID that is at least UIDNEXT, and UIDNEXT is above it then.
    ensures given { law.AppendsGiveNewUids }
{}

/// UID EXPUNGE takes no message that is not marked as deleted, and none that the set does not name.
pub fn expunge_takes_deleted_and_named()
    ensures { law.ExpungeTakesNamed }
{}

/// A command that is answered NO or BAD, and a line that is none, change no mailbox.
pub fn refusals_change_nothing()
    ensures { law.RefusalsChangeNothing }
{}

/// UID FETCH changes nothing. UID STORE changes no message but in its flags.
pub fn bodies_stay()
    ensures fetch { law.FetchChangesNothing }
    ensures store { law.StoreKeepsBodies }
{}

/// What a server says keeps to the limit of 65536 bytes outside the octets of literals, where its keywords are a map and its
/// mailboxes have names within the limits.
pub fn replies_fit()
    ensures short { RepliesAreShort }
    ensures fit { ShortRepliesFit }
{}

/// Others may add messages or not; what they add in two turns they add in one; and a message that arrives is of this kind.
pub fn visits_follow()
    ensures nobody { visit.NobodyMayVisit }
    ensures follow { visit.VisitsFollow }
    // It counts as such a visit, too, once the server has reported it.
    ensures reported { visit.VisitsAreReported }
    ensures arrival { visit.ArrivalsVisit }
{}
