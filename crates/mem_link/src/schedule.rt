//! Where a link stops, and which replies to APPENDs come without APPENDUID.

ghost use Rattle.std.specs.Prelude.{◌≡◌, ◌<◌, ◌≤◌, [], None, false, length, IfSome};

use crate::command::{CommandName, Nth};
use crate::sending::{Sending, SentCommands};
use memchr::memrchr;

/// Where a link stops. From there on nothing is sent or received, and each call answers `Stopped`, until `reconnect`.
///
/// Commands and bytes are counted over the life of the link, across its connections.
#[derive(Clone, Copy, PartialEq, Eq)]
pub enum LinkStop {
    /// At this command, of which the server reads nothing.
    Before(Nth),
    /// At this command, once the server has done it. Nothing of the answer to its last bytes comes (of an APPEND, `+` does).
    After(Nth),
    /// In the literal of an APPEND.
    InLiteral {
        /// Which APPEND, counted from 1.
        append: u64,
        /// How many octets the server reads, or all of them if there are fewer. It does not read the end of the command.
        octets: usize,
    },
    /// In the tagged reply to an APPEND, or after it.
    InReply {
        /// Which APPEND, counted from 1.
        append: u64,
        /// How many bytes of the reply come, or all of them if it has fewer. What the server says before it comes.
        bytes: usize,
    },
    /// Once so many bytes were sent. Those that were lost count.
    Sent(usize),
    /// Once so many bytes were received. Those that were lost count.
    Received(usize),
}

impl LinkStop {
    /// How many bytes of a call of `send` the server reads, if it stops here.
    fn front_of(self, call: Sending) -> Option<usize> {
        match self {
            LinkStop::Before(command) if call.begins == Some(command) => Some(0),
            LinkStop::After(command) if call.ends == Some(command) => Some(call.len),
            LinkStop::InLiteral { append, octets } => front_of_literal(append, octets, call),
            LinkStop::Sent(count) => {
                let front = count.checked_sub(call.before)?;
                if front < call.len { Some(front) } else { None }
            }
            _ => None,
        }
    }

    /// How many bytes more can be received, if it stops after some.
    fn room(self, received: usize) -> Option<usize> {
        match self {
            LinkStop::Received(count) => count.checked_sub(received),
            _ => None,
        }
    }

    /// How many bytes of the reply come, where it stops in the tagged reply to this APPEND.
    fn reply_of(self, number: u64) -> Option<usize> {
        match self {
            LinkStop::InReply { append, bytes } if append == number => Some(bytes),
            _ => None,
        }
    }
}

/// How many bytes of a call of `send` the server reads, where it is to read so many octets of the literal of this APPEND.
fn front_of_literal(append: u64, octets: usize, call: Sending) -> Option<usize> {
    let literal = call.octets?;
    if literal.append != append {
        return None;
    }
    let front = octets.min(literal.total).checked_sub(literal.before)?;
    if front < call.len { Some(front) } else { None }
}

/// The stops of a link, the APPENDs whose replies come without APPENDUID (RFC 9051, section 7.1), and what it counts for them. Where more
/// than one stop meets a call, the one that lets the fewest bytes through acts.
#[derive(Drop)]
pub struct Schedule {
    stops: Vec<LinkStop>,
    /// The APPENDs whose replies come without APPENDUID, each by its number; none is named so far where there is no list.
    mutes: Option<Vec<u64>>,
    /// Whether the answer to what was sent last comes without APPENDUID.
    is_muted: bool,
    sent: SentCommands,
    received: usize,
    /// How many bytes of the tagged reply come, where the answer to what was sent last is cut.
    cut: Option<usize>,
    /// How many bytes more come over the connection, where an answer was cut.
    room: Option<usize>,
}

impl Schedule {
    ghost use Rattle.mem_link.specs.Losing.{StopsNowhere};

    /// The stops of a link over which nothing was sent.
    pub fn new(stops: Vec<LinkStop>) -> Schedule
        ensures { stops.items ≡ [] → StopsNowhere result }
    {
        Schedule {
            stops,
            mutes: None,
            is_muted: false,
            sent: SentCommands::new(),
            received: 0,
            cut: None,
            room: None,
        }
    }

    /// The same stops, where the replies to these APPENDs come without APPENDUID, each APPEND by its number, counted from 1.
    pub fn muting(self, appends: Vec<u64>) -> Schedule {
        let mut schedule = self;
        schedule.mutes = Some(appends);
        schedule
    }

    /// Whether the answer to what was sent last comes without APPENDUID.
    pub(crate) fn is_muted(&self) -> bool
        ensures { StopsNowhere self.now → result ≡ false }
    {
        self.is_muted
    }

    /// The command that begins with these bytes, if they are sent next and the link has not stopped.
    pub(crate) fn coming(&self, bytes: &[u8]) -> Option<Nth> {
        if self.room == Some(0) {
            return None;
        }
        self.sent.coming(bytes)
    }

    /// Counts bytes that are sent. Where the link stops, gives how many of them the server reads.
    pub(crate) fn send(&mut self, bytes: &[u8]) -> Option<usize>
        ensures front { IfSome result (λ front. front ≤ length bytes.now) }
        ensures none { StopsNowhere self.old → result ≡ None }
        ensures nowhere { StopsNowhere self.old → StopsNowhere self.new }
    {
        if self.room == Some(0) {
            return Some(0);
        }
        let call = self.sent.push(bytes);
        self.cut = self.reply_to(call);
        self.is_muted = self.mutes(call);
        let fronts = self.stops.iter().filter_map(|stop| stop.front_of(call));
        let front = fronts.min()?;
        Some(front.min(bytes.len()))
    }

    /// How many bytes of the tagged reply come, where the command that ends is an APPEND whose reply is cut.
    fn reply_to(&self, call: Sending) -> Option<usize>
        ensures { StopsNowhere self.now → result ≡ None }
    {
        let command = call.ends?;
        if command.name != CommandName::Append {
            return None;
        }
        let cuts = self.stops.iter();
        cuts.filter_map(|stop| stop.reply_of(command.number)).min()
    }

    /// Whether the command that ends is an APPEND whose reply comes without APPENDUID.
    fn mutes(&self, call: Sending) -> bool
        ensures { StopsNowhere self.now → result ≡ false }
    {
        let Some(appends) = &self.mutes else {
            return false;
        };
        match call.ends {
            Some(
                Nth {
                    name: CommandName::Append,
                    number,
                },
            ) => appends.contains(&number),
            _ => false,
        }
    }

    /// The server answers so to what was sent, and so many bytes are unread before.
    pub(crate) fn answer(&mut self, unread: usize, answer: &[u8])
        ensures { StopsNowhere self.old → StopsNowhere self.new }
    {
        if answer.is_empty() {
            return;
        }
        if !answer.starts_with(b"+") {
            // An APPEND that is refused before its octets is over.
            self.sent.end_command();
        }
        if let Some(bytes) = self.cut.take() {
            let (before, reply) = answer.split_at(start_of_last_line(answer));
            let room = unread.saturating_add(before.len());
            self.room = Some(room.saturating_add(bytes.min(reply.len())));
        }
    }

    /// How many bytes can be received now; none where the link stops.
    pub(crate) fn room(&self) -> usize
        ensures { StopsNowhere self.now → 0 < result }
    {
        let rooms = self
            .stops
            .iter()
            .filter_map(|stop| stop.room(self.received));
        let room = rooms.min().unwrap_or(usize::MAX);
        room.min(self.room.unwrap_or(usize::MAX))
    }

    /// Counts bytes that were received.
    pub(crate) fn receive(&mut self, count: usize)
        ensures { StopsNowhere self.old → StopsNowhere self.new }
    {
        self.received = self.received.saturating_add(count);
        self.room = self.room.map(|room| room.saturating_sub(count));
    }

    /// The connection is no more. So many bytes are lost that the server has said.
    pub(crate) fn break_off(&mut self, lost: usize)
        ensures { StopsNowhere self.old → StopsNowhere self.new }
    {
        self.received = self.received.saturating_add(lost);
        self.sent.end_command();
        self.is_muted = false;
        self.cut = None;
        self.room = None;
    }
}

/// Where the last line of these bytes begins.
fn start_of_last_line(bytes: &[u8]) -> usize
    ensures { result ≤ length bytes.now }
{
    let text = bytes.strip_suffix(b"\n".as_slice()).unwrap_or(bytes);
    match memrchr(b'\n', text) {
        Some(end) => bytes.len().min(end.saturating_add(1)),
        None => 0,
    }
}
