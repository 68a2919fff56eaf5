//! A connection that is served to its end.

ghost use Rattle.std.specs.Prelude.{◌≡◌, ◌<◌, length, None, IsSome, OnOk, OnErr, IfOk, IfErr};
ghost use Rattle.std.specs.IoError.{error_kind};
ghost use Rattle.std.specs.Io.KnownBytes.{Appends};
ghost use Rattle.imap_session.specs.Lines.{greeting};
ghost use Rattle.imap_session.specs.Heard.{AreReplies};
ghost use Rattle.serve.specs.Faults.{reported};
ghost use Rattle.serve.specs.Connections.{connected, Answers, AnswersSome, Converses, BreaksOff, IsEnd, IsEndOn, IsOverOn, Serves};

use crate::fault::ServeFault;
use imap_server::server::{Server, ServerFault};
use std::io;
use std::io::{ErrorKind, Read, Write};

/// How many bytes are read at a time.
const PIECE_BYTES: usize = 4096;

/// What becomes of a connection after a piece.
#[derive(Clone, Copy, PartialEq, Eq)]
pub(crate) enum ServeTurn {
    /// More may come.
    GoesOn,
    /// The client sends no more, or the server reads no more.
    Ends,
}

/// Serves one connection: greets, and answers what `input` gives, until it ends or the server reads no more (after LOGOUT,
/// and where it ends the connection). Then the server is hung up, and so it is after a fault.
///
/// `Connection`: reading or writing failed. `NoMemory`: memory ran out. What was answered before is done.
pub fn serve_stream<R: Read, W: Write>(
    server: &mut Server,
    input: &mut R,
    output: &mut W,
) -> Result<(), ServeFault>
    ensures hung_up { server.new.connection ≡ None }
    ensures ok { OnOk result (Serves server.old.server (R.remaining input.old) (R.remaining input.new) (W.contents output.old)
        (W.contents output.new) server.new.server) }
    ensures err { OnErr result (BreaksOff (connected server.old.server) (R.remaining input.old) (R.remaining input.new) server.new.server) }
{
    let hello = server.connect();
    let answer = greet_and_answer(server, hello, input, output);
    server.hang_up();
    answer
}

/// Serves a new connection, which is greeted so.
fn greet_and_answer<R: Read, W: Write>(
    server: &mut Server,
    hello: &[u8],
    input: &mut R,
    output: &mut W,
) -> Result<(), ServeFault>
    requires new { server.old ≡ connected server.old.server }
    requires greets { AreReplies greeting hello.now }
    ensures ok { OnOk result (Serves server.old.server (R.remaining input.old) (R.remaining input.new) (W.contents output.old)
        (W.contents output.new) server.new.server) }
    ensures err { OnErr result (BreaksOff server.old (R.remaining input.old) (R.remaining input.new) server.new.server) }
{
    send(hello, output)?;
    answer_pieces(server, input, output)
}

/// Reads one piece after another and answers them, up to the end.
fn answer_pieces<R: Read, W: Write>(
    server: &mut Server,
    input: &mut R,
    output: &mut W,
) -> Result<(), ServeFault>
    requires { IsSome server.old.connection }
    ensures ok { OnOk result (Converses server.old (R.remaining input.old) (R.remaining input.new) (W.contents output.old)
        (W.contents output.new) server.new) }
    ensures ended { OnOk result (IsEnd (R.remaining input.new) server.new.server) }
    ensures err { OnErr result (BreaksOff server.old (R.remaining input.old) (R.remaining input.new) server.new.server) }
{
    for _ in 0..u64::MAX {
        match answer_next(server, input, output)? {
            ServeTurn::GoesOn => {}
            ServeTurn::Ends => return Ok(()),
        }
    }
    Err(ServeFault::Connection)
}

/// Reads a piece and answers it.
fn answer_next<R: Read, W: Write>(
    server: &mut Server,
    input: &mut R,
    output: &mut W,
) -> Result<ServeTurn, ServeFault>
    requires { IsSome server.old.connection }
    ensures ok { OnOk result (Converses server.old (R.remaining input.old) (R.remaining input.new) (W.contents output.old)
        (W.contents output.new) server.new) }
    ensures ended { IfOk result (λ turn. IsEndOn turn (R.remaining input.new) server.new.server) }
    ensures err { OnErr result (BreaksOff server.old (R.remaining input.old) (R.remaining input.new) server.new.server) }
{
    let mut piece = [0; PIECE_BYTES];
    let count = match input.read(&mut piece) {
        Ok(count) => count,
        Err(fault) => return after_fault(fault),
    };
    if count == 0 {
        return Ok(ServeTurn::Ends);
    }
    answer(server, &piece[..count], output)
}

/// Goes on where reading was interrupted.
fn after_fault(fault: io::Error) -> Result<ServeTurn, ServeFault>
    ensures goes_on { IfOk result (λ turn. turn ≡ ServeTurn.GoesOn) }
    ensures interrupted { OnOk result (error_kind fault ≡ ErrorKind.Interrupted) }
    ensures reported { IfErr result (λ reported_as. reported_as ≡ reported (error_kind fault)) }
{
    match fault.kind() {
        ErrorKind::Interrupted => Ok(ServeTurn::GoesOn),
        _ => Err(ServeFault::from(fault)),
    }
}

/// Answers a piece.
fn answer<W: Write>(
    server: &mut Server,
    piece: &[u8],
    output: &mut W,
) -> Result<ServeTurn, ServeFault>
    requires { IsSome server.old.connection }
    ensures ok { OnOk result (Answers server.old piece.now (W.contents output.old) (W.contents output.new) server.new) }
    ensures over { IfOk result (λ turn. IsOverOn turn server.new.server) }
    ensures err { OnErr result (AnswersSome server.old piece.now server.new.server) }
{
    let replies = match server.feed(piece) {
        Ok(replies) => replies,
        Err(ServerFault::NoMemory) => return Err(ServeFault::NoMemory),
        Err(ServerFault::Closed) => unreachable!(),
    };
    send(&replies, output)?;
    if server.is_over() {
        Ok(ServeTurn::Ends)
    } else {
        Ok(ServeTurn::GoesOn)
    }
}

/// Writes these bytes.
fn send<W: Write>(bytes: &[u8], output: &mut W) -> Result<(), ServeFault>
    ensures { OnOk result (Appends (W.contents output.old) (W.contents output.new) bytes.now) }
{
    output.write_all(bytes)?;
    output.flush()?;
    Ok(())
}
