//! A link to a server.

ghost use Rattle.std.specs.Prelude.{◌≡◌, ◌<◌, ◌≤◌, ◌++◌, ℕ, length, take, IfOk, OnOk, OnErr, IsErrOf, Ok};
ghost use Rattle.imap_session.specs.Servers.{Quiet};
ghost use Rattle.imap_session.specs.Lines.{Line, Receives, Starts};
ghost use Rattle.mailcore.specs.Visitors.{Visitors};
ghost use Rattle.mailcore.specs.CopyPieces.{text_left};
ghost use Rattle.wire_reader.specs.Spelling.{crlf};
ghost use Rattle.imap_link.specs.Sending.{SendsThen, SomeThen};
ghost use Rattle.imap_link.specs.Soundness.{AreSound};

use mailcore::copy_pieces::CopyPieces;
use std::alloc::{AllocError, Global};
use thiserror::Error;

/// Why a call of a link has no answer.
#[derive(Clone, Copy, Debug, PartialEq, Eq, Error)]
pub enum LinkFault {
    /// The connection broke, or cannot be made.
    #[error("stopped")]
    Stopped,
    /// A growth was refused.
    #[error("no memory")]
    NoMemory,
}

/// The text of a copy, and a line end.
fn text_to_send(alloc: Global, copy: CopyPieces<'_>) -> Result<Vec<u8>, AllocError>
    ensures { IfOk result (λ text. text.items ≡ text_left copy.entry ++ crlf) }
{
    let mut text = Vec::new(alloc);
    copy.append_to(&mut text)?;
    text.extend_from_slice(b"\r\n")?;
    Ok(text)
}

/// A link to a server, over one connection at a time.
///
/// Its law is said by ghost members. Where the link is honest, the server saw a beginning of what was sent, what came back
/// begins the server's replies to it, after `reconnect` no byte of an earlier connection is read at either end
/// (docs/SESSION.md, "Both ends"), the server's mailboxes are mailboxes, and others do nothing to them but add messages, before
/// the bytes that are sent are read. A link that cannot know that of the other end is not honest, and promises its counts of
/// stops alone.
pub trait Link {
    /// The server and what lies between have behaved as specified so far.
    ghost honest: { Self → Type 0 };

    /// Both ends of the connection.
    ghost line: { Self → Line };

    /// How often a call was stopped or met the end of the bytes.
    ghost stops: { Self → ℕ };

    /// Who else adds messages at the server.
    ghost visitors: { Visitors };

    /// Sends the bytes. Others may add messages before they are read.
    fn send(&mut self, bytes: &[u8]) -> Result<(), LinkFault>
        ensures was_honest { honest self.new → honest self.old }
        ensures ok { OnOk result (honest self.new → SendsThen visitors bytes.now (line self.old) (line self.new)) }
        ensures err { OnErr result (honest self.new → SomeThen visitors (line self.old) bytes.now (line self.new).end.server) }
        ensures counts { stops self.old ≤ stops self.new }
        ensures steady { OnOk result (stops self.new ≡ stops self.old) }
        ensures stopped { IsErrOf result LinkFault.Stopped → stops self.old < stops self.new };

    /// Sends the text of a copy, and the line end that ends its command, as `send` does. Where a link has no better way, it takes room for
    /// them.
    fn send_copy(&mut self, alloc: Global, copy: CopyPieces<'_>) -> Result<(), LinkFault>
        ensures was_honest { honest self.new → honest self.old }
        ensures ok { OnOk result (honest self.new → SendsThen visitors (text_left copy.entry ++ crlf) (line self.old) (line self.new)) }
        ensures err { OnErr result (honest self.new
            → SomeThen visitors (line self.old) (text_left copy.entry ++ crlf) (line self.new).end.server) }
        ensures counts { stops self.old ≤ stops self.new }
        ensures steady { OnOk result (stops self.new ≡ stops self.old) }
        ensures stopped { IsErrOf result LinkFault.Stopped → stops self.old < stops self.new }
    {
        match text_to_send(alloc, copy) {
            Ok(text) => self.send(&text),
            Err(AllocError) => Err(LinkFault::NoMemory),
        }
    }

    /// Writes the next bytes to the front of the piece, and returns how many; none at their end.
    fn recv(&mut self, piece: &mut [u8]) -> Result<usize, LinkFault>
        requires { 0 < length piece.old }
        ensures within { IfOk result (λ n. n ≤ length piece.new) }
        ensures was_honest { honest self.new → honest self.old }
        ensures ok { IfOk result (λ n. honest self.new → Receives (take n piece.new) (line self.old) (line self.new)) }
        ensures err { OnErr result (honest self.new → Quiet (line self.old).end.server (line self.new).end.server) }
        ensures counts { stops self.old ≤ stops self.new }
        ensures steady { IfOk result (λ n. 0 < n → stops self.new ≡ stops self.old) }
        ensures stopped { IsErrOf result LinkFault.Stopped → stops self.old < stops self.new }
        ensures ended { result ≡ Ok 0 → stops self.old < stops self.new };

    /// Starts a new connection to the same server.
    fn reconnect(&mut self) -> Result<(), LinkFault>
        ensures was_honest { honest self.new → honest self.old }
        ensures ok { OnOk result (honest self.new → Starts (line self.old) (line self.new)) }
        ensures err { OnErr result (honest self.new → Quiet (line self.old).end.server (line self.new).end.server) }
        ensures counts { stops self.old ≤ stops self.new }
        ensures steady { OnOk result (stops self.new ≡ stops self.old) }
        ensures stopped { IsErrOf result LinkFault.Stopped → stops self.old < stops self.new };

    /// The mailboxes of an honest server: UIDs rise and are below the next one (RFC 9051, section 2.3.1.1).
    ghost sound: { (link : Self) → honest link → AreSound (line link).end.server.mailboxes };
}
