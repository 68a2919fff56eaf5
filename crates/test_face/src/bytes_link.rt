//! A link over which bytes come, and then no more.

ghost use Rattle.std.specs.Prelude.{◌≡◌, ◌<◌, ◌≤◌};

use device::stop_count::StopCount;
use imap_link::link::{Link, LinkFault};

/// A link over which these bytes come in pieces of one size, and then the end. So it is never honest in the sense of `Link`.
#[derive(Drop)]
pub struct BytesLink<'b> {
    left: &'b [u8],
    piece: usize,
    stops: StopCount,
}

impl<'b> BytesLink<'b> {
    /// A link over which these bytes come, so many at once.
    pub fn new(bytes: &'b [u8], piece: usize) -> BytesLink<'b> {
        BytesLink {
            left: bytes,
            piece,
            stops: StopCount::new(),
        }
    }
}

impl Link for BytesLink<'_> {
    ghost use Rattle.imap_client.specs.Nowhere.{no_line};
    ghost use Rattle.imap_link.specs.Sending.{anybody};

    ghost honest = { λ _. ⊥ };

    ghost line = { λ _. no_line };

    ghost stops = { λ l. l.stops };

    ghost visitors = { anybody };

    ghost sound = { λ l kept. absurd kept };

    fn send(&mut self, _bytes: &[u8]) -> Result<(), LinkFault> {
        Ok(())
    }

    fn recv(&mut self, piece: &mut [u8]) -> Result<usize, LinkFault> {
        let count = self.piece.min(self.left.len()).min(piece.len());
        if count == 0 {
            self.stops.push();
            return Ok(0);
        }
        let (front, left) = self.left.split_at(count);
        piece[..count].copy_from_slice(front);
        self.left = left;
        Ok(count)
    }

    fn reconnect(&mut self) -> Result<(), LinkFault> {
        Ok(())
    }
}
