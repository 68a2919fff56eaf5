//! The generator that `mbsync` draws the marks of its copies from.

ghost use Rattle.std.specs.Prelude.{◌≡◌};
ghost use Rattle.rand_chacha.specs.ChaCha.{of_seed};

use rand_chacha::ChaCha20Rng;
use rand_core::SeedableRng;

/// The ChaCha20 generator of this seed (RFC 8439, section 2.4, with 20 rounds), before its first word. It takes no memory.
pub fn generator(seed: [u8; 32]) -> ChaCha20Rng
    ensures { result ≡ of_seed seed }
{
    ChaCha20Rng::from_seed(seed)
}
