//! Generators whose words are known.

ghost use Rattle.std.specs.Prelude.{◌+◌, ◌*◌, ◌%◌, ◌^◌};

use rand_core::utils::NextWord;
use rand_core::{Rng, utils};

/// A generator whose k-th word, k from 1, is k times `step`.
#[derive(Drop)]
pub struct Generator {
    /// How many words it has given.
    pub drawn: u64,
    /// 1 for the words 1, 2, 3 .., and 0 for 0 again and again.
    pub step: u64,
}

impl NextWord<u64> for Generator {
    ghost step = { λ g. (((g.drawn + 1) % 2 ^ 64 * g.step) % 2 ^ 64, record g { drawn = (g.drawn + 1) % 2 ^ 64 }) };

    fn next_word(&mut self) -> u64 {
        self.drawn = self.drawn.wrapping_add(1);
        self.drawn.wrapping_mul(self.step)
    }
}

impl Rng for Generator {
    ghost use Rattle.rand_core.specs.Steps.{steps_u64_low, stream_of};

    ghost stream = { stream_of (steps_u64_low (λ g. (((g.drawn + 1) % 2 ^ 64 * g.step) % 2 ^ 64, record g { drawn = (g.drawn + 1) % 2 ^ 64 }))) };

    fn next_u32(&mut self) -> u32 {
        (self.next_word() & 0xffff_ffff) as u32
    }

    fn next_u64(&mut self) -> u64 {
        self.next_word()
    }

    fn fill_bytes(&mut self, dst: &mut [u8]) {
        utils::fill_bytes_via_u64(self, dst)
    }
}
