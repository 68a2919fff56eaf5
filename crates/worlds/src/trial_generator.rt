//! The generator of trials, whose words are known before they are drawn.

ghost use Rattle.std.specs.Prelude.{◌≡◌, ◌<◌};
ghost use Rattle.worlds.specs.Trial.{MarksAreCounted, is_counted, number_of, trial_step};

use mailcore::tuid::Tuid;
use rand_core::utils::NextWord;
use rand_core::{Rng, utils};
use std::marker::Model;

/// A generator whose k-th word of 64 bits, k from 1, is k modulo 2^64. Clauses see it as the last word that it gave.
#[derive(Drop)]
pub struct TrialGenerator {
    last: u64,
}

impl Model for TrialGenerator {
    ghost use Rattle.std.specs.Prelude.{ℕ};

    ghost Value = { ℕ };

    ghost view = { λ generator. generator.last };
}

impl TrialGenerator {
    /// The generator before its first word.
    pub fn new() -> Self
        ensures { result ≡ 0 }
    {
        TrialGenerator { last: 0 }
    }
}

impl NextWord<u64> for TrialGenerator {
    ghost step = { trial_step };

    fn next_word(&mut self) -> u64 {
        self.last = self.last.wrapping_add(1);
        self.last
    }
}

impl Rng for TrialGenerator {
    ghost use Rattle.rand_core.specs.Steps.{stream_of, steps_u64_low};
    ghost use Rattle.worlds.specs.Trial.{trial_step};

    ghost stream = { stream_of (steps_u64_low trial_step) };

    fn next_u32(&mut self) -> u32 {
        (self.next_word() & 0xffff_ffff) as u32
    }

    fn next_u64(&mut self) -> u64 {
        self.next_word()
    }

    fn fill_bytes(&mut self, dst: &mut [u8]) {
        utils::fill_bytes_via_u64(self, dst)
    }
}

/// Whether the generator of trials may give this mark. It gives few of those that it may.
pub fn may_give(mark: Tuid) -> bool
    ensures { result ≡ is_counted mark }
{
    let text = mark.text();
    let first = 4 * number_of(text[0]) + number_of(text[1]) / 16;
    number_of(text[11]) == (first + 1) % 64
}

/// The number for which a character of base64url stands.
fn number_of(character: u8) -> u32
    ensures is { result ≡ number_of character }
    ensures below { result < 256 }
{
    let code = u32::from(character);
    match character {
        b'A'..=b'Z' => code - 65,
        b'a'..=b'z' => code - 71,
        b'0'..=b'9' => code + 4,
        b'-' => 62,
        _ => 63,
    }
}

/// Each mark that the generator of trials gives is one that it may give.
pub fn marks_are_counted()
    ensures { MarksAreCounted }
{}
