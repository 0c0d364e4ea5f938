//! Eight words at a time.
#![tactic(auto)]

ghost use Rattle.std.specs.Prelude.{◌≡◌, ℕ, ◌+◌, ◌-◌, ◌*◌, ◌/◌, ◌%◌, ◌^◌, ◌<◌, ◌≤◌, length};
ghost use Rattle.pesp_domains.specs.Bits.{IsJoinedEight};

use std::simd::prelude::*;

/// Eight words from a place on, joined with the bits that stand so many places further on.
pub fn joined_eight(words: &[u64], k: usize, by: usize) -> u64x8
    requires room { k + by / 64 + 9 ≤ length words.now }
    ensures { IsJoinedEight words.now result k by }
{
    let at = k + by / 64;
    let shift = (by % 64) as u64;
    let here = u64x8::from_slice(&words[k..]);
    let low = u64x8::from_slice(&words[at..]) >> u64x8::splat(shift);
    let next = u64x8::from_slice(&words[at + 1..]);
    let high = (next << u64x8::splat(63 - shift)) << u64x8::splat(1);
    here | (low | high)
}
