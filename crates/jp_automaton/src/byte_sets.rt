//! Sets of bytes that the bytes of a vector are looked up in.

ghost use Rattle.std.specs.Prelude.{◌≡◌, ◌+◌, ◌<◌, ◌≤◌, ℕ, false, length, map, slice_index_or};

use crate::limits::LANES;
use std::simd::prelude::*;

/// A set of bytes, told by the halves of a byte: it is in the set where the entry of its low half and that of
/// its high half have a bit in common. So all bytes of a vector are looked up by two shuffles.
#[derive(Clone, Copy)]
pub struct ByteSet {
    pub low: [u8; 16],
    pub high: [u8; 16],
    ghost low_entries: { length low ≡ 16 },
    ghost high_entries: { length high ≡ 16 },
}

impl ByteSet {
    ghost use Rattle.jp_automaton.specs.inner.ByteSets.{bits_of};
    ghost use Rattle.jp_automaton.specs.inner.Prefilter.{HasNone};

    /// No bytes.
    pub(crate) fn new() -> ByteSet {
        ByteSet {
            low: [0; 16],
            high: [0; 16],
        }
    }

    /// Adds the byte, where the flag is set.
    pub(crate) fn add_if(&mut self, flag: u8, byte: u8)
        ensures has { bits_of self.new byte ≡ 0 → flag ≡ 0 }
        ensures keeps { (b : ℕ) → bits_of self.new b ≡ 0 → bits_of self.old b ≡ 0 }
    {
        if flag != 0 {
            let bit = bit_of(byte / 16);
            self.low[usize::from(byte % 16)] |= bit;
            self.high[usize::from(byte / 16)] |= bit;
        }
    }

    /// Of each byte the bits that its two entries have in common: none where it is not in the set.
    #[inline(always)]
    pub(crate) fn look_up(&self, bytes: u8x16) -> u8x16
        ensures { result ≡ map (bits_of self.now) bytes }
    {
        let low = u8x16::from_array(self.low).swizzle_dyn(bytes & u8x16::splat(15));
        let high = u8x16::from_array(self.high).swizzle_dyn(bytes >> u8x16::splat(4));
        low & high
    }

    /// Whether the byte was found to be in the set.
    pub(crate) fn has(&self, byte: u8) -> bool
        ensures { result ≡ false → bits_of self.now byte ≡ 0 }
    {
        self.low[usize::from(byte % 16)] & self.high[usize::from(byte / 16)] != 0
    }

    /// Whether some of the bytes was found to be in the set.
    pub(crate) fn has_any(&self, bytes: &[u8]) -> bool
        ensures { result ≡ false → HasNone self.now bytes.now }
    {
        if bytes.len() < LANES {
            return self.has_any_slowly(bytes);
        }
        let last = bytes.len() - LANES;
        let mut from = 0;
        while from < last {
            if self.has_any_from(bytes, from) {
                return true;
            }
            from += LANES;
        }
        // The last vector may overlap the one before it.
        self.has_any_from(bytes, last)
    }

    /// Whether one of the sixteen bytes from here on was found to be in the set.
    #[inline(always)]
    fn has_any_from(&self, bytes: &[u8], from: usize) -> bool
        requires { from + LANES ≤ length bytes.now }
        ensures { result ≡ false → (k : ℕ) → k < LANES
            → bits_of self.now (slice_index_or bytes.now (from + k) 0) ≡ 0 }
    {
        let found = self.look_up(u8x16::from_slice(&bytes[from..]));
        found.simd_ne(u8x16::splat(0)).to_bitmask() != 0
    }

    /// The same as `has_any`, byte by byte.
    fn has_any_slowly(&self, bytes: &[u8]) -> bool
        ensures { result ≡ false → HasNone self.now bytes.now }
    {
        for byte in bytes {
            if self.has(*byte) {
                return true;
            }
        }
        false
    }
}

/// The bit of the bytes with this high half. There are sixteen halves and eight bits: each half of ASCII has
/// a bit of its own, and the others share those of the control characters, which few patterns name. So a set
/// may have more bytes than were added, but of the other characters of ASCII it has those alone.
fn bit_of(half: u8) -> u8
    ensures { 0 < result }
{
    match half {
        0..8 => 1 << half,
        8..12 => 1,
        _ => 2,
    }
}
