//! Where in a text a match may begin, sixteen bytes at a time.

ghost use Rattle.std.specs.Prelude.{◌≡◌, ◌+◌, ◌<◌, ◌≤◌, ℕ, length};
ghost use Rattle.std.specs.Int.{bit_at};
ghost use Rattle.jp_automaton.specs.declared.byte_flags.ByteFlags.{ByteFlags};
ghost use Rattle.jp_automaton.specs.inner.ByteSets.{AreInSets, HasFlagged, MayPass};

use crate::byte_flags::ByteFlags;
use crate::byte_sets::ByteSet;
use crate::limits::{LANES, STRIDE, WINDOW};
use std::simd::prelude::*;

/// The bytes that may be the first, the second and the third of a match, and perhaps more.
#[derive(Clone, Copy)]
pub struct Beginnings {
    pub first: ByteSet,
    pub second: ByteSet,
    pub third: ByteSet,
}

impl Beginnings {
    /// No bytes.
    pub(crate) fn new() -> Beginnings {
        Beginnings {
            first: ByteSet::new(),
            second: ByteSet::new(),
            third: ByteSet::new(),
        }
    }

    /// The bytes that are flagged.
    pub(crate) fn flagged(flags: &[ByteFlags]) -> Beginnings
        requires { length flags.now ≡ 256 }
        ensures { AreInSets result flags.now 256 }
    {
        let mut sets = Beginnings::new();
        for byte in 0..STRIDE {
            sets.add(flags[byte], byte as u8);
        }
        sets
    }

    /// Adds the byte to the set of each place that it is flagged for.
    fn add(&mut self, flags: ByteFlags, byte: u8)
        ensures has { HasFlagged self.new byte flags }
        ensures keeps { (b : ℕ) (m : ByteFlags) → HasFlagged self.old b m → HasFlagged self.new b m }
    {
        self.first.add_if(flags.first, byte);
        self.second.add_if(flags.second, byte);
        self.third.add_if(flags.third, byte);
    }

    /// At which of the sixteen bytes from here on a match may begin, as bits, the first of them the lowest.
    #[inline(always)]
    pub(crate) fn among(&self, bytes: &[u8], from: usize) -> u64
        requires { from + WINDOW ≤ length bytes.now }
        ensures passes { (k : ℕ) → k < LANES → bit_at result k ≡ 0 → MayPass self.now bytes.now (from + k) }
        ensures within { (k : ℕ) → LANES ≤ k → bit_at result k ≡ 0 }
    {
        let first = self.first.look_up(u8x16::from_slice(&bytes[from..]));
        let second = self.second.look_up(u8x16::from_slice(&bytes[from + 1..]));
        let third = self.third.look_up(u8x16::from_slice(&bytes[from + 2..]));
        // The least of three is 0 where one of them is.
        let least = first.simd_min(second).simd_min(third);
        least.simd_ne(u8x16::splat(0)).to_bitmask()
    }
}
