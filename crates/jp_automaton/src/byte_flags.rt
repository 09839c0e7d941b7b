//! What a prefilter keeps of a byte.

ghost use Rattle.std.specs.Prelude.{◌≤◌};

/// Whether a byte may be the first, the second or the third of a match. Without the first flag it leads from
/// the start state back to it; without the second it leads behind any byte to where it leads from the start
/// state; and without the third it leads behind any two bytes to where it leads behind the latter of them
/// alone. A flag that is set is 1, and else it is 0: as numbers, the flags of three bytes are tested at once.
#[derive(Clone, Copy)]
pub struct ByteFlags {
    pub first: u8,
    pub second: u8,
    pub third: u8,
    ghost first_bit: { first ≤ 1 },
    ghost second_bit: { second ≤ 1 },
    ghost third_bit: { third ≤ 1 },
}
