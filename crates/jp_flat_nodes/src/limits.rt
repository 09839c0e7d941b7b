//! The limits of what is read in one pass.

/// The most brackets that are open at once.
pub(crate) const MAX_DEPTH: u32 = 127;

/// How many digits are read before the point: whatever they are, a whole number of them has 64 bits.
pub(crate) const MAX_DIGITS: usize = 18;

/// How many bytes a number with a fraction or an exponent has at most: with the next one it is within the
/// limits of numbers.
pub(crate) const MAX_BYTES: usize = 290;

/// How many of these bytes are its exponent.
pub(crate) const MAX_EXPONENT: usize = 10;

/// The most bytes of a text, and of all texts before it.
pub(crate) const MAX_TEXT: usize = 0x7fff_ffff;

/// The greatest number of nodes: one for each byte of the longest line, so that a place among them has 32
/// bits.
pub const MAX_NODES: usize = 268_435_456;
