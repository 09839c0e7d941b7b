//! The limits of a pattern.

/// The greatest count, a limit of this implementation (RFC 9485, 8): counts within counts multiply, up to the
/// greatest unrolled size.
pub(crate) const MAX_COUNT: u32 = 1_000;

/// How many parentheses may stand inside each other, a limit of this implementation (RFC 9485, 8): it bounds
/// the frames of all that goes over a pattern.
pub(crate) const MAX_DEPTH: u32 = 64;
