//! The limits and sizes of patterns and of their DFAs.

/// The greatest unrolled size, a limit of this implementation (RFC 9485, 8): a match keeps so many positions
/// at most, and one more.
pub(crate) const MAX_SIZE: u32 = 10_000;

/// How much work the DFAs of a query take at most, in bytes of their tables and looks at parts of patterns:
/// they are all made ahead of time, so this bounds the time and the memory that a query takes before a line
/// is read (README, No DFA grows during a run).
pub(crate) const MAX_WORK: u64 = 64_000_000;

/// How much of that one pattern takes at most.
pub(crate) const MAX_WORK_OF_ONE: u64 = 2_000_000;

/// How many states a DFA has at most. A cell of the table is one byte, so that all of them have 65,024 bytes:
/// the number of a state is a byte, and the two greatest bytes are the cells that lead to no state.
pub(crate) const MAX_STATES: usize = 254;

/// How many cells of the transition table a state has: one for each byte of a text.
pub(crate) const STRIDE: usize = 256;

/// How many pairs of states are compared at most, each at every byte, while the pattern is compiled.
pub(crate) const MAX_PAIRS: usize = 256;

/// How many characters of ASCII may be flagged at that of the three bytes where the fewest are: with more,
/// too few bytes are passed for the flags to be worth their look.
pub(crate) const MAX_FLAGGED: usize = 16;

/// How many bytes of a text are looked at together.
pub(crate) const LANES: usize = 16;

/// How many bytes that takes: behind the last of those stand the second and the third of a match.
pub(crate) const WINDOW: usize = LANES + 2;
