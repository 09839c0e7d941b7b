//! The sizes by which lines are answered.

/// How many blocks a board has: as many as it takes.
pub(crate) const BLOCKS: u64 = 4_294_967_296;

/// How often a worker looks for a block that it has claimed, and the calling thread for the answer to the
/// front block, before either gives it up; the latter more often where the block is large.
pub(crate) const LOOKS: u32 = 20_000;

/// For how many bytes of the front block the calling thread looks once more: a look takes longer than these
/// take to be answered.
pub(crate) const BYTES_BY_LOOK: usize = 8;

/// After how many of these looks a worker lets other threads go on between two.
pub(crate) const QUICK_LOOKS: u32 = 200;

/// How often a thread tries to have a cell for itself, which another has for a moment.
pub(crate) const TRIES: u32 = 1_000;

/// How many blocks may be out at once: a ring has as many cells.
pub(crate) const MOST_OUT: usize = 16;

/// How many bytes of lines a block has at most whose buffer is used again.
pub(crate) const SPARE_BYTES: usize = 131_072;

/// How many members a list has at least whose halves are walked at once. A half starts a thread of its own,
/// for which fewer are too few.
pub(crate) const SPLIT_FLOOR: u64 = 4096;

/// How long a line is at least that may hold such a list: each member takes two bytes or more.
pub(crate) const SPLIT_BYTES: usize = 8192;
