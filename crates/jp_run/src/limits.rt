//! The limits of a run, and the sizes by which it goes.

/// The greatest number of calls of `read`: of 65,536 bytes each they are 2^56 bytes, so that no count of 64
/// bits stops.
pub(crate) const MAX_READS: u64 = 1 << 40;

/// The greatest number of lines: with the one that the end may complete there are as many as a board takes
/// pieces.
pub(crate) const MAX_LINES: u64 = 4_294_967_295;

/// The number of bytes that a read is asked for at least: enough for 4,096 lines of two bytes.
pub(crate) const LEAST_READ: usize = 8_192;

/// The greatest number of workers: a board has so many seats.
pub(crate) const MAX_WORKERS: u64 = 64;

/// The greatest number of documents of a piece and of a batch: a batch's lines and its answer are held in
/// memory.
pub(crate) const MAX_DOCUMENTS: u64 = 1_000_000;

/// The number of bytes that one call of `read` is asked for: as many as a pipe of Linux holds.
pub(crate) const READ_SIZE: usize = 65_536;

/// How many reads a run has made where workers are started: what fewer bring, a quarter of a megabyte at
/// most, is answered in little more time than threads take to start.
pub(crate) const FIRST_READS: u64 = 4;

/// How many bytes wait at least where workers are started: fewer are answered while threads would start.
pub(crate) const MANY_BYTES: usize = 65_536;

/// How many lines at least, where they are fewer bytes: and half a batch, which a narrower read brings.
pub(crate) const MANY_LINES: u64 = 512;

/// How many bytes of lines make a block, though they are fewer lines than a piece.
pub(crate) const BLOCK_BYTES: usize = 32_768;

/// How many bytes may come before they are answered, although the source goes on at once: so many are held
/// at most, and what one read brings.
pub(crate) const WINDOW_BYTES: usize = 4_194_304;

/// The same for one worker: few enough to be answered while they lie in the processor's cache.
pub(crate) const CACHE_BYTES: usize = 131_072;
