//! The sizes by which an input is answered.

/// How many bytes of an input are cut into documents at a time: few enough to be answered while they lie in
/// the processor's cache, and no more than these are copied at once.
pub(crate) const PIECE_BYTES: usize = 65_536;

/// The greatest number of a line, or of a document over lines.
pub(crate) const MAX_LINES: u64 = 4_294_967_295;
