//! How the document of a line is walked.

use crate::asked::Asked;
use crate::limits::{SPLIT_BYTES, SPLIT_FLOOR};
use jp_buffer::LineRef;
use jp_eval::Cuts;

/// How a document is walked.
#[derive(Clone, Copy, Drop)]
pub(crate) enum Walking {
    /// By one thread.
    Straight,
    /// A long list in it is cut so into halves that are walked at once.
    ByHalves(Cuts),
}

/// How the document of a line is walked: by no more threads than there are workers, or the next power of two.
/// A short line holds no list that is worth two.
pub(crate) fn walk_of(asked: &Asked<'_>, line: &LineRef<'_>) -> Walking {
    // One worker starts no thread, so it walks straight (README, Only several workers walk by halves).
    if asked.workers > 1 && line.bytes.len() >= SPLIT_BYTES {
        Walking::ByHalves(Cuts::new(SPLIT_FLOOR, asked.workers))
    } else {
        Walking::Straight
    }
}
