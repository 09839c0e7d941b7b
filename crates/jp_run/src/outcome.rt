//! What lines are answered with, in one piece.

use jp_answer::DocStop;

/// The output lines of the documents before the first faulty line, and that line.
#[derive(Drop)]
pub struct Answer {
    /// The output lines, one after another.
    pub bytes: Vec<u8>,
    /// The first faulty line, if there is one.
    pub stopped: Option<DocStop>,
}

/// The output lines of all documents and the fault lines of all faulty lines, in order.
#[derive(Drop)]
pub struct Whole {
    /// The lines, one after another.
    pub bytes: Vec<u8>,
    /// The number of faulty lines.
    pub faulty: u64,
}
