//! What an input is answered with.

use jp_answer::DocStop;

/// What an input is answered with, in one piece.
#[derive(Drop)]
pub struct Answered {
    /// The bytes of the answer.
    pub bytes: Vec<u8>,
    /// How many faulty lines the answer passes: none where it ends at the first.
    pub faulty: u64,
    /// The faulty line that ends the answer, if there is one.
    pub stopped: Option<DocStop>,
}
