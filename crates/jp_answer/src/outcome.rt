//! What lines are answered with.

use jp_doc::DocFault;

/// What lines are answered with in either form: where the answer keeps going it never stops.
#[derive(Drop)]
pub struct Outcome {
    /// The output lines and the fault lines, one after another, in chunks as they were written.
    pub chunks: Vec<Vec<u8>>,
    /// How many faulty lines the answer passes.
    pub faulty: u64,
    /// The faulty line that ends the answer, if there is one.
    pub stopped: Option<DocStop>,
}

/// A faulty line, and what is wrong with it.
#[derive(Clone, Copy, Debug, PartialEq, Eq, Drop)]
pub struct DocStop {
    /// The line's number, from 1.
    pub line: u64,
    /// What is wrong with it.
    pub fault: DocFault,
}
