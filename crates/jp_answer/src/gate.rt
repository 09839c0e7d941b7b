//! What is told of each piece before it is worked on, and of faulty lines.

use jp_doc::DocFault;
use std::alloc::Global;

/// Is told of each piece, on the thread that works on it; and of faulty lines, if it wants them.
pub trait Gate {
    /// Called by a worker after it has got a piece, or the block with that number, and before it works on it.
    fn pass(&self, piece: u64);

    /// Whether it wants to be told of faulty lines, or of further ones.
    fn wants_faulty(&self) -> bool {
        false
    }

    /// Called by a run for each faulty line that its answer passes or ends at, in their order and one after
    /// another, as long as such lines are wanted.
    fn faulty(&self, _alloc: Global, _number: u64, _line: &[u8], _fault: &DocFault) {}
}

/// A gate that does nothing.
#[derive(Clone, Copy, Debug, Drop)]
pub struct OpenGate;

impl Gate for OpenGate {
    fn pass(&self, _piece: u64) {}
}
