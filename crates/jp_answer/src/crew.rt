//! What workers are given throughout.

use std::alloc::Global;

/// What a crew of workers is given throughout: what starts its threads, where its memory comes from, and the
/// gate that each worker passes before a block.
#[derive(Drop)]
pub struct Crew<'a, R, G> {
    /// What starts threads.
    pub rt: &'a R,
    /// Where memory comes from.
    pub alloc: Global,
    /// What is told of each block before it is answered.
    pub gate: &'a G,
}
