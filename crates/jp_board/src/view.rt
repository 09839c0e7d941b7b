//! What a seat knows.

use std::collections::LinkedList;

/// What a seat knows: the board's numbers of pieces and seats, for how many of the seats it stands, what it
/// has claimed, reported and seen, each in order, and how often it was told that no piece is left.
///
/// It is there for the contracts alone: no code makes one.
pub(crate) struct View {
    pub pieces: u64,
    pub made: u64,
    pub stands_for: u64,
    pub claims: LinkedList<u64>,
    pub reports: LinkedList<u64>,
    pub looks: LinkedList<u64>,
    pub told: u64,
}
