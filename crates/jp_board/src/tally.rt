//! What the seats of a board did together.

/// What the seats of a board did together.
#[derive(Clone, Copy, Debug, PartialEq, Eq, Drop)]
pub struct Tally {
    /// The claims were the numbers below this one, each once.
    pub claimed: u64,
    /// The least report, or the number of pieces where there was none.
    pub least: u64,
}
