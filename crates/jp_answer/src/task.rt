//! Some lines, and what is asked of them.

ghost use Rattle.std.specs.Prelude.{◌≤◌, length};
ghost use Rattle.jp_board.specs.Limits.{max_pieces};

use crate::asked::Asked;
use jp_buffer::WaitingLines;

/// Some lines, and what is asked of them.
#[derive(Drop)]
pub struct Task<'q> {
    /// What is asked.
    pub asked: Asked<'q>,
    /// The lines, 4,294,967,296 at most.
    pub lines: WaitingLines,
    pub ghost few_lines: { length lines ≤ max_pieces },
}
