//! Why a board is not made, and why it is not closed.

use crate::board::Board;
use crate::seat::Seat;
use thiserror::Error;

/// Why no board was made.
#[derive(Clone, Copy, Debug, PartialEq, Eq, Drop, Error)]
pub enum BoardFault {
    /// More than 4,294,967,296 pieces, no seat, or more than 64 seats.
    #[error("a board has at most 4294967296 pieces and 1 to 64 seats")]
    TooMany,
    /// A growth of memory was refused.
    #[error("memory")]
    Memory,
}

/// Why a board was not closed.
#[derive(Drop)]
pub enum CloseFault {
    /// Fewer seats came back than were made. The board and the seats are as they were.
    Missing { board: Board, seats: Vec<Seat> },
}
