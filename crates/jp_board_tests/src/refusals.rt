//! Calls whose growths of memory a sweep refuses, one after another, each in a run of its own.
//!
//! A turn says whether the answer was right, or nothing where it was want of memory. Each is made twice: one
//! growth is refused at most, so one of the two answers.

use jp_board::{Board, BoardFault};
use std::alloc::Global;

fn claimed(alloc: Global) -> Option<bool> {
    let (board, mut seats) = match Board::new(alloc, 2, 2) {
        Ok(made) => made,
        Err(BoardFault::Memory) => return None,
        Err(_) => return Some(false),
    };
    let mut seat = seats.pop()?;
    Some(seats.len() == 1 && board.claim(&mut seat) == Some(0))
}

#[test]
fn a_board(rt: HostRuntime) {
    let turns = (claimed(rt.alloc()), claimed(rt.alloc()));
    assert!(rt; matches!(turns, (Some(true), Some(true) | None) | (None, Some(true))));
}
