//! A board on which threads claim numbered pieces of work, report some of them, and look at the least report.
#![tactic(auto)]

mod board;
mod examples;
mod fault;
pub mod laws;
mod rule;
mod seat;
mod tally;
mod view;

pub use board::Board;
pub use fault::{BoardFault, CloseFault};
pub use seat::Seat;
pub use tally::Tally;
