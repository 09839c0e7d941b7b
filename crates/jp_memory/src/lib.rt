//! The answer to an input that stands in memory, as bytes in memory, on the calling thread.
#![tactic(auto)]

mod adding;
mod answered;
mod answering;
mod filtered;
mod input;
mod limits;
mod preparing;

pub use answered::Answered;
pub use preparing::{answer_bytes, answer_prepared};
