//! The lines of a stream, kept in buffers that are used again.
#![tactic(auto)]

mod buffer;
mod cutting;
mod examples;
mod line_ref;
mod waiting;

pub use buffer::{LineBuffer, put_instead};
pub use line_ref::{LineRef, refs_of};
pub use waiting::WaitingLines;
