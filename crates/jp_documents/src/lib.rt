//! JSON documents that stand one behind another over any number of lines, cut out of bytes in pieces.
#![tactic(auto)]

mod buffer;
mod cutting;
mod examples;
mod first;
pub mod laws;
mod place;
mod runs;

pub use buffer::DocumentBuffer;
