//! Documents read flat: a line as one list of nodes, in buffers that are kept from line to line.
#![tactic(auto)]

mod decimals;
mod digits;
mod document;
mod examples;
mod gather;
mod insertion;
pub mod laws;
mod limits;
mod line_reader;
mod lines;
mod long_arrays;
mod nodes;
mod structured;
mod value;

pub use document::FlatDocument;
pub use limits::MEMBERS_AT_FIRST;
pub use line_reader::LineReader;
pub use value::{FlatItems, FlatKind, FlatMember, FlatMembers, FlatNumber, FlatValue};
