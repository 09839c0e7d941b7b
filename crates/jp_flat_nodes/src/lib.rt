//! The nodes of a flat document: a line of JSON read in one pass, or laid from what the kit has read.
#![tactic(auto)]

mod bytes;
mod escapes;
mod laying;
mod leaves;
mod limits;
mod node;
mod numbers;
mod reading;

pub use laying::lay;
pub use limits::MAX_NODES;
pub use node::{FlatNode, FlatNodes};
pub use reading::{read_decimal_line, read_line};
