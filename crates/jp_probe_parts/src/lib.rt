//! What the drivers of the rows share: their loop, rows and what stands in them, bytes, locations and faults.
#![tactic(auto)]

mod answering;
mod bytes;
mod fault_names;
mod rows;
mod steps;

pub use answering::{Answering, answer_rows};
pub use bytes::{bytes_of, text_of};
pub use fault_names::fault_named;
pub use rows::{Row, flag_in, items_in, number_in, text_in};
pub use steps::location_of;
