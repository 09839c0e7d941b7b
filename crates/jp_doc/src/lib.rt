//! JSON documents, one on a line: lines, what a line is read as, and locations in a document.
#![tactic(auto)]

mod cutting;
mod document;
mod examples;
mod fault;
pub mod laws;
mod limits;
mod line;
mod lines;
mod location;

pub use cutting::{first_line, is_blank_line};
pub use document::{Document, whole_number, whole_of};
pub use fault::DocFault;
pub use limits::{LONG_LINE, MAX_ITEMS, MAX_LINE, fault_within};
pub use line::Line;
pub use lines::Lines;
pub use location::{Location, Step};
