//! What an I-Regexp is (RFC 9485): its grammar, limits and language, the reading of its text, and which
//! characters a set holds.
#![tactic(auto)]

mod categories;
mod examples;
mod fault;
mod limits;
mod read_counts;
mod read_patterns;
mod read_sets;
mod sets;
mod tree;

pub use fault::PatternFault;
pub use read_patterns::read_tree;
pub use sets::{in_set, in_some_element};
pub use tree::{CharSet, Element, Node};
