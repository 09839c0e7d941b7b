//! Query texts of JSONPath (RFC 9535): the tree that a text spells, and which text spells it.
#![tactic(auto)]

mod arguments;
mod connective;
mod examples;
pub mod laws;
mod reader;
mod sides;

pub use reader::read_query;
