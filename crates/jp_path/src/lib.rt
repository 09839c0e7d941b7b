//! Normalized paths (RFC 9535, 2.7) as queries: each selects just its node.
#![tactic(auto)]

mod examples;
pub mod laws;
mod query;

pub use jp_output::{write_fault, write_line, write_path};
pub use query::{path_plan, query_of};
