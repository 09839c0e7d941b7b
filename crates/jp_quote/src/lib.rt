//! A text as a string literal of a query (RFC 9535, 2.3.1.1), in the form that names have in normalized paths
//! (2.7).
#![tactic(auto)]

mod examples;
mod growth;
pub mod laws;
mod literal;

pub use literal::quote;
