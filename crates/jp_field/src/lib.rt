//! Which texts are fields: singular queries of `@` (RFC 9535, 2.3.5.1).
#![tactic(auto)]

mod field_text;
pub mod laws;
mod steps;

pub use field_text::{field_in, fields_in};
