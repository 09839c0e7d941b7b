//! Values that a query speaks of (RFC 9535): their comparison, the functions over them, and what its literals
//! and the numbers of its slices stand for.
#![tactic(auto)]

mod comparison;
mod examples;
mod functions;
mod kinds;
pub mod laws;
mod ordered;
mod read_pattern;
mod slice;

pub use comparison::{Operand, equal, less};
pub use functions::{
    exactly_one, length, literal, matches, matches_known, searches, searches_known,
};
pub use kinds::compare_kinds;
pub use ordered::{Ordered, compare_ordered, order, turned};
pub use read_pattern::{ReadPattern, matches_read, searches_read};
pub use slice::bounds_of;
