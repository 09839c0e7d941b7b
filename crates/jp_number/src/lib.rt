//! JSON numbers (RFC 8259, 6): whole ones and ones by their text, compared by their values exactly.
#![tactic(auto)]

mod digits;
mod examples;
pub mod laws;
mod number;
mod number_text;
mod numbers;
mod size;

pub use number::Number;
pub use number_text::NumberText;
pub use numbers::Numbers;
pub use size::{MAX_DIGITS, MAX_EXPONENT_DIGITS};
