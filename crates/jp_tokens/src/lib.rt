//! The parts of a query text of JSONPath (RFC 9535) that hold no query: names, strings, numbers, slices,
//! operators and literals, read from the left; and what is asked of a text as a whole.
#![tactic(auto)]

mod depth;
mod literals;
mod numbers;
mod operators;
mod shorthand;
mod slices;
mod strings;
mod text;

pub use depth::{bracket_depth, is_too_deep};
pub use literals::{begins_literal, calls, literal_at};
pub use operators::operator_at;
pub use shorthand::named_at;
pub use slices::numbers_at;
pub use strings::string_at;
pub use text::{
    begins_with, first_character, function_name_at, inside_brackets, is_end, is_quote, mark_at,
    skip,
};
