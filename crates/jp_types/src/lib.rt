//! Which trees are valid and well-typed (RFC 9535, 2.1 and 2.4): the numbers of a query, the functions and
//! their types.
#![tactic(auto)]

mod examples;
mod faults;
mod functions;
pub mod laws;
mod numbers;
mod typing;
mod walk;
mod written;

pub use faults::Faults;
pub use functions::{Function, FunctionType, function_named, name_of, parameters, result_type};
pub use numbers::{MAX_WHOLE_DIGITS, is_whole};
pub use walk::query_faults;
pub use written::{MAX_INDEX, position, whole_number};
