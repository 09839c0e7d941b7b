//! Scans of a faulty line from left to right: where it goes wrong, and where a number stands in it that is
//! not whole or over the limits.
#![tactic(auto)]

mod line_place;
mod line_reason;
mod line_scanner;
mod line_steps;
mod long_number;
mod not_whole;
mod written_name;

pub use line_reason::{LineExpected, LineReason, LineRule, LongNumber, NotWhole, ValueWord};
pub use line_scanner::{first_fault, first_fault_of_decimals};
pub use long_number::{first_long_number, long_length};
pub use not_whole::{has_number_not_whole, lead, number_length, place_of};
