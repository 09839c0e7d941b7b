//! What is kept of the nodes that a walk finds, and what a filter is told of them.
#![tactic(auto)]

mod aggregates;
mod asked;
mod different;
mod found;
mod name;
mod root_answer;
mod way;

pub use aggregates::{Aggregate, has_first, is_result_of, of_distinct, of_one, operand};
pub use asked::{RootUse, asked_by};
pub use different::{Different, Located};
pub use found::{
    Alone, Found, add, append, fresh, into_aggregate, is_full, none_found, visitor_of,
};
pub use name::Name;
pub use root_answer::{Length, RootAnswer};
pub use way::{Stop, Way};
