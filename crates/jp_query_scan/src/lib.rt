//! A scan of a refused query from left to right: where it goes wrong, what might have stood there, and how a
//! query may go on there.
#![tactic(auto)]

mod completion;
mod expected;
mod filter_steps;
mod functions;
mod literal_steps;
mod place;
mod query_steps;
mod reason;
mod scanner;

pub use reason::{Closer, Expected, Reason, Rule};
pub use scanner::{Scanned, scan};
