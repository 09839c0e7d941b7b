//! What a query selects in a document (RFC 9535, 2.1.2): the walk of a compiled query through a document, on
//! one thread or by halves of long lists at once.
#![tactic(auto)]

mod context;
mod document_filter;
mod evaluator;
mod examples;
mod fault;
mod fork;
pub mod laws;
mod local;
mod roots;
mod route;
mod singular;
mod split;
mod walk;
mod wide;
mod work_items;

pub use document_filter::DocumentFilter;
pub use evaluator::Evaluator;
pub use fault::EvalFault;
pub use fork::{Cuts, Fork, Halving, OpenFork};
pub use jp_node::{Bounds, slice_bounds};
pub use jp_value::{Operand, equal, less};
