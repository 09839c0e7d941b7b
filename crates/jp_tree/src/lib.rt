//! The tree that a query text of JSONPath (RFC 9535) spells, and which text spells it.
#![tactic(auto)]

mod fault;
pub mod made;
mod singular;
mod tree;

pub use fault::QueryFault;
pub use singular::is_singular;
pub use tree::{
    Argument, Call, Comparable, Comparison, Literal, Logical, Operator, Query, Segment, Selector,
    Slice, Start,
};
