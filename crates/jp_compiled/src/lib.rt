//! Compiled queries: what can be known of a query before there is a document.
#![tactic(auto)]

mod compiled;
mod known;
mod only_filter;
mod query;

pub use compiled::CompiledQuery;
pub use known::KnownPattern;
pub use query::{
    ArgumentForm, CompiledLogical, CompiledSegment, CompiledSelector, CompiledSlice, Constant,
    Giver, Nodes, Position, RootPart, RootQuery, Want, WholeNumber, WrittenNumber,
};
