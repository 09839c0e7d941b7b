//! A compiled query.
//!
//! Numbers are read, functions are resolved, literal patterns are read, and what asks nothing of the current
//! node stands in a list of its own: each `$` query inside a filter, behind those that stand inside it, and
//! each part of a filter that asks of `$` queries and literals alone, behind these.

ghost use Rattle.std.specs.Prelude.{◌≡◌, true};
ghost use Rattle.jp_compiled.specs.Parts.{roots_of};
ghost use Rattle.jp_compiled.specs.Uniform.{are_uniform};

use crate::query::{CompiledSegment, RootPart};
use jp_tree::Start;

/// A compiled query.
#[derive(Drop)]
pub struct CompiledQuery {
    /// The identifier that the query begins with.
    pub start: Start,
    /// The segments, in the order of the text.
    pub segments: Vec<CompiledSegment>,
    /// What its filters ask of the document alone, each behind what it asks itself.
    pub roots: Vec<RootPart>,
    pub ghost uniform: { are_uniform (roots_of roots.items) ≡ true },
}
