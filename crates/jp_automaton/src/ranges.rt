//! The ranges of a class, in an order in which they are found by halves.

ghost use Rattle.std.specs.List.Sorted.{IsNonDecreasingBy};
ghost use Rattle.std.proofs.Props.{props};
ghost use Rattle.jp_automaton.specs.inner.SpanOrder.{first_of, last_of};

use jp_pattern::Element;

/// The characters from the first to the last.
#[derive(Clone, Copy)]
pub struct Span {
    pub low: char,
    pub high: char,
}

/// What stands in a class, as it is looked up.
#[derive(Drop)]
pub struct Class {
    pub negated: bool,
    /// Its ranges, and each character that stands alone as one. From one to the next neither the first
    /// character falls nor the last one.
    pub spans: Vec<Span>,
    /// `\p{..}` and `\P{..}`.
    pub categories: Vec<Element>,
    ghost firsts: { IsNonDecreasingBy first_of spans.items } by { Prim.hlevel props },
    ghost lasts: { IsNonDecreasingBy last_of spans.items } by { Prim.hlevel props },
}
