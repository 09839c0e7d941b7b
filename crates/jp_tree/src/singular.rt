//! Which queries are singular.

ghost use Rattle.std.specs.Prelude.{◌≡◌};
ghost use Rattle.jp_tree.specs.Tree as tree;
ghost use Rattle.jp_tree.specs.View.{query_of};
ghost use Rattle.jp_tree.specs.PartViews as view;
ghost use Rattle.jp_tree.specs.Singular as singular;

use crate::tree::{Query, Segment, Selector};

fn is_name_or_index(selector: &Selector) -> bool
    ensures { result ≡ singular.is_name_or_index (view.selector_of selector.now) }
{
    match selector {
        Selector::Name(_) => true,
        Selector::Wild => false,
        Selector::Index(_) => true,
        Selector::Slice(_) => false,
        Selector::Filter(_) => false,
    }
}

fn is_one_step(selectors: &[Selector]) -> bool
    ensures { result ≡ singular.is_one_step (tree.selectors (view.selectors_of selectors.now)) }
{
    match selectors {
        [] => false,
        [selector] => is_name_or_index(selector),
        [_, _, ..] => false,
    }
}

fn is_singular_segment(segment: &Segment) -> bool
    ensures { result ≡ singular.is_singular_segment (view.segment_of segment.now) }
{
    !segment.deep && is_one_step(segment.selectors.as_slice())
}

fn each_is_singular(segments: &[Segment]) -> bool
    ensures { result ≡ singular.each_is_singular (tree.segments (view.segments_of segments.now)) }
{
    let mut rest = segments;
    while let [segment, more @ ..] = rest {
        if !is_singular_segment(segment) {
            return false;
        }
        rest = more;
    }
    true
}

/// Whether the query is singular, which selects one node at most (RFC 9535, 2.3.5.1).
/// It takes no memory.
pub fn is_singular(query: &Query) -> bool
    ensures { result ≡ singular.is_singular (query_of query.now) }
{
    each_is_singular(query.segments.as_slice())
}
