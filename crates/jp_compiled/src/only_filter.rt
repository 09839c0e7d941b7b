//! The expression of a query that is one filter.

ghost use Rattle.std.specs.Prelude.{◌≡◌, List, map, option_map, MatchOption};
ghost use Rattle.jp_tree.specs.Tree as tree;
ghost use Rattle.jp_compiled.specs.Compiled.{compiled_query};
ghost use Rattle.jp_compiled.specs.Filter.{filter_query};
ghost use Rattle.jp_compiled.specs.Parts.{Wanted, logical_in, roots_of, segment_in, segments_in, selector_in};
ghost use Rattle.jp_compiled.specs.inner.OnlyFilter.{segment_filter, segments_filter, selector_filter};
ghost use Rattle.jp_compiled.specs.inner.OnlyFilter.{selectors_filter};

use crate::compiled::CompiledQuery;
use crate::query::{CompiledLogical, CompiledSegment, CompiledSelector};
use jp_tree::Start;

impl CompiledQuery {
    /// The expression of the filter, where the query is `$[?FILTER]` (RFC 9535, 2.3.5): one child segment,
    /// which has this selector alone. It takes no memory.
    pub fn only_filter(&self) -> Option<&CompiledLogical>
        ensures { MatchOption result
            ((l : tree.Logical) → compiled_query self.now ≡ filter_query l → ⊥)
            (λ l. compiled_query self.now
            ≡ filter_query (logical_in (roots_of self.now.roots.items) l.now)) }
    {
        match self.start {
            Start::Root => of_segments(self.segments.as_slice()),
            Start::Current => None,
        }
    }
}

fn of_segments(segments: &[CompiledSegment]) -> Option<&CompiledLogical>
    ensures { (roots : List Wanted) → option_map (λ l. logical_in roots l.now) result
        ≡ segments_filter (segments_in roots segments.now) }
{
    match segments {
        [] => None,
        [segment] => of_segment(segment),
        [_, _, ..] => None,
    }
}

fn of_segment(segment: &CompiledSegment) -> Option<&CompiledLogical>
    ensures { (roots : List Wanted) → option_map (λ l. logical_in roots l.now) result
        ≡ segment_filter (segment_in roots segment.now) }
{
    if segment.deep {
        None
    } else {
        of_selectors(segment.selectors.as_slice())
    }
}

fn of_selectors(selectors: &[CompiledSelector]) -> Option<&CompiledLogical>
    ensures { (roots : List Wanted) → option_map (λ l. logical_in roots l.now) result
        ≡ selectors_filter (tree.selectors (map (selector_in roots) selectors.now)) }
{
    match selectors {
        [] => None,
        [selector] => of_selector(selector),
        [_, _, ..] => None,
    }
}

fn of_selector(selector: &CompiledSelector) -> Option<&CompiledLogical>
    ensures { (roots : List Wanted) → option_map (λ l. logical_in roots l.now) result
        ≡ selector_filter (selector_in roots selector.now) }
{
    match selector {
        CompiledSelector::Name(_) => None,
        CompiledSelector::Wild => None,
        CompiledSelector::Index(_) => None,
        CompiledSelector::Slice(_) => None,
        CompiledSelector::Filter(logical) => Some(logical),
    }
}
