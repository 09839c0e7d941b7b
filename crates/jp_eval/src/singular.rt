//! Queries of single names and indexes (RFC 9535, 2.3.5.1), of which one loop finds the value: most of what
//! filters ask of `@` is so. No path is kept on the way, and nothing is gathered.

ghost use Rattle.std.specs.Prelude.{◌≡◌, ◌∷◌, [], IfSome, option_map, option_to_list, true};
ghost use Rattle.jp_doc.specs.Location.{Location, node};
ghost use Rattle.jp_node.specs.Part.{part_value};
ghost use Rattle.jp_found.specs.Aggregates.{tells};
ghost use Rattle.jp_value.specs.Functions.{first_value};
ghost use Rattle.jp_node.specs.Nodes.{items_at};
ghost use Rattle.jp_eval.specs.inner.Base.{Base};
ghost use Rattle.jp_eval.specs.inner.OneNode.{AreOne};
ghost use Rattle.jp_eval.specs.inner.Walk.{picked, reached};

use jp_compiled::{CompiledSegment, CompiledSelector, Want};
use jp_found::Aggregate;
use jp_node::{Part, place_in};

/// The child that a name or an index selects, if there is one; and nothing where the selector is no such one.
// As `followed`.
#[inline(always)]
fn child_by<'v>(selector: &'v CompiledSelector, value: Part<'v>) -> Option<Option<Part<'v>>>
    ensures { IfSome result (λ child. (base : Base) (at : Location)
        → AreOne (picked base selector.now (node at (part_value value.entry)))
        (option_map part_value child)) }
{
    match selector {
        CompiledSelector::Name(name) => Some(value.member(name.as_str())),
        CompiledSelector::Index(index) => Some(item_at(place_in(index.value, value), value)),
        CompiledSelector::Wild => None,
        CompiledSelector::Slice(_) => None,
        CompiledSelector::Filter(_) => None,
    }
}

/// The item at this place, if there is one.
fn item_at<'v>(place: Option<u32>, value: Part<'v>) -> Option<Part<'v>>
    ensures { (at : Location) → AreOne (items_at (node at (part_value value.entry)) (option_to_list place))
        (option_map part_value result) }
{
    let Some(place) = place else {
        return None;
    };
    value.item(place)
}

/// What a segment of one name or index leads to.
// As `followed`.
#[inline(always)]
fn step_by<'v>(segment: &'v CompiledSegment, value: Part<'v>) -> Option<Option<Part<'v>>>
    ensures { IfSome result (λ child. (base : Base) (at : Location)
        → AreOne (reached base (segment.now ∷ []) (node at (part_value value.entry) ∷ []))
        (option_map part_value child)) }
{
    if segment.deep {
        return None;
    }
    let [selector] = segment.selectors.as_slice() else {
        return None;
    };
    child_by(selector, value)
}

/// What segments of one name or index each lead to, one after another, if there is a value; and nothing where
/// one of them is no such segment.
// Filters ask it of each child: handed out by calls, an option of an option would go by memory.
#[inline(always)]
pub(crate) fn followed<'v>(
    segments: &'v [CompiledSegment],
    value: Part<'v>,
) -> Option<Option<Part<'v>>>
    ensures { IfSome result (λ found. (base : Base) (at : Location)
        → first_value (reached base segments.now (node at (part_value value.entry) ∷ []))
        ≡ option_map part_value found) }
{
    let mut last = value;
    for segment in segments {
        match step_by(segment, last)? {
            Some(child) => last = child,
            None => return Some(None),
        }
    }
    Some(Some(last))
}

/// Whether the segment is of one name or index.
fn is_step(segment: &CompiledSegment) -> bool {
    !segment.deep
        && matches!(
            segment.selectors.as_slice(),
            [CompiledSelector::Name(_) | CompiledSelector::Index(_)]
        )
}

/// Whether each segment is of one name or index.
pub(crate) fn are_steps(segments: &[CompiledSegment]) -> bool {
    segments.iter().all(is_step)
}

/// The answer to a filter that wants the first node of such segments; and nothing of others.
pub(crate) fn answer_of<'v>(
    want: Want,
    segments: &'v [CompiledSegment],
    value: Part<'v>,
) -> Option<Aggregate<'v>>
    ensures { IfSome result (λ answer. (base : Base) (at : Location)
        → tells want (reached base segments.now (node at (part_value value.entry) ∷ [])) answer ≡ true) }
{
    let Want::First = want else {
        return None;
    };
    // Others are not followed up to where they are others, so that no name is looked for twice.
    if !are_steps(segments) {
        return None;
    }
    Some(Aggregate::First(followed(segments, value)?))
}
