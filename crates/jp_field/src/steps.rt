//! The steps of compiled segments.

ghost use Rattle.std.specs.Prelude.{◌≡◌, ◌∷◌, [], List, IfOk, option_map};
ghost use Rattle.jp_compiled.specs.Parts.{Wanted, segment_in, segments_in, selector_in};
ghost use Rattle.jp_tree.specs.Tree as tree;
ghost use Rattle.jp_output.specs.Rows.{field_of, step_of};
ghost use Rattle.jp_field.specs.FieldText.{path_in, step_in};

use jp_compiled::{CompiledSegment, CompiledSelector};
use jp_output::{Field, FieldStep};
use std::alloc::{AllocError, Global};

/// What the segments select, where each is of one name or one index. `AllocError` if memory was refused.
pub(crate) fn field_of_segments(
    alloc: Global,
    segments: &[CompiledSegment],
) -> Result<Option<Field>, AllocError>
    ensures { IfOk result (λ field. (roots : List Wanted)
        → path_in (segments_in roots segments.now) ≡ option_map field_of field) }
{
    let mut steps = Vec::with_capacity(alloc, segments.len())?;
    for segment in segments {
        let Some(step) = step_of_segment(alloc, segment)? else {
            return Ok(None);
        };
        steps.push(step)?;
    }
    Ok(Some(Field { steps }))
}

/// What a segment selects, where it is of one name or one index. `AllocError` if memory was refused.
fn step_of_segment(
    alloc: Global,
    segment: &CompiledSegment,
) -> Result<Option<FieldStep>, AllocError>
    ensures { IfOk result (λ step. (roots : List Wanted)
        → step_in (segment_in roots segment.now) ≡ option_map step_of step) }
{
    if segment.deep {
        return Ok(None);
    }
    match segment.selectors.as_slice() {
        [selector] => step_of_selector(alloc, selector),
        _ => Ok(None),
    }
}

/// What a selector selects, where it is one name or one index. `AllocError` if memory was refused.
fn step_of_selector(
    alloc: Global,
    selector: &CompiledSelector,
) -> Result<Option<FieldStep>, AllocError>
    ensures { IfOk result (λ step. (roots : List Wanted)
        → step_in (tree.child (selector_in roots selector.now ∷ [])) ≡ option_map step_of step) }
{
    match selector {
        CompiledSelector::Name(name) => {
            let name = String::from_str(alloc, name.as_str())?;
            Ok(Some(FieldStep::Name(name)))
        }
        CompiledSelector::Index(index) => Ok(Some(FieldStep::Index(index.value))),
        CompiledSelector::Wild => Ok(None),
        CompiledSelector::Slice(_) => Ok(None),
        CompiledSelector::Filter(_) => Ok(None),
    }
}
