//! What an action at a value leads to: further actions, each along a list of its children.

ghost use Rattle.std.specs.Prelude.{◌≡◌, ◌≤◌, ◌<◌, ◌++◌, ◌∷◌, [], IfOk, IfSome, MatchOption};
ghost use Rattle.jp_doc.specs.Height.{height};
ghost use Rattle.jp_doc.specs.Location.{Location, node};
ghost use Rattle.jp_eval.specs.inner.Base.{Base};
ghost use Rattle.jp_node.specs.ChildNodes.{all_height};
ghost use Rattle.jp_eval.specs.inner.Along.{done_along, done_by, items_left};
ghost use Rattle.jp_node.specs.Part.{part_value};
ghost use Rattle.jp_eval.specs.inner.Walk.{picked, reached, done};

use crate::walk::Action;
use jp_compiled::{CompiledSegment, CompiledSelector};
use jp_node::{Children, Part, children_of, named, place_in, placed, sliced};
use jp_value::bounds_of;
use std::alloc::{AllocError, Global};

/// An action at each of some children of a value.
#[derive(Drop)]
pub(crate) struct WorkItem<'v> {
    pub(crate) action: Action<'v>,
    pub(crate) children: Children<'v>,
}

/// What is left of an action at a value. Its work items come one after another, so that no more than one list
/// of children is held at a time.
#[derive(Clone, Copy)]
pub(crate) struct WorkItems<'v> {
    pub(crate) value: Part<'v>,
    /// The selectors that are left.
    selectors: &'v [CompiledSelector],
    /// What is applied, behind these, at each descendant.
    below: Option<&'v [CompiledSelector]>,
    rest: &'v [CompiledSegment],
}

/// What an action comes to at the value, or nothing where it goes no further down, or where a test decides.
pub(crate) fn work_items<'v>(action: Action<'v>, value: Part<'v>) -> Option<WorkItems<'v>>
    ensures nodes { IfSome result (λ w. (base : Base) (at : Location) →
        done_by base at w ≡ done base action.entry (node at (part_value value.entry))) }
    ensures height { IfSome result (λ w. height (part_value w.value) ≡ height (part_value value.entry)) }
{
    match action {
        Action::Run(segments) => match segments.split_first() {
            None => None,
            Some((segment, rest)) => Some(of_segment(segment, rest, value)),
        },
        Action::Descend(selectors, rest) => Some(WorkItems {
            value,
            selectors,
            below: Some(selectors),
            rest,
        }),
        Action::Test(_, _) => None,
    }
}

/// What a segment comes to at the value, with those behind it.
fn of_segment<'v>(
    segment: &'v CompiledSegment,
    rest: &'v [CompiledSegment],
    value: Part<'v>,
) -> WorkItems<'v>
    ensures nodes { (base : Base) (at : Location) → done_by base at result
        ≡ reached base (segment.now ∷ rest.now) (node at (part_value value.entry) ∷ []) }
    ensures height { height (part_value result.value) ≡ height (part_value value.entry) }
{
    let selectors = segment.selectors.as_slice();
    if segment.deep {
        WorkItems {
            value,
            selectors,
            below: Some(selectors),
            rest,
        }
    } else {
        WorkItems {
            value,
            selectors,
            below: None,
            rest,
        }
    }
}

impl<'v> WorkItems<'v> {
    /// The next work item, and what is left behind it.
    ///
    /// `AllocError` if a growth was refused.
    pub(crate) fn next(
        self,
        alloc: Global,
    ) -> Result<Option<(WorkItem<'v>, WorkItems<'v>)>, AllocError>
        ensures nodes { IfOk result (λ o. (base : Base) (at : Location) → MatchOption o
            (done_by base at self.entry ≡ [])
            (λ p. done_by base at self.entry ≡ done_along base at p.0 ++ done_by base at p.1)) }
        ensures height { IfOk result (λ o. IfSome o
            (λ p. all_height p.0.children ≤ height (part_value self.entry.value))) }
        ensures value { IfOk result (λ o. IfSome o
            (λ p. height (part_value p.1.value) ≡ height (part_value self.entry.value))) }
        ensures fewer { IfOk result (λ o. IfSome o (λ p. items_left p.1 < items_left self.entry)) }
    {
        if let Some((selector, selectors)) = self.selectors.split_first() {
            let work_item = work_item_of(alloc, selector, self.rest, self.value)?;
            return Ok(Some((work_item, WorkItems { selectors, ..self })));
        }
        let Some(selectors) = self.below else {
            return Ok(None);
        };
        let work_item = WorkItem {
            action: Action::Descend(selectors, self.rest),
            children: children_of(alloc, self.value)?,
        };
        Ok(Some((
            work_item,
            WorkItems {
                below: None,
                ..self
            },
        )))
    }
}

/// One selector at the value, and then the segments.
fn work_item_of<'v>(
    alloc: Global,
    selector: &'v CompiledSelector,
    rest: &'v [CompiledSegment],
    value: Part<'v>,
) -> Result<WorkItem<'v>, AllocError>
    ensures nodes { IfOk result (λ s. (base : Base) (at : Location) → done_along base at s
        ≡ reached base rest.now (picked base selector.now (node at (part_value value.entry)))) }
    ensures height { IfOk result (λ s. all_height s.children ≤ height (part_value value.entry)) }
{
    match selector {
        CompiledSelector::Name(name) => {
            let children = Children::Listed(named(alloc, value, name.as_str())?);
            Ok(WorkItem {
                action: Action::Run(rest),
                children,
            })
        }
        CompiledSelector::Wild => {
            let children = children_of(alloc, value)?;
            Ok(WorkItem {
                action: Action::Run(rest),
                children,
            })
        }
        CompiledSelector::Index(index) => {
            let place = place_in(index.value, value);
            let children = Children::Listed(placed(alloc, value, place)?);
            Ok(WorkItem {
                action: Action::Run(rest),
                children,
            })
        }
        CompiledSelector::Slice(slice) => {
            let children = Children::Listed(sliced(
                alloc,
                value,
                bounds_of(slice, value.item_count()),
            )?);
            Ok(WorkItem {
                action: Action::Run(rest),
                children,
            })
        }
        CompiledSelector::Filter(test) => {
            let children = children_of(alloc, value)?;
            Ok(WorkItem {
                action: Action::Test(test, rest),
                children,
            })
        }
    }
}
