//! The items of a slice of an array (RFC 9535, 2.3.4).

ghost use Rattle.std.specs.Prelude.{◌≡◌, ◌≤◌, ◌+◌, ◌-◌, ◌++◌, List, IfOk, OnOk};
ghost use Rattle.std.specs.Prelude.{◌+ℤ◌, ◌≤ℤ◌, ◌<ℤ◌, pos, negsuc, map, take, drop, length, max, option_map};
ghost use Rattle.std.specs.List.{slice_get};
ghost use Rattle.jp_doc.specs.Height.{height};
ghost use Rattle.jp_doc.specs.Json.{Json, array, items as items_of};
ghost use Rattle.jp_doc.specs.Location.{Location, node, index, item_of};
ghost use Rattle.jp_flat.specs.Value.{item_count};
ghost use Rattle.jp_node.specs.Inside.{item_values};
ghost use Rattle.jp_node.specs.Part.{part_value};
ghost use Rattle.jp_node.specs.BoundsView.{bounds_value};
ghost use Rattle.jp_node.specs.Places.{AreWithin};
ghost use Rattle.jp_node.specs.Slice.{slice_indexes};
ghost use Rattle.jp_node.specs.ChildNodes.{listed_nodes, children_height};
ghost use Rattle.jp_node.specs.Nodes.{child, items_at};

use crate::bounds::{Bounds, first_place, place_after};
use crate::children::Child;
use crate::items::Items;
use crate::link::Link;
use crate::part::{Inside, Part};
use std::alloc::{AllocError, Global};

/// The items of a slice (RFC 9535, 2.3.4), whose bounds lie within the array.
///
/// `AllocError` if a growth was refused.
pub fn sliced<'v>(
    alloc: Global,
    value: Part<'v>,
    bounds: Bounds,
) -> Result<Vec<Child<'v>>, AllocError>
    requires { AreWithin (bounds_value bounds) (item_count (part_value value)) }
    ensures nodes { IfOk result (λ v. (at : Location) → listed_nodes at v.items
        ≡ items_at (node at (part_value value.entry))
        (slice_indexes (bounds_value bounds) (item_count (part_value value.entry)))) }
    ensures height { IfOk result (λ v. children_height v.items ≤ height (part_value value.entry)) }
{
    match value.inside() {
        Inside::Items(items) => {
            if bounds.step > 0 {
                rising(alloc, items, bounds)
            } else if bounds.step < 0 {
                falling(alloc, items, bounds)
            } else {
                Ok(Vec::new(alloc))
            }
        }
        Inside::Members(_) => Ok(Vec::new(alloc)),
        Inside::Nothing => Ok(Vec::new(alloc)),
    }
}

/// The items of a slice with a positive step. None is listed that is not of the slice.
fn rising<'v>(alloc: Global, items: Items<'v>, bounds: Bounds) -> Result<Vec<Child<'v>>, AllocError>
    requires within { AreWithin (bounds_value bounds) (length (item_values items)) }
    requires rises { pos 0 <ℤ bounds.step }
    ensures nodes { IfOk result (λ v. (at : Location) → listed_nodes at v.items
        ≡ items_at (node at (array (items_of (item_values items.entry))))
        (slice_indexes (bounds_value bounds) (length (item_values items.entry)))) }
    ensures height { IfOk result (λ v.
        children_height v.items ≤ height (array (items_of (item_values items.entry)))) }
{
    let mut children = Vec::new(alloc);
    // One pass forwards, and no list: an array can't be looked into at a place
    // (README, Only backward slices need a list).
    let mut left = items;
    let mut passed = 0;
    let mut next = first_place(bounds);
    while let Some(place) = next {
        left = add_next(left, passed, place, &mut children)?;
        passed = place + 1;
        next = place_after(bounds, place);
    }
    Ok(children)
}

/// Adds the item at this place, if there is one, and gives the items behind it. So many items stand before
/// the first of `left`.
fn add_next<'v>(
    left: Items<'v>,
    passed: u32,
    place: u32,
    children: &mut Vec<Child<'v>>,
) -> Result<Items<'v>, AllocError>
    requires further { passed ≤ place }
    ensures behind { IfOk result (λ behind. (vs : List Json) → item_values left.entry ≡ drop passed vs
        → item_values behind ≡ drop (place + 1) vs) }
    ensures nodes { OnOk result ((vs : List Json) → item_values left.entry ≡ drop passed vs
        → (at : Location) → listed_nodes at children.new.items
        ≡ listed_nodes at children.old.items ++ child (index place) (node at (array (items_of vs)))) }
    ensures height { OnOk result ((vs : List Json) → item_values left.entry ≡ drop passed vs
        → children_height children.new.items
        ≤ max (children_height children.old.items) (height (array (items_of vs)))) }
{
    let ahead = left.skip(place - passed);
    let Some((part, behind)) = ahead.split_first() else {
        return Ok(ahead);
    };
    children.push(Child {
        link: Link::Index(place),
        part,
    })?;
    Ok(behind)
}

/// The items of a slice with a negative step. Those between its bounds are listed first, and no others.
fn falling<'v>(
    alloc: Global,
    items: Items<'v>,
    bounds: Bounds,
) -> Result<Vec<Child<'v>>, AllocError>
    requires within { AreWithin (bounds_value bounds) (length (item_values items)) }
    requires falls { bounds.step <ℤ pos 0 }
    ensures nodes { IfOk result (λ v. (at : Location) → listed_nodes at v.items
        ≡ items_at (node at (array (items_of (item_values items.entry))))
        (slice_indexes (bounds_value bounds) (length (item_values items.entry)))) }
    ensures height { IfOk result (λ v.
        children_height v.items ≤ height (array (items_of (item_values items.entry)))) }
{
    let mut children = Vec::new(alloc);
    let Some(highest) = first_place(bounds) else {
        return Ok(children);
    };
    let lowest = above(bounds.lower, highest);
    // It goes backwards, which an array can't be walked: so these are listed
    // (README, Only backward slices need a list).
    let between = list_of(alloc, items.skip(lowest), highest - lowest + 1)?;
    let mut next = Some(highest);
    while let Some(place) = next {
        add_item(between.as_slice(), lowest, place, &mut children)?;
        next = place_after(bounds, place);
    }
    Ok(children)
}

/// The place above this bound, where the bound is below some place.
fn above(bound: i64, place: u32) -> u32
    requires least { negsuc 0 ≤ℤ bound }
    requires below { bound <ℤ pos place }
    ensures { pos result ≡ bound +ℤ pos 1 }
{
    (bound + 1) as u32
}

/// The first so many of these items, or all of them where they are fewer.
fn list_of<'v>(alloc: Global, items: Items<'v>, count: u32) -> Result<Vec<Part<'v>>, AllocError>
    ensures { IfOk result (λ v. map part_value v.items ≡ take count (item_values items.entry)) }
{
    let mut list = Vec::new(alloc);
    let mut left = items;
    for i in 0..count {
        let Some((first, others)) = left.split_first() else {
            return Ok(list);
        };
        list.push(first)?;
        left = others;
    }
    Ok(list)
}

/// Adds the item at this place, if it is one of these, of which the first stands at the place `lowest`.
fn add_item<'v>(
    items: &[Part<'v>],
    lowest: u32,
    place: u32,
    children: &mut Vec<Child<'v>>,
) -> Result<(), AllocError>
    requires within { lowest ≤ place }
    ensures nodes { OnOk result ((v : Json)
        → option_map part_value (slice_get items.now (place - lowest)) ≡ item_of place v
        → (at : Location) → listed_nodes at children.new.items
        ≡ listed_nodes at children.old.items ++ child (index place) (node at v)) }
    ensures height { OnOk result ((v : Json)
        → option_map part_value (slice_get items.now (place - lowest)) ≡ item_of place v
        → children_height children.new.items ≤ max (children_height children.old.items) (height v)) }
{
    if let Some(part) = items.get((place - lowest) as usize) {
        children.push(Child {
            link: Link::Index(place),
            part: *part,
        })?;
    }
    Ok(())
}
