//! A child of a value, for loops that hold an index or a cursor.

ghost use Rattle.std.specs.Prelude.{◌≡◌, ◌+◌, ◌≤◌, ◌<◌, [], ◌∷◌, suc, drop, length, IfSome, MatchOption};
ghost use Rattle.jp_doc.specs.Height.{height};
ghost use Rattle.jp_doc.specs.Location.{Location};
ghost use Rattle.jp_node.specs.ChildNodes.{child_node};
ghost use Rattle.jp_node.specs.ChildRanges.{range_nodes, range_height, of_flat_items};
ghost use Rattle.jp_node.specs.ChildRanges.{flat_member_nodes, flat_members_height};
ghost use Rattle.jp_node.specs.Part.{part_value};

use crate::children::Child;
use crate::link::Link;
use crate::part::Part;
use jp_flat::{FlatItems, FlatMember};

/// The member with this index of these, if there is one.
// Each turn of a walk takes a child so: handed out by a call, it would go by memory.
#[inline(always)]
pub fn member_at<'v>(members: &[FlatMember<'v>], index: usize) -> Option<Child<'v>>
    ensures nodes { (at : Location) → MatchOption result
        (flat_member_nodes at (drop index members.now) ≡ [])
        (λ c. flat_member_nodes at (drop index members.now)
        ≡ child_node at c ∷ flat_member_nodes at (drop (index + 1) members.now)) }
    ensures child { IfSome result (λ c.
        suc (height (part_value c.part)) ≤ flat_members_height (drop index members.now)) }
    ensures height { IfSome result (λ c. flat_members_height (drop (index + 1) members.now)
        ≤ flat_members_height (drop index members.now)) }
    ensures within { IfSome result (λ c. index < length members.now) }
{
    match members.get(index) {
        None => None,
        Some(member) => {
            let link = Link::Name(member.name);
            let part = Part {
                value: member.value,
            };
            Some(Child { link, part })
        }
    }
}

/// The first of those of these items whose places are before `past`, where it has the place `place`, and the
/// items behind it.
// As the members' one.
#[inline(always)]
pub fn first_item<'v>(
    items: FlatItems<'v>,
    place: u32,
    past: u32,
) -> Option<(Child<'v>, FlatItems<'v>)>
    ensures nodes { (at : Location) → MatchOption result
        (range_nodes at (of_flat_items items.entry place past) ≡ [])
        (λ p. range_nodes at (of_flat_items items.entry place past) ≡ child_node at p.0
        ∷ range_nodes at (of_flat_items p.1 (place + 1) past)) }
    ensures child { IfSome result (λ p.
        suc (height (part_value p.0.part)) ≤ range_height (of_flat_items items.entry place past)) }
    ensures height { IfSome result (λ p. range_height (of_flat_items p.1 (place + 1) past)
        ≤ range_height (of_flat_items items.entry place past)) }
    ensures within { IfSome result (λ p. place < past) }
{
    if place >= past {
        return None;
    }
    match items.split_first() {
        None => None,
        Some((first, others)) => {
            let link = Link::Index(place);
            let part = Part { value: first };
            Some((Child { link, part }, others))
        }
    }
}
