//! Ranges of children that can be cut in two.

ghost use Rattle.std.specs.Prelude.{◌≡◌, ◌≤◌, ◌<◌, [], ◌∷◌, ◌++◌, suc, nat_le, IfSome, MatchOption};
ghost use Rattle.jp_doc.specs.Height.{height};
ghost use Rattle.jp_doc.specs.Location.{Location};
ghost use Rattle.jp_node.specs.ChildNodes.{child_node, child_nodes, all_height};
ghost use Rattle.jp_node.specs.ChildRanges.{range_nodes, range_height, range_length};
ghost use Rattle.jp_node.specs.Part.{part_value};

use crate::children::{Child, Children};
use crate::items::Items;
use crate::link::Link;
use crate::members::MemberRange;
use crate::one_child::first_item;

/// Children that stand one behind another.
#[derive(Clone, Copy)]
pub enum ChildRange<'c, 'v> {
    /// These.
    Listed(&'c [Child<'v>]),
    /// Those of these items whose places are before the second, where the first has the first place.
    Items(Items<'v>, u32, u32),
    /// These members.
    Members(MemberRange<'c, 'v>),
}

impl<'c, 'v> ChildRange<'c, 'v> {
    /// All of these children.
    pub fn all(children: &'c Children<'v>) -> ChildRange<'c, 'v>
        ensures nodes { (at : Location) → range_nodes at result ≡ child_nodes at children.now }
        ensures height { range_height result ≤ all_height children.now }
    {
        match children {
            Children::Listed(children) => ChildRange::Listed(children.as_slice()),
            // Not counted: to count items takes a walk, and this range is only gone over from the front.
            Children::Items(items) => ChildRange::Items(*items, 0, u32::MAX),
            Children::Members(members) => ChildRange::Members(members.range()),
        }
    }

    /// All of these children, where items are counted, so that the range can tell how long it is.
    pub fn counted(children: &'c Children<'v>) -> ChildRange<'c, 'v>
        ensures nodes { (at : Location) → range_nodes at result ≡ child_nodes at children.now }
        ensures height { range_height result ≤ all_height children.now }
    {
        match children {
            Children::Listed(children) => ChildRange::Listed(children.as_slice()),
            Children::Items(items) => ChildRange::Items(*items, 0, items.count()),
            Children::Members(members) => ChildRange::Members(members.range()),
        }
    }

    /// Whether there are so many places.
    pub fn has(self, floor: u64) -> bool
        ensures { result ≡ nat_le floor (range_length self.entry) }
    {
        match self {
            ChildRange::Listed(children) => children.len() as u64 >= floor,
            ChildRange::Items(_, first, past) => past.saturating_sub(first) as u64 >= floor,
            ChildRange::Members(members) => members.len() as u64 >= floor,
        }
    }

    /// The first half, and the second. No clause says that they are equally long.
    pub fn halves(self) -> (ChildRange<'c, 'v>, ChildRange<'c, 'v>)
        ensures nodes { (at : Location) → range_nodes at result.0 ++ range_nodes at result.1
            ≡ range_nodes at self.entry }
        ensures left { range_height result.0 ≤ range_height self.entry }
        ensures right { range_height result.1 ≤ range_height self.entry }
    {
        match self {
            ChildRange::Listed(children) => {
                let (left, right) = children.split_at(children.len() / 2);
                (ChildRange::Listed(left), ChildRange::Listed(right))
            }
            ChildRange::Items(items, first, past) => {
                // Two places cut the items: none is listed, and each is looked up as the walk comes to it
                // (README, No list for a cut).
                let half = past.saturating_sub(first) / 2;
                let middle = first + half;
                (
                    ChildRange::Items(items, first, middle),
                    ChildRange::Items(items.skip(half), middle, past),
                )
            }
            ChildRange::Members(members) => {
                let (left, right) = members.halves();
                (ChildRange::Members(left), ChildRange::Members(right))
            }
        }
    }

    /// The first, and those behind it.
    // Each turn of a walk takes a child so: handed out by a call, the two would go by memory.
    #[inline(always)]
    pub fn split_first(self) -> Option<(Child<'v>, ChildRange<'c, 'v>)>
        ensures nodes { (at : Location) → MatchOption result (range_nodes at self.entry ≡ [])
            (λ p. range_nodes at self.entry ≡ child_node at p.0 ∷ range_nodes at p.1) }
        ensures child { IfSome result (λ p. suc (height (part_value p.0.part)) ≤ range_height self.entry) }
        ensures height { IfSome result (λ p. range_height p.1 ≤ range_height self.entry) }
        ensures fewer { IfSome result (λ p. range_length p.1 < range_length self.entry) }
    {
        match self {
            ChildRange::Listed(children) => match children.split_first() {
                None => None,
                Some((child, others)) => Some((*child, ChildRange::Listed(others))),
            },
            ChildRange::Items(items, first, past) => match first_item(items.items, first, past) {
                None => None,
                Some((child, items)) => Some((
                    child,
                    ChildRange::Items(Items { items }, first + 1, past),
                )),
            },
            ChildRange::Members(members) => match members.split_first() {
                None => None,
                Some((member, others)) => {
                    let link = Link::Name(member.name);
                    let part = member.value;
                    Some((Child { link, part }, ChildRange::Members(others)))
                }
            },
        }
    }
}
