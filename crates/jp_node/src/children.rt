//! Children of a value. Items are not listed.

ghost use Rattle.std.specs.Prelude.{◌≡◌, ◌≤◌, IfOk, option_to_list};
ghost use Rattle.std.specs.Str.{chars};
ghost use Rattle.jp_doc.specs.Height.{height};
ghost use Rattle.jp_doc.specs.Location.{Location, node, name};
ghost use Rattle.jp_node.specs.Part.{part_value};
ghost use Rattle.jp_node.specs.ChildNodes.{listed_nodes, children_height, child_nodes, all_height};
ghost use Rattle.jp_node.specs.ChildNodes.{structured_nodes};
ghost use Rattle.jp_node.specs.Nodes.{child, children_at, items_at};

use crate::items::Items;
use crate::link::Link;
use crate::members::MemberList;
use crate::part::{Inside, Part};
use std::alloc::{AllocError, Global};

/// A child, and the link to it.
#[derive(Clone, Copy)]
pub struct Child<'v> {
    /// From the value to the child.
    pub link: Link<'v>,
    /// The child.
    pub part: Part<'v>,
}

/// Some children of a value.
#[derive(Drop)]
pub enum Children<'v> {
    /// These.
    Listed(Vec<Child<'v>>),
    /// These items, from the first on.
    Items(Items<'v>),
    /// These members.
    Members(MemberList<'v>),
}

/// The children of the value (RFC 9535, 1.1). Members are listed, and items are not.
///
/// `AllocError` if a growth was refused.
pub fn children_of<'v>(alloc: Global, value: Part<'v>) -> Result<Children<'v>, AllocError>
    ensures nodes { IfOk result (λ c. (at : Location)
        → child_nodes at c ≡ children_at at (part_value value.entry)) }
    ensures height { IfOk result (λ c. all_height c ≤ height (part_value value.entry)) }
{
    match value.inside() {
        Inside::Items(items) => Ok(Children::Items(items)),
        Inside::Members(members) => Ok(Children::Members(members.gather(alloc)?)),
        Inside::Nothing => Ok(Children::Listed(Vec::new(alloc))),
    }
}

/// The children of the value, of which an object's are those alone that are arrays or objects. An array's are
/// all: its items are not listed, so none has to be left out.
///
/// `AllocError` if a growth was refused.
pub fn structured_children_of<'v>(
    alloc: Global,
    value: Part<'v>,
) -> Result<Children<'v>, AllocError>
    ensures nodes { IfOk result (λ c. (at : Location) → structured_nodes (child_nodes at c)
        ≡ structured_nodes (children_at at (part_value value.entry))) }
    ensures height { IfOk result (λ c. all_height c ≤ height (part_value value.entry)) }
{
    match value.inside() {
        Inside::Items(items) => Ok(Children::Items(items)),
        Inside::Members(members) => Ok(Children::Members(members.gather_structured(alloc)?)),
        Inside::Nothing => Ok(Children::Listed(Vec::new(alloc))),
    }
}

/// The member of this name, if there is one.
///
/// `AllocError` if a growth was refused.
pub fn named<'v>(alloc: Global, value: Part<'v>, key: &'v str) -> Result<Vec<Child<'v>>, AllocError>
    ensures nodes { IfOk result (λ v. (at : Location)
        → listed_nodes at v.items ≡ child (name (chars key.now)) (node at (part_value value.entry))) }
    ensures height { IfOk result (λ v. children_height v.items ≤ height (part_value value.entry)) }
{
    let mut children = Vec::new(alloc);
    if let Some(part) = value.member(key) {
        children.push(Child {
            link: Link::Name(key),
            part,
        })?;
    }
    Ok(children)
}

/// The item at this place, if there is one.
///
/// `AllocError` if a growth was refused.
pub fn placed<'v>(
    alloc: Global,
    value: Part<'v>,
    place: Option<u32>,
) -> Result<Vec<Child<'v>>, AllocError>
    ensures nodes { IfOk result (λ v. (at : Location)
        → listed_nodes at v.items ≡ items_at (node at (part_value value.entry)) (option_to_list place)) }
    ensures height { IfOk result (λ v. children_height v.items ≤ height (part_value value.entry)) }
{
    let mut children = Vec::new(alloc);
    let Some(place) = place else {
        return Ok(children);
    };
    if let Some(part) = value.item(place) {
        children.push(Child {
            link: Link::Index(place),
            part,
        })?;
    }
    Ok(children)
}
