//! Where a node is, by names that are borrowed.

ghost use Rattle.std.specs.Prelude.{◌≡◌, IfOk};
ghost use Rattle.jp_found.specs.Ways.{stop_step, way_location};
ghost use Rattle.jp_node.specs.Links.{link_step, link_steps};

use crate::name::Name;
use jp_node::Link;
use std::alloc::{AllocError, Global};

/// A step, whose name is borrowed.
#[derive(Clone, Copy, PartialEq, Eq, PartialOrd, Ord)]
pub enum Stop<'v> {
    /// To the member of this name.
    Name(Name<'v>),
    /// To the item at this index.
    Index(u32),
}

/// The way from a node to the root.
#[derive(PartialEq, Eq, PartialOrd, Ord, Drop)]
pub struct Way<'v> {
    // From the end: of two nodes below one long name the comparison ends before it comes to the name.
    /// The steps, the last one first.
    pub stops: Vec<Stop<'v>>,
}

/// The way to the root from where the links lead.
///
/// `AllocError` if a growth was refused.
pub(crate) fn way_of<'v>(alloc: Global, links: &[Link<'v>]) -> Result<Way<'v>, AllocError>
    ensures { IfOk result (λ w. way_location w ≡ link_steps links.now) }
{
    // Their number is known, so the list takes one allocation.
    let mut stops = Vec::with_capacity(alloc, links.len())?;
    for link in links {
        stops.push(stop_of(*link))?;
    }
    stops.reverse();
    Ok(Way { stops })
}

/// The step that a link is.
fn stop_of(link: Link<'_>) -> Stop<'_>
    ensures { stop_step result ≡ link_step link.entry }
{
    match link {
        Link::Name(text) => Stop::Name(Name::new(text)),
        Link::Index(index) => Stop::Index(index),
    }
}
