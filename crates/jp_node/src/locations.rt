//! The visitor that keeps where each node is.

ghost use Rattle.std.specs.Prelude.{◌≡◌, map, IfOk};
ghost use Rattle.jp_doc.specs.Location.{step_of, location_of};
ghost use Rattle.jp_node.specs.Links.{link_step, link_steps};
ghost use Rattle.jp_node.specs.Taken.{put_location};

use crate::link::Link;
use crate::part::Part;
use crate::path_stack::PathStack;
use crate::visit::Visit;
use jp_doc::{Location, Step};
use std::alloc::{AllocError, Global};

/// Where each node is.
#[derive(Drop)]
pub struct Locations {
    /// In the order of the nodes.
    pub locations: Vec<Location>,
}

impl Visit for Locations {
    ghost use Rattle.std.specs.Prelude.{List, [], refl};
    ghost use Rattle.jp_doc.specs.Location.{Location};

    ghost Kept = { List Location };

    ghost kept = { λ t. map location_of t.locations.items };

    ghost put = { put_location };

    ghost emptied = { λ _. [] };

    ghost emptied_stays = { λ _ _. refl };

    fn node(
        &mut self,
        alloc: Global,
        path_stack: &mut PathStack<'_>,
        _value: Part<'_>,
    ) -> Result<(), AllocError> {
        self.locations.push(location(alloc, path_stack.links())?)?;
        Ok(())
    }

    fn is_full(&self) -> bool {
        false
    }

    fn fresh(&self, alloc: Global) -> Self {
        Locations {
            locations: Vec::new(alloc),
        }
    }

    fn append(&mut self, mut other: Self) -> Result<(), AllocError> {
        self.locations.append(&mut other.locations)?;
        Ok(())
    }
}

fn step(alloc: Global, link: Link<'_>) -> Result<Step, AllocError>
    ensures { IfOk result (λ s. step_of s ≡ link_step link.entry) }
{
    match link {
        Link::Name(name) => Ok(Step::Name(String::from_str(alloc, name)?)),
        Link::Index(index) => Ok(Step::Index(index)),
    }
}

/// The location that the links lead to.
///
/// `AllocError` if a growth was refused.
pub(crate) fn location(alloc: Global, links: &[Link<'_>]) -> Result<Location, AllocError>
    ensures { IfOk result (λ l. location_of l ≡ link_steps links.now) }
{
    // Their number is known, so the list takes one allocation.
    let mut steps = Vec::with_capacity(alloc, links.len())?;
    for link in links {
        steps.push(step(alloc, *link)?)?;
    }
    Ok(Location { steps })
}
