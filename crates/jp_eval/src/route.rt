//! Queries that have one way in every document: each of their segments is one name, or one index from the
//! front. So their node, if there is one, is at one location: its links are laid once, and one loop along
//! them finds the value.

ghost use Rattle.std.specs.Prelude.{◌≡◌, List, option_map, true, IfOk, IfSome, OnOk};
ghost use Rattle.std.specs.List.{fold};
ghost use Rattle.jp_compiled.specs.Parts.{Wanted, selector_in, segment_in, segments_in};
ghost use Rattle.jp_doc.specs.Location.{child_at, value_at};
ghost use Rattle.jp_node.specs.Part.{part_value};
ghost use Rattle.jp_node.specs.Links.{link_step, link_steps};
ghost use Rattle.jp_eval.specs.inner.Routes.{is_step, is_single_step, is_routed, nodes_along};

use jp_compiled::{CompiledSegment, CompiledSelector};
use jp_node::{Link, Part, PathStack, Visit};
use std::alloc::{AllocError, Global};

/// The one way of a query in every document.
#[derive(Drop)]
pub(crate) enum Route<'p> {
    /// It has not been looked for.
    Unknown,
    /// The query has none.
    Missing,
    /// These links.
    Links(PathStack<'p>),
}

/// The route of these segments.
///
/// `AllocError` if a growth was refused.
pub(crate) fn route_of<'p>(
    alloc: Global,
    segments: &'p [CompiledSegment],
) -> Result<Route<'p>, AllocError>
    ensures { IfOk result (λ route. (roots : List Wanted)
        → is_routed (segments_in roots segments.now) route ≡ true) }
{
    let mut path_stack = PathStack::new(alloc);
    for segment in segments {
        let Some(link) = link_of(segment) else {
            return Ok(Route::Missing);
        };
        path_stack.push(link)?;
    }
    Ok(Route::Links(path_stack))
}

/// The link of a segment that is one name, or one index from the front.
fn link_of<'p>(segment: &'p CompiledSegment) -> Option<Link<'p>>
    ensures { IfSome result (λ link. (roots : List Wanted)
        → is_single_step (segment_in roots segment.now) (link_step link) ≡ true) }
{
    if segment.deep {
        return None;
    }
    let [selector] = segment.selectors.as_slice() else {
        return None;
    };
    selector_link(selector)
}

/// The link of a name, or of an index from the front.
fn selector_link<'p>(selector: &'p CompiledSelector) -> Option<Link<'p>>
    ensures { IfSome result (λ link. (roots : List Wanted)
        → is_step (selector_in roots selector.now) (link_step link) ≡ true) }
{
    match selector {
        CompiledSelector::Name(name) => Some(Link::Name(name.as_str())),
        // An index from the end is another place in each array.
        CompiledSelector::Index(index) => match u32::try_from(index.value) {
            Ok(place) => Some(Link::Index(place)),
            Err(_) => None,
        },
        CompiledSelector::Wild => None,
        CompiledSelector::Slice(_) => None,
        CompiledSelector::Filter(_) => None,
    }
}

/// Tells the visitor of the node at the end of these links, if there is one, and if it would change anything.
pub(crate) fn visit_along<V: Visit + Drop>(
    alloc: Global,
    path_stack: &mut PathStack<'_>,
    root: Part<'_>,
    visitor: &mut V,
) -> Result<(), AllocError>
    ensures kept { OnOk result (V.kept visitor.new ≡ fold V.put (V.kept visitor.old)
        (nodes_along (link_steps path_stack.old) (part_value root.entry))) }
    ensures path_stack { path_stack.new ≡ path_stack.old }
{
    if visitor.is_full() {
        return Ok(());
    }
    match value_along(path_stack.links(), root) {
        Some(value) => visitor.node(alloc, path_stack, value),
        None => Ok(()),
    }
}

/// The value at the end of these links, if there is one.
fn value_along<'v>(links: &[Link<'_>], root: Part<'v>) -> Option<Part<'v>>
    ensures { option_map part_value result ≡ value_at (link_steps links.now) (part_value root.entry) }
{
    let mut last = root;
    for link in links {
        last = child_along(*link, last)?;
    }
    Some(last)
}

/// The child that a link leads to, if there is one.
fn child_along<'v>(link: Link<'_>, value: Part<'v>) -> Option<Part<'v>>
    ensures { option_map part_value result ≡ child_at (link_step link.entry) (part_value value.entry) }
{
    match link {
        Link::Name(name) => value.member(name),
        Link::Index(place) => value.item(place),
    }
}
