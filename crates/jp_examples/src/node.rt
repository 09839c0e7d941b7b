use jp_node::{Link, Part, PathStack, place_in};
use std::alloc::{AllocError, Global};

// The last item, where there is one.
fn last_item(value: Part<'_>) -> Option<Part<'_>> {
    match place_in(-1, value) {
        Some(place) => value.item(place),
        None => None,
    }
}

// Appends `$['items'][0]`.
fn first_path(alloc: Global, out: &mut Vec<u8>) -> Result<(), AllocError> {
    let mut path_stack = PathStack::new(alloc);
    path_stack.push(Link::Name("items"))?;
    path_stack.push(Link::Index(0))?;
    path_stack.append_path(out)
}
