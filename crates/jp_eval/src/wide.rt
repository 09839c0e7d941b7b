//! Values with a long list inside.

use jp_node::Part;

/// Whether the value, or one inside of it, may have at least so many children. This is told by how many nodes
/// it has.
pub(crate) fn is_wide(value: Part<'_>, floor: u64) -> bool {
    // It has as many nodes as children at least, and to count those would take a walk
    // (README, Many nodes count as wide).
    value.value.node_count() as u64 >= floor
}
