//! Nodes.

ghost use Rattle.std.specs.Prelude.{◌≡◌, ◌++◌, ◌∷◌, [], ◌+◌, ◌<◌, ◌^◌, ◌-◌, IsTrue, length, slice_set};
ghost use Rattle.jp_flat_nodes.specs.declared.node.FlatNode.TheVariants.{EndArray, Array, EndObject, Object};

use crate::limits::MAX_NODES;
use std::alloc::Global;

/// A node: one for each token of a document. A text or a number is told by its place in the line, or without
/// its escapes in a text beside it, and how many bytes it has.
// 12 bytes: what is written for each token of each line, and read again, is as small as it can be.
#[derive(Clone, Copy, PartialEq, Eq, Debug, Drop)]
pub enum FlatNode {
    /// An object begins, with the place of the node behind it.
    Object(u32),
    /// It ends.
    EndObject,
    /// An array begins, likewise.
    Array(u32),
    /// It ends.
    EndArray,
    /// A member's name, which stands between its quotes in the line and has no escape; a colon stands right
    /// behind it.
    Key(u32, u32),
    /// A text that stands so.
    Text(u32, u32),
    /// A member's name that stands without its escapes beside the line.
    EscapedKey(u32, u32),
    /// A text, likewise.
    Escaped(u32, u32),
    /// A number.
    Number(u32, u32),
    /// `true` or `false`.
    Truth(bool),
    /// `null`.
    Null,
}

/// The nodes of a document, and the texts that do not stand in its line as they are.
#[derive(Drop)]
pub struct FlatNodes {
    /// The nodes.
    pub nodes: Vec<FlatNode>,
    /// The texts of those that are escaped, one behind another.
    pub texts: Vec<u8>,
}

impl FlatNodes {
    /// No nodes yet, and no memory.
    pub fn new(alloc: Global) -> FlatNodes {
        FlatNodes {
            nodes: Vec::new(alloc),
            texts: Vec::new(alloc),
        }
    }
}

/// No place: the line is not read so.
pub(crate) const REFUSED: usize = usize::MAX;

/// Puts a node behind the others. `false` if there is no memory for it.
#[inline(always)]
pub(crate) fn push(nodes: &mut Vec<FlatNode>, node: FlatNode) -> bool
    ensures { IsTrue result → nodes.new.items ≡ nodes.old.items ++ node ∷ [] }
{
    nodes.push(node).is_ok()
}

/// Puts a node behind the others, and gives the end, or `REFUSED` if there is no memory for it.
#[inline(always)]
pub(crate) fn put(nodes: &mut Vec<FlatNode>, node: FlatNode, end: usize) -> usize
    ensures { result < 2 ^ 64 - 1 → (result ≡ end) × (nodes.new.items ≡ nodes.old.items ++ node ∷ []) }
{
    if push(nodes, node) { end } else { REFUSED }
}

/// Puts a node behind the others, and another in the place of the one that stands at `place`.
#[inline(always)]
fn close(
    nodes: &mut Vec<FlatNode>,
    place: usize,
    first: FlatNode,
    last: FlatNode,
    end: usize,
) -> usize
    requires { place < length nodes.old.items }
    ensures { result < 2 ^ 64 - 1 → (result ≡ end)
        × (nodes.new.items ≡ slice_set (nodes.old.items ++ last ∷ []) place first) }
{
    if !push(nodes, last) {
        return REFUSED;
    }
    nodes[place] = first;
    end
}

/// Closes the array that begins at `place`, and gives the end. `REFUSED` where there are too many nodes.
#[inline(always)]
pub(crate) fn close_array(nodes: &mut Vec<FlatNode>, place: usize, end: usize) -> usize
    requires { place < length nodes.old.items }
    ensures { result < 2 ^ 64 - 1 → (result ≡ end) × (nodes.new.items
        ≡ slice_set (nodes.old.items ++ EndArray ∷ []) place (Array (length nodes.old.items + 1))) }
{
    let after = nodes.len() + 1;
    if after > MAX_NODES {
        return REFUSED;
    }
    close(
        nodes,
        place,
        FlatNode::Array(after as u32),
        FlatNode::EndArray,
        end,
    )
}

/// Closes the object that begins at `place`, and gives the end. `REFUSED` where there are too many nodes.
#[inline(always)]
pub(crate) fn close_object(nodes: &mut Vec<FlatNode>, place: usize, end: usize) -> usize
    requires { place < length nodes.old.items }
    ensures { result < 2 ^ 64 - 1 → (result ≡ end) × (nodes.new.items
        ≡ slice_set (nodes.old.items ++ EndObject ∷ []) place (Object (length nodes.old.items + 1))) }
{
    let after = nodes.len() + 1;
    if after > MAX_NODES {
        return REFUSED;
    }
    close(
        nodes,
        place,
        FlatNode::Object(after as u32),
        FlatNode::EndObject,
        end,
    )
}
