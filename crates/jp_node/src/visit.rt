//! What a walk hands its nodes to.

ghost use Rattle.std.specs.Prelude.{◌≡◌, List, IsTrue, OnOk};
ghost use Rattle.std.specs.List.{fold};
ghost use Rattle.jp_doc.specs.Location.{Node, node};
ghost use Rattle.jp_node.specs.Part.{part_value};
ghost use Rattle.jp_node.specs.Links.{link_steps};

use crate::part::Part;
use crate::path_stack::PathStack;
use std::alloc::{AllocError, Global};

/// What takes the nodes that a walk finds, one after another.
///
/// What it keeps of them is a state, and what a node does to it.
pub trait Visit {
    /// What is kept of the nodes.
    ghost Kept: { Type 0 };

    /// What it has kept so far.
    ghost kept: { Self → Kept };

    /// What is kept once this node is taken too.
    ghost put: { Kept → Node → Kept };

    /// What an empty visitor of the same kind keeps.
    ghost emptied: { Kept → Kept };

    /// Takes the node at the path stack, whose value is this one.
    ///
    /// `AllocError` if a growth was refused. The path stack is as before, whatever the answer.
    fn node(
        &mut self,
        alloc: Global,
        path_stack: &mut PathStack<'_>,
        value: Part<'_>,
    ) -> Result<(), AllocError>
        ensures kept { OnOk result (kept self.new
            ≡ put (kept self.old) (node (link_steps path_stack.old) (part_value value.entry))) }
        ensures path_stack { path_stack.new ≡ path_stack.old };

    /// Whether a further node would change nothing.
    fn is_full(&self) -> bool
        ensures { IsTrue result → (n : Node) → put (kept self.now) n ≡ kept self.now };

    /// An empty visitor of the same kind.
    fn fresh(&self, alloc: Global) -> Self
        ensures { kept result ≡ emptied (kept self.now) };

    /// Takes the nodes that another visitor took, one that began as an empty one of the same kind.
    ///
    /// `AllocError` if a growth was refused.
    fn append(&mut self, other: Self) -> Result<(), AllocError>
        ensures { (ns : List Node) → kept other ≡ fold put (emptied (kept self.old)) ns
            → OnOk result (kept self.new ≡ fold put (kept self.old) ns) };

    /// A further node does not change the kind.
    ghost emptied_stays: { (k : Kept) (n : Node) → emptied (put k n) ≡ emptied k };
}
