//! What a DFA is made of.

ghost use Rattle.std.specs.Prelude.{◌≤◌, IsTrue};
ghost use Rattle.jp_automaton.specs.inner.Equivalence.{AreByteClasses};
ghost use Rattle.jp_automaton.specs.Expressions.{meaning, unrolled_in};
ghost use Rattle.jp_pattern.specs.Profile.{max_size};
ghost use Rattle.jp_pattern.specs.Unrolled.{letters};
ghost use Rattle.jp_automaton.specs.declared.limits.TheConstants.{MAX_STATES};

use crate::byte_classes::ByteClasses;
use crate::expressions::Expression;
use std::alloc::Global;

/// What a DFA is made of, and what its memory comes from.
#[derive(Clone, Copy)]
pub struct DfaInput<'a> {
    pub alloc: Global,
    pub root: &'a Expression,
    pub classes: &'a ByteClasses,
    /// Whether a match may begin behind each character, and not at the start alone.
    pub unanchored: bool,
    /// How many states there are at most.
    pub most: usize,
    ghost sized: { IsTrue (meaning root.now).is_sized },
    ghost fits: { letters (unrolled_in root.now) ≤ max_size },
    ghost equivalent: { ∥ AreByteClasses (unrolled_in root.now) classes.now ∥₁ },
    ghost room: { most ≤ MAX_STATES },
}
