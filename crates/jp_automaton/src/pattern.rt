//! A pattern that was read.

ghost use Rattle.std.specs.Prelude.{IsTrue, false, true};
ghost use Rattle.jp_automaton.specs.Expressions.{meaning, pattern_in, unrolled_in};
ghost use Rattle.jp_pattern.specs.Profile.{InProfile};
ghost use Rattle.jp_automaton.specs.inner.Prefilter.{AreEndings, IsPrefilter};
ghost use Rattle.jp_automaton.specs.inner.Dfa.{IsDfa};

mod by_dfa;
mod by_positions;
mod matching;
mod reading;

use crate::dfa::Dfa;
use crate::expressions::Expression;
use crate::prefilter::Prefilter;

/// An I-Regexp within the limits of this implementation (RFC 9485).
#[derive(Drop)]
pub struct Pattern {
    pub(crate) root: Expression,
    /// The DFA by which a whole text is read; it has states only in a pattern that was compiled.
    pub(crate) whole: Dfa,
    /// The unanchored DFA by which a part is looked for.
    pub(crate) part: Dfa,
    /// The prefilter of the unanchored DFA: where a match may begin, and by which byte it may end.
    pub(crate) prefilter: Prefilter,
    ghost sized: { IsTrue (meaning root).is_sized },
    ghost in_profile: { ∥ InProfile (pattern_in root) ∥₁ },
    ghost whole_steps: { ∥ IsDfa (unrolled_in root) false whole ∥₁ },
    ghost part_steps: { ∥ IsDfa (unrolled_in root) true part ∥₁ },
    ghost right_prefilter: { ∥ IsPrefilter part.cells.items prefilter.flags.items ∥₁ },
    ghost right_endings: { ∥ AreEndings part.cells.items prefilter.endings ∥₁ },
}
