//! What a pattern matches, by simulation of its position automaton: the fallback, which always tells.

ghost use Rattle.std.specs.Prelude.{◌≡◌, ◌↔◌, [], IfOk, IsTrue, false, true};
ghost use Rattle.std.specs.Str.{chars};
ghost use Rattle.jp_automaton.specs.Held.{pattern_of};
ghost use Rattle.jp_pattern.specs.Language.{HasPart, Member};
ghost use Rattle.jp_pattern.specs.Unrolled.{unrolled};
ghost use Rattle.jp_automaton.specs.inner.Simulation.{step, is_elem};

use crate::pattern::Pattern;
use std::alloc::{AllocError, Global};

impl Pattern {
    /// Whether the whole text is in the pattern's language (RFC 9485, 4).
    pub(crate) fn matches_by_positions(&self, alloc: Global, text: &str) -> Result<bool, AllocError>
        ensures { IfOk result (λ b. IsTrue b ↔ Member (pattern_of self.now) (chars text.now)) }
    {
        let mut terms = self.start(alloc)?;
        for c in text.chars() {
            terms.step(c, false)?;
            if terms.is_empty() {
                return Ok(false);
            }
        }
        Ok(terms.accepts())
    }

    /// Whether some part of the text is in the pattern's language, the empty part included.
    pub(crate) fn found_by_positions(&self, alloc: Global, text: &str) -> Result<bool, AllocError>
        ensures { IfOk result (λ b. IsTrue b ↔ HasPart (pattern_of self.now) (chars text.now)) }
    {
        let mut terms = self.start(alloc)?;
        if terms.accepts() {
            return Ok(true);
        }
        for c in text.chars() {
            if terms.is_at_start() && !self.may_begin(c) {
                continue;
            }
            if terms.read(c, true)? {
                return Ok(true);
            }
        }
        Ok(terms.accepts())
    }

    /// Whether a text of the pattern may begin with the character, as far as the DFA tells.
    fn may_begin(&self, c: char) -> bool
        ensures { result ≡ false → step (is_elem []) c (unrolled (pattern_of self.now)) 0 true ≡ [] }
    {
        if self.part.states.is_empty() {
            return true;
        }
        self.part.next(0, c) != 0
    }
}
