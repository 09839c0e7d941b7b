//! What a pattern matches by its DFAs, where they do not quit.

ghost use Rattle.std.specs.Prelude.{◌≡◌, ◌<◌, ◌↔◌, IfSome, IsTrue, length};
ghost use Rattle.std.specs.Str.{chars};
ghost use Rattle.jp_automaton.specs.Held.{pattern_of};
ghost use Rattle.jp_pattern.specs.Language.{HasPart, Member};
ghost use Rattle.jp_automaton.specs.inner.Dfa.{state_behind};

use crate::dfa::{MATCH_OR_DEAD, QUIT};
use crate::pattern::Pattern;

impl Pattern {
    /// Whether the whole text is in the pattern's language, or None where the DFA quits (RFC 9485, 4).
    pub(crate) fn matches_by_dfa(&self, text: &str) -> Option<bool>
        ensures { IfSome result (λ b. IsTrue b ↔ Member (pattern_of self.now) (chars text.now)) }
    {
        let dfa = &self.whole;
        if dfa.states.is_empty() {
            return None;
        }
        match dfa.behind(text.as_bytes()) {
            QUIT => None,
            MATCH_OR_DEAD => Some(false),
            state => Some(dfa.states[usize::from(state)].accepts),
        }
    }

    /// Whether some part of the text is in the pattern's language, or None where the DFA quits.
    pub(crate) fn found_by_dfa(&self, text: &str) -> Option<bool>
        ensures { IfSome result (λ b. IsTrue b ↔ HasPart (pattern_of self.now) (chars text.now)) }
    {
        let dfa = &self.part;
        if dfa.states.is_empty() {
            return None;
        }
        // The empty part is found, which no cell can tell.
        if dfa.states[0].accepts {
            return Some(true);
        }
        let bytes = text.as_bytes();
        if !self.prefilter.may_end(bytes) {
            return Some(false);
        }
        match self.part_state(bytes) {
            QUIT => None,
            MATCH_OR_DEAD => Some(true),
            _ => Some(false),
        }
    }

    /// The number of the state that these bytes lead to where a part is looked for.
    fn part_state(&self, bytes: &[u8]) -> u8
        requires { 0 < length self.now.part.states.items }
        ensures { result ≡ state_behind self.now.part.cells.items 0 bytes.now }
    {
        if self.prefilter.flags.is_empty() {
            self.part.behind(bytes)
        } else {
            self.part.behind_prefiltered(&self.prefilter, bytes)
        }
    }
}
