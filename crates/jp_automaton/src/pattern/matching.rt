//! What a pattern matches.

ghost use Rattle.std.specs.Prelude.{◌≡◌, ◌≤◌, ◌↔◌, IfOk, IsTrue};
ghost use Rattle.std.specs.Str.{chars};
ghost use Rattle.jp_automaton.specs.Held.{pattern_of};
ghost use Rattle.jp_pattern.specs.Language.{HasPart, Member};
ghost use Rattle.jp_pattern.specs.Profile.{max_size, size};

use crate::pattern::Pattern;
use std::alloc::{AllocError, Global};

/// The characters of a text.
pub(crate) fn characters(alloc: Global, text: &str) -> Result<Vec<char>, AllocError>
    ensures { IfOk result (λ v. v.items ≡ chars text.now) }
{
    text.chars().collect(alloc)
}

impl Pattern {
    /// How many sets of characters there are once each repetition is written out. It takes no memory.
    pub fn unrolled_size(&self) -> u64
        ensures exact { result ≡ size (pattern_of self.now) }
        ensures within { result ≤ max_size }
    {
        u64::from(self.root.size())
    }

    /// Whether the whole text is in the pattern's language (RFC 9485, 4).
    ///
    /// # Errors
    ///
    /// Memory ran out.
    pub fn matches(&self, alloc: Global, text: &str) -> Result<bool, AllocError>
        ensures { IfOk result (λ b. IsTrue b ↔ Member (pattern_of self.now) (chars text.now)) }
    {
        match self.matches_by_dfa(text) {
            Some(matches) => Ok(matches),
            None => self.matches_by_positions(alloc, text),
        }
    }

    /// Whether some part of consecutive characters of the text is in the pattern's language, the empty
    /// part included.
    ///
    /// # Errors
    ///
    /// Memory ran out.
    pub fn found_in(&self, alloc: Global, text: &str) -> Result<bool, AllocError>
        ensures { IfOk result (λ b. IsTrue b ↔ HasPart (pattern_of self.now) (chars text.now)) }
    {
        match self.found_by_dfa(text) {
            Some(found) => Ok(found),
            None => self.found_by_positions(alloc, text),
        }
    }
}
