//! Patterns that were read.

ghost use Rattle.std.specs.Prelude.{◌≡◌, IfOk, option_map};
ghost use Rattle.std.specs.Arc.{arc_value};
ghost use Rattle.jp_tree.specs.View.{text_of};
ghost use Rattle.jp_automaton.specs.Held.{IsRead};

use jp_regexp::Pattern;
use std::alloc::{AllocError, Global};
use std::sync::Arc;

/// A text, and the pattern that it is, if it is one.
#[derive(Drop)]
pub struct KnownPattern {
    /// The text.
    pub text: String,
    /// The pattern, if the text is an I-Regexp within the limits (RFC 9485). It is read once, and shared.
    pub pattern: Option<Arc<Pattern>>,
    pub ghost read: { ∥ IsRead (text_of text) (option_map arc_value pattern) ∥₁ },
}

impl KnownPattern {
    /// The same text, with the same pattern.
    ///
    /// `AllocError` if a growth was refused.
    pub fn share(&self, alloc: Global) -> Result<KnownPattern, AllocError>
        ensures { IfOk result (λ k. text_of k.text ≡ text_of self.now.text) }
    {
        let text = String::from_str(alloc, self.text.as_str())?;
        let pattern = match &self.pattern {
            Some(pattern) => Some(Arc::try_clone(pattern)?),
            None => None,
        };
        Ok(KnownPattern { text, pattern })
    }
}
