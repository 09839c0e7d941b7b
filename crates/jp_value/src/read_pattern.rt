//! Patterns that a document gives: read once, for many texts.

ghost use Rattle.std.specs.Prelude.{◌≡◌, Some, IfOk};
ghost use Rattle.std.specs.Str.{chars};
ghost use Rattle.jp_doc.specs.Json as json;
ghost use Rattle.jp_automaton.specs.Held.{IsRead};
ghost use Rattle.jp_value.specs.Functions as spec;
ghost use Rattle.jp_value.specs.Kinds.{given_value};
ghost use Rattle.jp_value.specs.RightTests.{tests};

use crate::functions::text_of;
use jp_node::Kind;
use jp_regexp::Pattern;
use std::alloc::{AllocError, Global};

/// A text of a document, and the pattern that it is, if it is one.
#[derive(Drop)]
pub struct ReadPattern<'v> {
    // Borrowed: a text that is no pattern takes no room.
    /// The text.
    pub text: &'v str,
    // Not compiled: that takes milliseconds, which a document with few nodes does not give back.
    /// The pattern, if the text is an I-Regexp within the limits (RFC 9485).
    pub pattern: Option<Pattern>,
    pub ghost read: { ∥ IsRead (chars text.now) pattern ∥₁ },
}

impl<'v> ReadPattern<'v> {
    /// The pattern that the text is, if it is one.
    ///
    /// `AllocError` if a growth was refused.
    pub fn read(alloc: Global, text: &'v str) -> Result<ReadPattern<'v>, AllocError>
        ensures { IfOk result (λ r. r.text.now ≡ text.now) }
    {
        let pattern = Pattern::read(alloc, text)?;
        Ok(ReadPattern { text, pattern })
    }

    /// Whether the whole of a text matches.
    pub(crate) fn matches(&self, alloc: Global, text: &str) -> Result<bool, AllocError>
        ensures { IfOk result (λ b. b ≡ tests.is_match (chars text.now) (chars self.now.text.now)) }
    {
        match &self.pattern {
            Some(pattern) => pattern.matches(alloc, text),
            None => Ok(false),
        }
    }

    /// Whether some part of a text matches.
    pub(crate) fn found_in(&self, alloc: Global, text: &str) -> Result<bool, AllocError>
        ensures { IfOk result (λ b. b ≡ tests.is_found (chars text.now) (chars self.now.text.now)) }
    {
        match &self.pattern {
            Some(pattern) => pattern.found_in(alloc, text),
            None => Ok(false),
        }
    }
}

/// Whether the whole text matches a pattern that was read (RFC 9535, 2.4.6). Of anything but a text it is
/// false.
///
/// `AllocError` if a growth was refused.
pub fn matches_read(
    alloc: Global,
    text: Option<Kind<'_>>,
    read: &ReadPattern<'_>,
) -> Result<bool, AllocError>
    ensures { IfOk result (λ b. b ≡ spec.tested tests.is_match (given_value text.entry)
        (Some (json.text (chars read.now.text.now)))) }
{
    match text_of(text) {
        Some(text) => read.matches(alloc, text),
        None => Ok(false),
    }
}

/// Whether some part of the text matches a pattern that was read (RFC 9535, 2.4.7). Of anything but a text it
/// is false.
///
/// `AllocError` if a growth was refused.
pub fn searches_read(
    alloc: Global,
    text: Option<Kind<'_>>,
    read: &ReadPattern<'_>,
) -> Result<bool, AllocError>
    ensures { IfOk result (λ b. b ≡ spec.tested tests.is_found (given_value text.entry)
        (Some (json.text (chars read.now.text.now)))) }
{
    match text_of(text) {
        Some(text) => read.found_in(alloc, text),
        None => Ok(false),
    }
}
