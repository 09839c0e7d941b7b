//! The texts of numbers.

ghost use Rattle.std.specs.Prelude.{◌≡◌, ◌↔◌, IsTrue, MatchOption};
ghost use Rattle.jp_number.specs.Number.{written, IsShort};

use crate::size::is_short;

/// The text that writes a number (RFC 8259, 6), within the limits: it has at most 1,000 digits, those of the
/// exponent among them, and an exponent of at most 9 digits.
#[derive(Clone, Copy)]
pub struct NumberText<'a> {
    /// The text.
    pub text: &'a str,
    ghost short: { IsShort (written text.now) },
}

impl<'a> NumberText<'a> {
    /// The text as that of a number, or `None` if it is over the limits. It has to write a number: nothing is
    /// said of another text but whether it is within the limits.
    pub fn new(text: &'a str) -> Option<NumberText<'a>>
        ensures { MatchOption result (¬ IsShort (written text.now)) (λ number. number.text ≡ text.entry) }
    {
        if is_within(text.as_bytes()) {
            Some(NumberText { text })
        } else {
            None
        }
    }

    /// The text of a number that is within the limits, without a look at it.
    pub fn within(text: &'a str) -> NumberText<'a>
        requires { IsShort (written text.now) }
        ensures { result.text ≡ text.entry }
    {
        NumberText { text }
    }
}

/// Whether the text of a number is within the limits.
fn is_within(text: &[u8]) -> bool
    ensures { IsTrue result ↔ IsShort (written text.now) }
{
    if !text.is_empty() && text[0] == b'-' {
        is_short(&text[1..])
    } else {
        is_short(text)
    }
}
