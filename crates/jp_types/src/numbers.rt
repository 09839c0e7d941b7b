//! Numbers as they are written in a query (RFC 9535, 2.1).

ghost use Rattle.std.specs.Prelude.{◌≡◌, [], ◌∷◌, option_map, true};
ghost use Rattle.std.specs.Str.{chars};
ghost use Rattle.jp_tree.specs.View.{literal_of, slice_of, text_of};
ghost use Rattle.jp_types.specs.Faults.{faults_of};
ghost use Rattle.jp_types.specs.Numbers.{literal_number, position, is_fraction, is_in_range, literal_numbers};
ghost use Rattle.jp_types.specs.Numbers.{is_in_range_in, is_whole, part_of_slice, selector_numbers};
ghost use Rattle.jp_number.specs.declared.numbers.Numbers.TheVariants.{Decimals};

use crate::faults::Faults;
use crate::written::position;
use jp_number::NumberText;
use jp_tree::{Literal, Slice};

/// The most digits of a whole number literal: with any sign it fits 128 bits.
pub const MAX_WHOLE_DIGITS: usize = 38;

/// Whether a number literal has a fraction or an exponent.
fn is_fraction(number: &str) -> bool
    ensures { result ≡ is_fraction (literal_number (chars number.now)) }
{
    number.chars().any(|c| matches!(c, '.' | 'e' | 'E'))
}

/// Whether a number literal has at most 38 digits.
fn is_short(number: &str) -> bool
    ensures { result ≡ is_in_range (literal_number (chars number.now)) }
{
    number.chars().filter(|c| c.is_ascii_digit()).count() <= MAX_WHOLE_DIGITS
}

/// Whether a number literal is within the limits of all numbers.
fn is_within(number: &str) -> bool
    ensures { result ≡ is_in_range_in Decimals (literal_number (chars number.now)) }
{
    NumberText::new(number).is_some()
}

/// Whether a number literal has no fraction, no exponent and at most 38 digits.
pub fn is_whole(number: &str) -> bool
    ensures { result ≡ is_whole (chars number.now) }
{
    !is_fraction(number) && is_short(number)
}

/// The faults of a literal.
pub(crate) fn literal_faults(literal: &Literal) -> Faults
    ensures { result ≡ faults_of (literal_numbers (literal_of literal.now)) true }
{
    match literal {
        Literal::Number(number) => Faults {
            fraction: is_fraction(number.as_str()),
            out_of_range: !is_short(number.as_str()),
            over_limits: !is_within(number.as_str()),
            ill_typed: false,
        },
        Literal::Text(_) | Literal::Truth(_) | Literal::Null => Faults::NONE,
    }
}

/// The faults of an index, or of a number of a slice.
pub(crate) fn position_faults(number: &str) -> Faults
    ensures { result ≡ faults_of (position (chars number.now) ∷ []) true }
{
    let is_far = position(number).is_none();
    Faults {
        fraction: false,
        out_of_range: is_far,
        over_limits: is_far,
        ill_typed: false,
    }
}

/// The faults of a number of a slice, which may be left out.
fn part_faults(part: &Option<String>) -> Faults
    ensures { result ≡ faults_of (part_of_slice (option_map text_of part.now)) true }
{
    match part {
        None => Faults::NONE,
        Some(number) => position_faults(number.as_str()),
    }
}

/// The faults of a slice.
pub(crate) fn slice_faults(slice: &Slice) -> Faults
    ensures { result ≡ faults_of (selector_numbers (slice_of slice.now)) true }
{
    part_faults(&slice.first)
        .with(part_faults(&slice.past))
        .with(part_faults(&slice.step))
}
