//! Reading a quantity, with counts up to the greatest.

ghost use Rattle.std.specs.Prelude.{◌≡◌, ◌≤◌};
ghost use Rattle.jp_pattern.specs.inner.Gives.{Gives};
ghost use Rattle.jp_pattern.specs.Profile.{max_count};
ghost use Rattle.jp_pattern.specs.Quantity.{is_digit};
ghost use Rattle.jp_pattern.specs.inner.Reading as reading;

use crate::fault::PatternFault;
use crate::limits::MAX_COUNT;
use crate::tree::Quantity;

/// A digit of a count.
fn is_digit(c: char) -> bool
    ensures { result ≡ is_digit c }
{
    matches!(c, '0'..='9')
}

/// The number goes on with digits.
fn digits_from(number: u32, text: &[char]) -> Result<(u32, &[char]), PatternFault>
    requires { number ≤ max_count }
    ensures { Gives (λ x. (x.0, x.1.now)) result (reading.digits_within number text.now) }
{
    let mut number = number;
    let mut rest = text;
    while let [c, more @ ..] = rest
        && is_digit(*c)
    {
        number = number * 10 + (*c as u32 - '0' as u32);
        if number > MAX_COUNT {
            return Err(PatternFault::NoPattern);
        }
        rest = more;
    }
    Ok((number, rest))
}

/// A count.
fn count_at(text: &[char]) -> Result<(u32, &[char]), PatternFault>
    ensures { Gives (λ x. (x.0, x.1.now)) result (reading.count_within text.now) }
{
    match text {
        [c, ..] if is_digit(*c) => digits_from(0, text),
        _ => Err(PatternFault::NoPattern),
    }
}

/// Behind both counts.
fn close_count_at(least: u32, most: u32, text: &[char]) -> Result<(Quantity, &[char]), PatternFault>
    ensures { Gives (λ x. (x.0, x.1.now)) result (reading.close_count_within least most text.now) }
{
    match text {
        ['}', rest @ ..] if least <= most => Ok((Quantity::Repeat(least, Some(most)), rest)),
        _ => Err(PatternFault::NoPattern),
    }
}

/// Behind the comma.
fn after_comma_at(least: u32, text: &[char]) -> Result<(Quantity, &[char]), PatternFault>
    ensures { Gives (λ x. (x.0, x.1.now)) result (reading.after_comma_within least text.now) }
{
    match text {
        ['}', rest @ ..] => Ok((Quantity::Repeat(least, None), rest)),
        _ => {
            let (most, rest) = count_at(text)?;
            close_count_at(least, most, rest)
        }
    }
}

/// Behind the first count.
fn after_least_at(least: u32, text: &[char]) -> Result<(Quantity, &[char]), PatternFault>
    ensures { Gives (λ x. (x.0, x.1.now)) result (reading.after_least_within least text.now) }
{
    match text {
        ['}', rest @ ..] => Ok((Quantity::Repeat(least, Some(least)), rest)),
        [',', more @ ..] => after_comma_at(least, more),
        _ => Err(PatternFault::NoPattern),
    }
}

/// The quantity behind an atom, and the rest (RFC 9485, 3: quantifier).
pub(crate) fn quantity_at(text: &[char]) -> Result<(Quantity, &[char]), PatternFault>
    ensures { Gives (λ x. (x.0, x.1.now)) result (reading.quantity_within text.now) }
{
    match text {
        ['*', rest @ ..] => Ok((Quantity::Repeat(0, None), rest)),
        ['?', rest @ ..] => Ok((Quantity::Repeat(0, Some(1)), rest)),
        ['+', rest @ ..] => Ok((Quantity::Plus, rest)),
        ['{', more @ ..] => {
            let (least, rest) = count_at(more)?;
            after_least_at(least, rest)
        }
        _ => Ok((Quantity::Once, text)),
    }
}
