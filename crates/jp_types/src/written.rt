//! The values of numbers as they are written in a query.

ghost use Rattle.std.specs.Prelude.{◌≡◌, ◌≤◌, ◌<◌, ◌≤ℤ◌, ◌^◌, pos, neg_ℤ, IfSome, IfNone, MatchOption};
ghost use Rattle.std.specs.Prelude.{if◌then◌else◌};
ghost use Rattle.std.specs.Str.{chars};
ghost use Rattle.jp_types.specs.Numbers as spec;

/// How far from zero a written number is, unless it is 10^38 or more. A minus counts as no digit.
fn magnitude(text: &str) -> Option<u128>
    ensures { MatchOption result (10 ^ 38 ≤ spec.magnitude (chars text.now))
        (λ n. (n ≡ spec.magnitude (chars text.now)) × (n < 2 ^ 127)) }
{
    let mut number: u128 = 0;
    for c in text.chars() {
        // Below it one digit more still fits 127 bits.
        if number >= 10_000_000_000_000_000_000_000_000_000_000_000_000 {
            return None;
        }
        number = number * 10 + (c as u128).saturating_sub(48);
    }
    Some(number)
}

/// Whether the number is written with a minus.
fn is_negative(text: &str) -> bool
    ensures { result ≡ spec.is_negative (chars text.now) }
{
    match text.chars().next() {
        Some(c) => c == '-',
        None => false,
    }
}

/// The number with its sign.
fn signed(negative: bool, number: u128) -> i128
    requires { number < 2 ^ 127 }
    ensures { result ≡ (if negative then neg_ℤ (pos number) else pos number) }
{
    if negative {
        -(number as i128)
    } else {
        number as i128
    }
}

/// The whole number that a text of digits, perhaps with a minus, is, unless it is 10^38 or more from zero.
pub fn whole_number(text: &str) -> Option<i128>
    ensures value { IfSome result (λ z. z ≡ spec.whole_number (chars text.now)) }
    ensures long { IfNone result (10 ^ 38 ≤ spec.magnitude (chars text.now)) }
{
    let number = magnitude(text)?;
    Some(signed(is_negative(text), number))
}

/// The greatest index, 2 ^ 53 - 1 (RFC 7493, 2.2).
pub const MAX_INDEX: i128 = 9_007_199_254_740_991;

/// The number that an index or a number of a slice is, unless it is out of range.
pub fn position(text: &str) -> Option<i64>
    ensures value { IfSome result (λ z. z ≡ spec.whole_number (chars text.now)) }
    ensures near { IfSome result (λ z. (neg_ℤ (pos spec.max_index) ≤ℤ z) × (z ≤ℤ pos spec.max_index)) }
    ensures far { IfNone result (spec.max_index < spec.magnitude (chars text.now)) }
{
    let number = whole_number(text)?;
    if -MAX_INDEX <= number && number <= MAX_INDEX {
        Some(number as i64)
    } else {
        None
    }
}
