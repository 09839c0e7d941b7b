//! The size of a number: its digits and a power of ten.

ghost use Rattle.std.specs.Prelude.{◌≡◌, ◌<◌, ◌≤◌, ◌+◌, ◌-◌, ◌*◌, ◌^◌, ◌==◌, ◌↔◌, IsTrue, length, drop};
ghost use Rattle.std.specs.Prelude.{if◌then◌else◌};
ghost use Rattle.std.specs.Ordering.{nat_cmp, int_cmp};
ghost use Rattle.std.specs.Str.Parse.{AllDigits};
ghost use Rattle.fast_float.specs.Text.{scan, with_sign};
ghost use Rattle.jp_number.specs.Number.{parts, is_negative, max_digits, max_exponent, HasFewDigits};
ghost use Rattle.jp_number.specs.inner.Front.{digit, front};
ghost use Rattle.jp_number.specs.inner.Sizes.{digits, IsSize, IsSizeOfParts, crossed};

use crate::digits::{count_zeros, digit_at, value_of};
use fast_float::Numeral;
use std::cmp::Ordering;

/// Digits before and behind a point, how many of them stand before the first that is not 0, and
/// the powers of ten that multiply and divide all the digits as one number.
#[derive(Drop)]
pub(crate) struct Size<'a> {
    whole: &'a [u8],
    fraction: &'a [u8],
    zeros: usize,
    up: u64,
    down: u64,
}

impl<'a> Size<'a> {
    /// How many digits there are from the first that is not 0.
    fn count(&self) -> usize
        requires { IsSize self.now }
        ensures { result ≡ length (digits self.now) - self.now.zeros }
    {
        self.whole.len() + self.fraction.len() - self.zeros
    }

    /// The digit so many places behind the first that is not 0, or 0 behind the last.
    fn digit(&self, at: usize) -> u8
        requires size { IsSize self.now }
        requires few { at ≤ 1000 }
        ensures { result ≡ digit (digits self.now) (self.now.zeros + at) }
    {
        digit_at(self.whole, self.fraction, self.zeros + at)
    }
}

/// Whether a number has a minus, and its size.
pub(crate) fn read_size(text: &[u8]) -> (bool, Size<'_>)
    requires { HasFewDigits (parts text.now) }
    ensures sign { result.0 ≡ is_negative text.now }
    ensures size { IsSizeOfParts (parts text.now) result.1 }
{
    if !text.is_empty() && text[0] == b'-' {
        (true, size_of(&text[1..]))
    } else {
        (false, size_of(text))
    }
}

/// The most digits of a number in all, zeros in front and those of its exponent counted.
pub const MAX_DIGITS: usize = 1000;

/// The most digits of its exponent.
pub const MAX_EXPONENT_DIGITS: usize = 9;

/// Whether a numeral has at most 1,000 digits, and an exponent of at most 9.
pub(crate) fn is_short(text: &[u8]) -> bool
    ensures { IsTrue result ↔ HasFewDigits (scan text.now) }
{
    let numeral = Numeral::scan(text);
    let exponent = numeral.exponent().len();
    exponent <= MAX_EXPONENT_DIGITS
        && numeral.whole().len() + numeral.fraction().len() + exponent <= MAX_DIGITS
}

/// The size of a whole number with these digits.
pub(crate) fn whole_size(whole: &[u8]) -> Size<'_>
    requires all { AllDigits 10 whole.now }
    requires few { length whole.now ≤ 1000 }
    ensures size { IsSize result }
    ensures digits { digits result ≡ whole.now }
    ensures no_powers { (result.up ≡ 0) × (result.down ≡ 0) }
{
    let zeros = count_zeros(whole, &[]);
    Size {
        whole,
        fraction: &[],
        zeros,
        up: 0,
        down: 0,
    }
}

/// The powers of ten by which an exponent multiplies and divides.
fn powers(exponent: u64, negative: bool) -> (u64, u64)
    ensures up { result.0 ≡ (if negative then 0 else exponent) }
    ensures down { result.1 ≡ (if negative then exponent else 0) }
    ensures few { (result.0 ≤ exponent) × (result.1 ≤ exponent) }
{
    if negative {
        (0, exponent)
    } else {
        (exponent, 0)
    }
}

/// The size of a numeral without a sign.
fn size_of(text: &[u8]) -> Size<'_>
    requires { HasFewDigits (scan text.now) }
    ensures { IsSizeOfParts (scan text.now) result }
{
    let numeral = Numeral::scan(text);
    let (whole, fraction) = (numeral.whole(), numeral.fraction());
    let exponent = value_of(numeral.exponent());
    let (up, down) = powers(exponent, numeral.is_exponent_negative());
    Size {
        whole,
        fraction,
        zeros: count_zeros(whole, fraction),
        up,
        down: fraction.len() as u64 + down,
    }
}

/// The order of the first digits, so many of each.
fn compare_digits(left: &Size<'_>, right: &Size<'_>, count: usize) -> Ordering
    requires left { IsSize left.now }
    requires right { IsSize right.now }
    requires few { count ≤ 1000 }
    ensures { result ≡ nat_cmp (front (digits left.now) (left.now.zeros + count))
        (front (digits right.now) (right.now.zeros + count)) }
{
    for at in 0..count {
        let left_digit = left.digit(at);
        let right_digit = right.digit(at);
        if left_digit != right_digit {
            return left_digit.cmp(&right_digit);
        }
    }
    Ordering::Equal
}

fn compare_sizes(left: &Size<'_>, right: &Size<'_>) -> Ordering
    requires left { IsSize left.now }
    requires right { IsSize right.now }
    ensures { result ≡ nat_cmp (crossed left.now right.now) (crossed right.now left.now) }
{
    let (left_count, right_count) = (left.count(), right.count());
    if left_count == 0 || right_count == 0 {
        return left_count.cmp(&right_count);
    }
    let left_place = left_count as u64 + left.up + right.down;
    let right_place = right_count as u64 + right.up + left.down;
    if left_place != right_place {
        return left_place.cmp(&right_place);
    }
    compare_digits(left, right, left_count.max(right_count))
}

/// Whether both are 0.
fn are_zero(left: &Size<'_>, right: &Size<'_>) -> bool
    requires left { IsSize left.now }
    requires right { IsSize right.now }
    ensures { result ≡ (crossed left.now right.now + crossed right.now left.now == 0) }
{
    left.count() + right.count() == 0
}

/// The order of two numbers with these signs and sizes.
pub(crate) fn compare_signed(
    left_negative: bool,
    left: &Size<'_>,
    right_negative: bool,
    right: &Size<'_>,
) -> Ordering
    requires left { IsSize left.now }
    requires right { IsSize right.now }
    ensures { result ≡ int_cmp (with_sign left_negative (crossed left.now right.now))
        (with_sign right_negative (crossed right.now left.now)) }
{
    match (left_negative, right_negative) {
        (false, false) => compare_sizes(left, right),
        (true, true) => compare_sizes(right, left),
        (false, true) => if are_zero(left, right) {
            Ordering::Equal
        } else {
            Ordering::Greater
        },
        (true, false) => if are_zero(left, right) {
            Ordering::Equal
        } else {
            Ordering::Less
        },
    }
}
