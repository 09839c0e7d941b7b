//! Numbers as they stand in a line.

ghost use Rattle.std.specs.Prelude.{◌≡◌, ◌^◌, IsTrue, nat_lt, nat_le, pos, neg_ℤ, true, false, MatchOption};
ghost use Rattle.std.specs.Char.{is_ascii_digit};
ghost use Rattle.std.specs.List.{list_all};
ghost use Rattle.std.specs.Str.Parse.{digits_value};
ghost use Rattle.jp_flat.specs.Digits.{whole_value};
ghost use Rattle.jp_doc.specs.Tree.{text_number};
ghost use Rattle.jp_flat.specs.inner.Decimals.{is_finite_text, is_readable};
ghost use Rattle.jp_flat.specs.inner.Plain.{is_unsigned_text, is_minus_text, is_whole_text};
ghost use Rattle.jp_flat_nodes.specs.Digits.{are_digits};
ghost use Rattle.jp_flat.specs.inner.Plain.{is_fit_number, IsLed};
ghost use Rattle.jp_number.specs.Number.{written, IsShort, is_short};
ghost use Rattle.jp_number.specs.View.{number_of};

use fast_float::Numeral;
use jp_number::{Number, NumberText};

fn all_digits(bytes: &[u8]) -> bool
    ensures { result ≡ list_all is_ascii_digit bytes.now }
{
    bytes.iter().all(|byte| byte.is_ascii_digit())
}

/// Whether these are digits, of which the first is no zero before others.
fn are_digits(bytes: &[u8]) -> bool
    ensures { result ≡ are_digits bytes.now }
{
    if bytes.is_empty() {
        return false;
    }
    all_digits(bytes) && (bytes.len() <= 1 || bytes[0] != b'0')
}

/// Whether the number of these digits is below 2^64: each of 19 digits is.
fn fits_unsigned(digits: &[u8]) -> bool
    requires { IsTrue (are_digits digits.now) }
    ensures { result ≡ nat_lt (digits_value 10 digits.now) (2 ^ 64) }
{
    digits.len() <= 19 || fast_float::parse_u64(digits).is_ok()
}

/// Whether the number of these digits is at most 2^63: each of 18 digits is.
fn fits_behind_minus(digits: &[u8]) -> bool
    requires { IsTrue (are_digits digits.now) }
    ensures { result ≡ nat_le (digits_value 10 digits.now) (2 ^ 63) }
{
    if digits.len() <= 18 {
        return true;
    }
    match fast_float::parse_u64(digits) {
        Ok(number) => number <= 1 << 63,
        Err(_) => false,
    }
}

/// Whether these are the digits of a number of 64 bits without a sign.
fn is_unsigned_text(digits: &[u8]) -> bool
    ensures { result ≡ is_unsigned_text digits.now }
{
    are_digits(digits) && fits_unsigned(digits)
}

/// Whether these digits may stand behind a minus: not so a zero, since -0 is not whole.
fn is_minus_text(digits: &[u8]) -> bool
    ensures { result ≡ is_minus_text digits.now }
{
    are_digits(digits) && digits[0] != b'0' && fits_behind_minus(digits)
}

/// Whether a number's text is that of a whole number of 64 bits, as it is written compactly.
pub(crate) fn is_whole_text(text: &str) -> bool
    ensures { result ≡ is_whole_text text.now }
{
    let bytes = text.as_bytes();
    if bytes.is_empty() || bytes[0] != b'-' {
        return is_unsigned_text(bytes);
    }
    is_minus_text(&bytes[1..])
}

/// Whether the float nearest to the number of a text is finite.
fn is_finite_text(text: &str) -> bool
    ensures { result ≡ is_finite_text text.now }
{
    let bytes = text.as_bytes();
    if bytes.is_empty() || bytes[0] != b'-' {
        return Numeral::scan(bytes).to_float::<f64>(false).is_finite();
    }
    Numeral::scan(&bytes[1..]).to_float::<f64>(true).is_finite()
}

/// Whether the JSON crate reads the number of a text: it refuses one that is too large for a float.
pub(crate) fn is_readable(text: &str) -> bool
    ensures { result ≡ is_readable text.now }
{
    is_whole_text(text) || is_finite_text(text)
}

/// The same number.
fn widened(number: u64) -> i128
    ensures { result ≡ pos number }
{
    number as i128
}

/// The number of these digits, where it has at most 64 bits, and `None` where these are no digits too.
fn read_unsigned(digits: &[u8]) -> Option<u64>
    requires { IsLed digits.now }
    ensures { MatchOption result (is_unsigned_text digits.now ≡ false)
        (λ n. (is_unsigned_text digits.now ≡ true) × (n ≡ digits_value 10 digits.now)) }
{
    match fast_float::parse_u64(digits) {
        Ok(number) => Some(number),
        Err(_) => None,
    }
}

/// The number of these digits behind a minus, where it has at most 64 bits and is no zero.
fn read_minus(digits: &[u8]) -> Option<i128>
    requires { IsLed digits.now }
    ensures { MatchOption result (is_minus_text digits.now ≡ false)
        (λ z. (is_minus_text digits.now ≡ true) × (z ≡ neg_ℤ (pos (digits_value 10 digits.now)))) }
{
    let Some(number) = read_unsigned(digits) else {
        return None;
    };
    if digits[0] == b'0' || number > 1 << 63 {
        return None;
    }
    Some(-widened(number))
}

/// The whole number of 64 bits that the text of a number writes, if it does.
fn read_whole(text: &str) -> Option<i128>
    requires { is_fit_number text.now ≡ true }
    ensures { MatchOption result (is_whole_text text.now ≡ false)
        (λ z. (is_whole_text text.now ≡ true) × (z ≡ whole_value text.now)) }
{
    let bytes = text.as_bytes();
    if bytes.is_empty() || bytes[0] != b'-' {
        return match read_unsigned(bytes) {
            Some(number) => Some(widened(number)),
            None => None,
        };
    }
    read_minus(&bytes[1..])
}

/// The number that a text within the limits writes.
fn written_number(text: &str) -> Number<'_>
    requires { IsShort (written text.now) }
    ensures { number_of result ≡ written text.now }
{
    match NumberText::new(text) {
        Some(number) => Number::Written(number),
        None => unreachable!(),
    }
}

/// The number of the text of one.
pub(crate) fn read_number(text: &str) -> Number<'_>
    requires { is_fit_number text.now ≡ true }
    ensures { number_of result ≡ text_number text.now }
{
    match read_whole(text) {
        Some(whole) => Number::Whole(whole),
        None => written_number(text),
    }
}

/// Whether the text of a number is within the limits.
pub(crate) fn is_within(text: &str) -> bool
    ensures { result ≡ is_short (written text.now) }
{
    NumberText::new(text).is_some()
}
