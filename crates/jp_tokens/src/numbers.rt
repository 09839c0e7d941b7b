//! Integers and numbers, read from the left.

ghost use Rattle.std.specs.Prelude.{◌≡◌};
ghost use Rattle.std.specs.Str.{chars};
ghost use Rattle.jp_tree.specs.Characters as spec;
ghost use Rattle.jp_tree.specs.Numbers as numbers;
ghost use Rattle.jp_tokens.specs.Reading as reading;
ghost use Rattle.jp_tokens.specs.Gives.{ReadsRest, ReadsText};

use crate::text::{first_character, is_digit, up_to};
use jp_tree::QueryFault;

fn is_positive_digit(c: char) -> bool
    ensures { result ≡ spec.is_positive_digit c }
{
    matches!(c, '1'..='9')
}

fn is_exponent_mark(c: char) -> bool
    ensures { result ≡ numbers.is_exponent_mark c }
{
    matches!(c, 'e' | 'E')
}

fn past_digits(text: &str) -> &str
    ensures { chars result.now ≡ reading.past spec.is_digit (chars text.now) }
{
    text.trim_start_matches(is_digit)
}

/// Behind one digit or more.
#[tactic(auto, unfolding(crate::specs::Reading::run_at))]
fn behind_digits(text: &str) -> Result<&str, QueryFault>
    ensures { ReadsRest result (reading.behind (reading.digits_at (chars text.now))) }
{
    match first_character(text) {
        Some((c, more)) if is_digit(c) => Ok(past_digits(more)),
        _ => Err(QueryFault::Syntax),
    }
}

/// The same, where the first is no zero.
#[tactic(auto, unfolding(crate::specs::Reading::run_at))]
fn behind_positive(text: &str) -> Result<&str, QueryFault>
    ensures { ReadsRest result (reading.behind (reading.positive_at (chars text.now))) }
{
    match first_character(text) {
        Some((c, more)) if is_positive_digit(c) => Ok(past_digits(more)),
        _ => Err(QueryFault::Syntax),
    }
}

/// Behind the integer of an index or a slice: no leading zeros, no `-0`.
#[tactic(auto, unfolding(crate::specs::Reading::int_at))]
fn behind_int(text: &str) -> Result<&str, QueryFault>
    ensures { ReadsRest result (reading.behind (reading.int_at (chars text.now))) }
{
    match first_character(text) {
        None => Err(QueryFault::Syntax),
        Some(('0', rest)) => Ok(rest),
        Some(('-', more)) => behind_positive(more),
        Some(_) => behind_positive(text),
    }
}

/// Behind `-` and what follows it.
#[tactic(auto, unfolding(crate::specs::Reading::minus_at))]
fn behind_minus(text: &str) -> Result<&str, QueryFault>
    ensures { ReadsRest result (reading.behind (reading.minus_at (chars text.now))) }
{
    match first_character(text) {
        None => Err(QueryFault::Syntax),
        Some(('0', more)) => Ok(more),
        Some(_) => behind_positive(text),
    }
}

/// Behind what a number literal begins with: an integer, or `-0`.
#[tactic(auto, unfolding(crate::specs::Reading::whole_at))]
fn behind_whole(text: &str) -> Result<&str, QueryFault>
    ensures { ReadsRest result (reading.behind (reading.whole_at (chars text.now))) }
{
    match first_character(text) {
        None => Err(QueryFault::Syntax),
        Some(('-', more)) => behind_minus(more),
        Some(_) => behind_int(text),
    }
}

/// Behind a fraction, or where none begins.
#[tactic(auto, unfolding(crate::specs::Reading::fraction_at))]
fn behind_fraction(text: &str) -> Result<&str, QueryFault>
    ensures { ReadsRest result (reading.behind (reading.fraction_at (chars text.now))) }
{
    match first_character(text) {
        Some(('.', more)) => behind_digits(more),
        _ => Ok(text),
    }
}

/// Behind the sign of an exponent, or where none stands.
fn behind_sign(text: &str) -> &str
    ensures { chars result.now ≡ (reading.sign_at (chars text.now)).1 }
{
    match first_character(text) {
        Some(('+' | '-', rest)) => rest,
        _ => text,
    }
}

/// Behind an exponent, or where none begins.
#[tactic(auto, unfolding(crate::specs::Reading::exponent_at))]
fn behind_exponent(text: &str) -> Result<&str, QueryFault>
    ensures { ReadsRest result (reading.behind (reading.exponent_at (chars text.now))) }
{
    match first_character(text) {
        Some((c, more)) if is_exponent_mark(c) => behind_digits(behind_sign(more)),
        _ => Ok(text),
    }
}

/// Behind a number literal.
#[tactic(auto, unfolding(crate::specs::Reading::number_at))]
fn behind_number(text: &str) -> Result<&str, QueryFault>
    ensures { ReadsRest result (reading.behind (reading.number_at (chars text.now))) }
{
    let fraction = behind_whole(text)?;
    let exponent = behind_fraction(fraction)?;
    behind_exponent(exponent)
}

/// The integer in front, and the rest.
pub(crate) fn int_at(text: &str) -> Result<(&str, &str), QueryFault>
    ensures { ReadsText result (reading.int_at (chars text.now)) }
{
    let rest = behind_int(text)?;
    Ok((up_to(text, rest), rest))
}

/// The number in front, and the rest.
pub(crate) fn number_at(text: &str) -> Result<(&str, &str), QueryFault>
    ensures { ReadsText result (reading.number_at (chars text.now)) }
{
    let rest = behind_number(text)?;
    Ok((up_to(text, rest), rest))
}
