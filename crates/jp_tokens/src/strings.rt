//! String literals, read from the left.

ghost use Rattle.std.specs.Prelude.{◌≡◌, ◌<◌, IsTrue, IfOk};
ghost use Rattle.std.specs.Str.{chars};
ghost use Rattle.jp_tree.specs.Characters as spec;
ghost use Rattle.jp_tokens.specs.Reading as reading;
ghost use Rattle.jp_tree.specs.View.{text_of};
ghost use Rattle.jp_tokens.specs.Gives.{GivesFront, ReadsFront};

use crate::text::{empty_text, first_character, mark_at, push_character, some_character};
use jp_tree::QueryFault;
use std::alloc::Global;

/// What a backslash and this letter stand for between these quotes.
fn escaped(quote: char, letter: char) -> Option<char>
    ensures { result ≡ spec.escaped quote letter }
{
    match letter {
        'b' => Some('\u{8}'),
        'f' => Some('\u{c}'),
        'n' => Some('\n'),
        'r' => Some('\r'),
        't' => Some('\t'),
        '/' => Some('/'),
        '\\' => Some('\\'),
        c if c == quote => Some(quote),
        _ => None,
    }
}

/// Whether the character stands for itself between these quotes.
fn is_bare(quote: char, c: char) -> bool
    ensures { result ≡ spec.is_bare quote c }
{
    c >= ' ' && c != quote && c != '\\'
}

fn is_hex_digit(c: char) -> bool
    ensures { result ≡ spec.is_hex_digit c }
{
    matches!(c, '0'..='9' | 'A'..='F' | 'a'..='f')
}

fn hex_value(c: char) -> u32
    requires { IsTrue (spec.is_hex_digit c) }
    ensures value { result ≡ spec.hex_value c }
    ensures below { result < 16 }
{
    match c {
        '0'..='9' => c as u32 - 48,
        'A'..='F' => c as u32 - 55,
        _ => c as u32 - 87,
    }
}

/// The number of four hexadecimal digits.
#[tactic(auto, unfolding(crate::specs::Reading::hex_at))]
fn hex_at(text: &str) -> Result<(u32, &str), QueryFault>
    ensures read { ReadsFront (λ c. c) result (reading.hex_at (chars text.now)) }
    ensures below { IfOk result (λ x. x.0 < 65536) }
{
    let (a, text) = some_character(text)?;
    let (b, text) = some_character(text)?;
    let (c, text) = some_character(text)?;
    let (d, rest) = some_character(text)?;
    if is_hex_digit(a) && is_hex_digit(b) && is_hex_digit(c) && is_hex_digit(d) {
        let front = hex_value(a) * 16 + hex_value(b);
        let number = (front * 16 + hex_value(c)) * 16 + hex_value(d);
        Ok((number, rest))
    } else {
        Err(QueryFault::Syntax)
    }
}

fn is_high_surrogate(n: u32) -> bool
    ensures { result ≡ spec.is_high_surrogate n }
{
    matches!(n, 0xD800..=0xDBFF)
}

fn is_low_surrogate(n: u32) -> bool
    ensures { result ≡ spec.is_low_surrogate n }
{
    matches!(n, 0xDC00..=0xDFFF)
}

/// The character of this number.
fn scalar(n: u32) -> char
    requires { IsTrue (spec.is_scalar n) }
    ensures { result ≡ n }
{
    char::from_u32(n).unwrap()
}

/// Behind a high surrogate: the low one, and the character that both write.
#[tactic(auto, unfolding(crate::specs::Reading::pair_at))]
fn pair_at(high: u32, text: &str) -> Result<(Option<char>, &str), QueryFault>
    requires { IsTrue (spec.is_high_surrogate high) }
    ensures { ReadsFront (λ c. c) result (reading.pair_at high (chars text.now)) }
{
    let digits = mark_at('u', mark_at('\\', text)?)?;
    let (low, rest) = hex_at(digits)?;
    if is_low_surrogate(low) {
        let value = 0x10000 + (high - 0xD800) * 0x400 + (low - 0xDC00);
        Ok((Some(scalar(value)), rest))
    } else {
        Err(QueryFault::Syntax)
    }
}

/// Behind `\u`: the character of four hexadecimal digits, or of a pair of surrogates.
#[tactic(auto, unfolding(crate::specs::Reading::unicode_at))]
fn unicode_at(text: &str) -> Result<(Option<char>, &str), QueryFault>
    ensures { ReadsFront (λ c. c) result (reading.unicode_at (chars text.now)) }
{
    let (value, rest) = hex_at(text)?;
    if is_high_surrogate(value) {
        pair_at(value, rest)
    } else if is_low_surrogate(value) {
        Err(QueryFault::Syntax)
    } else {
        Ok((Some(scalar(value)), rest))
    }
}

/// Behind a backslash.
#[tactic(auto, unfolding(crate::specs::Reading::escape_at))]
fn escape_at(quote: char, text: &str) -> Result<(Option<char>, &str), QueryFault>
    ensures { ReadsFront (λ c. c) result (reading.escape_at quote (chars text.now)) }
{
    match first_character(text) {
        None => Err(QueryFault::Syntax),
        Some(('u', more)) => unicode_at(more),
        Some((c, rest)) => match escaped(quote, c) {
            Some(value) => Ok((Some(value), rest)),
            None => Err(QueryFault::Syntax),
        },
    }
}

/// One character of a string, or the quote that closes it.
#[tactic(auto, unfolding(crate::specs::Reading::piece_at))]
fn piece_at(quote: char, text: &str) -> Result<(Option<char>, &str), QueryFault>
    ensures { ReadsFront (λ c. c) result (reading.piece_at quote (chars text.now)) }
{
    match first_character(text) {
        Some((c, rest)) if c == quote => Ok((None, rest)),
        Some(('\\', more)) => escape_at(quote, more),
        Some((c, rest)) if is_bare(quote, c) => Ok((Some(c), rest)),
        _ => Err(QueryFault::Syntax),
    }
}

/// Behind the quote that opens.
pub fn string_at(alloc: Global, quote: char, text: &str) -> Result<(String, &str), QueryFault>
    ensures { GivesFront text_of result (reading.string_at quote (chars text.now)) }
{
    let mut found = empty_text(alloc);
    let mut rest = text;
    loop {
        let (piece, after) = piece_at(quote, rest)?;
        rest = after;
        match piece {
            None => return Ok((found, rest)),
            Some(c) => push_character(&mut found, c)?,
        }
    }
}
