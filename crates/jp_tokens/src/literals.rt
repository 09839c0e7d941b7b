//! Literals, and where they begin.

ghost use Rattle.std.specs.Prelude.{◌≡◌, option_map};
ghost use Rattle.std.specs.Str.{chars};
ghost use Rattle.jp_tokens.specs.Reading as reading;
ghost use Rattle.jp_tree.specs.View.{literal_of};
ghost use Rattle.jp_tokens.specs.Gives.{GivesFront, ReadsFront};

use crate::numbers::number_at;
use crate::strings::string_at;
use crate::text::{
    begins_with, first_character, function_name_at, is_digit, is_lower, is_quote,
    past_function_name,
};
use jp_tree::{Literal, QueryFault};
use std::alloc::Global;

/// `true`, `false` and `null`.
fn word_literal(word: &str) -> Option<Literal>
    ensures { option_map literal_of result ≡ reading.word_literal (chars word.now) }
{
    match word {
        "true" => Some(Literal::Truth(true)),
        "false" => Some(Literal::Truth(false)),
        "null" => Some(Literal::Null),
        _ => None,
    }
}

/// The literal that a word in front is, and the rest.
#[tactic(auto, unfolding(crate::specs::Reading::word_at))]
fn word_at(text: &str) -> Result<(Literal, &str), QueryFault>
    ensures { ReadsFront literal_of result (reading.word_at (chars text.now)) }
{
    let (word, rest) = function_name_at(text)?;
    match word_literal(word) {
        Some(literal) => Ok((literal, rest)),
        None => Err(QueryFault::Syntax),
    }
}

/// The literal in front (RFC 9535, 2.3.5.1), and the rest.
#[tactic(auto, unfolding(crate::specs::Reading::literal_at))]
pub fn literal_at(alloc: Global, text: &str) -> Result<(Literal, &str), QueryFault>
    ensures { GivesFront literal_of result (reading.literal_at (chars text.now)) }
{
    match first_character(text) {
        None => Err(QueryFault::Syntax),
        Some((c, more)) if is_quote(c) => {
            let (value, rest) = string_at(alloc, c, more)?;
            Ok((Literal::Text(value), rest))
        }
        Some((c, _)) if is_lower(c) => word_at(text),
        Some(_) => {
            let (number, rest) = number_at(text)?;
            Ok((Literal::Number(String::from_str(alloc, number)?), rest))
        }
    }
}

/// Whether a function's name and a parenthesis stand here.
pub fn calls(text: &str) -> bool
    ensures { result ≡ reading.calls (chars text.now) }
{
    match first_character(text) {
        Some((c, more)) => is_lower(c) && begins_with('(', past_function_name(more)),
        None => false,
    }
}

/// Whether a literal begins here.
pub fn begins_literal(text: &str) -> bool
    ensures { result ≡ reading.begins_literal (chars text.now) }
{
    match first_character(text) {
        Some((c, _)) => is_quote(c) || c == '-' || is_digit(c) || is_lower(c) && !calls(text),
        None => false,
    }
}
