//! The front of a text: its first character, blanks, names and marks; and texts that grow.

ghost use Rattle.std.specs.Prelude.{◌≡◌, ◌==◌, ℕ, List, [], ◌∷◌, ◌++◌, length};
ghost use Rattle.std.specs.Prelude.{OnOk, IfOk, IfErr, MatchOption};
ghost use Rattle.std.specs.Str.{chars};
ghost use Rattle.jp_tree.specs.Characters as spec;
ghost use Rattle.jp_tokens.specs.Reading as reading;
ghost use Rattle.jp_tree.specs.Spelling.{begins_with};
ghost use Rattle.jp_tree.specs.View.{text_of};
ghost use Rattle.jp_tokens.specs.Gives.{ReadsRest, ReadsText};

use jp_tree::QueryFault;
use std::alloc::{AllocError, Global};

fn is_blank(c: char) -> bool
    ensures { result ≡ spec.is_blank c }
{
    matches!(c, ' ' | '\t' | '\n' | '\r')
}

pub(crate) fn is_digit(c: char) -> bool
    ensures { result ≡ spec.is_digit c }
{
    matches!(c, '0'..='9')
}

pub(crate) fn is_lower(c: char) -> bool
    ensures { result ≡ spec.is_lower c }
{
    matches!(c, 'a'..='z')
}

fn is_first(c: char) -> bool
    ensures { result ≡ spec.is_first c }
{
    matches!(c, 'A'..='Z' | 'a'..='z' | '_') || c >= '\u{80}'
}

fn is_name_character(c: char) -> bool
    ensures { result ≡ spec.is_name_character c }
{
    is_first(c) || is_digit(c)
}

fn is_function_character(c: char) -> bool
    ensures { result ≡ spec.is_function_character c }
{
    is_lower(c) || c == '_' || is_digit(c)
}

pub fn is_quote(c: char) -> bool
    ensures { result ≡ spec.is_quote c }
{
    matches!(c, '"' | '\'')
}

/// The first character, and the text behind it.
pub fn first_character(text: &str) -> Option<(char, &str)>
    ensures { MatchOption result (chars text.now ≡ []) (λ x. chars text.now ≡ x.0 ∷ chars x.1.now) }
{
    let mut characters = text.chars();
    let first = characters.next()?;
    Some((first, characters.as_str()))
}

/// The same, of a text that must go on here.
pub(crate) fn some_character(text: &str) -> Result<(char, &str), QueryFault>
    ensures there { IfOk result (λ x. chars text.now ≡ x.0 ∷ chars x.1.now) }
    ensures fault { IfErr result (λ e. (e ≡ QueryFault.Syntax) × (chars text.now ≡ [])) }
{
    first_character(text).ok_or(QueryFault::Syntax)
}

/// Behind the blanks.
pub fn skip(text: &str) -> &str
    ensures { chars result.now ≡ reading.skip (chars text.now) }
{
    text.trim_start_matches(is_blank)
}

/// Behind the characters of a shorthand name.
fn past_name(text: &str) -> &str
    ensures { chars result.now ≡ reading.past spec.is_name_character (chars text.now) }
{
    text.trim_start_matches(is_name_character)
}

/// Behind the characters of a function's name.
pub(crate) fn past_function_name(text: &str) -> &str
    ensures { chars result.now ≡ reading.past spec.is_function_character (chars text.now) }
{
    text.trim_start_matches(is_function_character)
}

/// The text up to the rest, which it ends in.
pub(crate) fn up_to<'a>(text: &'a str, rest: &str) -> &'a str
    requires { (front : List ℕ) × (chars text.now ≡ front ++ chars rest.now) }
    ensures { chars text.now ≡ chars result.now ++ chars rest.now }
{
    &text[..text.len() - rest.len()]
}

/// The name in front, and the rest.
#[tactic(auto, unfolding(crate::specs::Reading::run_at))]
pub(crate) fn name_at(text: &str) -> Result<(&str, &str), QueryFault>
    ensures { ReadsText result (reading.name_at (chars text.now)) }
{
    match first_character(text) {
        Some((c, more)) if is_first(c) => {
            let rest = past_name(more);
            Ok((up_to(text, rest), rest))
        }
        _ => Err(QueryFault::Syntax),
    }
}

/// The function's name in front, and the rest.
#[tactic(auto, unfolding(crate::specs::Reading::run_at))]
pub fn function_name_at(text: &str) -> Result<(&str, &str), QueryFault>
    ensures { ReadsText result (reading.function_name_at (chars text.now)) }
{
    match first_character(text) {
        Some((c, more)) if is_lower(c) => {
            let rest = past_function_name(more);
            Ok((up_to(text, rest), rest))
        }
        _ => Err(QueryFault::Syntax),
    }
}

/// What follows this character.
#[tactic(auto, unfolding(crate::specs::Reading::mark_at))]
pub fn mark_at(mark: char, text: &str) -> Result<&str, QueryFault>
    ensures { ReadsRest result (reading.mark_at mark (chars text.now)) }
{
    match first_character(text) {
        Some((c, rest)) if c == mark => Ok(rest),
        _ => Err(QueryFault::Syntax),
    }
}

/// Behind `[`, past the blanks that may stand inside the brackets (RFC 9535, 2.5.1).
pub fn inside_brackets(behind: &str) -> &str
    ensures { chars result.now ≡ reading.skip (chars behind.now) }
{
    skip(behind)
}

/// Whether nothing is left of the text, not even a blank: none may follow the last segment (RFC 9535, 2.1).
pub fn is_end(text: &str) -> bool
    ensures { result ≡ (length (chars text.now) == 0) }
{
    text.is_empty()
}

/// Whether the text begins with this character.
pub fn begins_with(mark: char, text: &str) -> bool
    ensures { result ≡ begins_with mark (chars text.now) }
{
    match first_character(text) {
        Some((c, _)) => c == mark,
        None => false,
    }
}

/// The text of no character.
pub(crate) fn empty_text(alloc: Global) -> String
    ensures { text_of result ≡ [] }
{
    String::new(alloc)
}

/// One more character at the end.
pub(crate) fn push_character(text: &mut String, c: char) -> Result<(), AllocError>
    ensures { OnOk result (text_of text.new ≡ text_of text.old ++ c ∷ []) }
{
    text.push(c)
}
