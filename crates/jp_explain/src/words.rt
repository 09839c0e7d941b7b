//! Names and texts that were written without what has to stand before or around them.

use crate::meant::{Cure, NAME_ENDS, OPERAND_ENDS, front_of, is_name};

/// What ends a value that should stand in quotes.
const VALUE_ENDS: [char; 17] = [
    '?', '(', ')', '&', '|', ',', '=', '!', '<', '>', ' ', '\t', '\n', '\r', ']', '"', '\'',
];

/// Whether the first character may begin a name (RFC 9535, 2.5.1.1).
fn begins_name(text: &str) -> bool {
    match text.chars().next() {
        Some(c) => c.is_alphabetic() || c == '_',
        None => false,
    }
}

/// The part of the text behind its last such character.
fn end_of<'q>(text: &'q str, ends: &[char]) -> &'q str {
    match text.rsplit_once(ends) {
        Some((_, end)) => end,
        None => text,
    }
}

/// The name directly behind `$` or `@`, or behind brackets.
pub(crate) fn name_behind_sign<'q>(before: &'q str, behind: &'q str) -> Option<Cure<'q>> {
    if !begins_name(behind) {
        return None;
    }
    let name = front_of(behind, &NAME_ENDS);
    let sign = match before.chars().next_back()? {
        '$' if is_compared(before) => return Some(Cure::Variable(name)),
        '$' => "$",
        '@' => "@",
        ']' => "]",
        _ => return None,
    };
    Some(Cure::Dotted { sign, name })
}

/// Whether the `$` at the end stands behind an operator.
fn is_compared(before: &str) -> bool {
    match before.strip_suffix('$') {
        Some(front) => front.trim_end().ends_with(['=', '<', '>']),
        None => false,
    }
}

/// A text without quotes that begins as a number does, as a date, and is compared.
pub(crate) fn cut_literal<'q>(before: &'q str, behind: &'q str) -> Option<Cure<'q>> {
    let start = end_of(before, &OPERAND_ENDS);
    let front = before.strip_suffix(start)?;
    let is_compared = front.trim_end().ends_with(['=', '<', '>']);
    if !is_compared || !start.starts_with(|c: char| c.is_ascii_digit()) {
        return None;
    }
    let rest = front_of(behind, &VALUE_ENDS);
    match rest.is_empty() {
        true => None,
        false => Some(Cure::Text { start, rest }),
    }
}

/// A text without quotes that begins as a fraction does, as an address of four numbers.
pub(crate) fn dotted_number(behind: &str) -> Option<Cure<'_>> {
    let rest = front_of(behind, &VALUE_ENDS);
    match rest.chars().filter(|c| *c == '.').count() {
        0 | 1 => None,
        _ => Some(Cure::Text { start: "", rest }),
    }
}

/// What helps with a word of another language, where a value stands.
fn cure_of_foreign(word: &str) -> Option<&'static str> {
    match word {
        "True" | "TRUE" => Some("true in small letters: @.b==true"),
        "False" | "FALSE" => Some("false in small letters: @.b==false"),
        "Null" | "NULL" | "None" => Some("nothing is null: @.b==null"),
        "undefined" => Some("what is not there: !@.b"),
        _ => None,
    }
}

/// Whether the text is names with dots between.
fn is_dotted(text: &str) -> bool {
    text.chars()
        .all(|c| c.is_ascii_alphanumeric() || c == '_' || c == '.')
}

/// A word where a value or a test stands: a text without quotes, or a name without `@.`.
pub(crate) fn word_alone<'q>(before: &'q str, behind: &'q str) -> Option<Cure<'q>> {
    if behind.trim_start().starts_with(['@', '$', '"', '\'']) {
        return None;
    }
    let start = end_of(before, &OPERAND_ENDS);
    let word = behind.strip_prefix('.').unwrap_or(behind);
    let rest = front_of(word, &VALUE_ENDS);
    let first = if start.is_empty() { rest } else { start };
    if !begins_name(first) || !is_name(start) || is_call(word, rest) {
        return None;
    }
    let front = before.strip_suffix(start)?.trim_end();
    if front.ends_with(['=', '<', '>', ',']) && !behind.starts_with('.') {
        return Some(value_alone(start, rest));
    }
    match is_dotted(rest) {
        true => Some(Cure::Item { start, rest }),
        false => None,
    }
}

/// The same where a value stands.
fn value_alone<'q>(start: &'q str, rest: &'q str) -> Cure<'q> {
    let foreign = match start.is_empty() {
        true => cure_of_foreign(rest),
        false => None,
    };
    match foreign {
        Some(words) => Cure::Words(words),
        None if is_dotted(rest) => Cure::Value { start, rest },
        None => Cure::Text { start, rest },
    }
}

/// Whether a parenthesis follows the word.
fn is_call(behind: &str, word: &str) -> bool {
    match behind.strip_prefix(word) {
        Some(rest) => rest.starts_with('('),
        None => false,
    }
}
