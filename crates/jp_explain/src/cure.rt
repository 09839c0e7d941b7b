//! What is to be written in the place of what stands at a mark, where it is known what was meant.

ghost use Rattle.std.specs.Prelude.{◌≡◌, ◌≤◌, length, nat_eq, IsTrue, IfSome, Any};
ghost use Rattle.std.specs.Str.{chars};
ghost use Rattle.std.specs.List.{starts_with, ends_with};
ghost use Rattle.jp_explain.specs.inner.Cures.{Applies};

use crate::cure_of_start::cure_of_start;
use crate::cure_table::{
    At, OF_BRACKETS, OF_ESCAPES, OF_PATHS, OF_TESTS, OF_VALUES, OF_WORDS, Row,
};
use crate::explanation::Explanation;
use crate::meant::{Cure, a_test_of_items, in_parentheses, name_in_quotes, name_of_selector};
use crate::sizes::NEAR_CHARACTERS;
use crate::words::{cut_literal, dotted_number, name_behind_sign, word_alone};
use jp_query_scan::{Expected, Reason, Rule};
use jp_tokens::first_character;

/// Where the query goes wrong, by what is to be said of that place.
fn place_of(reason: Reason) -> Option<At> {
    match reason {
        Reason::Expected(expected) => match expected {
            Expected::Dotted | Expected::Descendant | Expected::Name => Some(At::Dot),
            Expected::Selector | Expected::SingularSelector => Some(At::Selector),
            Expected::Segment | Expected::SegmentAlone => Some(At::Segment),
            Expected::Escape(_) => Some(At::Escape),
            _ => place_in_brackets(expected),
        },
        Reason::Rule(Rule::NoFunction) => Some(At::Word),
        Reason::Rule(Rule::Whole) => Some(At::Number),
        Reason::Rule(_) => None,
    }
}

/// The same of what stands in brackets.
fn place_in_brackets(expected: Expected) -> Option<At> {
    match expected {
        Expected::IndexEnd | Expected::SlicePart | Expected::SliceStep => Some(At::Index),
        Expected::SelectorEnd | Expected::SingularEnd | Expected::DigitFromOne => Some(At::Index),
        Expected::ComparedEnd(_) | Expected::TestEnd(_) | Expected::ArgumentEnd(_) => {
            Some(At::Test)
        }
        Expected::Operator => Some(At::Test),
        Expected::SeveralEnd(_) => Some(At::Several),
        Expected::Equal => Some(At::Equal),
        Expected::Comparable | Expected::ValueArgument => Some(At::Value),
        Expected::Word | Expected::Test | Expected::Negated => Some(At::Word),
        Expected::Arguments | Expected::NodesArgument => Some(At::Word),
        _ => None,
    }
}

/// The first characters of the text, so many at most, and the rest.
fn split_behind(text: &str, characters: usize) -> (&str, &str) {
    match text.char_indices().nth(characters) {
        Some((at, _)) => text.split_at_checked(at).unwrap_or((text, "")),
        None => (text, ""),
    }
}

/// What stands near the mark, before it and behind it.
fn around(query: &str, mark: usize) -> (&str, &str) {
    let far = mark.saturating_sub(NEAR_CHARACTERS);
    let (_, near) = split_behind(query, far);
    let (before, behind) = split_behind(near, mark.saturating_sub(far));
    let (behind, _) = split_behind(behind, NEAR_CHARACTERS);
    (before, behind)
}

/// Whether the text ends so.
fn ends_so(text: &str, end: &str) -> bool
    ensures { result ≡ ends_with nat_eq text.now end.now }
{
    text.ends_with(end)
}

/// Whether the text begins so.
fn begins_so(text: &str, start: &str) -> bool
    ensures { result ≡ starts_with nat_eq text.now start.now }
{
    text.starts_with(start)
}

/// Whether the row is one for that place, and its texts stand before the mark and behind it.
fn applies(row: &Row, at: At, before: &str, behind: &str) -> bool
    ensures { IsTrue result
        → Applies row.now.0 row.now.1.now row.now.2.now at before.now behind.now }
{
    row.0 == at && ends_so(before, row.1) && begins_so(behind, row.2)
}

/// What the first of these rows that applies says.
fn words_of(rows: &[Row], at: At, before: &str, behind: &str) -> Option<&'static str>
    ensures { IfSome result (λ words. Any (λ row.
        Applies row.0 row.1.now row.2.now at before.now behind.now × (words.now ≡ row.3.now)) rows.now) }
{
    for row in rows {
        if applies(row, at, before, behind) {
            return Some(row.3);
        }
    }
    None
}

/// What helps by the table.
fn cure_in_table(at: At, before: &str, behind: &str) -> Option<&'static str> {
    match at {
        At::Dot | At::Segment => words_of(&OF_PATHS, at, before, behind),
        At::Selector | At::Index => words_of(&OF_BRACKETS, at, before, behind),
        At::Test => words_of(&OF_TESTS, at, before, behind),
        At::Equal | At::Value => words_of(&OF_VALUES, at, before, behind),
        At::Word => match words_of(&OF_VALUES, at, before, behind) {
            Some(words) => Some(words),
            None => words_of(&OF_WORDS, at, before, behind),
        },
        At::Escape => words_of(&OF_ESCAPES, at, before, behind),
        At::Several | At::Number => None,
    }
}

/// Quotes that a text processor makes.
const CURLY: [char; 6] = [
    '\u{201c}', '\u{201d}', '\u{201e}', '\u{2018}', '\u{2019}', '\u{ab}',
];

/// What helps with a single character, or with the end of the query.
fn cure_of_character(at: At, before: &str, behind: &str) -> Option<&'static str> {
    let is_digit = behind.starts_with(|c: char| c.is_ascii_digit());
    match at {
        At::Selector | At::Value | At::Word if behind.starts_with(&CURLY) => {
            Some("straight quotes: \"a\" or 'a'")
        }
        At::Dot if behind.is_empty() => Some(cure_of_last_dot(before)),
        At::Index | At::Test if is_digit && before.ends_with('0') => {
            Some("no 0 before a number: 1")
        }
        At::Index if before.ends_with(|c: char| c.is_ascii_digit()) => cure_behind_index(behind),
        At::Value if is_fraction(behind) => Some("a 0 stands before the point: 0.5"),
        _ => None,
    }
}

/// What helps where a query ends with a dot.
fn cure_of_last_dot(before: &str) -> &'static str {
    match before.ends_with("..") {
        true => "all descendants: $..*",
        false => "no . ends a query",
    }
}

/// What helps directly behind an index.
fn cure_behind_index(behind: &str) -> Option<&'static str> {
    if behind.starts_with("..") || behind.starts_with('-') {
        return Some("from 0 to 2: [0:3], whose end is left out");
    }
    match behind.starts_with('.') {
        true => Some("an index is whole: [1]"),
        false => None,
    }
}

/// Whether the text begins with a point and a digit.
fn is_fraction(text: &str) -> bool {
    match text.strip_prefix('.') {
        Some(rest) => rest.starts_with(|c: char| c.is_ascii_digit()),
        None => false,
    }
}

/// What helps, in the user's own words.
fn own_cure<'q>(at: At, before: &'q str, behind: &'q str) -> Option<Cure<'q>> {
    match at {
        At::Several => Some(a_test_of_items(before, behind)),
        At::Selector => name_of_selector(before, behind),
        At::Test if in_parentheses(before, behind) => {
            Some(Cure::Words("with parentheses: !(@.a==1)"))
        }
        At::Segment | At::Test => match name_behind_sign(before, behind) {
            Some(cure) => Some(cure),
            None => match cut_literal(before, behind) {
                Some(cure) => Some(cure),
                None => name_in_quotes(before, behind),
            },
        },
        At::Dot => name_in_quotes(before, behind),
        At::Value | At::Word => word_alone(before, behind),
        At::Number => dotted_number(behind),
        At::Index | At::Equal | At::Escape => None,
    }
}

/// Whether the text has as many characters.
fn has_characters(text: &str, count: usize) -> bool
    ensures { IsTrue result → count ≤ length (chars text.now) }
{
    let mut rest = text;
    for _turn in 0..count {
        let Some((_c, more)) = first_character(rest) else {
            return false;
        };
        rest = more;
    }
    true
}

/// What is to be written in the place of what stands at the mark, if it is known what was meant. Nothing is
/// told of a mark that is not in the query or at its end.
pub(crate) fn cure<'q>(query: &'q str, explanation: &Explanation) -> Option<Cure<'q>>
    ensures { IfSome result (λ _. explanation.now.mark ≤ length (chars query.now)) }
{
    if !has_characters(query, explanation.mark) {
        return None;
    }
    if explanation.reason == Reason::Expected(Expected::Root) {
        return Some(cure_of_start(query));
    }
    let at = place_of(explanation.reason)?;
    let (before, behind) = around(query, explanation.mark);
    if let Some(words) = cure_in_table(at, before, behind) {
        return Some(Cure::Words(words));
    }
    match cure_of_character(at, before, behind) {
        Some(words) => Some(Cure::Words(words)),
        None => own_cure(at, before, behind),
    }
}
