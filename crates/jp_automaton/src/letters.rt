//! Sets of characters as they are looked up: the ranges of a class by halves.

ghost use Rattle.std.specs.Prelude.{◌≡◌, map};
ghost use Rattle.std.specs.List.{list_any};
ghost use Rattle.std.specs.List.Sorted.{IsNonDecreasingBy};
ghost use Rattle.jp_pattern.specs.CharSets.{in_element, in_set};
ghost use Rattle.jp_pattern.specs.Pattern.{class};
ghost use Rattle.jp_automaton.specs.Letters.{elements_of, letters_of, span_element};
ghost use Rattle.jp_automaton.specs.inner.SpanOrder.{first_of, last_of};

use crate::ranges::{Class, Span};
use jp_pattern::{CharSet, in_set, in_some_element};

/// What stands for one character, as it is looked up.
#[derive(Drop)]
pub enum Letters {
    /// What is no class.
    Plain(CharSet),
    Ranges(Class),
}

/// Whether the character is in the set (RFC 9485, 4).
pub(crate) fn has_letter(set: &Letters, c: char) -> bool
    ensures { result ≡ in_set (letters_of set.now) c }
{
    match set {
        Letters::Plain(set) => in_set(set, c),
        Letters::Ranges(class) => in_class(class, c),
    }
}

/// Whether the character is in the class.
fn in_class(of: &Class, c: char) -> bool
    ensures { result ≡ in_set (class of.now.negated (elements_of of.now)) c }
{
    let holds = in_some_part(of, c);
    if of.negated { !holds } else { holds }
}

/// Whether the character is in some range or category of the class.
fn in_some_part(class: &Class, c: char) -> bool
    ensures { result ≡ list_any (in_element c) (elements_of class.now) }
{
    if in_some_span(&class.spans, c) {
        return true;
    }
    in_some_element(&class.categories, c)
}

/// Whether the character is in some range. Of those that do not begin behind it the last one ends last.
fn in_some_span(spans: &[Span], c: char) -> bool
    requires firsts { IsNonDecreasingBy first_of spans.now }
    requires lasts { IsNonDecreasingBy last_of spans.now }
    ensures { result ≡ list_any (in_element c) (map span_element spans.now) }
{
    let behind = spans.partition_point(|span| span.low <= c);
    if behind == 0 {
        return false;
    }
    c <= spans[behind - 1].high
}
