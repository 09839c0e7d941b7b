//! How a class is made ready to be looked up.

ghost use Rattle.std.specs.Prelude.{◌≡◌, ◌||◌, ℕ, map, max, true, IfOk, IfSome, IsTrue, OnOk};
ghost use Rattle.std.specs.List.{list_any};
ghost use Rattle.std.specs.List.Sorted.{IsNonDecreasingBy};
ghost use Rattle.unicode.specs.GeneralCategory.{general_category_eq};
ghost use Rattle.unicode.specs.declared.properties.GeneralCategory.{GeneralCategory as Category};
ghost use Rattle.jp_pattern.specs.CharSets.{in_element};
ghost use Rattle.jp_pattern.specs.Tree.{element_of, set_of};
ghost use Rattle.jp_automaton.specs.Letters.{elements_of, letters_of, span_element};
ghost use Rattle.jp_automaton.specs.inner.SpanOrder.{first_of, last_of};
ghost use Rattle.jp_automaton.specs.inner.Spans.{in_parts, widen, HasParts, SameSet};

use crate::letters::Letters;
use crate::ranges::{Class, Span};
use jp_pattern::{CharSet, Element};
use std::alloc::{AllocError, Global};
use unicode::properties::GeneralCategory;

/// The same set, as it is looked up.
///
/// # Errors
///
/// Memory ran out.
pub(crate) fn letters(alloc: Global, set: CharSet) -> Result<Letters, AllocError>
    ensures { IfOk result (λ made. SameSet (set_of set) (letters_of made)) }
{
    match set {
        CharSet::Class { negated, elements } => {
            let (spans, categories) = parts(alloc, elements)?;
            let spans = in_order(alloc, spans)?;
            Ok(Letters::Ranges(Class {
                negated,
                spans,
                categories,
            }))
        }
        other => Ok(Letters::Plain(other)),
    }
}

/// The ranges of a class, in any order, and its categories.
fn parts(alloc: Global, elements: Vec<Element>) -> Result<(Vec<Span>, Vec<Element>), AllocError>
    ensures { IfOk result (λ made. HasParts elements.items made.0.items made.1.items) }
{
    let mut spans = Vec::new(alloc);
    let mut categories = Vec::new(alloc);
    for element in elements {
        add_element(element, &mut spans, &mut categories)?;
    }
    Ok((spans, categories))
}

/// Puts an element to its like, unless it is a category that is there.
fn add_element(
    element: Element,
    spans: &mut Vec<Span>,
    categories: &mut Vec<Element>,
) -> Result<(), AllocError>
    ensures { OnOk result ((c : ℕ) → in_parts c spans.new.items categories.new.items
        ≡ (in_parts c spans.old.items categories.old.items || in_element c (element_of element))) }
{
    match span_of(&element) {
        Some(span) => {
            spans.push(span)?;
            Ok(())
        }
        None => {
            if !are_listed(categories, &element) {
                categories.push(element)?;
            }
            Ok(())
        }
    }
}

/// Whether what the element holds is held by these, since it is one of them.
fn are_listed(categories: &[Element], element: &Element) -> bool
    ensures { IsTrue result → (c : ℕ) → in_element c (element_of element.now) ≡ true
        → list_any (in_element c) (map element_of categories.now) ≡ true }
{
    // There are 37 names of categories, so of these there are 74 at most.
    for known in categories {
        if is_same(known, element) {
            return true;
        }
    }
    false
}

/// Whether the two are the same category, and both are negated or none is.
fn is_same(one: &Element, other: &Element) -> bool
    ensures { IsTrue result → (c : ℕ)
        → in_element c (element_of one.now) ≡ in_element c (element_of other.now) }
{
    match (one, other) {
        (
            Element::Category {
                negated,
                categories,
            },
            Element::Category {
                negated: other_negated,
                categories: other_categories,
            },
        ) => { *negated == *other_negated && are_same(categories, other_categories) }
        _ => false,
    }
}

/// Whether the categories are the same.
fn are_same(one: &[GeneralCategory], other: &[GeneralCategory]) -> bool
    ensures { IsTrue result → (x : Category) → list_any (general_category_eq x) one.now
        ≡ list_any (general_category_eq x) other.now }
{
    if one.len() != other.len() {
        return false;
    }
    for i in 0..one.len() {
        if one[i].number() != other[i].number() {
            return false;
        }
    }
    true
}

/// The element as a range, unless it is a category.
fn span_of(element: &Element) -> Option<Span>
    ensures { IfSome result (λ span. (c : ℕ) → in_element c (element_of element.now)
        ≡ in_element c (span_element span)) }
{
    match element {
        Element::One(x) => Some(Span { low: *x, high: *x }),
        Element::Range(low, high) => Some(Span {
            low: *low,
            high: *high,
        }),
        Element::Category { .. } => None,
    }
}

/// The ranges by their first characters, each up to the last character of it and those before it: so the last
/// characters do not fall either, and all of them together hold what they held.
fn in_order(alloc: Global, spans: Vec<Span>) -> Result<Vec<Span>, AllocError>
    ensures firsts { IfOk result (λ made. IsNonDecreasingBy first_of made.items) }
    ensures lasts { IfOk result (λ made. IsNonDecreasingBy last_of made.items) }
    ensures same { IfOk result (λ made. (c : ℕ) → list_any (in_element c) (map span_element made.items)
        ≡ list_any (in_element c) (map span_element spans.items)) }
{
    let mut spans = spans;
    spans.sort_by_key(|span| span.low as u32)?;
    Ok(widened(alloc, &spans)?)
}

/// Each up to the last character of it and those before it.
fn widened(alloc: Global, spans: &[Span]) -> Result<Vec<Span>, AllocError>
    ensures { IfOk result (λ made. made.items ≡ widen 0 spans.now) }
{
    let mut made = Vec::new(alloc);
    let mut most = '\0';
    for span in spans {
        most = later(most, span.high);
        made.push(Span {
            low: span.low,
            high: most,
        })?;
    }
    Ok(made)
}

/// The later one of two characters.
fn later(a: char, b: char) -> char
    ensures { result ≡ max a b }
{
    if a < b { b } else { a }
}
