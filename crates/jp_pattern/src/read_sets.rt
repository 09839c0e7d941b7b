//! Reading what stands for one character.

ghost use Rattle.std.specs.Prelude.{◌≡◌, [], ◌∷◌, map, option_map, IfOk};
ghost use Rattle.jp_pattern.specs.CharSetShape.{is_class_normal, is_escaped, is_normal};
ghost use Rattle.jp_pattern.specs.inner.Gives.{Gives};
ghost use Rattle.jp_pattern.specs.inner.Reading as reading;
ghost use Rattle.jp_pattern.specs.Tree.{element_of, set_of};

use crate::categories::categories_named;
use crate::fault::PatternFault;
use crate::tree::{CharSet, Element};
use std::alloc::{AllocError, Global};
use unicode::properties::GeneralCategory;

/// What stands for itself behind a backslash (RFC 9485, 3: SingleCharEsc).
fn is_escaped(c: char) -> bool
    ensures { result ≡ is_escaped c }
{
    matches!(
        c,
        '(' | ')' | '*' | '+' | '-' | '.' | '?' | '[' | '\\' | ']' | '^' | '{' | '|' | '}'
    )
}

/// What stands for itself (RFC 9485, 3: NormalChar).
fn is_normal(c: char) -> bool
    ensures { result ≡ is_normal c }
{
    !matches!(
        c,
        '(' | ')' | '*' | '+' | '.' | '?' | '[' | '\\' | ']' | '{' | '|' | '}'
    )
}

/// What stands for itself in a class (RFC 9485, 3: CCchar).
fn is_class_normal(c: char) -> bool
    ensures { result ≡ is_class_normal c }
{
    !matches!(c, '-' | '[' | '\\' | ']')
}

/// What the character behind a backslash stands for.
fn single_value(c: char) -> Option<char>
    ensures { result ≡ reading.single_value c }
{
    match c {
        'n' => Some('\n'),
        'r' => Some('\r'),
        't' => Some('\t'),
        c if is_escaped(c) => Some(c),
        _ => None,
    }
}

/// Behind a backslash (RFC 9485, 3: SingleCharEsc).
fn single_at(text: &[char]) -> Result<(char, &[char]), PatternFault>
    ensures { Gives (λ x. (x.0, x.1.now)) result (reading.single_at text.now) }
{
    match text {
        [] => Err(PatternFault::NoPattern),
        [c, rest @ ..] => match single_value(*c) {
            Some(value) => Ok((value, rest)),
            None => Err(PatternFault::NoPattern),
        },
    }
}

/// A copy of the categories.
fn copied(alloc: Global, categories: &[GeneralCategory]) -> Result<Vec<GeneralCategory>, AllocError>
    ensures { IfOk result (λ all. all.items ≡ categories.now) }
{
    categories.iter().copied().collect(alloc)
}

/// The categories of a name (RFC 9485, 3: IsCategory).
fn named(alloc: Global, name: &[char]) -> Result<Vec<GeneralCategory>, PatternFault>
    ensures { Gives (λ x. x.items) result (reading.categories_named name.now) }
{
    match categories_named(name) {
        Some(categories) => Ok(copied(alloc, categories)?),
        None => Err(PatternFault::NoPattern),
    }
}

/// Behind the first letter of a name.
fn name_from(
    alloc: Global,
    c: char,
    text: &[char],
) -> Result<(Vec<GeneralCategory>, &[char]), PatternFault>
    ensures { Gives (λ x. (x.0.items, x.1.now)) result (reading.first_letter_at c text.now) }
{
    match text {
        ['}', rest @ ..] => Ok((named(alloc, &[c])?, rest)),
        [d, '}', rest @ ..] => Ok((named(alloc, &[c, *d])?, rest)),
        _ => Err(PatternFault::NoPattern),
    }
}

/// Behind `\p` or `\P`.
fn category_at(
    alloc: Global,
    text: &[char],
) -> Result<(Vec<GeneralCategory>, &[char]), PatternFault>
    ensures { Gives (λ x. (x.0.items, x.1.now)) result (reading.category_at text.now) }
{
    match text {
        ['{', c, more @ ..] => name_from(alloc, *c, more),
        _ => Err(PatternFault::NoPattern),
    }
}

/// One end of a range, whose first character was read.
fn inner_from(c: char, text: &[char]) -> Result<(char, &[char]), PatternFault>
    ensures { Gives (λ x. (x.0, x.1.now)) result (reading.inner_at (c ∷ text.now)) }
{
    if c == '\\' {
        single_at(text)
    } else if is_class_normal(c) {
        Ok((c, text))
    } else {
        Err(PatternFault::NoPattern)
    }
}

/// A range, or the character that was read.
fn after_inner(low: char, text: &[char]) -> Result<(Element, &[char]), PatternFault>
    ensures { Gives (λ x. (element_of x.0, x.1.now)) result (reading.after_inner low text.now) }
{
    match text {
        ['-', c, more @ ..] if *c != ']' => {
            let (high, rest) = inner_from(*c, more)?;
            if low <= high {
                Ok((Element::Range(low, high), rest))
            } else {
                Err(PatternFault::NoPattern)
            }
        }
        _ => Ok((Element::One(low), text)),
    }
}

/// Behind `\p` or `\P`.
fn category_element_at(
    alloc: Global,
    negated: bool,
    text: &[char],
) -> Result<(Element, &[char]), PatternFault>
    ensures { Gives (λ x. (element_of x.0, x.1.now)) result (reading.category_element_at negated
        text.now) }
{
    let (categories, rest) = category_at(alloc, text)?;
    let element = Element::Category {
        negated,
        categories,
    };
    Ok((element, rest))
}

/// Behind a backslash.
fn escape_element_at(alloc: Global, text: &[char]) -> Result<(Element, &[char]), PatternFault>
    ensures { Gives (λ x. (element_of x.0, x.1.now)) result (reading.escape_element_at text.now) }
{
    match text {
        ['p', more @ ..] => category_element_at(alloc, false, more),
        ['P', more @ ..] => category_element_at(alloc, true, more),
        _ => {
            let (low, rest) = single_at(text)?;
            after_inner(low, rest)
        }
    }
}

/// An element of a class, whose first character was read (RFC 9485, 3: CCE1).
fn element_from(alloc: Global, c: char, text: &[char]) -> Result<(Element, &[char]), PatternFault>
    ensures { Gives (λ x. (element_of x.0, x.1.now)) result (reading.element_at (c ∷ text.now)) }
{
    if c == '\\' {
        escape_element_at(alloc, text)
    } else if is_class_normal(c) {
        after_inner(c, text)
    } else {
        Err(PatternFault::NoPattern)
    }
}

/// The next element, if there is one, and whether others may follow.
fn next_element_at(
    alloc: Global,
    text: &[char],
) -> Result<(Option<Element>, bool, &[char]), PatternFault>
    ensures { Gives (λ x. (option_map element_of x.0, x.1, x.2.now)) result (reading.next_element_at
        text.now) }
{
    match text {
        [']', rest @ ..] => Ok((None, false, rest)),
        ['-', ']', rest @ ..] => Ok((Some(Element::One('-')), false, rest)),
        [] | ['-', ..] => Err(PatternFault::NoPattern),
        [c, more @ ..] => {
            let (element, rest) = element_from(alloc, *c, more)?;
            Ok((Some(element), true, rest))
        }
    }
}

/// Up to the bracket that closes the class, behind the elements that were found; the number bounds the turns.
fn elements_from(
    alloc: Global,
    turns: usize,
    mut found: Vec<Element>,
    text: &[char],
) -> Result<(Vec<Element>, &[char]), PatternFault>
    ensures { Gives (λ x. (map element_of x.0.items, x.1.now)) result (reading.elements_behind (map element_of
        found.items) turns text.now) }
{
    let mut rest = text;
    for _turn in 0..turns {
        let (next, goes_on, after) = next_element_at(alloc, rest)?;
        rest = after;
        match next {
            None => return Ok((found, rest)),
            Some(element) => found.push(element)?,
        }
        if !goes_on {
            return Ok((found, rest));
        }
    }
    Err(PatternFault::NoPattern)
}

/// A list of one element.
fn one(alloc: Global, element: Element) -> Result<Vec<Element>, AllocError>
    ensures { IfOk result (λ all. all.items ≡ element ∷ []) }
{
    let mut all = Vec::new(alloc);
    all.push(element)?;
    Ok(all)
}

/// The elements of a class, up to its bracket.
fn listing_at(
    alloc: Global,
    turns: usize,
    text: &[char],
) -> Result<(Vec<Element>, &[char]), PatternFault>
    ensures { Gives (λ x. (map element_of x.0.items, x.1.now)) result (reading.listing_at turns text.now) }
{
    match text {
        [] => Err(PatternFault::NoPattern),
        ['-', more @ ..] => {
            let found = one(alloc, Element::One('-'))?;
            elements_from(alloc, turns, found, more)
        }
        [c, more @ ..] => {
            let (element, rest) = element_from(alloc, *c, more)?;
            let found = one(alloc, element)?;
            elements_from(alloc, turns, found, rest)
        }
    }
}

/// Behind the bracket that opens the class, or `^` behind it.
fn class_of(alloc: Global, negated: bool, text: &[char]) -> Result<(CharSet, &[char]), PatternFault>
    ensures { Gives (λ x. (set_of x.0, x.1.now)) result (reading.class_of negated text.now) }
{
    let (elements, rest) = listing_at(alloc, text.len() + 1, text)?;
    Ok((CharSet::Class { negated, elements }, rest))
}

/// Behind the bracket that opens the class.
fn class_at(alloc: Global, text: &[char]) -> Result<(CharSet, &[char]), PatternFault>
    ensures { Gives (λ x. (set_of x.0, x.1.now)) result (reading.class_at text.now) }
{
    match text {
        [] => Err(PatternFault::NoPattern),
        ['^', more @ ..] => class_of(alloc, true, more),
        [_, ..] => class_of(alloc, false, text),
    }
}

/// Behind `\p` or `\P`.
fn category_set_at(
    alloc: Global,
    negated: bool,
    text: &[char],
) -> Result<(CharSet, &[char]), PatternFault>
    ensures { Gives (λ x. (set_of x.0, x.1.now)) result (reading.category_set_at negated
        text.now) }
{
    let (categories, rest) = category_at(alloc, text)?;
    let set = CharSet::Category {
        negated,
        categories,
    };
    Ok((set, rest))
}

/// Behind a backslash.
fn escape_set_at(alloc: Global, text: &[char]) -> Result<(CharSet, &[char]), PatternFault>
    ensures { Gives (λ x. (set_of x.0, x.1.now)) result (reading.escape_set_at text.now) }
{
    match text {
        ['p', more @ ..] => category_set_at(alloc, false, more),
        ['P', more @ ..] => category_set_at(alloc, true, more),
        _ => {
            let (c, rest) = single_at(text)?;
            Ok((CharSet::Only(c), rest))
        }
    }
}

/// A normal character, an escape, `.`, a category or a class, and the rest (RFC 9485, 3: atom).
pub(crate) fn set_at(alloc: Global, text: &[char]) -> Result<(CharSet, &[char]), PatternFault>
    ensures { Gives (λ x. (set_of x.0, x.1.now)) result (reading.set_at text.now) }
{
    match text {
        ['.', rest @ ..] => Ok((CharSet::Dot, rest)),
        ['\\', more @ ..] => escape_set_at(alloc, more),
        ['[', more @ ..] => class_at(alloc, more),
        [c, rest @ ..] if is_normal(*c) => Ok((CharSet::Only(*c), rest)),
        _ => Err(PatternFault::NoPattern),
    }
}
