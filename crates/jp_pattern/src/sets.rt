//! Which characters a set holds.

ghost use Rattle.std.specs.Prelude.{◌≡◌, map};
ghost use Rattle.std.specs.List.{list_any};
ghost use Rattle.unicode.specs.GeneralCategory.{general_category_eq};
ghost use Rattle.jp_pattern.specs.CharSets.{in_categories, in_element, in_set, negated_if};
ghost use Rattle.jp_pattern.specs.Tree.{element_of, set_of};

use crate::tree::{CharSet, Element};
use unicode::properties::GeneralCategory;

/// The answer, or its opposite.
fn negated_if(negated: bool, holds: bool) -> bool
    ensures { result ≡ negated_if negated holds }
{
    if negated { !holds } else { holds }
}

/// Whether the category is one of these.
fn is_among(category: GeneralCategory, categories: &[GeneralCategory]) -> bool
    ensures { result ≡ list_any (general_category_eq category) categories.now }
{
    for x in categories {
        if category.number() == x.number() {
            return true;
        }
    }
    false
}

/// Whether the general category of the character is one of these.
fn in_categories(categories: &[GeneralCategory], c: char) -> bool
    ensures { result ≡ in_categories categories.now c }
{
    is_among(GeneralCategory::for_char(c), categories)
}

/// Whether the character is in the element.
fn in_element(element: &Element, c: char) -> bool
    ensures { result ≡ in_element c (element_of element.now) }
{
    match element {
        Element::One(x) => c == *x,
        Element::Range(low, high) => *low <= c && c <= *high,
        Element::Category {
            negated,
            categories,
        } => { negated_if(*negated, in_categories(categories, c)) }
    }
}

/// Whether the character is in some element of a class (RFC 9485, 4).
pub fn in_some_element(elements: &[Element], c: char) -> bool
    ensures { result ≡ list_any (in_element c) (map element_of elements.now) }
{
    for element in elements {
        if in_element(element, c) {
            return true;
        }
    }
    false
}

/// Whether the character is in the set (RFC 9485, 4).
pub fn in_set(set: &CharSet, c: char) -> bool
    ensures { result ≡ in_set (set_of set.now) c }
{
    match set {
        CharSet::Only(x) => c == *x,
        CharSet::Dot => c != '\n' && c != '\r',
        CharSet::Category {
            negated,
            categories,
        } => { negated_if(*negated, in_categories(categories, c)) }
        CharSet::Class { negated, elements } => {
            negated_if(*negated, in_some_element(elements, c))
        }
    }
}
