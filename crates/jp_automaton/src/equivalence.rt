//! Which characters are equivalent: no set of the pattern tells them apart.

ghost use Rattle.std.specs.Prelude.{◌≡◌, ℕ, ◌<◌, IsTrue, length, slice_index_or};
ghost use Rattle.jp_automaton.specs.inner.Equivalence.{EquivalentInAll, Equivalent, IsAscii, EquivalentInSet};
ghost use Rattle.jp_automaton.specs.Expressions.{unrolled_in};
ghost use Rattle.jp_pattern.specs.Pattern.{class};
ghost use Rattle.jp_automaton.specs.Letters.{elements_of, letters_of, span_element};

use crate::candidate::Candidate;
use crate::expressions::Expression;
use crate::letters::{Letters, has_letter};
use crate::ranges::{Class, Span};
use jp_pattern::CharSet;

/// Whether each set of characters of the expression holds all characters of the candidate or none of them.
#[cycle(are_equivalent)]
pub(crate) fn are_equivalent(expression: &Expression, candidate: Candidate) -> bool
    ensures { IsTrue result → Equivalent (unrolled_in expression.now) candidate }
{
    match expression {
        Expression::Set(set) => are_equivalent_in_set(set, candidate),
        Expression::Group { sub, .. } => are_equivalent(sub, candidate),
        Expression::Pieces { pieces, .. } => are_equivalent_in_all(pieces, candidate),
        Expression::Branches { before, last, .. } => {
            are_equivalent_in_all(before, candidate) && are_equivalent(last, candidate)
        }
        Expression::Repeat { atom, .. } => are_equivalent(atom, candidate),
        Expression::Plus { atom, .. } => are_equivalent(atom, candidate),
    }
}

/// The same of each of the expressions.
#[cycle(are_equivalent)]
fn are_equivalent_in_all(expressions: &[Expression], candidate: Candidate) -> bool
    ensures { IsTrue result → EquivalentInAll expressions.now candidate }
{
    for expression in expressions {
        if !are_equivalent(expression, candidate) {
            return false;
        }
    }
    true
}

/// Whether the set holds all characters of the candidate or none, as far as its text tells.
fn are_equivalent_in_set(set: &Letters, candidate: Candidate) -> bool
    ensures { IsTrue result → EquivalentInSet (letters_of set.now) candidate }
{
    match candidate {
        Candidate::Both(c, d) => has_letter(set, c) == has_letter(set, d),
        Candidate::PastAscii => tells_none_past_ascii(set),
    }
}

/// Whether the set holds all characters that are not of ASCII, or none of them, as far as its text tells.
fn tells_none_past_ascii(set: &Letters) -> bool
    ensures { IsTrue result → EquivalentInSet (letters_of set.now) Candidate.PastAscii }
{
    match set {
        Letters::Plain(CharSet::Only(x)) => *x < '\u{80}',
        Letters::Plain(CharSet::Dot) => true,
        Letters::Plain(_) => false,
        Letters::Ranges(class) => holds_ascii_alone(class),
    }
}

/// Whether the class holds characters of ASCII alone before it is negated, as far as its text tells.
fn holds_ascii_alone(of: &Class) -> bool
    ensures { IsTrue result → EquivalentInSet (class of.now.negated (elements_of of.now))
        Candidate.PastAscii }
{
    of.categories.is_empty() && are_all_ascii(&of.spans)
}

/// Whether each range holds characters of ASCII alone.
fn are_all_ascii(spans: &[Span]) -> bool
    ensures { IsTrue result → (k : ℕ) (x : Span) → k < length spans.now
        → IsAscii (span_element (slice_index_or spans.now k x)) }
{
    for span in spans {
        if span.high >= '\u{80}' {
            return false;
        }
    }
    true
}
