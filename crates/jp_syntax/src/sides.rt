//! A side by itself, and two sides with an operator between them.

ghost use Rattle.std.specs.Prelude.{◌≡◌, option_map};
ghost use Rattle.std.specs.Str.{chars};
ghost use Rattle.jp_syntax.specs.inner.Reading as reading;
ghost use Rattle.jp_tree.specs.PartViews.{comparable_of, logical_of};
ghost use Rattle.jp_tokens.specs.Gives.{ReadsFront};

use jp_tree::made::{comparing, comparison_from, test_call_of, test_of};
use jp_tree::{Comparable, Logical, Operator, QueryFault, is_singular};

/// Whether a side may stand in a comparison.
fn is_side(side: &Comparable) -> bool
    ensures { result ≡ reading.is_side (comparable_of side.now) }
{
    match side {
        Comparable::Literal(_) => true,
        Comparable::Single(query) => is_singular(query),
        Comparable::Call(_) => true,
    }
}

/// What a side by itself tests: a query or a call.
fn as_test(side: Comparable) -> Option<Logical>
    ensures { option_map logical_of result ≡ reading.as_test (comparable_of side) }
{
    match side {
        Comparable::Literal(_) => None,
        Comparable::Single(query) => Some(test_of(query)),
        Comparable::Call(call) => Some(test_call_of(call)),
    }
}

/// A side by itself, which is no literal, and the text behind it.
#[tactic(auto, unfolding(crate::specs::inner::Reading::tested_at))]
pub(crate) fn tested_at(side: Comparable, text: &str) -> Result<(Logical, &str), QueryFault>
    ensures { ReadsFront logical_of result (reading.tested_at (comparable_of side) (chars text.now)) }
{
    match as_test(side) {
        Some(logical) => Ok((logical, text)),
        None => Err(QueryFault::Syntax),
    }
}

/// Two sides with an operator between them (RFC 9535, 2.3.5.1), and the text behind them.
pub(crate) fn compared_at(
    left: Comparable,
    op: Operator,
    right: Comparable,
    text: &str,
) -> Result<(Logical, &str), QueryFault>
    ensures { ReadsFront logical_of result
        (reading.sides_compared (comparable_of left) op (comparable_of right) (chars text.now)) }
{
    if is_side(&left) && is_side(&right) {
        Ok((comparing(comparison_from(left, op, right)), text))
    } else {
        Err(QueryFault::Syntax)
    }
}
