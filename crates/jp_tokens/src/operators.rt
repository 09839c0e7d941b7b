//! The operators of comparisons.

ghost use Rattle.std.specs.Prelude.{◌≡◌, option_map};
ghost use Rattle.std.specs.Str.{chars};
ghost use Rattle.jp_tokens.specs.Reading as reading;

use crate::text::first_character;
use jp_tree::Operator;

/// The first operator where `=` follows, else the second.
fn or_equal(with: Operator, without: Operator, text: &str) -> (Operator, &str)
    ensures op { result.0 ≡ (reading.or_equal with without (chars text.now)).0 }
    ensures rest { chars result.1.now ≡ (reading.or_equal with without (chars text.now)).1 }
{
    match first_character(text) {
        Some(('=', rest)) => (with, rest),
        _ => (without, text),
    }
}

/// The operator, where `=` follows.
#[tactic(auto, unfolding(crate::specs::Reading::mark_at))]
fn doubled(op: Operator, text: &str) -> Option<(Operator, &str)>
    ensures { option_map (λ x. (x.0, chars x.1.now)) result ≡ reading.doubled_mark op (chars text.now) }
{
    match first_character(text) {
        Some(('=', rest)) => Some((op, rest)),
        _ => None,
    }
}

/// The operator in front (RFC 9535, 2.3.5.1), and the rest.
#[tactic(auto, unfolding(crate::specs::Reading::operator_at))]
pub fn operator_at(text: &str) -> Option<(Operator, &str)>
    ensures { option_map (λ x. (x.0, chars x.1.now)) result ≡ reading.operator_at (chars text.now) }
{
    match first_character(text) {
        Some(('=', more)) => doubled(Operator::Eq, more),
        Some(('!', more)) => doubled(Operator::Ne, more),
        Some(('<', more)) => Some(or_equal(Operator::Le, Operator::Lt, more)),
        Some(('>', more)) => Some(or_equal(Operator::Ge, Operator::Gt, more)),
        _ => None,
    }
}
