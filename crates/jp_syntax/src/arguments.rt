//! The arguments of a call: where they begin, and which argument a logical expression is.

ghost use Rattle.std.specs.Prelude.{◌≡◌, false};
ghost use Rattle.std.specs.Str.{chars};
ghost use Rattle.jp_tree.specs.PartViews.{argument_of, logical_of};
ghost use Rattle.jp_tree.specs.Spelling.{begins_with};
ghost use Rattle.jp_tokens.specs.Reading.{mark_at};
ghost use Rattle.jp_tokens.specs.Gives.{ReadsRest};
ghost use Rattle.jp_syntax.specs.inner.Reading as reading;

use jp_tokens::{begins_with, mark_at};
use jp_tree::made::{
    all_of, any_of, call_argument, comparing, logical_argument, negation_of, query_argument,
};
use jp_tree::{Argument, Logical, QueryFault};

/// Behind the parenthesis that follows a function's name: no blank stands before it (RFC 9535, 2.4).
pub(crate) fn opened_arguments(text: &str) -> Result<&str, QueryFault>
    ensures { ReadsRest result (mark_at 40 (chars text.now)) }
{
    mark_at('(', text)
}

/// The argument that a logical expression is, which a parenthesis begins or not.
fn argument_from(parenthesis: bool, logical: Logical) -> Argument
    ensures { argument_of result ≡ reading.argument_of parenthesis (logical_of logical) }
{
    if parenthesis {
        return logical_argument(logical);
    }
    match logical {
        Logical::Any(parts) => logical_argument(any_of(parts)),
        Logical::All(parts) => logical_argument(all_of(parts)),
        Logical::Not(part) => logical_argument(negation_of(part)),
        Logical::Compare(comparison) => logical_argument(comparing(comparison)),
        Logical::Test(query) => query_argument(query),
        Logical::Call(call) => call_argument(call),
    }
}

/// The argument that the logical expression in front of this text is (RFC 9535, 2.4).
pub(crate) fn standing_argument(text: &str, logical: Logical) -> Argument
    ensures { argument_of result ≡ reading.argument_of (begins_with 40 (chars text.now))
        (logical_of logical) }
{
    argument_from(begins_with('(', text), logical)
}

/// The argument that a comparison, or what begins with one, is.
pub(crate) fn compared_argument(logical: Logical) -> Argument
    ensures { argument_of result ≡ reading.argument_of false (logical_of logical) }
{
    argument_from(false, logical)
}
