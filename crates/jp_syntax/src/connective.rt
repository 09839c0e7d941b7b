//! What stands between the parts of a logical expression.

ghost use Rattle.std.specs.Prelude.{◌≡◌};
ghost use Rattle.jp_syntax.specs.inner.Reading as reading;
ghost use Rattle.jp_tree.specs.PartViews.{logical_of, logicals_of};
ghost use Rattle.jp_tree.specs.Spelling.{joined};

use jp_tree::Logical;
use jp_tree::made::{joined_all, joined_any};

/// What joins the parts of a logical expression (RFC 9535, 2.3.5.1).
#[derive(Clone, Copy)]
pub(crate) enum Connective {
    /// `&&`, between basic expressions.
    And,
    /// `||`, between parts that `&&` joins.
    Or,
}

impl Connective {
    /// The character of which it is two.
    pub(crate) fn mark(self) -> char
        ensures { result ≡ reading.mark_of self }
    {
        match self {
            Connective::And => '&',
            Connective::Or => '|',
        }
    }

    /// What the parts are together: one alone is that part itself.
    pub(crate) fn join(self, parts: Vec<Logical>) -> Logical
        ensures { logical_of result ≡ joined (reading.whole_of self) (logicals_of parts.items) }
    {
        match self {
            Connective::And => joined_all(parts),
            Connective::Or => joined_any(parts),
        }
    }
}
