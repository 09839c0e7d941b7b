//! Which compiled expressions ask nothing of the current node, and so are true of every node or of none.
//!
//! Only a query from `@` asks of it. What `@` is in a filter inside of a query is bound by that filter.

ghost use Rattle.std.specs.Prelude.{IsTrue};
ghost use Rattle.jp_check.specs.inner.Uniform.{IsUniform, AreUniform, IsUniformValue, IsUniformQuery};

use jp_compiled::{CompiledLogical, Giver, Nodes};

/// Whether the expression asks nothing of the current node.
#[cycle(uniform)]
pub(crate) fn is_uniform(test: &CompiledLogical) -> bool
    ensures { IsTrue result → IsUniform test.now }
{
    match test {
        CompiledLogical::Any(parts) => are_uniform(parts.as_slice()),
        CompiledLogical::All(parts) => are_uniform(parts.as_slice()),
        CompiledLogical::Not(part) => is_uniform(part),
        CompiledLogical::Compare(left, _, right) => are_uniform_values(left, right),
        CompiledLogical::Test(nodes) => is_uniform_query(nodes),
        CompiledLogical::Match(text, pattern) => are_uniform_values(text, pattern),
        CompiledLogical::MatchRead(text, _) => is_uniform_value(text),
        CompiledLogical::Search(text, pattern) => are_uniform_values(text, pattern),
        CompiledLogical::SearchRead(text, _) => is_uniform_value(text),
        CompiledLogical::Xor(_, left, _, right) => is_uniform(left) && is_uniform(right),
        CompiledLogical::Once(_) => true,
    }
}

/// Whether each of the expressions asks nothing of the current node.
#[cycle(uniform)]
pub(crate) fn are_uniform(parts: &[CompiledLogical]) -> bool
    ensures { IsTrue result → AreUniform parts.now }
{
    for part in parts {
        if !is_uniform(part) {
            return false;
        }
    }
    true
}

fn are_uniform_values(left: &Giver, right: &Giver) -> bool
    ensures left { IsTrue result → IsUniformValue left.now }
    ensures right { IsTrue result → IsUniformValue right.now }
{
    is_uniform_value(left) && is_uniform_value(right)
}

fn is_uniform_value(value: &Giver) -> bool
    ensures { IsTrue result → IsUniformValue value.now }
{
    match value {
        Giver::Constant(_) => true,
        Giver::Single(nodes) => is_uniform_query(nodes),
        Giver::Length(of) => is_uniform_value(of),
        Giver::Count(nodes) => is_uniform_query(nodes),
        Giver::Only(nodes) => is_uniform_query(nodes),
    }
}

fn is_uniform_query(nodes: &Nodes) -> bool
    ensures { IsTrue result → IsUniformQuery nodes.now }
{
    match nodes {
        Nodes::Here(_) => false,
        Nodes::Root(_) => true,
        Nodes::Distinct(nodes) => is_uniform_query(nodes),
    }
}
