//! Parts of a tree put together, with what they stand for.
//!
//! What a tree stands for is a fold over eight types that hold each other. Each function here makes
//! one part and says once what it stands for, so that no proof of the reader has to open that fold.

ghost use Rattle.std.specs.Prelude.{◌≡◌, [], ◌∷◌, ◌++◌, false, option_map, OnOk, IfOk};
ghost use Rattle.jp_tree.specs.Tree as tree;
ghost use Rattle.jp_tree.specs.Spelling.{joined};
ghost use Rattle.jp_tree.specs.View.{query_of, text_of, literal_of};
ghost use Rattle.jp_tree.specs.PartViews.{argument_of, comparable_of, logical_of, selector_of, call_of};
ghost use Rattle.jp_tree.specs.PartViews.{comparison_of, segment_of, segments_of, selectors_of};
ghost use Rattle.jp_tree.specs.PartViews.{logicals_of, arguments_of};

use crate::tree::{
    Argument, Call, Comparable, Comparison, Literal, Logical, Operator, Query, Segment, Selector,
    Slice, Start,
};
use std::alloc::{AllocError, Global};

/// The member of this name.
pub fn name_selector(name: String) -> Selector
    ensures { selector_of result ≡ tree.name (text_of name) }
{
    Selector::Name(name)
}

/// All children.
pub fn wildcard() -> Selector
    ensures { selector_of result ≡ tree.wildcard }
{
    Selector::Wild
}

/// The item at this index.
pub fn index_selector(number: String) -> Selector
    ensures { selector_of result ≡ tree.index (text_of number) }
{
    Selector::Index(number)
}

/// The children for which the expression is true.
pub fn filter_selector(logical: Logical) -> Selector
    ensures { selector_of result ≡ tree.filter (logical_of logical) }
{
    Selector::Filter(logical)
}

/// `!` before an expression in a box.
pub fn negation_of(logical: Box<Logical>) -> Logical
    ensures { logical_of result ≡ tree.negation (logical_of logical.value) }
{
    Logical::Not(logical)
}

/// The expression that a comparison is.
pub fn comparing(comparison: Comparison) -> Logical
    ensures { logical_of result ≡ tree.comparing (comparison_of comparison) }
{
    Logical::Compare(comparison)
}

/// A query by itself, as a test.
pub fn test_of(query: Query) -> Logical
    ensures { logical_of result ≡ tree.test (query_of query) }
{
    Logical::Test(query)
}

/// A call by itself, as a test.
pub fn test_call_of(call: Call) -> Logical
    ensures { logical_of result ≡ tree.test_call (call_of call) }
{
    Logical::Call(call)
}

/// A literal, as a side of a comparison.
pub fn literal_side(literal: Literal) -> Comparable
    ensures { comparable_of result ≡ tree.literal (literal_of literal) }
{
    Comparable::Literal(literal)
}

/// A query, as a side of a comparison.
pub fn query_side(query: Query) -> Comparable
    ensures { comparable_of result ≡ tree.single (query_of query) }
{
    Comparable::Single(query)
}

/// A call, as a side of a comparison.
pub fn call_side(call: Call) -> Comparable
    ensures { comparable_of result ≡ tree.value_call (call_of call) }
{
    Comparable::Call(call)
}

/// A literal, as an argument.
pub fn literal_argument(literal: Literal) -> Argument
    ensures { argument_of result ≡ tree.literal_argument (literal_of literal) }
{
    Argument::Literal(literal)
}

/// A query by itself, as an argument.
pub fn query_argument(query: Query) -> Argument
    ensures { argument_of result ≡ tree.query_argument (query_of query) }
{
    Argument::Query(query)
}

/// A logical expression, as an argument.
pub fn logical_argument(logical: Logical) -> Argument
    ensures { argument_of result ≡ tree.logical_argument (logical_of logical) }
{
    Argument::Logical(logical)
}

/// A call by itself, as an argument.
pub fn call_argument(call: Call) -> Argument
    ensures { argument_of result ≡ tree.call_argument (call_of call) }
{
    Argument::Call(call)
}

/// Parts joined by `||`.
pub fn any_of(parts: Vec<Logical>) -> Logical
    ensures { logical_of result ≡ tree.any (tree.logicals (logicals_of parts.items)) }
{
    Logical::Any(parts)
}

/// Parts joined by `&&`.
pub fn all_of(parts: Vec<Logical>) -> Logical
    ensures { logical_of result ≡ tree.all (tree.logicals (logicals_of parts.items)) }
{
    Logical::All(parts)
}

/// The items of a slice.
pub fn slice_selector(first: Option<String>, past: Option<String>, step: Option<String>) -> Selector
    ensures { selector_of result
        ≡ tree.slice (option_map text_of first) (option_map text_of past) (option_map text_of step) }
{
    Selector::Slice(Slice { first, past, step })
}

/// A query of these segments.
pub fn query_from(start: Start, segments: Vec<Segment>) -> Query
    ensures { query_of result ≡ tree.query_from start (segments_of segments.items) }
{
    Query { start, segments }
}

/// A segment of these selectors.
pub fn segment_from(deep: bool, selectors: Vec<Selector>) -> Segment
    ensures { segment_of result ≡ tree.segment deep (tree.selectors (selectors_of selectors.items)) }
{
    Segment { deep, selectors }
}

/// Two sides and the operator between them.
pub fn comparison_from(left: Comparable, op: Operator, right: Comparable) -> Comparison
    ensures { comparison_of result ≡ tree.comparison (comparable_of left) op (comparable_of right) }
{
    Comparison { left, op, right }
}

/// A call of the function of this name.
pub fn call_from(name: String, arguments: Vec<Argument>) -> Call
    ensures { call_of result ≡ tree.call (text_of name) (tree.arguments (arguments_of arguments.items)) }
{
    Call { name, arguments }
}

/// Another selector behind those that are found.
pub fn push_selector(found: &mut Vec<Selector>, item: Selector) -> Result<(), AllocError>
    ensures { OnOk result (selectors_of found.new.items
        ≡ selectors_of found.old.items ++ selector_of item ∷ []) }
{
    found.push(item)?;
    Ok(())
}

/// A list of one selector.
pub fn one_selector(alloc: Global, item: Selector) -> Result<Vec<Selector>, AllocError>
    ensures { IfOk result (λ v. selectors_of v.items ≡ selector_of item ∷ []) }
{
    let mut found = Vec::new(alloc);
    push_selector(&mut found, item)?;
    Ok(found)
}

/// Another segment behind those that are found.
pub fn push_segment(found: &mut Vec<Segment>, item: Segment) -> Result<(), AllocError>
    ensures { OnOk result (segments_of found.new.items
        ≡ segments_of found.old.items ++ segment_of item ∷ []) }
{
    found.push(item)?;
    Ok(())
}

/// Another part behind those that are found.
pub fn push_logical(found: &mut Vec<Logical>, item: Logical) -> Result<(), AllocError>
    ensures { OnOk result (logicals_of found.new.items
        ≡ logicals_of found.old.items ++ logical_of item ∷ []) }
{
    found.push(item)?;
    Ok(())
}

/// A list of one part.
pub fn one_logical(alloc: Global, item: Logical) -> Result<Vec<Logical>, AllocError>
    ensures { IfOk result (λ v. logicals_of v.items ≡ logical_of item ∷ []) }
{
    let mut found = Vec::new(alloc);
    push_logical(&mut found, item)?;
    Ok(found)
}

/// Another argument behind those that are found.
pub fn push_argument(found: &mut Vec<Argument>, item: Argument) -> Result<(), AllocError>
    ensures { OnOk result (arguments_of found.new.items
        ≡ arguments_of found.old.items ++ argument_of item ∷ []) }
{
    found.push(item)?;
    Ok(())
}

/// A list of one argument.
pub fn one_argument(alloc: Global, item: Argument) -> Result<Vec<Argument>, AllocError>
    ensures { IfOk result (λ v. arguments_of v.items ≡ argument_of item ∷ []) }
{
    let mut found = Vec::new(alloc);
    push_argument(&mut found, item)?;
    Ok(found)
}

/// What the parts of `&&` are together: one alone is that part itself.
pub fn joined_all(mut parts: Vec<Logical>) -> Logical
    ensures { logical_of result ≡ joined tree.all (logicals_of parts.items) }
{
    if parts.len() == 1 {
        return parts.remove(0);
    }
    all_of(parts)
}

/// What the parts of `||` are together: one alone is that part itself.
pub fn joined_any(mut parts: Vec<Logical>) -> Logical
    ensures { logical_of result ≡ joined tree.any (logicals_of parts.items) }
{
    if parts.len() == 1 {
        return parts.remove(0);
    }
    any_of(parts)
}

/// `!` before an expression.
pub fn negation(alloc: Global, logical: Logical) -> Result<Logical, AllocError>
    ensures { IfOk result (λ l. logical_of l ≡ tree.negation (logical_of logical)) }
{
    Ok(negation_of(Box::new(alloc, logical)?))
}
