//! Tests that the value of the current node decides, wherever it stands: all that they ask of `@` is values
//! at names and indexes (RFC 9535, 2.3.5.1). So a filter knows of a child whether it is selected before its
//! link is laid.

ghost use Rattle.std.specs.Prelude.{◌≡◌, Some, option_map, IfOk, IfSome};
ghost use Rattle.std.specs.List.{list_any, list_all};
ghost use Rattle.jp_doc.specs.Location.{Location, node};
ghost use Rattle.jp_compiled.specs.Parts.{constant_of};
ghost use Rattle.jp_compiled.specs.declared.query.Want.TheVariants as want;
ghost use Rattle.jp_eval.specs.inner.Base.{Base, base_of};
ghost use Rattle.jp_eval.specs.inner.Walk.{is_true, value_given, nodes_given};
ghost use Rattle.jp_node.specs.Part.{part_value};
ghost use Rattle.jp_value.specs.Comparison.{compared};
ghost use Rattle.jp_value.specs.Functions.{first_value};
ghost use Rattle.jp_value.specs.Kinds.{given_value};
ghost use Rattle.jp_value.specs.Literals.{literal_value};

use crate::context::Context;
use crate::singular::{are_steps, followed};
use jp_compiled::{CompiledLogical, Constant, Giver, Nodes};
use jp_node::{Kind, Part};
use jp_tree::Operator;
use jp_value::{compare_kinds, compare_ordered, literal, matches_known, searches_known, turned};
use std::alloc::AllocError;

/// Whether `decided` decides the test. No answer rests on it.
#[cycle(is_local)]
pub(crate) fn is_local(test: &CompiledLogical) -> bool {
    match test {
        CompiledLogical::Any(parts) => are_local(parts.as_slice()),
        CompiledLogical::All(parts) => are_local(parts.as_slice()),
        CompiledLogical::Not(part) => is_local(part),
        CompiledLogical::Compare(left, _, right) => is_local_side(left) && is_local_side(right),
        CompiledLogical::Test(nodes) => is_local_query(nodes),
        CompiledLogical::MatchRead(text, _) => is_local_side(text),
        CompiledLogical::SearchRead(text, _) => is_local_side(text),
        CompiledLogical::Once(_) => true,
        CompiledLogical::Match(_, _) => false,
        CompiledLogical::Search(_, _) => false,
        CompiledLogical::Xor(_, _, _, _) => false,
    }
}

#[cycle(is_local)]
fn are_local(parts: &[CompiledLogical]) -> bool {
    for part in parts {
        if !is_local(part) {
            return false;
        }
    }
    true
}

fn is_local_side(giver: &Giver) -> bool {
    match giver {
        Giver::Constant(_) => true,
        Giver::Single(nodes) => match nodes {
            // What is kept of it is its value.
            Nodes::Root(_) => true,
            _ => is_local_query(nodes),
        },
        _ => false,
    }
}

fn is_local_query(nodes: &Nodes) -> bool {
    match nodes {
        Nodes::Here(segments) => are_steps(segments.as_slice()),
        _ => false,
    }
}

/// Whether the test is true of the value, wherever it stands, and nothing where the value alone does not
/// decide it.
///
/// `AllocError` if a growth was refused.
#[cycle(decided)]
pub(crate) fn decided<'v>(
    context: &Context<'v>,
    test: &'v CompiledLogical,
    value: Part<'v>,
) -> Result<Option<bool>, AllocError>
    ensures { IfOk result (λ o. IfSome o (λ b. (at : Location)
        → b ≡ is_true (base_of context.now) test.now (node at (part_value value.entry)))) }
{
    match test {
        CompiledLogical::Any(parts) => any_decided(context, parts.as_slice(), value),
        CompiledLogical::All(parts) => all_decided(context, parts.as_slice(), value),
        CompiledLogical::Not(part) => match decided(context, part, value)? {
            Some(truth) => Ok(Some(!truth)),
            None => Ok(None),
        },
        CompiledLogical::Compare(left, operator, right) => {
            compare(context, left, *operator, right, value)
        }
        CompiledLogical::Test(nodes) => match first_of(nodes, value) {
            Some(found) => Ok(Some(found.is_some())),
            None => Ok(None),
        },
        CompiledLogical::MatchRead(text, known) => match side(context, text, value) {
            Some(given) => Ok(Some(matches_known(context.alloc, given, known)?)),
            None => Ok(None),
        },
        CompiledLogical::SearchRead(text, known) => match side(context, text, value) {
            Some(given) => Ok(Some(searches_known(context.alloc, given, known)?)),
            None => Ok(None),
        },
        CompiledLogical::Once(slot) => Ok(Some(context.truth(*slot))),
        CompiledLogical::Match(_, _) => Ok(None),
        CompiledLogical::Search(_, _) => Ok(None),
        CompiledLogical::Xor(_, _, _, _) => Ok(None),
    }
}

#[cycle(decided)]
fn any_decided<'v>(
    context: &Context<'v>,
    parts: &'v [CompiledLogical],
    value: Part<'v>,
) -> Result<Option<bool>, AllocError>
    ensures { IfOk result (λ o. IfSome o (λ b. (at : Location) → b ≡ list_any
        (λ l. is_true (base_of context.now) l (node at (part_value value.entry))) parts.now)) }
{
    for part in parts {
        let Some(truth) = decided(context, part, value)? else {
            return Ok(None);
        };
        if truth {
            return Ok(Some(true));
        }
    }
    Ok(Some(false))
}

#[cycle(decided)]
fn all_decided<'v>(
    context: &Context<'v>,
    parts: &'v [CompiledLogical],
    value: Part<'v>,
) -> Result<Option<bool>, AllocError>
    ensures { IfOk result (λ o. IfSome o (λ b. (at : Location) → b ≡ list_all
        (λ l. is_true (base_of context.now) l (node at (part_value value.entry))) parts.now)) }
{
    for part in parts {
        let Some(truth) = decided(context, part, value)? else {
            return Ok(None);
        };
        if !truth {
            return Ok(Some(false));
        }
    }
    Ok(Some(true))
}

/// The first node of a query of names and indexes, if there is one, and nothing of any other query.
// As `followed`.
#[inline(always)]
fn first_of<'v>(nodes: &'v Nodes, value: Part<'v>) -> Option<Option<Part<'v>>>
    ensures { IfSome result (λ found. (base : Base) (at : Location) → first_value
        (nodes_given base nodes.now want.First (node at (part_value value.entry)))
        ≡ option_map part_value found) }
{
    match nodes {
        Nodes::Here(segments) => followed(segments.as_slice(), value),
        Nodes::Root(_) => None,
        Nodes::Distinct(_) => None,
    }
}

/// Whether the comparison is true.
// As `followed`.
#[inline(always)]
fn compare<'v>(
    context: &Context<'v>,
    left: &'v Giver,
    operator: Operator,
    right: &'v Giver,
    value: Part<'v>,
) -> Result<Option<bool>, AllocError>
    ensures { IfOk result (λ o. IfSome o (λ b. (at : Location) → b ≡ compared operator
        (value_given (base_of context.now) left.now (node at (part_value value.entry)))
        (value_given (base_of context.now) right.now (node at (part_value value.entry))))) }
{
    match (left, right) {
        (Giver::Single(nodes), Giver::Constant(constant)) => {
            compare_found(context, nodes, operator, constant, value)
        }
        (Giver::Constant(constant), Giver::Single(nodes)) => {
            compare_found(context, nodes, turned(operator), constant, value)
        }
        _ => compare_sides(context, left, operator, right, value),
    }
}

/// Whether the comparison of what a query finds with a literal is true.
// As `followed`.
#[inline(always)]
fn compare_found<'v>(
    context: &Context<'v>,
    nodes: &'v Nodes,
    operator: Operator,
    constant: &'v Constant,
    value: Part<'v>,
) -> Result<Option<bool>, AllocError>
    ensures { IfOk result (λ o. IfSome o (λ b. (base : Base) (at : Location) → b ≡ compared operator
        (first_value (nodes_given base nodes.now want.First (node at (part_value value.entry))))
        (Some (literal_value (constant_of constant.now))))) }
{
    let Some(found) = first_of(nodes, value) else {
        return Ok(None);
    };
    let literal = Some(literal(constant));
    let truth = compare_kinds(context.alloc, operator, kind_of(found), literal)?;
    Ok(Some(truth))
}

/// The same, of any sides. The members of a `$` value are in order where it is kept so.
fn compare_sides<'v>(
    context: &Context<'v>,
    left: &'v Giver,
    operator: Operator,
    right: &'v Giver,
    value: Part<'v>,
) -> Result<Option<bool>, AllocError>
    ensures { IfOk result (λ o. IfSome o (λ b. (at : Location) → b ≡ compared operator
        (value_given (base_of context.now) left.now (node at (part_value value.entry)))
        (value_given (base_of context.now) right.now (node at (part_value value.entry))))) }
{
    if let Some(ordered) = context.ordered(right) {
        let Some(given) = side(context, left, value) else {
            return Ok(None);
        };
        return Ok(Some(compare_ordered(context.alloc, operator, given, ordered)?));
    }
    if let Some(ordered) = context.ordered(left) {
        let Some(given) = side(context, right, value) else {
            return Ok(None);
        };
        return Ok(Some(compare_ordered(context.alloc, turned(operator), given, ordered)?));
    }
    let Some(left) = side(context, left, value) else {
        return Ok(None);
    };
    let Some(right) = side(context, right, value) else {
        return Ok(None);
    };
    Ok(Some(compare_kinds(context.alloc, operator, left, right)?))
}

/// The value that stands there, or nothing.
fn side<'c, 'v>(
    context: &'c Context<'v>,
    giver: &'v Giver,
    value: Part<'v>,
) -> Option<Option<Kind<'c>>>
    ensures { IfSome result (λ o. (at : Location) → given_value o
        ≡ value_given (base_of context.now) giver.now (node at (part_value value.entry))) }
{
    match giver {
        Giver::Constant(constant) => Some(Some(literal(constant))),
        Giver::Single(nodes) => match first_of(nodes, value) {
            Some(found) => Some(kind_of(found)),
            None => context.given(giver),
        },
        _ => context.given(giver),
    }
}

/// What the value is, if there is one.
fn kind_of(found: Option<Part<'_>>) -> Option<Kind<'_>>
    ensures { given_value result ≡ option_map part_value found.entry }
{
    match found {
        Some(part) => Some(part.kind()),
        None => None,
    }
}
