//! A query compiled, in one walk over its tree.

ghost use Rattle.std.specs.Prelude.{◌≡◌, ◌⊎◌, List, [], ◌∷◌, ◌++◌, Some, map, option_map, codes, true};
ghost use Rattle.std.specs.Prelude.{IfOk, OnOk};
ghost use Rattle.jp_tree.specs.Tree as tree;
ghost use Rattle.jp_tree.specs.Tree.{Text};
ghost use Rattle.jp_tree.specs.View.{query_of, text_of};
ghost use Rattle.jp_tree.specs.PartViews as view;
ghost use Rattle.jp_types.specs.Functions as functions;
ghost use Rattle.jp_types.specs.Functions.{value_type, logical_type, nodes_type};
ghost use Rattle.jp_types.specs.Kinds.{function_of};
ghost use Rattle.jp_types.specs.Numbers as numbers;
ghost use Rattle.jp_types.specs.Typing as typing;
ghost use Rattle.jp_compiled.specs.Compiled.{compiled_query};
ghost use Rattle.jp_compiled.specs.Parts as compiled;
ghost use Rattle.jp_compiled.specs.Parts.{Wanted};
ghost use Rattle.jp_check.specs.Known.{known_texts};
ghost use Rattle.jp_check.specs.LiteralPatterns as literal;
ghost use Rattle.jp_check.specs.inner.Making.{KeepsRoots, ReadsWith, AddsPatterns, IsSound};

use crate::leaves::{make_constant, make_position, make_slice};
use crate::listed::Listed;
use crate::patterns::literal_text;
use jp_compiled::{
    ArgumentForm, CompiledLogical, CompiledQuery, CompiledSegment, CompiledSelector, Giver,
    KnownPattern, Nodes, Want,
};
use jp_regexp::Question;
use jp_tree::{Argument, Call, Comparable, Comparison, Start};
use jp_types::{Function, function_named};
use std::alloc::{AllocError, Global};

/// A compiled query, and its literal patterns.
pub(crate) fn make_query(
    alloc: Global,
    query: &jp_tree::Query,
) -> Result<(CompiledQuery, Vec<KnownPattern>), AllocError>
    requires { IsSound (numbers.query_numbers (query_of query.now))
        (typing.query_typed (query_of query.now)) }
    ensures made { IfOk result (λ r. compiled_query r.0 ≡ query_of query.now) }
    ensures patterns { IfOk result (λ r. known_texts r.1.items
        ≡ literal.literal_patterns (query_of query.now)) }
{
    let mut listed = Listed::new(alloc);
    let segments = make_segments(alloc, query.segments.as_slice(), &mut listed)?;
    let Listed {
        roots,
        patterns,
        ..
    } = listed;
    let compiled = CompiledQuery {
        start: query.start,
        segments,
        roots,
    };
    Ok((compiled, patterns))
}

#[cycle(making)]
fn make_segments(
    alloc: Global,
    segments: &[jp_tree::Segment],
    listed: &mut Listed,
) -> Result<Vec<CompiledSegment>, AllocError>
    requires sound { IsSound (numbers.segments_numbers (tree.segments (view.segments_of segments.now)))
        (typing.segments_typed (tree.segments (view.segments_of segments.now))) }
    ensures made { IfOk result (λ v. ReadsWith listed.new
        (λ all. map (compiled.segment_in all) v.items) (view.segments_of segments.now)) }
    ensures roots { OnOk result (KeepsRoots listed.old listed.new) }
    ensures patterns { OnOk result (AddsPatterns listed.old listed.new
        (literal.segments_patterns (tree.segments (view.segments_of segments.now)))) }
{
    // Their number is known, so the list takes one allocation.
    let mut made = Vec::with_capacity(alloc, segments.len())?;
    for segment in segments {
        let selectors = make_selectors(alloc, segment.selectors.as_slice(), listed)?;
        let deep = segment.deep;
        made.push(CompiledSegment { deep, selectors })?;
    }
    Ok(made)
}

#[cycle(making)]
fn make_selectors(
    alloc: Global,
    selectors: &[jp_tree::Selector],
    listed: &mut Listed,
) -> Result<Vec<CompiledSelector>, AllocError>
    requires sound { IsSound (numbers.selectors_numbers (tree.selectors (view.selectors_of selectors.now)))
        (typing.selectors_typed (tree.selectors (view.selectors_of selectors.now))) }
    ensures made { IfOk result (λ v. ReadsWith listed.new
        (λ all. map (compiled.selector_in all) v.items) (view.selectors_of selectors.now)) }
    ensures roots { OnOk result (KeepsRoots listed.old listed.new) }
    ensures patterns { OnOk result (AddsPatterns listed.old listed.new
        (literal.selectors_patterns (tree.selectors (view.selectors_of selectors.now)))) }
{
    // Their number is known, so the list takes one allocation.
    let mut made = Vec::with_capacity(alloc, selectors.len())?;
    for selector in selectors {
        made.push(make_selector(alloc, selector, listed)?)?;
    }
    Ok(made)
}

#[cycle(making)]
fn make_selector(
    alloc: Global,
    selector: &jp_tree::Selector,
    listed: &mut Listed,
) -> Result<CompiledSelector, AllocError>
    requires sound { IsSound (numbers.selector_numbers (view.selector_of selector.now))
        (typing.selector_typed (view.selector_of selector.now)) }
    ensures made { IfOk result (λ x. ReadsWith listed.new
        (λ all. compiled.selector_in all x) (view.selector_of selector.now)) }
    ensures roots { OnOk result (KeepsRoots listed.old listed.new) }
    ensures patterns { OnOk result (AddsPatterns listed.old listed.new
        (literal.selector_patterns (view.selector_of selector.now))) }
{
    match selector {
        jp_tree::Selector::Name(name) => {
            Ok(CompiledSelector::Name(String::from_str(alloc, name.as_str())?))
        }
        jp_tree::Selector::Wild => Ok(CompiledSelector::Wild),
        jp_tree::Selector::Index(text) => {
            Ok(CompiledSelector::Index(make_position(alloc, text.as_str())?))
        }
        jp_tree::Selector::Slice(slice) => Ok(CompiledSelector::Slice(make_slice(alloc, slice)?)),
        jp_tree::Selector::Filter(logical) => {
            let test = make_logical(alloc, logical, listed)?;
            // What asks nothing of `@` is answered once a document, and not at each child.
            Ok(CompiledSelector::Filter(listed.once(test)?))
        }
    }
}

#[cycle(making)]
fn make_logical(
    alloc: Global,
    logical: &jp_tree::Logical,
    listed: &mut Listed,
) -> Result<CompiledLogical, AllocError>
    requires sound { IsSound (numbers.logical_numbers (view.logical_of logical.now))
        (typing.logical_typed (view.logical_of logical.now)) }
    ensures made { IfOk result (λ l. ReadsWith listed.new
        (λ all. compiled.logical_in all l) (view.logical_of logical.now)) }
    ensures roots { OnOk result (KeepsRoots listed.old listed.new) }
    ensures patterns { OnOk result (AddsPatterns listed.old listed.new
        (literal.logical_patterns (view.logical_of logical.now))) }
{
    match logical {
        jp_tree::Logical::Any(parts) => {
            let made = make_parts(alloc, parts, listed)?;
            Ok(CompiledLogical::Any(listed.apart(alloc, made)?))
        }
        jp_tree::Logical::All(parts) => {
            let made = make_parts(alloc, parts, listed)?;
            Ok(CompiledLogical::All(listed.apart(alloc, made)?))
        }
        jp_tree::Logical::Not(part) => make_negation(alloc, part, listed),
        jp_tree::Logical::Compare(comparison) => make_comparison(alloc, comparison, listed),
        jp_tree::Logical::Test(query) => {
            Ok(CompiledLogical::Test(make_nodes(alloc, Want::First, query, listed)?))
        }
        jp_tree::Logical::Call(call) => make_test_call(alloc, call, listed),
    }
}

/// `!` and a part. It is no part of `make_logical`, whose frame is needed once a bracket.
#[cycle(making)]
#[inline(never)]
fn make_negation(
    alloc: Global,
    part: &jp_tree::Logical,
    listed: &mut Listed,
) -> Result<CompiledLogical, AllocError>
    requires sound { IsSound (numbers.logical_numbers (view.logical_of part.now))
        (typing.logical_typed (view.logical_of part.now)) }
    ensures made { IfOk result (λ l. ReadsWith listed.new
        (λ all. compiled.logical_in all l) (tree.negation (view.logical_of part.now))) }
    ensures roots { OnOk result (KeepsRoots listed.old listed.new) }
    ensures patterns { OnOk result (AddsPatterns listed.old listed.new
        (literal.logical_patterns (view.logical_of part.now))) }
{
    let part = make_logical(alloc, part, listed)?;
    Ok(CompiledLogical::Not(Box::new(alloc, part)?))
}

/// A comparison. It is no part of `make_logical`, whose frame is needed once a bracket.
#[cycle(making)]
#[inline(never)]
fn make_comparison(
    alloc: Global,
    comparison: &Comparison,
    listed: &mut Listed,
) -> Result<CompiledLogical, AllocError>
    requires sound { IsSound (numbers.comparison_numbers (view.comparison_of comparison.now))
        (typing.comparison_typed (view.comparison_of comparison.now)) }
    ensures made { IfOk result (λ l. ReadsWith listed.new
        (λ all. compiled.logical_in all l) (tree.comparing (view.comparison_of comparison.now))) }
    ensures roots { OnOk result (KeepsRoots listed.old listed.new) }
    ensures patterns { OnOk result (AddsPatterns listed.old listed.new
        (literal.comparison_patterns (view.comparison_of comparison.now))) }
{
    let left = make_side(alloc, &comparison.left, listed)?;
    let right = make_side(alloc, &comparison.right, listed)?;
    Ok(CompiledLogical::Compare(left, comparison.op, right))
}

/// The parts of `||` or `&&`.
#[cycle(making)]
fn make_parts(
    alloc: Global,
    parts: &[jp_tree::Logical],
    listed: &mut Listed,
) -> Result<Vec<CompiledLogical>, AllocError>
    requires sound { IsSound (numbers.logicals_numbers (tree.logicals (view.logicals_of parts.now)))
        (typing.logicals_typed (tree.logicals (view.logicals_of parts.now))) }
    ensures made { IfOk result (λ v. ReadsWith listed.new
        (λ all. map (compiled.logical_in all) v.items) (view.logicals_of parts.now)) }
    ensures roots { OnOk result (KeepsRoots listed.old listed.new) }
    ensures patterns { OnOk result (AddsPatterns listed.old listed.new
        (literal.logicals_patterns (tree.logicals (view.logicals_of parts.now)))) }
{
    // Their number is known, so the list takes one allocation.
    let mut made = Vec::with_capacity(alloc, parts.len())?;
    for part in parts {
        made.push(make_logical(alloc, part, listed)?)?;
    }
    Ok(made)
}

/// A query inside a filter, of whose nodes this is wanted.
#[cycle(making)]
fn make_nodes(
    alloc: Global,
    want: Want,
    query: &jp_tree::Query,
    listed: &mut Listed,
) -> Result<Nodes, AllocError>
    requires sound { IsSound (numbers.query_numbers (query_of query.now))
        (typing.query_typed (query_of query.now)) }
    ensures made { IfOk result (λ q. ReadsWith listed.new
        (λ all. compiled.nodes_in all q want) (compiled.queried (query_of query.now))) }
    ensures roots { OnOk result (KeepsRoots listed.old listed.new) }
    ensures patterns { OnOk result (AddsPatterns listed.old listed.new
        (literal.literal_patterns (query_of query.now))) }
{
    let segments = make_segments(alloc, query.segments.as_slice(), listed)?;
    match query.start {
        Start::Current => Ok(Nodes::Here(segments)),
        Start::Root => {
            let slot = listed.add_query(want, segments)?;
            Ok(Nodes::Root(slot))
        }
    }
}

/// A side of a comparison.
#[cycle(making)]
fn make_side(alloc: Global, side: &Comparable, listed: &mut Listed) -> Result<Giver, AllocError>
    requires sound { IsSound (numbers.comparable_numbers (view.comparable_of side.now))
        (typing.comparable_typed (view.comparable_of side.now)) }
    ensures made { IfOk result (λ v. ReadsWith listed.new
        (λ all. compiled.value_in all v) (view.comparable_of side.now)) }
    ensures roots { OnOk result (KeepsRoots listed.old listed.new) }
    ensures patterns { OnOk result (AddsPatterns listed.old listed.new
        (literal.comparable_patterns (view.comparable_of side.now))) }
{
    match side {
        Comparable::Literal(literal) => Ok(Giver::Constant(make_constant(alloc, literal)?)),
        Comparable::Single(query) => {
            Ok(Giver::Single(make_nodes(alloc, Want::First, query, listed)?))
        }
        Comparable::Call(call) => make_value_call(alloc, call, listed),
    }
}

/// An argument that gives a value.
#[cycle(making)]
fn make_value(alloc: Global, argument: &Argument, listed: &mut Listed) -> Result<Giver, AllocError>
    requires sound { IsSound (numbers.argument_numbers (view.argument_of argument.now))
        (typing.argument_typed (view.argument_of argument.now)) }
    requires fits { typing.fits value_type (view.argument_of argument.now) ≡ true }
    ensures made { IfOk result (λ v. ReadsWith listed.new
        (λ all. compiled.as_argument (compiled.value_in all v)) (view.argument_of argument.now)) }
    ensures roots { OnOk result (KeepsRoots listed.old listed.new) }
    ensures patterns { OnOk result (AddsPatterns listed.old listed.new
        (literal.argument_patterns (view.argument_of argument.now))) }
{
    match argument {
        Argument::Literal(literal) => Ok(Giver::Constant(make_constant(alloc, literal)?)),
        Argument::Query(query) => {
            Ok(Giver::Single(make_nodes(alloc, Want::First, query, listed)?))
        }
        Argument::Logical(_) => unreachable!(),
        Argument::Call(call) => make_value_call(alloc, call, listed),
    }
}

/// An argument that gives nodes.
#[cycle(making)]
fn make_argument_nodes(
    alloc: Global,
    want: Want,
    argument: &Argument,
    listed: &mut Listed,
) -> Result<Nodes, AllocError>
    requires sound { IsSound (numbers.argument_numbers (view.argument_of argument.now))
        (typing.argument_typed (view.argument_of argument.now)) }
    requires fits { typing.fits nodes_type (view.argument_of argument.now) ≡ true }
    ensures made { IfOk result (λ q. ReadsWith listed.new
        (λ all. compiled.source_argument (compiled.nodes_in all q want)) (view.argument_of argument.now)) }
    ensures roots { OnOk result (KeepsRoots listed.old listed.new) }
    ensures patterns { OnOk result (AddsPatterns listed.old listed.new
        (literal.argument_patterns (view.argument_of argument.now))) }
{
    match argument {
        Argument::Query(query) => make_nodes(alloc, want, query, listed),
        Argument::Call(call) => make_distinct(alloc, want, call, listed),
        Argument::Literal(_) => unreachable!(),
        Argument::Logical(_) => unreachable!(),
    }
}

/// A call that gives nodes.
#[cycle(making)]
// Not inlined, since the frame of what calls it is needed once a bracket and would hold this one's values
// too.
#[inline(never)]
fn make_distinct(
    alloc: Global,
    want: Want,
    call: &Call,
    listed: &mut Listed,
) -> Result<Nodes, AllocError>
    requires sound { IsSound (numbers.call_numbers (view.call_of call.now))
        (typing.call_typed (view.call_of call.now)) }
    requires serves { typing.serves_as nodes_type (typing.type_of_call (view.call_of call.now)) ≡ true }
    ensures made { IfOk result (λ q. ReadsWith listed.new
        (λ all. compiled.source_argument (compiled.nodes_in all q want))
        (tree.call_argument (view.call_of call.now))) }
    ensures roots { OnOk result (KeepsRoots listed.old listed.new) }
    ensures patterns { OnOk result (AddsPatterns listed.old listed.new
        (literal.call_patterns (view.call_of call.now))) }
{
    let [argument] = call.arguments.as_slice() else {
        unreachable!()
    };
    let Some(Function::Distinct) = function_named(call.name.as_str()) else {
        unreachable!()
    };
    let nodes = make_argument_nodes(alloc, want.inside(), argument, listed)?;
    Ok(Nodes::Distinct(Box::new(alloc, nodes)?))
}

/// A call that gives a value.
#[cycle(making)]
fn make_value_call(alloc: Global, call: &Call, listed: &mut Listed) -> Result<Giver, AllocError>
    requires sound { IsSound (numbers.call_numbers (view.call_of call.now))
        (typing.call_typed (view.call_of call.now)) }
    requires serves { typing.serves_as value_type (typing.type_of_call (view.call_of call.now)) ≡ true }
    ensures made { IfOk result (λ v. ReadsWith listed.new
        (λ all. compiled.value_in all v) (tree.value_call (view.call_of call.now))) }
    ensures roots { OnOk result (KeepsRoots listed.old listed.new) }
    ensures patterns { OnOk result (AddsPatterns listed.old listed.new
        (literal.call_patterns (view.call_of call.now))) }
{
    let [argument] = call.arguments.as_slice() else {
        unreachable!()
    };
    match function_named(call.name.as_str()) {
        Some(Function::Length) => {
            let value = make_value(alloc, argument, listed)?;
            Ok(Giver::Length(Box::new(alloc, value)?))
        }
        Some(Function::Count) => {
            Ok(Giver::Count(make_argument_nodes(alloc, Want::Count, argument, listed)?))
        }
        Some(Function::Value) => {
            Ok(Giver::Only(make_argument_nodes(alloc, Want::Only, argument, listed)?))
        }
        _ => unreachable!(),
    }
}

/// A call that gives true or false.
#[cycle(making)]
// Not inlined, since the frame of what calls it is needed once a bracket and would hold this one's values
// too.
#[inline(never)]
fn make_test_call(
    alloc: Global,
    call: &Call,
    listed: &mut Listed,
) -> Result<CompiledLogical, AllocError>
    requires sound { IsSound (numbers.call_numbers (view.call_of call.now))
        (typing.call_typed (view.call_of call.now)) }
    requires serves { typing.serves_as logical_type (typing.type_of_call (view.call_of call.now)) ≡ true }
    ensures made { IfOk result (λ l. ReadsWith listed.new
        (λ all. compiled.logical_in all l) (tree.test_call (view.call_of call.now))) }
    ensures roots { OnOk result (KeepsRoots listed.old listed.new) }
    ensures patterns { OnOk result (AddsPatterns listed.old listed.new
        (literal.call_patterns (view.call_of call.now))) }
{
    let arguments = call.arguments.as_slice();
    let function = function_named(call.name.as_str());
    match function {
        Some(Function::Xor) => make_xor(alloc, arguments, listed),
        Some(Function::Distinct) => {
            Ok(CompiledLogical::Test(make_distinct(alloc, Want::First, call, listed)?))
        }
        Some(Function::Match) => make_text_test(alloc, function, arguments, listed),
        Some(Function::Search) => make_text_test(alloc, function, arguments, listed),
        _ => unreachable!(),
    }
}

/// `xor` of two arguments.
#[cycle(making)]
// Not inlined, since the frame of what calls it is needed once a bracket and would hold this one's values
// too.
#[inline(never)]
fn make_xor(
    alloc: Global,
    arguments: &[Argument],
    listed: &mut Listed,
) -> Result<CompiledLogical, AllocError>
    requires sound { IsSound (numbers.arguments_numbers (tree.arguments (view.arguments_of arguments.now)))
        (typing.arguments_typed (tree.arguments (view.arguments_of arguments.now))) }
    requires fit { typing.all_fit (logical_type ∷ logical_type ∷ [])
        (tree.arguments (view.arguments_of arguments.now)) ≡ true }
    ensures made { IfOk result (λ l. ReadsWith listed.new
        (λ all. compiled.logical_in all l) (tree.test_call (tree.call (codes "xor")
        (tree.arguments (view.arguments_of arguments.now))))) }
    ensures roots { OnOk result (KeepsRoots listed.old listed.new) }
    ensures patterns { OnOk result (AddsPatterns listed.old listed.new
        (literal.arguments_patterns (tree.arguments (view.arguments_of arguments.now)))) }
{
    let [left, right] = arguments else {
        unreachable!()
    };
    let one = make_truth(alloc, left, listed)?;
    let other = make_truth(alloc, right, listed)?;
    let first = listed.beside(alloc, one, &other)?;
    let second = listed.beside(alloc, other, &first)?;
    Ok(CompiledLogical::Xor(form_of(left), first, form_of(right), second))
}

/// How an argument that is true or false is written.
fn form_of(argument: &Argument) -> ArgumentForm
    ensures { result ≡ compiled.form_of (view.argument_of argument.now) }
{
    match argument {
        Argument::Logical(_) => ArgumentForm::Expression,
        Argument::Query(_) | Argument::Call(_) | Argument::Literal(_) => ArgumentForm::Bare,
    }
}

/// An argument that is true or false.
#[cycle(making)]
fn make_truth(
    alloc: Global,
    argument: &Argument,
    listed: &mut Listed,
) -> Result<Box<CompiledLogical>, AllocError>
    requires sound { IsSound (numbers.argument_numbers (view.argument_of argument.now))
        (typing.argument_typed (view.argument_of argument.now)) }
    requires fits { typing.fits logical_type (view.argument_of argument.now) ≡ true }
    ensures made { IfOk result (λ l. ReadsWith listed.new
        (λ all. compiled.truth_argument (compiled.form_of (view.argument_of argument.now))
        (compiled.logical_in all l.value)) (view.argument_of argument.now)) }
    ensures roots { OnOk result (KeepsRoots listed.old listed.new) }
    ensures patterns { OnOk result (AddsPatterns listed.old listed.new
        (literal.argument_patterns (view.argument_of argument.now))) }
{
    match argument {
        Argument::Query(query) => {
            let nodes = make_nodes(alloc, Want::First, query, listed)?;
            Ok(Box::new(alloc, CompiledLogical::Test(nodes))?)
        }
        Argument::Logical(logical) => {
            let made = make_logical(alloc, logical, listed)?;
            Ok(Box::new(alloc, made)?)
        }
        Argument::Call(call) => {
            let made = make_test_call(alloc, call, listed)?;
            Ok(Box::new(alloc, made)?)
        }
        Argument::Literal(_) => unreachable!(),
    }
}

/// `match` or `search` of a text and a pattern.
#[cycle(making)]
// Not inlined, since the frame of what calls it is needed once a bracket and would hold this one's values
// too.
#[inline(never)]
fn make_text_test(
    alloc: Global,
    function: Option<Function>,
    arguments: &[Argument],
    listed: &mut Listed,
) -> Result<CompiledLogical, AllocError>
    requires sound { IsSound (numbers.arguments_numbers (tree.arguments (view.arguments_of arguments.now)))
        (typing.arguments_typed (tree.arguments (view.arguments_of arguments.now))) }
    requires fit { typing.all_fit (value_type ∷ value_type ∷ [])
        (tree.arguments (view.arguments_of arguments.now)) ≡ true }
    requires test { (option_map function_of function ≡ Some functions.match_function)
        ⊎ (option_map function_of function ≡ Some functions.search_function) }
    ensures made { IfOk result (λ l. (name : Text)
        → option_map function_of function ≡ functions.function_named name
        → ReadsWith listed.new (λ all. compiled.logical_in all l)
        (tree.test_call (tree.call name (tree.arguments (view.arguments_of arguments.now))))) }
    ensures roots { OnOk result (KeepsRoots listed.old listed.new) }
    ensures patterns { OnOk result (AddsPatterns listed.old listed.new
        (literal.second_text (tree.arguments (view.arguments_of arguments.now))
        ++ literal.arguments_patterns (tree.arguments (view.arguments_of arguments.now)))) }
{
    let [text, pattern] = arguments else {
        unreachable!()
    };
    if let Some(pattern) = literal_text(pattern) {
        let pattern = listed.add_pattern(alloc, pattern, question_of(function))?;
        let text = make_value(alloc, text, listed)?;
        return Ok(read_test(function, text, pattern));
    }
    let text = make_value(alloc, text, listed)?;
    let pattern = make_value(alloc, pattern, listed)?;
    Ok(given_test(function, text, pattern))
}

/// What a call asks of its pattern.
fn question_of(function: Option<Function>) -> Question {
    match function {
        Some(Function::Match) => Question::Whole,
        _ => Question::Part,
    }
}

/// A call with a literal pattern.
fn read_test(function: Option<Function>, text: Giver, pattern: KnownPattern) -> CompiledLogical
    requires { (option_map function_of function ≡ Some functions.match_function)
        ⊎ (option_map function_of function ≡ Some functions.search_function) }
    ensures { (all : List Wanted) (name : Text)
        → option_map function_of function ≡ functions.function_named name
        → compiled.logical_in all result ≡ tree.test_call (compiled.call_of_two name
        (compiled.as_argument (compiled.value_in all text)) (compiled.text_argument (text_of pattern.text))) }
{
    match function {
        Some(Function::Match) => CompiledLogical::MatchRead(text, pattern),
        Some(Function::Search) => CompiledLogical::SearchRead(text, pattern),
        _ => unreachable!(),
    }
}

/// A call with a pattern that is known only at a node.
fn given_test(function: Option<Function>, text: Giver, pattern: Giver) -> CompiledLogical
    requires { (option_map function_of function ≡ Some functions.match_function)
        ⊎ (option_map function_of function ≡ Some functions.search_function) }
    ensures { (all : List Wanted) (name : Text)
        → option_map function_of function ≡ functions.function_named name
        → compiled.logical_in all result ≡ tree.test_call (compiled.call_of_two name
        (compiled.as_argument (compiled.value_in all text))
        (compiled.as_argument (compiled.value_in all pattern))) }
{
    match function {
        Some(Function::Match) => CompiledLogical::Match(text, pattern),
        Some(Function::Search) => CompiledLogical::Search(text, pattern),
        _ => unreachable!(),
    }
}
