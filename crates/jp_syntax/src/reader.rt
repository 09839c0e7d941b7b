//! Reading a query text from left to right, by recursive descent.
//!
//! Each function reads one part of the grammar at the front of the text, and gives it and the rest.
//! `left` bounds how deep logical expressions stand inside each other.

ghost use Rattle.std.specs.Prelude.{◌≡◌, ◌<◌, ◌⊎◌, ◌↔◌, length, option_map, IfOk, IfErr, IsErrOf};
ghost use Rattle.jp_syntax.specs.inner.Reading as reading;
ghost use Rattle.jp_tree.specs.Tree as tree;
ghost use Rattle.jp_tree.specs.View.{query_of};
ghost use Rattle.jp_tree.specs.PartViews.{argument_of, comparable_of, logical_of, selector_of, call_of};
ghost use Rattle.jp_tree.specs.PartViews.{segment_of, segments_of, selectors_of, logicals_of, arguments_of};
ghost use Rattle.jp_tokens.specs.Gives.{Gives, GivesFront};
ghost use Rattle.jp_tree.specs.Spelling.{Spells};
ghost use Rattle.jp_tokens.specs.Depth.{bracket_depth, max_depth};
ghost use Rattle.std.specs.Str.{chars};

use crate::arguments::{compared_argument, opened_arguments, standing_argument};
use crate::connective::Connective;
use crate::sides::{compared_at, tested_at};
use jp_tokens::{
    begins_literal, calls, first_character, function_name_at, inside_brackets, is_end, is_quote,
    is_too_deep, literal_at, mark_at, named_at, numbers_at, operator_at, skip, string_at,
};
use jp_tree::made::{
    call_from, call_side, filter_selector, literal_argument, literal_side, name_selector, negation,
    one_argument, one_logical, one_selector, push_argument, push_logical, push_segment,
    push_selector, query_from, query_side, segment_from, wildcard,
};
use jp_tree::{
    Argument, Call, Comparable, Logical, Operator, Query, QueryFault, Segment, Selector, Start,
};
use std::alloc::Global;

/// A selector (RFC 9535, 2.3).
#[cycle(reader)]
#[tactic(auto, unfolding(crate::specs::inner::Reading::selector_at))]
fn selector_at(alloc: Global, left: usize, text: &str) -> Result<(Selector, &str), QueryFault>
    ensures { GivesFront selector_of result (reading.selector_at (reading.logical_at left) (chars text.now)) }
{
    match first_character(text) {
        None => Err(QueryFault::Syntax),
        Some((c, more)) if is_quote(c) => {
            let (name, rest) = string_at(alloc, c, more)?;
            Ok((name_selector(name), rest))
        }
        Some(('*', rest)) => Ok((wildcard(), rest)),
        Some(('?', more)) => {
            let (logical, rest) = logical_at(alloc, left, skip(more))?;
            Ok((filter_selector(logical), rest))
        }
        Some(_) => numbers_at(alloc, text),
    }
}

/// A comma and another selector, or the end of the list.
#[cycle(reader)]
#[tactic(auto, unfolding(crate::specs::inner::Reading::next_item))]
fn next_selector(
    alloc: Global,
    left: usize,
    text: &str,
) -> Result<(Option<Selector>, &str), QueryFault>
    ensures { GivesFront (option_map selector_of) result
        (reading.next_selector (reading.logical_at left) (chars text.now)) }
{
    match first_character(text) {
        Some((',', more)) => {
            let (selector, rest) = selector_at(alloc, left, skip(more))?;
            Ok((Some(selector), rest))
        }
        Some((']', rest)) => Ok((None, rest)),
        _ => Err(QueryFault::Syntax),
    }
}

/// The selectors behind those that are found, up to the bracket.
#[cycle(reader)]
fn selectors_from(
    alloc: Global,
    left: usize,
    mut found: Vec<Selector>,
    text: &str,
) -> Result<(Vec<Selector>, &str), QueryFault>
    ensures { GivesFront (λ xs. selectors_of xs.items) result
        (reading.selectors_behind (reading.logical_at left) (selectors_of found.items) (chars text.now)) }
{
    let mut rest = text;
    loop {
        let (next, after) = next_selector(alloc, left, skip(rest))?;
        rest = after;
        match next {
            None => return Ok((found, rest)),
            Some(item) => push_selector(&mut found, item)?,
        }
    }
}

/// Behind `[`.
#[cycle(reader)]
#[tactic(auto, unfolding(crate::specs::inner::Reading::items_at))]
fn bracketed_at(alloc: Global, left: usize, text: &str) -> Result<(Vec<Selector>, &str), QueryFault>
    ensures { GivesFront (λ xs. selectors_of xs.items) result
        (reading.bracketed_at (reading.logical_at left) (chars text.now)) }
{
    let (first, rest) = selector_at(alloc, left, inside_brackets(text))?;
    selectors_from(alloc, left, one_selector(alloc, first)?, rest)
}

/// Behind `..`.
#[cycle(reader)]
#[tactic(auto, unfolding(crate::specs::inner::Reading::descendant_at))]
fn descendant_at(alloc: Global, left: usize, text: &str) -> Result<(Segment, &str), QueryFault>
    ensures { GivesFront segment_of result
        (reading.descendant_at (reading.logical_at left) (chars text.now)) }
{
    match first_character(text) {
        None => Err(QueryFault::Syntax),
        Some(('[', more)) => {
            let (selectors, rest) = bracketed_at(alloc, left, more)?;
            Ok((segment_from(true, selectors), rest))
        }
        Some(_) => named_at(alloc, true, text),
    }
}

/// Behind `.`.
#[cycle(reader)]
#[tactic(auto, unfolding(crate::specs::inner::Reading::dotted_at))]
fn dotted_at(alloc: Global, left: usize, text: &str) -> Result<(Segment, &str), QueryFault>
    ensures { GivesFront segment_of result (reading.dotted_at (reading.logical_at left) (chars text.now)) }
{
    match first_character(text) {
        None => Err(QueryFault::Syntax),
        Some(('.', more)) => descendant_at(alloc, left, more),
        Some(_) => named_at(alloc, false, text),
    }
}

/// Another segment, or the end, before the blanks.
#[cycle(reader)]
#[tactic(auto, unfolding(crate::specs::inner::Reading::segment_behind))]
fn segment_behind<'a>(
    alloc: Global,
    left: usize,
    whole: &'a str,
    text: &'a str,
) -> Result<(Option<Segment>, &'a str), QueryFault>
    ensures { GivesFront (option_map segment_of) result
        (reading.segment_behind (reading.logical_at left) (chars whole.now) (chars text.now)) }
{
    match first_character(text) {
        Some(('.', more)) => {
            let (segment, rest) = dotted_at(alloc, left, more)?;
            Ok((Some(segment), rest))
        }
        Some(('[', more)) => {
            let (selectors, rest) = bracketed_at(alloc, left, more)?;
            Ok((Some(segment_from(false, selectors)), rest))
        }
        _ => Ok((None, whole)),
    }
}

/// The segments behind those that are found, with blanks before each, to the last.
#[cycle(reader)]
fn segments_from(
    alloc: Global,
    left: usize,
    mut found: Vec<Segment>,
    text: &str,
) -> Result<(Vec<Segment>, &str), QueryFault>
    ensures { GivesFront (λ xs. segments_of xs.items) result
        (reading.segments_behind (reading.logical_at left) (segments_of found.items) (chars text.now)) }
{
    let mut rest = text;
    loop {
        let (next, after) = segment_behind(alloc, left, rest, skip(rest))?;
        rest = after;
        match next {
            None => return Ok((found, rest)),
            Some(item) => push_segment(&mut found, item)?,
        }
    }
}

/// A query inside a filter (RFC 9535, 2.3.5.1).
#[cycle(reader)]
#[tactic(auto, unfolding(crate::specs::inner::Reading::query_at))]
fn query_at(alloc: Global, left: usize, text: &str) -> Result<(Query, &str), QueryFault>
    ensures { GivesFront query_of result (reading.query_at (reading.logical_at left) (chars text.now)) }
{
    match first_character(text) {
        Some(('$', more)) => {
            let (segments, rest) = segments_from(alloc, left, Vec::new(alloc), more)?;
            Ok((query_from(Start::Root, segments), rest))
        }
        Some(('@', more)) => {
            let (segments, rest) = segments_from(alloc, left, Vec::new(alloc), more)?;
            Ok((query_from(Start::Current, segments), rest))
        }
        _ => Err(QueryFault::Syntax),
    }
}

/// An argument of a call (RFC 9535, 2.4).
#[cycle(reader)]
fn argument_at(alloc: Global, left: usize, text: &str) -> Result<(Argument, &str), QueryFault>
    ensures { GivesFront argument_of result (reading.argument_at (reading.logical_at left) (chars text.now)) }
{
    if !begins_literal(text) {
        let (logical, rest) = logical_at(alloc, left, text)?;
        return Ok((standing_argument(text, logical), rest));
    }
    let (literal, rest) = literal_at(alloc, text)?;
    match operator_at(skip(rest)) {
        None => Ok((literal_argument(literal), rest)),
        Some((op, after)) => {
            let (logical, rest) = compared_behind(alloc, left, literal_side(literal), op, after)?;
            Ok((compared_argument(logical), rest))
        }
    }
}

/// A comma and another argument, or the end of the list.
#[cycle(reader)]
#[tactic(auto, unfolding(crate::specs::inner::Reading::next_item))]
fn next_argument(
    alloc: Global,
    left: usize,
    text: &str,
) -> Result<(Option<Argument>, &str), QueryFault>
    ensures { GivesFront (option_map argument_of) result
        (reading.next_argument (reading.logical_at left) (chars text.now)) }
{
    match first_character(text) {
        Some((',', more)) => {
            let (argument, rest) = argument_at(alloc, left, skip(more))?;
            Ok((Some(argument), rest))
        }
        Some((')', rest)) => Ok((None, rest)),
        _ => Err(QueryFault::Syntax),
    }
}

/// The arguments behind those that are found, up to the parenthesis.
#[cycle(reader)]
fn arguments_from(
    alloc: Global,
    left: usize,
    mut found: Vec<Argument>,
    text: &str,
) -> Result<(Vec<Argument>, &str), QueryFault>
    ensures { GivesFront (λ xs. arguments_of xs.items) result
        (reading.arguments_behind (reading.logical_at left) (arguments_of found.items) (chars text.now)) }
{
    let mut rest = text;
    loop {
        let (next, after) = next_argument(alloc, left, skip(rest))?;
        rest = after;
        match next {
            None => return Ok((found, rest)),
            Some(item) => push_argument(&mut found, item)?,
        }
    }
}

/// Behind `(` and blanks.
#[cycle(reader)]
#[tactic(auto, unfolding(crate::specs::inner::Reading::arguments_at, crate::specs::inner::Reading::items_at))]
fn arguments_at(alloc: Global, left: usize, text: &str) -> Result<(Vec<Argument>, &str), QueryFault>
    ensures { GivesFront (λ xs. arguments_of xs.items) result
        (reading.arguments_at (reading.logical_at left) (chars text.now)) }
{
    match first_character(text) {
        None => Err(QueryFault::Syntax),
        Some((')', rest)) => Ok((Vec::new(alloc), rest)),
        Some(_) => {
            let (first, rest) = argument_at(alloc, left, text)?;
            arguments_from(alloc, left, one_argument(alloc, first)?, rest)
        }
    }
}

/// A call of a function (RFC 9535, 2.4).
#[cycle(reader)]
#[tactic(auto, unfolding(crate::specs::inner::Reading::call_at))]
fn call_at(alloc: Global, left: usize, text: &str) -> Result<(Call, &str), QueryFault>
    ensures { GivesFront call_of result (reading.call_at (reading.logical_at left) (chars text.now)) }
{
    let (name, rest) = function_name_at(text)?;
    let inside = opened_arguments(rest)?;
    let (arguments, rest) = arguments_at(alloc, left, skip(inside))?;
    Ok((call_from(String::from_str(alloc, name)?, arguments), rest))
}

/// A literal, a query or a call.
#[cycle(reader)]
#[tactic(auto, unfolding(crate::specs::inner::Reading::operand_at))]
fn operand_at(alloc: Global, left: usize, text: &str) -> Result<(Comparable, &str), QueryFault>
    ensures { GivesFront comparable_of result
        (reading.operand_at (reading.logical_at left) (chars text.now)) }
{
    match first_character(text) {
        None => Err(QueryFault::Syntax),
        Some(('$' | '@', _)) => {
            let (query, rest) = query_at(alloc, left, text)?;
            Ok((query_side(query), rest))
        }
        Some(_) => {
            if calls(text) {
                let (call, rest) = call_at(alloc, left, text)?;
                Ok((call_side(call), rest))
            } else {
                let (literal, rest) = literal_at(alloc, text)?;
                Ok((literal_side(literal), rest))
            }
        }
    }
}

/// Behind `(`.
#[cycle(reader)]
#[tactic(auto, unfolding(crate::specs::inner::Reading::grouped_at))]
fn grouped_at(alloc: Global, left: usize, text: &str) -> Result<(Logical, &str), QueryFault>
    ensures { GivesFront logical_of result (reading.grouped_at (reading.logical_at left) (chars text.now)) }
{
    let (inside, rest) = logical_at(alloc, left, skip(text))?;
    let rest = mark_at(')', skip(rest))?;
    Ok((inside, rest))
}

/// What `!` may stand before: parentheses, a query or a call.
#[cycle(reader)]
#[tactic(auto, unfolding(crate::specs::inner::Reading::plain_at))]
fn plain_at(alloc: Global, left: usize, text: &str) -> Result<(Logical, &str), QueryFault>
    ensures { GivesFront logical_of result (reading.plain_at (reading.logical_at left) (chars text.now)) }
{
    match first_character(text) {
        None => Err(QueryFault::Syntax),
        Some(('(', more)) => grouped_at(alloc, left, more),
        Some(_) => {
            let (side, rest) = operand_at(alloc, left, text)?;
            tested_at(side, rest)
        }
    }
}

/// Behind the operator.
#[cycle(reader)]
#[tactic(auto, unfolding(crate::specs::inner::Reading::right_at))]
fn right_at(
    alloc: Global,
    left: usize,
    side: Comparable,
    op: Operator,
    text: &str,
) -> Result<(Logical, &str), QueryFault>
    ensures { GivesFront logical_of result
        (reading.right_at (reading.logical_at left) (comparable_of side) op (chars text.now)) }
{
    let (right, rest) = operand_at(alloc, left, skip(text))?;
    compared_at(side, op, right, rest)
}

/// A basic expression (RFC 9535, 2.3.5.1).
#[cycle(reader)]
#[tactic(auto, unfolding(crate::specs::inner::Reading::basic_at))]
fn basic_at(alloc: Global, left: usize, text: &str) -> Result<(Logical, &str), QueryFault>
    ensures { GivesFront logical_of result (reading.basic_at (reading.logical_at left) (chars text.now)) }
{
    match first_character(text) {
        None => Err(QueryFault::Syntax),
        Some(('!', more)) => {
            let (logical, rest) = plain_at(alloc, left, skip(more))?;
            Ok((negation(alloc, logical)?, rest))
        }
        Some(('(', more)) => grouped_at(alloc, left, more),
        Some(_) => {
            let (side, rest) = operand_at(alloc, left, text)?;
            match operator_at(skip(rest)) {
                None => tested_at(side, rest),
                Some((op, after)) => right_at(alloc, left, side, op, after),
            }
        }
    }
}

/// A part of a logical expression whose parts this connective joins.
#[cycle(reader)]
fn part_at(
    alloc: Global,
    left: usize,
    connective: Connective,
    text: &str,
) -> Result<(Logical, &str), QueryFault>
    ensures { GivesFront logical_of result
        (reading.part_at (reading.logical_at left) connective (chars text.now)) }
{
    match connective {
        Connective::And => basic_at(alloc, left, text),
        Connective::Or => and_at(alloc, left, text),
    }
}

/// Another part, or the end, before the blanks.
#[cycle(reader)]
#[tactic(auto, unfolding(crate::specs::inner::Reading::next_part))]
fn next_part<'a>(
    alloc: Global,
    left: usize,
    connective: Connective,
    whole: &'a str,
    text: &'a str,
) -> Result<(Option<Logical>, &'a str), QueryFault>
    ensures { GivesFront (option_map logical_of) result (reading.next_part (reading.mark_of connective)
        (reading.part_at (reading.logical_at left) connective) (chars whole.now) (chars text.now)) }
{
    let mark = connective.mark();
    match first_character(text) {
        Some((c, more)) if c == mark => {
            let (logical, rest) = part_at(alloc, left, connective, skip(mark_at(mark, more)?))?;
            Ok((Some(logical), rest))
        }
        _ => Ok((None, whole)),
    }
}

/// The parts behind those that are found.
#[cycle(reader)]
fn parts_from(
    alloc: Global,
    left: usize,
    connective: Connective,
    mut found: Vec<Logical>,
    text: &str,
) -> Result<(Vec<Logical>, &str), QueryFault>
    ensures { GivesFront (λ xs. logicals_of xs.items) result (reading.parts_behind connective
        (reading.part_at (reading.logical_at left) connective) (logicals_of found.items) (chars text.now)) }
{
    let mut rest = text;
    loop {
        let (next, after) = next_part(alloc, left, connective, rest, skip(rest))?;
        rest = after;
        match next {
            None => return Ok((found, rest)),
            Some(item) => push_logical(&mut found, item)?,
        }
    }
}

/// Behind the first part.
#[cycle(reader)]
fn joined_behind(
    alloc: Global,
    left: usize,
    connective: Connective,
    first: Logical,
    text: &str,
) -> Result<(Logical, &str), QueryFault>
    ensures { GivesFront logical_of result (reading.joined_behind connective
        (reading.part_at (reading.logical_at left) connective) (logical_of first) (chars text.now)) }
{
    let (parts, rest) = parts_from(alloc, left, connective, one_logical(alloc, first)?, text)?;
    Ok((connective.join(parts), rest))
}

/// Basic expressions with `&&` between.
#[cycle(reader)]
#[tactic(auto, unfolding(crate::specs::inner::Reading::and_at))]
fn and_at(alloc: Global, left: usize, text: &str) -> Result<(Logical, &str), QueryFault>
    ensures { GivesFront logical_of result (reading.and_at (reading.logical_at left) (chars text.now)) }
{
    let (first, rest) = basic_at(alloc, left, text)?;
    joined_behind(alloc, left, Connective::And, first, rest)
}

/// A logical expression in which others stand inside each other at most `left` deep.
#[cycle(reader)]
#[tactic(auto, unfolding(crate::specs::inner::Reading::logical_at, crate::specs::inner::Reading::or_at))]
fn logical_at(alloc: Global, left: usize, text: &str) -> Result<(Logical, &str), QueryFault>
    ensures { GivesFront logical_of result (reading.logical_at left (chars text.now)) }
{
    if left == 0 {
        return Err(QueryFault::Syntax);
    }
    let (first, rest) = and_at(alloc, left - 1, text)?;
    joined_behind(alloc, left - 1, Connective::Or, first, rest)
}

/// A logical expression that begins with a comparison, behind its left side and its operator.
#[cycle(reader)]
#[tactic(auto, unfolding(crate::specs::inner::Reading::compared_behind))]
fn compared_behind(
    alloc: Global,
    left: usize,
    side: Comparable,
    op: Operator,
    text: &str,
) -> Result<(Logical, &str), QueryFault>
    ensures { GivesFront logical_of result
        (reading.compared_behind left (comparable_of side) op (chars text.now)) }
{
    if left == 0 {
        return Err(QueryFault::Syntax);
    }
    let (first, rest) = right_at(alloc, left - 1, side, op, text)?;
    let (first, rest) = joined_behind(alloc, left - 1, Connective::And, first, rest)?;
    joined_behind(alloc, left - 1, Connective::Or, first, rest)
}

/// The whole text.
#[tactic(auto, unfolding(crate::specs::inner::Reading::read))]
fn read(alloc: Global, text: &str) -> Result<Query, QueryFault>
    ensures { Gives query_of result (reading.read (length text.now) (chars text.now)) }
{
    match first_character(text) {
        Some(('$', more)) => {
            // Each level of a logical expression takes a character, so the text's length is levels enough.
            let (segments, rest) = segments_from(alloc, text.len(), Vec::new(alloc), more)?;
            if !is_end(rest) {
                return Err(QueryFault::Syntax);
            }
            Ok(query_from(Start::Root, segments))
        }
        _ => Err(QueryFault::Syntax),
    }
}

/// The query that the text spells (RFC 9535, 2.1).
///
/// # Errors
///
/// - [`QueryFault::TooDeep`] where brackets and parentheses are nested more than 64 deep.
/// - [`QueryFault::Syntax`] where the text spells no query.
/// - [`QueryFault::Memory`] where a growth of memory was refused.
pub fn read_query(alloc: Global, text: &str) -> Result<Query, QueryFault>
    // Ok gives a tree that the text spells.
    ensures found { IfOk result (λ q. Spells (chars text.now) (query_of q)) }
    // No other tree is spelled by it.
    ensures only { IfOk result (λ q. (p : tree.Query) → Spells (chars text.now) p → p ≡ query_of q) }
    // The text is too deep exactly where its bracket depth is over 64.
    ensures too_deep { IsErrOf result QueryFault.TooDeep ↔ (max_depth < bracket_depth (chars text.now)) }
    // The text is not well-formed only where no tree is spelled.
    ensures syntax { IsErrOf result QueryFault.Syntax → (q : tree.Query) → Spells (chars text.now) q → ⊥ }
    // No other fault comes, but where memory is refused.
    ensures faults { IfErr result (λ e. (e ≡ QueryFault.TooDeep) ⊎ (e
        ≡ QueryFault.Syntax) ⊎ (e ≡ QueryFault.Memory)) }
{
    // Before anything is read, so that it takes no memory to tell.
    if is_too_deep(text) {
        return Err(QueryFault::TooDeep);
    }
    read(alloc, text)
}
