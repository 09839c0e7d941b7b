//! Comparison (RFC 9535, 2.3.5.2.2) of values of a document.

ghost use Rattle.std.specs.Prelude.{◌≡◌, Some, IfOk};
ghost use Rattle.std.specs.Str.{chars};
ghost use Rattle.jp_doc.specs.Json.{items, number, text};
ghost use Rattle.jp_node.specs.Inside.{item_values, kind_value, members_in};
ghost use Rattle.jp_node.specs.Members.{members, range_entries};
ghost use Rattle.jp_number.specs.Number.{whole};
ghost use Rattle.jp_value.specs.Comparison as spec;
ghost use Rattle.jp_value.specs.Kinds.{given_value};

use crate::comparison::{is_text_below, same_text};
use jp_node::{Items, Kind, MemberRange, Members};
use jp_number::Number;
use jp_tree::Operator;
use std::alloc::{AllocError, Global};

/// Whether two values are deeply equal.
#[tactic(auto, using(jp_number::proofs::Order::whole_equal))]
#[cycle(same_kind)]
pub(crate) fn same_kind(alloc: Global, left: Kind<'_>, right: Kind<'_>) -> Result<bool, AllocError>
    ensures { IfOk result (λ b. b ≡ spec.same (kind_value left.entry) (kind_value right.entry)) }
{
    match (left, right) {
        (Kind::Null, Kind::Null) => Ok(true),
        (Kind::Truth(x), Kind::Truth(y)) => Ok(x == y),
        (Kind::Whole(x), Kind::Whole(y)) => Ok(x == y),
        (Kind::Whole(x), Kind::Written(y)) => Ok(Number::Whole(x).is_equal(Number::Written(y))),
        (Kind::Written(x), Kind::Whole(y)) => Ok(Number::Written(x).is_equal(Number::Whole(y))),
        (Kind::Written(x), Kind::Written(y)) => {
            Ok(Number::Written(x).is_equal(Number::Written(y)))
        }
        (Kind::Text(x), Kind::Text(y)) => Ok(same_text(x, y)),
        (Kind::Array(x), Kind::Array(y)) => same_items(alloc, x, y),
        (Kind::Object(x), Kind::Object(y)) => same_members(alloc, x, y),
        _ => Ok(false),
    }
}

#[cycle(same_kind)]
fn same_items(alloc: Global, left: Items<'_>, right: Items<'_>) -> Result<bool, AllocError>
    ensures { IfOk result (λ b. b ≡ spec.same_items (items (item_values left.entry))
        (items (item_values right.entry))) }
{
    let mut ones = left;
    let mut others = right;
    while let Some((one, behind)) = ones.split_first() {
        match others.split_first() {
            Some((other, behind_other)) => {
                if !same_kind(alloc, one.kind(), other.kind())? {
                    return Ok(false);
                }
                ones = behind;
                others = behind_other;
            }
            None => return Ok(false),
        }
    }
    Ok(others.split_first().is_none())
}

/// Of two objects the shorter one is listed first: no member of the other is listed where one of its names
/// tells them apart.
#[cycle(same_kind)]
fn same_members(alloc: Global, left: Members<'_>, right: Members<'_>) -> Result<bool, AllocError>
    ensures { IfOk result (λ b. b ≡ spec.same_members (members_in left.entry) (members_in right.entry)) }
{
    if left.is_empty() {
        return Ok(right.is_empty());
    }
    if right.is_empty() {
        return Ok(false);
    }
    // So an object beside a much larger one costs no more than itself (README, The lighter object is listed).
    if left.is_shorter(right) {
        let left = left.gather(alloc)?;
        same_as_object(alloc, left.range(), right)
    } else {
        let right = right.gather(alloc)?;
        same_as_listed(alloc, left, right.range())
    }
}

/// Whether an object's members are those of a list.
#[cycle(same_kind)]
fn same_as_listed(
    alloc: Global,
    left: Members<'_>,
    right: MemberRange<'_, '_>,
) -> Result<bool, AllocError>
    ensures { IfOk result (λ b. b ≡ spec.same_members (members_in left.entry)
        (members (range_entries right.entry))) }
{
    if left.has_other_name(right) {
        return Ok(false);
    }
    let left = left.gather(alloc)?;
    same_ranges(alloc, left.range(), right)
}

/// The same the other way round.
#[cycle(same_kind)]
fn same_as_object(
    alloc: Global,
    left: MemberRange<'_, '_>,
    right: Members<'_>,
) -> Result<bool, AllocError>
    ensures { IfOk result (λ b. b ≡ spec.same_members (members (range_entries left.entry))
        (members_in right.entry)) }
{
    if right.has_other_name(left) {
        return Ok(false);
    }
    let right = right.gather(alloc)?;
    same_ranges(alloc, left, right.range())
}

#[cycle(same_kind)]
fn same_ranges(
    alloc: Global,
    left: MemberRange<'_, '_>,
    right: MemberRange<'_, '_>,
) -> Result<bool, AllocError>
    ensures { IfOk result (λ b. b ≡ spec.same_members (members (range_entries left.entry))
        (members (range_entries right.entry))) }
{
    if left.len() != right.len() {
        return Ok(false);
    }
    let mut ones = left;
    let mut others = right;
    while let Some((one, behind)) = ones.split_first() {
        match others.split_first() {
            Some((other, behind_other)) => {
                if !same_text(one.name, other.name)
                    || !same_kind(alloc, one.value.kind(), other.value.kind())?
                {
                    return Ok(false);
                }
                ones = behind;
                others = behind_other;
            }
            None => return Ok(false),
        }
    }
    Ok(others.split_first().is_none())
}

fn is_equal(
    alloc: Global,
    left: Option<Kind<'_>>,
    right: Option<Kind<'_>>,
) -> Result<bool, AllocError>
    ensures { IfOk result (λ b. b ≡ spec.eq (given_value left.entry) (given_value right.entry)) }
{
    match (left, right) {
        (None, None) => Ok(true),
        (Some(left), Some(right)) => same_kind(alloc, left, right),
        _ => Ok(false),
    }
}

#[tactic(auto, using(jp_number::proofs::Order::whole_below))]
fn is_less(left: Option<Kind<'_>>, right: Option<Kind<'_>>) -> bool
    ensures { result ≡ spec.lt (given_value left.entry) (given_value right.entry) }
{
    match (left, right) {
        (Some(Kind::Whole(x)), Some(Kind::Whole(y))) => x < y,
        (Some(Kind::Whole(x)), Some(Kind::Written(y))) => {
            Number::Whole(x).is_below(Number::Written(y))
        }
        (Some(Kind::Written(x)), Some(Kind::Whole(y))) => {
            Number::Written(x).is_below(Number::Whole(y))
        }
        (Some(Kind::Written(x)), Some(Kind::Written(y))) => {
            Number::Written(x).is_below(Number::Written(y))
        }
        (Some(Kind::Text(x)), Some(Kind::Text(y))) => is_text_below(x, y),
        _ => false,
    }
}

/// Whether the comparison of two whole numbers is true.
#[tactic(auto, using(jp_number::proofs::Order::whole_equal, jp_number::proofs::Order::whole_below))]
fn compare_whole(operator: Operator, left: i128, right: i128) -> bool
    ensures { result ≡ spec.compared operator (Some (number (whole left))) (Some (number (whole right))) }
{
    match operator {
        Operator::Eq => left == right,
        Operator::Ne => left != right,
        Operator::Lt => left < right,
        Operator::Le => left < right || left == right,
        Operator::Gt => right < left,
        Operator::Ge => right < left || right == left,
    }
}

/// Whether the comparison of two texts is true.
fn compare_texts(operator: Operator, left: &str, right: &str) -> bool
    ensures { result ≡ spec.compared operator (Some (text (chars left.now))) (Some (text (chars right.now))) }
{
    match operator {
        Operator::Eq => same_text(left, right),
        Operator::Ne => !same_text(left, right),
        Operator::Lt => is_text_below(left, right),
        Operator::Le => is_text_below(left, right) || same_text(left, right),
        Operator::Gt => is_text_below(right, left),
        Operator::Ge => is_text_below(right, left) || same_text(right, left),
    }
}

/// Whether the comparison of two values, or of nothing, is true (RFC 9535, 2.3.5.2.2).
///
/// It takes memory only where two objects are compared: for their members, side by side. `AllocError` if a
/// growth was refused.
pub fn compare_kinds(
    alloc: Global,
    operator: Operator,
    left: Option<Kind<'_>>,
    right: Option<Kind<'_>>,
) -> Result<bool, AllocError>
    ensures { IfOk result (λ b. b ≡ spec.compared operator (given_value left.entry)
        (given_value right.entry)) }
{
    // Most comparisons are of two whole numbers, or of two texts.
    match (left, right) {
        (Some(Kind::Whole(x)), Some(Kind::Whole(y))) => Ok(compare_whole(operator, x, y)),
        (Some(Kind::Text(x)), Some(Kind::Text(y))) => Ok(compare_texts(operator, x, y)),
        _ => compare_others(alloc, operator, left, right),
    }
}

/// The same, of any two.
fn compare_others(
    alloc: Global,
    operator: Operator,
    left: Option<Kind<'_>>,
    right: Option<Kind<'_>>,
) -> Result<bool, AllocError>
    ensures { IfOk result (λ b. b ≡ spec.compared operator (given_value left.entry)
        (given_value right.entry)) }
{
    match operator {
        Operator::Eq => is_equal(alloc, left, right),
        Operator::Ne => Ok(!is_equal(alloc, left, right)?),
        Operator::Lt => Ok(is_less(left, right)),
        // `<` before `==`: it takes no memory, and goes into no value.
        Operator::Le => Ok(is_less(left, right) || is_equal(alloc, left, right)?),
        Operator::Gt => Ok(is_less(right, left)),
        Operator::Ge => Ok(is_less(right, left) || is_equal(alloc, right, left)?),
    }
}
