//! Values that are compared again and again: their members are put in order once.

ghost use Rattle.std.specs.Prelude.{◌≡◌, map, IfOk, Option, Some};
ghost use Rattle.jp_doc.specs.Json.{Json, array, object, items};
ghost use Rattle.jp_node.specs.Inside.{item_values, kind_value, members_in};
ghost use Rattle.jp_node.specs.Members.{members, range_entries};
ghost use Rattle.jp_value.specs.Comparison as spec;
ghost use Rattle.jp_value.specs.Kinds.{given_value};
ghost use Rattle.jp_value.specs.Operands.{IsCompound};
ghost use Rattle.jp_value.specs.Ordered.{named, ordered_value, ordered_values};

use crate::comparison::same_text;
use crate::kinds::{compare_kinds, same_kind};
use jp_node::{Items, Kind, MemberList, MemberRange, Members};
use jp_tree::Operator;
use std::alloc::{AllocError, Global};

/// A value whose objects have their members in order, each name once.
#[derive(Drop)]
pub enum Ordered<'v> {
    /// An object: as it stands in the line, its members in order, and the value of each, so again.
    Object(Members<'v>, MemberList<'v>, Vec<Ordered<'v>>),
    /// An array, item by item.
    Array(Vec<Ordered<'v>>),
    /// A value that holds no object.
    Plain(Kind<'v>),
}

/// The value, its members in order.
///
/// It takes memory only where an object is inside, or is the value. `AllocError` if a growth was refused.
pub fn order<'v>(alloc: Global, value: Kind<'v>) -> Result<Ordered<'v>, AllocError>
    ensures { IfOk result (λ o. ordered_value o ≡ kind_value value.entry) }
{
    if !holds_object(value) {
        return Ok(Ordered::Plain(value));
    }
    order_kind(alloc, value)
}

/// Whether an object is inside, or is the value.
#[cycle(holds_object)]
fn holds_object(value: Kind<'_>) -> bool {
    match value {
        Kind::Array(items) => item_holds_object(items),
        Kind::Object(_) => true,
        _ => false,
    }
}

#[cycle(holds_object)]
fn item_holds_object(list: Items<'_>) -> bool {
    let mut left = list;
    while let Some((item, others)) = left.split_first() {
        if holds_object(item.kind()) {
            return true;
        }
        left = others;
    }
    false
}

#[cycle(order_kind)]
fn order_kind<'v>(alloc: Global, value: Kind<'v>) -> Result<Ordered<'v>, AllocError>
    ensures { IfOk result (λ o. ordered_value o ≡ kind_value value.entry) }
{
    match value {
        Kind::Array(items) => order_items(alloc, items),
        Kind::Object(members) => order_members(alloc, members),
        _ => Ok(Ordered::Plain(value)),
    }
}

/// An array that holds no object keeps nothing.
#[cycle(order_kind)]
fn order_items<'v>(alloc: Global, list: Items<'v>) -> Result<Ordered<'v>, AllocError>
    ensures { IfOk result (λ o. ordered_value o ≡ array (items (item_values list.entry))) }
{
    let mut values = Vec::with_capacity(alloc, list.count() as usize)?;
    let mut is_plain = true;
    let mut left = list;
    while let Some((item, others)) = left.split_first() {
        let value = order_kind(alloc, item.kind())?;
        is_plain = is_plain && is_kind(&value);
        values.push(value)?;
        left = others;
    }
    if is_plain {
        return Ok(Ordered::Plain(Kind::Array(list)));
    }
    Ok(Ordered::Array(values))
}

/// Whether nothing of the value was put in order.
fn is_kind(value: &Ordered<'_>) -> bool {
    match value {
        Ordered::Plain(_) => true,
        _ => false,
    }
}

#[cycle(order_kind)]
fn order_members<'v>(alloc: Global, members: Members<'v>) -> Result<Ordered<'v>, AllocError>
    ensures { IfOk result (λ o. ordered_value o ≡ object (members_in members.entry)) }
{
    let list = members.gather(alloc)?;
    let values = order_values(alloc, list.range())?;
    Ok(Ordered::Object(members, list, values))
}

#[cycle(order_kind)]
fn order_values<'v>(
    alloc: Global,
    members: MemberRange<'_, 'v>,
) -> Result<Vec<Ordered<'v>>, AllocError>
    ensures { IfOk result (λ vs. ordered_values vs.items ≡ map (λ e. e.1) (range_entries members.entry)) }
{
    let mut values = Vec::with_capacity(alloc, members.len())?;
    let mut left = members;
    while let Some((member, others)) = left.split_first() {
        values.push(order_kind(alloc, member.value.kind())?)?;
        left = others;
    }
    Ok(values)
}

/// The operator that says the same of two values the other way round.
pub fn turned(operator: Operator) -> Operator
    ensures { (a b : Option Json) → spec.compared result b a ≡ spec.compared operator a b }
{
    match operator {
        Operator::Eq => Operator::Eq,
        Operator::Ne => Operator::Ne,
        Operator::Lt => Operator::Gt,
        Operator::Le => Operator::Ge,
        Operator::Gt => Operator::Lt,
        Operator::Ge => Operator::Le,
    }
}

/// Whether the comparison of a value, or of nothing, with one whose members are in order is true (RFC 9535,
/// 2.3.5.2.2).
///
/// It takes memory only for the members of objects of the first. `AllocError` if a growth was refused.
pub fn compare_ordered(
    alloc: Global,
    operator: Operator,
    left: Option<Kind<'_>>,
    right: &Ordered<'_>,
) -> Result<bool, AllocError>
    ensures { IfOk result (λ b. b ≡ spec.compared operator (given_value left.entry)
        (Some (ordered_value right.now))) }
{
    match right {
        Ordered::Plain(right) => compare_kinds(alloc, operator, left, Some(*right)),
        Ordered::Array(_) => compare_compound(alloc, operator, left, right),
        Ordered::Object(_, _, _) => compare_compound(alloc, operator, left, right),
    }
}

/// The same of an array or an object, which is below nothing, and above nothing.
#[tactic(auto, using(crate::proofs::OrderedValues::at_most, crate::proofs::OrderedValues::at_least))]
fn compare_compound(
    alloc: Global,
    operator: Operator,
    left: Option<Kind<'_>>,
    right: &Ordered<'_>,
) -> Result<bool, AllocError>
    requires { IsCompound (ordered_value right.now) }
    ensures { IfOk result (λ b. b ≡ spec.compared operator (given_value left.entry)
        (Some (ordered_value right.now))) }
{
    match operator {
        Operator::Eq => is_ordered(alloc, left, right),
        Operator::Ne => Ok(!is_ordered(alloc, left, right)?),
        Operator::Lt => Ok(false),
        Operator::Le => is_ordered(alloc, left, right),
        Operator::Gt => Ok(false),
        Operator::Ge => is_ordered(alloc, left, right),
    }
}

/// Whether there is a value, and it is deeply equal.
fn is_ordered(
    alloc: Global,
    left: Option<Kind<'_>>,
    right: &Ordered<'_>,
) -> Result<bool, AllocError>
    ensures { IfOk result (λ b. b ≡ spec.eq (given_value left.entry) (Some (ordered_value right.now))) }
{
    match left {
        None => Ok(false),
        Some(left) => same_ordered(alloc, left, right),
    }
}

#[cycle(same_ordered)]
fn same_ordered(alloc: Global, left: Kind<'_>, right: &Ordered<'_>) -> Result<bool, AllocError>
    ensures { IfOk result (λ b. b ≡ spec.same (kind_value left.entry) (ordered_value right.now)) }
{
    match (left, right) {
        (_, Ordered::Plain(right)) => same_kind(alloc, left, *right),
        (Kind::Array(left), Ordered::Array(right)) => {
            same_ordered_items(alloc, left, right.as_slice())
        }
        (Kind::Object(left), Ordered::Object(members, names, values)) => {
            same_ordered_members(alloc, left, *members, names.range(), values.as_slice())
        }
        _ => Ok(false),
    }
}

#[cycle(same_ordered)]
fn same_ordered_items(
    alloc: Global,
    left: Items<'_>,
    right: &[Ordered<'_>],
) -> Result<bool, AllocError>
    ensures { IfOk result (λ b. b ≡ spec.same_items (items (item_values left.entry))
        (items (ordered_values right.now))) }
{
    let mut ones = left;
    for other in right {
        let Some((one, others)) = ones.split_first() else {
            return Ok(false);
        };
        if !same_ordered(alloc, one.kind(), other)? {
            return Ok(false);
        }
        ones = others;
    }
    Ok(ones.split_first().is_none())
}

/// Of a heavier object the names are looked for before it is listed: so it costs no more than itself, and one
/// that stands beside a much larger one too.
#[tactic(auto, using(crate::proofs::OrderedValues::apart_from_named))]
#[cycle(same_ordered)]
fn same_ordered_members(
    alloc: Global,
    left: Members<'_>,
    right: Members<'_>,
    names: MemberRange<'_, '_>,
    values: &[Ordered<'_>],
) -> Result<bool, AllocError>
    ensures { IfOk result (λ b. b ≡ spec.same_members (members_in left.entry)
        (named (range_entries names.entry) (ordered_values values.now))) }
{
    if !left.is_shorter(right) && left.has_other_name(names) {
        return Ok(false);
    }
    let left = left.gather(alloc)?;
    same_side_by_side(alloc, left.range(), names, values)
}

#[cycle(same_ordered)]
fn same_side_by_side(
    alloc: Global,
    left: MemberRange<'_, '_>,
    names: MemberRange<'_, '_>,
    values: &[Ordered<'_>],
) -> Result<bool, AllocError>
    ensures { IfOk result (λ b. b ≡ spec.same_members (members (range_entries left.entry))
        (named (range_entries names.entry) (ordered_values values.now))) }
{
    if left.len() != names.len() && names.len() == values.len() {
        return Ok(false);
    }
    let mut ones = left;
    let mut others = names;
    for value in values {
        let Some((other, behind_other)) = others.split_first() else {
            return Ok(ones.split_first().is_none());
        };
        let Some((one, behind)) = ones.split_first() else {
            return Ok(false);
        };
        if !same_text(one.name, other.name) || !same_ordered(alloc, one.value.kind(), value)? {
            return Ok(false);
        }
        ones = behind;
        others = behind_other;
    }
    Ok(ones.split_first().is_none())
}
