//! Comparison (RFC 9535, 2.3.5.2.2).

ghost use Rattle.std.specs.Prelude.{◌≡◌, false};
ghost use Rattle.serde_json.specs.View.{view, items_view, members_view};
ghost use Rattle.serde_json.specs.Written.{has_float, items_have_float, members_have_float};
ghost use Rattle.std.specs.Ordering.{is_lt};
ghost use Rattle.std.specs.Str.{chars};
ghost use Rattle.jp_doc.specs.Json.{text_eq, text_cmp, value_of, items_of, members_of};
ghost use Rattle.jp_value.specs.Comparison as spec;
ghost use Rattle.jp_value.specs.Operands.{operand_value, HasWholeNumbers, IsPlain};

use jp_doc::whole_of;
use serde_json::{Map, Value};

/// A comparable value, or nothing.
#[derive(Clone, Copy)]
pub enum Operand<'a> {
    /// Nothing, as of a query that selects no node.
    Nothing,
    /// `null`
    Null,
    /// `true` or `false`.
    Truth(bool),
    /// A whole number.
    Whole(i128),
    /// A text.
    Text(&'a str),
    /// A value whose numbers are all whole.
    Lent(&'a Value),
}

pub(crate) fn same_text(left: &str, right: &str) -> bool
    ensures { result ≡ text_eq (chars left.now) (chars right.now) }
{
    left == right
}

pub(crate) fn is_text_below(left: &str, right: &str) -> bool
    ensures { result ≡ is_lt (text_cmp (chars left.now) (chars right.now)) }
{
    left < right
}

/// Whether two values are deeply equal.
#[cycle(same)]
fn same(left: &Value, right: &Value) -> bool
    requires left { has_float (view left.now) ≡ false }
    requires right { has_float (view right.now) ≡ false }
    ensures { result ≡ spec.same (value_of left.now) (value_of right.now) }
{
    match (left, right) {
        (Value::Null, Value::Null) => true,
        (Value::Bool(x), Value::Bool(y)) => *x == *y,
        (Value::Number(x), Value::Number(y)) => whole_of(x) == whole_of(y),
        (Value::String(x), Value::String(y)) => same_text(x.as_str(), y.as_str()),
        (Value::Array(x), Value::Array(y)) => same_items(x, y),
        (Value::Object(x), Value::Object(y)) => same_members(x, y),
        _ => false,
    }
}

#[cycle(same)]
fn same_items(left: &Vec<Value>, right: &Vec<Value>) -> bool
    requires left { items_have_float (items_view left.now.items) ≡ false }
    requires right { items_have_float (items_view right.now.items) ≡ false }
    ensures { result ≡ spec.same_items (items_of (items_view left.now.items))
        (items_of (items_view right.now.items)) }
{
    let mut others = right.iter();
    for item in left {
        match others.next() {
            Some(other) => {
                if !same(item, other) {
                    return false;
                }
            }
            None => return false,
        }
    }
    others.next().is_none()
}

#[cycle(same)]
fn same_members(left: &Map<String, Value>, right: &Map<String, Value>) -> bool
    requires left { members_have_float (members_view left.now.entries) ≡ false }
    requires right { members_have_float (members_view right.now.entries) ≡ false }
    ensures { result ≡ spec.same_members (members_of (members_view left.now.entries))
        (members_of (members_view right.now.entries)) }
{
    let mut others = right.iter();
    for (name, member) in left.iter() {
        match others.next() {
            Some((other_name, other)) => {
                if !same_text(name.as_str(), other_name.as_str()) || !same(member, other) {
                    return false;
                }
            }
            None => return false,
        }
    }
    others.next().is_none()
}

/// The same operand, where what is lent is an array or an object.
fn plain(operand: Operand<'_>) -> Operand<'_>
    requires { HasWholeNumbers operand }
    ensures value { operand_value result ≡ operand_value operand.entry }
    ensures whole { HasWholeNumbers result }
    ensures plain { IsPlain result }
{
    match operand {
        Operand::Lent(Value::Null) => Operand::Null,
        Operand::Lent(Value::Bool(b)) => Operand::Truth(*b),
        Operand::Lent(Value::Number(n)) => Operand::Whole(whole_of(n)),
        Operand::Lent(Value::String(s)) => Operand::Text(s.as_str()),
        other => other,
    }
}

#[tactic(auto, using(jp_number::proofs::Order::whole_equal))]
fn same_plain(left: Operand<'_>, right: Operand<'_>) -> bool
    requires left { HasWholeNumbers left }
    requires left_plain { IsPlain left }
    requires right { HasWholeNumbers right }
    requires right_plain { IsPlain right }
    ensures { result ≡ spec.eq (operand_value left.entry) (operand_value right.entry) }
{
    match (left, right) {
        (Operand::Nothing, Operand::Nothing) => true,
        (Operand::Null, Operand::Null) => true,
        (Operand::Truth(x), Operand::Truth(y)) => x == y,
        (Operand::Whole(x), Operand::Whole(y)) => x == y,
        (Operand::Text(x), Operand::Text(y)) => same_text(x, y),
        (Operand::Lent(x), Operand::Lent(y)) => same(x, y),
        _ => false,
    }
}

#[tactic(auto, using(jp_number::proofs::Order::whole_below))]
fn less_plain(left: Operand<'_>, right: Operand<'_>) -> bool
    requires left { IsPlain left }
    requires right { IsPlain right }
    ensures { result ≡ spec.lt (operand_value left.entry) (operand_value right.entry) }
{
    match (left, right) {
        (Operand::Whole(x), Operand::Whole(y)) => x < y,
        (Operand::Text(x), Operand::Text(y)) => is_text_below(x, y),
        _ => false,
    }
}

/// Whether `left == right`: two nothings, or two values that are deeply equal (RFC 9535, 2.3.5.2.2).
///
/// All numbers of a lent value are whole. It takes no memory.
pub fn equal(left: Operand<'_>, right: Operand<'_>) -> bool
    requires left { HasWholeNumbers left }
    requires right { HasWholeNumbers right }
    ensures { result ≡ spec.eq (operand_value left.entry) (operand_value right.entry) }
{
    same_plain(plain(left), plain(right))
}

/// Whether `left < right`: of two numbers, or of two texts by their scalar values (RFC 9535, 2.3.5.2.2).
///
/// All numbers of a lent value are whole. It takes no memory.
pub fn less(left: Operand<'_>, right: Operand<'_>) -> bool
    requires left { HasWholeNumbers left }
    requires right { HasWholeNumbers right }
    ensures { result ≡ spec.lt (operand_value left.entry) (operand_value right.entry) }
{
    less_plain(plain(left), plain(right))
}
