//! Limits of lines and documents, and what may be wrong with a value that was read from a line.

ghost use Rattle.std.specs.Prelude.{◌≡◌};
ghost use Rattle.serde_json.specs.View.{view, items_view, members_view};
ghost use Rattle.serde_json.specs.Written.{has_float, items_have_float, members_have_float};
ghost use Rattle.jp_doc.specs.Json.{value_of, items_of, members_of};
ghost use Rattle.jp_doc.specs.Reading.{fault_of, has_long_array, items_have_long_array};
ghost use Rattle.jp_doc.specs.Reading.{members_have_long_array};
ghost use Rattle.jp_doc.specs.inner.Limits.{tested};

use crate::fault::DocFault;
use serde_json::{Map, Value};

/// The greatest number of bytes in a line. A reader may set limits (RFC 8259, 9): under this one a place in a
/// line has 32 bits.
pub const MAX_LINE: usize = 268_435_456;

/// The greatest number of items in an array: under this limit an index has 32 bits, from the end too.
pub const MAX_ITEMS: usize = 16_777_216;

/// The number of bytes of a line behind which those who keep buffers let them go: 1 MB, so that one long line
/// does not hold its memory as long as short ones follow.
pub const LONG_LINE: usize = 1_000_000;

/// What is wrong with a value, however deep: `NotWhole` if some number is no whole number of 64 bits, or else
/// `LongArray` if some array has more than `limit` items.
pub fn fault_within(value: &Value, limit: usize) -> Option<DocFault>
    ensures fault { result ≡ fault_of limit (view value.now) }
{
    match long_within(value, limit) {
        Ok(false) => None,
        Ok(true) => Some(DocFault::LongArray),
        Err(fault) => Some(fault),
    }
}

/// Whether some array, however deep, has more than `limit` items.
///
/// `NotWhole` where some number, however deep, is not whole.
#[cycle(limits)]
fn long_within(value: &Value, limit: usize) -> Result<bool, DocFault>
    ensures long { result ≡ tested (has_float (view value.now)) (has_long_array limit (value_of value.now)) }
{
    match value {
        Value::Null | Value::Bool(_) | Value::String(_) => Ok(false),
        Value::Number(number) if number.is_f64() => Err(DocFault::NotWhole),
        Value::Number(_) => Ok(false),
        // The items first: a number that is not whole is told before a long array, wherever it stands
        // (README, One walk tests arrays and numbers).
        Value::Array(items) => Ok(long_within_items(items, limit)? || items.len() > limit),
        Value::Object(members) => long_within_members(members, limit),
    }
}

/// The same of the items of an array.
#[cycle(limits)]
fn long_within_items(items: &Vec<Value>, limit: usize) -> Result<bool, DocFault>
    ensures long { result ≡ tested (items_have_float (items_view items.now.items))
        (items_have_long_array limit (items_of (items_view items.now.items))) }
{
    let mut long = false;
    for item in items {
        long |= long_within(item, limit)?;
    }
    Ok(long)
}

/// The same of the members of an object.
#[cycle(limits)]
fn long_within_members(members: &Map<String, Value>, limit: usize) -> Result<bool, DocFault>
    ensures long { result ≡ tested (members_have_float (members_view members.now.entries))
        (members_have_long_array limit (members_of (members_view members.now.entries))) }
{
    let mut long = false;
    for (_, member) in members.iter() {
        long |= long_within(member, limit)?;
    }
    Ok(long)
}
