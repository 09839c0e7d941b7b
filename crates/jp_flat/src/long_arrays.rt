//! Whether an array of a value is too long.
//!
//! Most lines have fewer nodes than an array may have items: then nothing is counted.

ghost use Rattle.std.specs.Prelude.{◌≡◌, IfOk};
ghost use Rattle.jp_doc.specs.Json.{Items, array, object};
ghost use Rattle.jp_doc.specs.Reading.{max_items, has_long_array, items_have_long_array};
ghost use Rattle.jp_flat.specs.Gathered.{gathered};
ghost use Rattle.jp_flat.specs.Value.{flat_value, items_value, members_value};

use crate::value::{FlatItems, FlatKind, FlatMember, FlatMembers, FlatValue};
use jp_doc::MAX_ITEMS;
use std::alloc::{AllocError, Global};

/// Whether some array in the value, however deep, has more than 16,777,216 items.
///
/// `AllocError` if a growth was refused.
#[cycle(long_arrays)]
pub(crate) fn has_long_array(alloc: Global, value: FlatValue<'_>) -> Result<bool, AllocError>
    ensures { IfOk result (λ b. b ≡ has_long_array max_items (flat_value value.entry)) }
{
    if value.node_count() <= MAX_ITEMS {
        return Ok(false);
    }
    match value.kind() {
        FlatKind::Array(items) => Ok(
            items.count() as usize > MAX_ITEMS || is_long_in_items(alloc, items)?,
        ),
        FlatKind::Object(members) => is_long_in_members(alloc, members),
        FlatKind::Null | FlatKind::Truth(_) | FlatKind::Number(_) | FlatKind::Text(_) => Ok(false),
    }
}

/// The same of the items of an array.
#[cycle(long_arrays)]
fn is_long_in_items(alloc: Global, items: FlatItems<'_>) -> Result<bool, AllocError>
    ensures { IfOk result (λ b. (vs : Items) → items_value items.entry ≡ array vs
        → b ≡ items_have_long_array max_items vs) }
{
    let mut left = items;
    while let Some((item, others)) = left.split_first() {
        if has_long_array(alloc, item)? {
            return Ok(true);
        }
        left = others;
    }
    Ok(false)
}

/// The same of the members of an object, each name once: what a later member covers does not count.
#[cycle(long_arrays)]
fn is_long_in_members(alloc: Global, members: FlatMembers<'_>) -> Result<bool, AllocError>
    ensures { IfOk result (λ b. b ≡ has_long_array max_items (members_value members.entry)) }
{
    let mut list = Vec::new(alloc);
    members.gather(&mut list)?;
    is_long_in_list(alloc, list.as_slice())
}

/// The same of members as they are listed.
#[cycle(long_arrays)]
fn is_long_in_list(alloc: Global, list: &[FlatMember<'_>]) -> Result<bool, AllocError>
    ensures { IfOk result (λ b. b ≡ has_long_array max_items (object (gathered list.now))) }
{
    for member in list {
        if has_long_array(alloc, member.value)? {
            return Ok(true);
        }
    }
    Ok(false)
}
