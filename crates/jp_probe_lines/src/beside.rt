//! Flat values beside the values of trees, by each call of both.

use jp_doc::whole_number;
use jp_flat::{FlatItems, FlatKind, FlatMembers, FlatValue};
use serde_json::{Map, Value};
use std::alloc::{AllocError, Global};

/// Whether two values look the same, with no look inside of them.
fn look_alike(left: FlatValue<'_>, right: FlatValue<'_>) -> bool {
    (left.whole(), left.text()) == (right.whole(), right.text())
        && left.item_count() == right.item_count()
}

/// Whether the items are those of the tree, one by one and by their places.
#[cycle(beside)]
fn same_items(
    alloc: Global,
    flat: FlatValue<'_>,
    items: FlatItems<'_>,
    tree: &Vec<Value>,
    levels: u32,
) -> Result<bool, AllocError> {
    let mut left = items;
    let mut place: u32 = 0;
    for value in tree.iter() {
        let (Some((first, others)), Some(item)) = (left.split_first(), flat.item(place)) else {
            return Ok(false);
        };
        if !same(alloc, first, value, levels)? || !look_alike(first, item) {
            return Ok(false);
        }
        place = place.wrapping_add(1);
        left = others;
    }
    let ended = left.split_first().is_none() && flat.item(place).is_none();
    Ok(ended && flat.item_count() == place)
}

/// Whether the members are those of the tree, in rising order and by their names.
#[cycle(beside)]
fn same_members(
    alloc: Global,
    flat: FlatValue<'_>,
    members: FlatMembers<'_>,
    tree: &Map<String, Value>,
    levels: u32,
) -> Result<bool, AllocError> {
    let mut gathered = Vec::new(alloc);
    members.gather(&mut gathered)?;
    let mut left = gathered.iter();
    for (name, value) in tree.iter() {
        let (Some(member), Some(found)) = (left.next(), flat.member(name.as_str())) else {
            return Ok(false);
        };
        if member.name != name.as_str()
            || !same(alloc, member.value, value, levels)?
            || !look_alike(member.value, found)
        {
            return Ok(false);
        }
    }
    Ok(left.next().is_none() && flat.member("no such name").is_none())
}

/// Whether a flat value is the tree's, down to so many levels.
#[cycle(beside)]
pub fn same(
    alloc: Global,
    flat: FlatValue<'_>,
    tree: &Value,
    levels: u32,
) -> Result<bool, AllocError> {
    if levels == 0 {
        return Ok(false);
    }
    if flat.text() != tree.as_str() || flat.whole() != whole_number(tree) {
        return Ok(false);
    }
    match (flat.kind(), tree) {
        (FlatKind::Null, Value::Null) => Ok(true),
        (FlatKind::Truth(truth), Value::Bool(expected)) => Ok(truth == *expected),
        (FlatKind::Number(number), Value::Number(_)) => {
            let Some(same) = flat.number() else {
                return Ok(false);
            };
            let text = tree.to_string(alloc)?;
            Ok(same.is_equal(number.value()) && text.as_str() == number.digits())
        }
        (FlatKind::Text(text), Value::String(expected)) => {
            Ok(flat.number().is_none() && text == expected.as_str())
        }
        (FlatKind::Array(items), Value::Array(expected)) => {
            let alike = same_items(alloc, flat, items, expected, levels - 1)?;
            Ok(alike && flat.items().is_some() && flat.members().is_none())
        }
        (FlatKind::Object(members), Value::Object(expected)) => {
            let alike = same_members(alloc, flat, members, expected, levels - 1)?;
            Ok(alike && flat.members().is_some() && flat.items().is_none())
        }
        _ => Ok(false),
    }
}
