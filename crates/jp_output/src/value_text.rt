//! The compact text of a value (RFC 8259), appended piece by piece.

ghost use Rattle.std.specs.Prelude.{◌≡◌, ◌++◌, ◌∷◌, [], OnOk};
ghost use Rattle.std.specs.Str.{chars};
ghost use Rattle.jp_doc.specs.Json.{Items, array, object};
ghost use Rattle.jp_flat.specs.Gathered.{gathered};
ghost use Rattle.jp_flat.specs.Value.{flat_value, items_value, members_value};
ghost use Rattle.jp_output.specs.OutputLine.{quoted_text, value_text};
ghost use Rattle.jp_node.specs.Appended.{Extends};
ghost use Rattle.serde_json.specs.Written.{comma_if};

use crate::scalar_text::{append_null, append_quoted, append_truth};
use jp_flat::{FlatItems, FlatKind, FlatMember, FlatMembers, FlatValue, MEMBERS_AT_FIRST};
use std::alloc::{AllocError, Global};

/// Appends the compact text of a value.
///
/// Texts that stand in the line as they are printed are copied; those that need escapes are made in the
/// scratch buffer. The members of each object are gathered in a list, since they are written in rising order
/// of their names.
#[cycle(append_value)]
pub(crate) fn append_value(
    alloc: Global,
    value: FlatValue<'_>,
    scratch: &mut Vec<u8>,
    out: &mut Vec<u8>,
) -> Result<(), AllocError>
    ensures ok { OnOk result (out.new.items ≡ out.old.items ++ value_text (flat_value value.entry)) }
    ensures kept { Extends out.old.items out.new.items }
{
    if let Some(text) = value.quoted() {
        return out.extend_from_slice(text);
    }
    match value.kind() {
        FlatKind::Null => append_null(out),
        FlatKind::Truth(truth) => append_truth(truth, out),
        FlatKind::Number(number) => out.extend_from_slice(number.digits().as_bytes()),
        FlatKind::Text(text) => append_quoted(alloc, text, scratch, out),
        FlatKind::Array(items) => append_items(alloc, items, scratch, out),
        FlatKind::Object(members) => append_members(alloc, members, scratch, out),
    }
}

/// Appends the name of a member, and the colon.
fn append_name(
    alloc: Global,
    member: FlatMember<'_>,
    scratch: &mut Vec<u8>,
    out: &mut Vec<u8>,
) -> Result<(), AllocError>
    ensures ok { OnOk result (out.new.items
        ≡ out.old.items ++ (quoted_text (chars member.entry.name.now) ++ 58 ∷ [])) }
    ensures kept { Extends out.old.items out.new.items }
{
    match member.quoted_name() {
        Some(name) => out.extend_from_slice(name),
        None => {
            append_quoted(alloc, member.name, scratch, out)?;
            out.push(b':')?;
            Ok(())
        }
    }
}

/// Appends a comma, where something stands before.
fn append_comma(later: bool, out: &mut Vec<u8>) -> Result<(), AllocError>
    ensures ok { OnOk result (out.new.items ≡ out.old.items ++ comma_if later) }
    ensures kept { Extends out.old.items out.new.items }
{
    if later {
        out.push(b',')?;
    }
    Ok(())
}

/// Appends the items of an array between brackets.
#[cycle(append_value)]
fn append_items(
    alloc: Global,
    items: FlatItems<'_>,
    scratch: &mut Vec<u8>,
    out: &mut Vec<u8>,
) -> Result<(), AllocError>
    requires { (vs : Items) × (items_value items ≡ array vs) }
    ensures ok { OnOk result (out.new.items ≡ out.old.items ++ value_text (items_value items.entry)) }
    ensures kept { Extends out.old.items out.new.items }
{
    out.push(b'[')?;
    let mut later = false;
    let mut left = items;
    while let Some((item, others)) = left.split_first() {
        append_comma(later, out)?;
        append_value(alloc, item, scratch, out)?;
        later = true;
        left = others;
    }
    out.push(b']')?;
    Ok(())
}

/// Appends the members of an object between braces.
#[cycle(append_value)]
fn append_members(
    alloc: Global,
    members: FlatMembers<'_>,
    scratch: &mut Vec<u8>,
    out: &mut Vec<u8>,
) -> Result<(), AllocError>
    ensures ok { OnOk result (out.new.items ≡ out.old.items ++ value_text (members_value members.entry)) }
    ensures kept { Extends out.old.items out.new.items }
{
    let mut list = Vec::with_capacity(alloc, MEMBERS_AT_FIRST)?;
    members.gather(&mut list)?;
    append_list(alloc, list.as_slice(), scratch, out)
}

/// Appends members as they are listed, between braces.
#[cycle(append_value)]
fn append_list(
    alloc: Global,
    list: &[FlatMember<'_>],
    scratch: &mut Vec<u8>,
    out: &mut Vec<u8>,
) -> Result<(), AllocError>
    ensures ok { OnOk result (out.new.items ≡ out.old.items ++ value_text (object (gathered list.now))) }
    ensures kept { Extends out.old.items out.new.items }
{
    out.push(b'{')?;
    let mut later = false;
    for member in list {
        append_comma(later, out)?;
        append_name(alloc, *member, scratch, out)?;
        append_value(alloc, member.value, scratch, out)?;
        later = true;
    }
    out.push(b'}')?;
    Ok(())
}
