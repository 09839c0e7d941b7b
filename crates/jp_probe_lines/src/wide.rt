//! Objects of few names and of many: `{"wide":{"count":3,"step":2,"twice":true}}` is 3, where all members
//! come in an order that rises, each with its number.

use jp_flat::{FlatMember, LineReader};
use jp_number::Numbers;
use jp_probe_parts::Row;
use std::alloc::{AllocError, Global};

/// The answer: how many members came so, or `null` where one did not, or the line has a fault. The object
/// has all names below the count, each the step further than the one before, and each twice where that
/// is asked.
pub fn answer_wide(alloc: Global, row: Row<'_>) -> anyhow::Result<String> {
    row.has_only(&["count", "step", "twice"])?;
    let count = u32::try_from(row.number("count")?)?;
    let step = u32::try_from(row.number("step")?)?;
    let line = line_of(alloc, count, step, row.flag("twice")?)?;
    let mut reader = LineReader::new(alloc);
    let risen = risen_in(alloc, &mut reader, &line)?;
    Ok(serde_json::to_string(alloc, &risen)?)
}

/// The line of the object.
fn line_of(alloc: Global, count: u32, step: u32, is_twice: bool) -> Result<Vec<u8>, AllocError> {
    let mut line = Vec::new(alloc);
    let mut name = 0u32;
    for _ in 0..count {
        name = name.wrapping_add(step).checked_rem(count).unwrap_or(0);
        if is_twice {
            add_member(alloc, &mut line, name, count)?;
        }
        add_member(alloc, &mut line, name, name)?;
    }
    line.push(b'}')?;
    Ok(line)
}

/// Adds a member whose name is of six digits.
fn add_member(alloc: Global, line: &mut Vec<u8>, name: u32, value: u32) -> Result<(), AllocError> {
    line.push(if line.is_empty() { b'{' } else { b',' })?;
    line.extend_from_slice(format!(in alloc; "\"{name:06}\":{value}")?.as_bytes())
}

/// How many members of the object of a line rise, each with its number.
fn risen_in(alloc: Global, reader: &mut LineReader, line: &[u8]) -> anyhow::Result<Option<u32>> {
    let Ok(document) = reader.read(Numbers::Whole, line)? else {
        return Ok(None);
    };
    let Some(members) = document.root().members() else {
        return Ok(None);
    };
    let mut gathered = Vec::new(alloc);
    members.gather(&mut gathered)?;
    Ok(risen(&gathered))
}

/// How many members rise, each with its number.
fn risen(members: &[FlatMember<'_>]) -> Option<u32> {
    let mut expected: u32 = 0;
    let mut before = "";
    for member in members {
        if member.value.whole() != Some(expected as i128) || member.name <= before {
            return None;
        }
        before = member.name;
        expected = expected.wrapping_add(1);
    }
    Some(expected)
}
