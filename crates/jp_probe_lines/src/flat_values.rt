//! Flat values by their calls: `{"flat_value":{"line":"{\"b\":[1]}","member":"b"}}`; and lines that are one
//! byte off: `{"one_byte_off":{"line":"[1]","bytes":"hex:00ff"}}`.

use crate::lines::{Alike, in_one_pass, is_read_alike};
use jp_doc::Document;
use jp_flat::{FlatDocument, FlatKind, FlatMember, FlatValue, LineReader};
use jp_number::Numbers;
use jp_probe_parts::{Row, bytes_of};
use serde::Serialize;
use std::alloc::{AllocError, Global};

/// What a value is by itself.
#[derive(Drop, Serialize)]
struct ScalarAnswer {
    kind: &'static str,
    /// The text of a number as it stands in the line.
    digits: Option<String>,
    text: Option<String>,
    whole: Option<i128>,
    /// How many items it has.
    item_count: u32,
}

/// What is said of a value.
#[derive(Drop, Serialize)]
struct FlatAnswer {
    value: ScalarAnswer,
    /// The items by their places, and what is at the place behind them.
    items: Vec<Option<ScalarAnswer>>,
    /// The items one by one.
    one_by_one: Vec<ScalarAnswer>,
    /// The names of the members as they stand, with spaces between them.
    names: String,
    /// The names as they rise, of all and of those behind the first.
    rising: String,
    behind: String,
}

/// The answer to what is asked of a value, or `null` where the line has a fault, or no such member.
/// The line is read once before: where that is refused, it is read again by the same reader.
pub fn answer_flat_value(alloc: Global, row: Row<'_>) -> anyhow::Result<String> {
    row.has_only(&["line", "member", "decimals"])?;
    let line = row.text("line")?.as_bytes();
    // The member of the root that is asked, or else the root.
    let member = row.text_if_any("member")?;
    // The line's numbers may be any, or are whole.
    let numbers = if row.flag("decimals")? {
        Numbers::Decimals
    } else {
        Numbers::Whole
    };
    let mut reader = LineReader::new(alloc);
    let _was_refused = reader.read(numbers, line).is_err();
    match reader.read(numbers, line)? {
        Ok(document) => told(alloc, &document, member),
        _ => nothing(alloc),
    }
}

/// What is said of the value in this document.
fn told(
    alloc: Global,
    document: &FlatDocument<'_>,
    member: Option<&str>,
) -> anyhow::Result<String> {
    let value = match member {
        Some(name) => document.root().member(name),
        None => Some(document.root()),
    };
    match value {
        Some(value) => Ok(serde_json::to_string(alloc, &flat_answer(alloc, value)?)?),
        None => nothing(alloc),
    }
}

/// The answer where there is nothing.
fn nothing(alloc: Global) -> anyhow::Result<String> {
    Ok(serde_json::to_string(alloc, &None::<bool>)?)
}

/// What is said of a value.
fn flat_answer(alloc: Global, value: FlatValue<'_>) -> Result<FlatAnswer, AllocError> {
    Ok(FlatAnswer {
        value: scalar_of(alloc, value)?,
        items: items_of(alloc, value)?,
        one_by_one: one_by_one(alloc, value)?,
        names: names_of(alloc, value)?,
        rising: rising_of(alloc, value)?,
        behind: behind_first(alloc, value)?,
    })
}

/// What a value is by itself.
fn scalar_of(alloc: Global, value: FlatValue<'_>) -> Result<ScalarAnswer, AllocError> {
    let kind = value.kind();
    let digits = match kind {
        FlatKind::Number(number) => Some(String::from_str(alloc, number.digits())?),
        _ => None,
    };
    let text = match value.text() {
        Some(text) => Some(String::from_str(alloc, text)?),
        None => None,
    };
    Ok(ScalarAnswer {
        kind: kind_name(kind),
        digits,
        text,
        whole: value.whole(),
        item_count: value.item_count(),
    })
}

fn kind_name(kind: FlatKind<'_>) -> &'static str {
    match kind {
        FlatKind::Null => "null",
        FlatKind::Truth(_) => "truth",
        FlatKind::Number(_) => "number",
        FlatKind::Text(_) => "text",
        FlatKind::Array(_) => "array",
        FlatKind::Object(_) => "object",
    }
}

/// The items by their places, and what is at the place behind them.
fn items_of(alloc: Global, value: FlatValue<'_>) -> Result<Vec<Option<ScalarAnswer>>, AllocError> {
    let mut items = Vec::new(alloc);
    for place in 0..=value.item_count() {
        items.push(match value.item(place) {
            Some(item) => Some(scalar_of(alloc, item)?),
            None => None,
        })?;
    }
    Ok(items)
}

/// The items one by one.
fn one_by_one(alloc: Global, value: FlatValue<'_>) -> Result<Vec<ScalarAnswer>, AllocError> {
    let mut answers = Vec::new(alloc);
    let mut left = value.items();
    for _ in 0..=value.item_count() {
        left = match left.and_then(|items| items.split_first()) {
            Some((item, others)) => {
                answers.push(scalar_of(alloc, item)?)?;
                Some(others)
            }
            None => None,
        };
    }
    Ok(answers)
}

/// The names of the members as they stand.
fn names_of(alloc: Global, value: FlatValue<'_>) -> Result<String, AllocError> {
    let mut names = String::new(alloc);
    let mut left = value.members();
    for _ in 0..value.node_count() {
        left = match left.and_then(|members| members.split_first()) {
            Some((member, others)) => {
                push_name(&mut names, member.name)?;
                Some(others)
            }
            None => None,
        };
    }
    Ok(names)
}

/// The names of the members as they rise.
fn rising_of(alloc: Global, value: FlatValue<'_>) -> Result<String, AllocError> {
    let mut gathered = Vec::new(alloc);
    if let Some(members) = value.members() {
        members.gather(&mut gathered)?;
    }
    names_in(alloc, &gathered)
}

/// The names as they rise of the members behind the first.
fn behind_first(alloc: Global, value: FlatValue<'_>) -> Result<String, AllocError> {
    let mut gathered = Vec::new(alloc);
    if let Some((_, others)) = value.members().and_then(|members| members.split_first()) {
        others.gather(&mut gathered)?;
    }
    names_in(alloc, &gathered)
}

/// The names of these members.
fn names_in(alloc: Global, members: &[FlatMember<'_>]) -> Result<String, AllocError> {
    let mut names = String::new(alloc);
    for member in members {
        push_name(&mut names, member.name)?;
    }
    Ok(names)
}

/// Adds a name, behind a space where it is not the first.
fn push_name(names: &mut String, name: &str) -> Result<(), AllocError> {
    if !names.is_empty() {
        names.push(' ')?;
    }
    names.push_str(name)
}

/// How many lines were read, and those that were not read as without the reader of one pass.
#[derive(Drop, Serialize)]
struct OneByteOffAnswer {
    tried: u64,
    wrong: Vec<Vec<u8>>,
}

/// The answer to a line, and the bytes of which each stands in the place of each of its own.
pub fn answer_one_byte_off(alloc: Global, row: Row<'_>) -> anyhow::Result<String> {
    row.has_only(&["line", "bytes"])?;
    let line = row.text("line")?.as_bytes();
    let bytes = bytes_of(alloc, row.text("bytes")?)?;
    let mut answer = OneByteOffAnswer {
        tried: 0,
        wrong: Vec::new(alloc),
    };
    for at in 0..line.len() {
        try_place(alloc, line, at, &bytes, &mut answer)?;
    }
    Ok(serde_json::to_string(alloc, &answer)?)
}

/// Tries the line with each of these bytes there.
fn try_place(
    alloc: Global,
    line: &[u8],
    at: usize,
    bytes: &[u8],
    answer: &mut OneByteOffAnswer,
) -> anyhow::Result<()> {
    for byte in bytes {
        let mut tried = Vec::from_slice(alloc, line)?;
        if let Some(place) = tried.get_mut(at) {
            *place = *byte;
        }
        answer.tried = answer.tried.wrapping_add(1);
        if !is_read_right(alloc, &tried)? {
            answer.wrong.push(tried)?;
        }
    }
    Ok(())
}

/// Whether a line is read flat where it holds a document, and as that.
fn is_read_right(alloc: Global, line: &[u8]) -> anyhow::Result<bool> {
    let (whole, decimal) = in_one_pass(alloc, line)?;
    if whole == Alike::Unlike || decimal == Alike::Unlike {
        return Ok(false);
    }
    let mut reader = LineReader::new(alloc);
    let told = is_read_alike(alloc, &mut reader, line)?;
    if Document::read(alloc, line).is_ok() {
        Ok(told == Alike::Alike)
    } else {
        Ok(told == Alike::Left)
    }
}
