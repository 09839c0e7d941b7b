//! Documents that are read as trees: `{"places":{"line":"[7]","paths":[[0]]}}`, what stands where the steps
//! of each path lead, and `{"items":{"text":"[1,2,3]","limit":2}}`, the fault within a limit of an array's
//! items.

use jp_doc::{Document, fault_within, whole_number};
use jp_probe_parts::{Row, items_in, location_of};
use serde::Serialize;
use serde_json::Value;
use std::alloc::Global;

/// What stands at a place.
#[derive(Drop, Serialize)]
struct PlaceAnswer {
    /// The value, written compactly.
    value: String,
    /// The whole number that it is.
    whole: Option<i128>,
}

/// The answer to what is asked of a document's places: of each path what stands there, or `null`.
pub fn answer_places(alloc: Global, row: Row<'_>) -> anyhow::Result<String> {
    row.has_only(&["line", "paths"])?;
    let document = Document::read(alloc, row.text("line")?.as_bytes())?;
    let mut places = Vec::new(alloc);
    for path in row.items("paths")? {
        places.push(place_answer(alloc, &document, items_in(path)?)?)?;
    }
    Ok(serde_json::to_string(alloc, &places)?)
}

/// What stands where the steps lead.
fn place_answer(
    alloc: Global,
    document: &Document,
    path: &[Value],
) -> anyhow::Result<Option<PlaceAnswer>> {
    let location = location_of(alloc, path)?;
    match document.at(&location.steps) {
        Some(value) => Ok(Some(PlaceAnswer {
            value: value.to_string(alloc)?,
            whole: whole_number(value),
        })),
        None => Ok(None),
    }
}

/// The answer to a text, and how many items an array may have: the fault, or `null`.
pub fn answer_items(alloc: Global, row: Row<'_>) -> anyhow::Result<String> {
    row.has_only(&["text", "limit"])?;
    let value = Value::from_str(alloc, row.text("text")?)?;
    let limit = row.number("limit")? as usize;
    let fault = fault_within(&value, limit).map(|fault| fault.words());
    Ok(serde_json::to_string(alloc, &fault)?)
}
