//! Filters of whole documents: `{"filter":{"filter":"@.a","documents":["{\"a\":1}"]}}` is `[true]`, and
//! `null` where `query` is no filter alone.

use crate::nodes::numbers_of;
use jp_check::{filter_in, plan};
use jp_doc::Document;
use jp_eval::DocumentFilter;
use jp_flat::LineReader;
use jp_node::Part;
use jp_probe_parts::{Row, text_in};
use std::alloc::Global;

/// The answer to a filter, or else to a query, which may be one: whether it is true of each document, and
/// `null` where the tree and the flat document tell otherwise.
pub fn answer_filter(alloc: Global, row: Row<'_>) -> anyhow::Result<String> {
    row.has_only(&["filter", "query", "documents", "decimals"])?;
    if let Some(text) = row.text_if_any("filter")? {
        let plan = filter_in(alloc, text, numbers_of(row.flag("decimals")?))?;
        return asked(alloc, row, DocumentFilter::new(alloc, plan.compiled()));
    }
    let plan = plan(alloc, row.text("query")?)?;
    asked(alloc, row, DocumentFilter::new(alloc, plan.compiled()))
}

/// What the filter says of the documents that it is asked of, one behind another.
fn asked(
    alloc: Global,
    row: Row<'_>,
    filter: Option<DocumentFilter<'_>>,
) -> anyhow::Result<String> {
    let Some(filter) = filter else {
        return Ok(serde_json::to_string(alloc, &None::<bool>)?);
    };
    // Whether numbers may be any: then documents are read as lines alone.
    let decimals = row.flag("decimals")?;
    let mut reader = LineReader::new(alloc);
    let mut said = Vec::new(alloc);
    for text in row.items("documents")? {
        let line = text_in(text)?.as_bytes();
        said.push(asked_of(alloc, &filter, &mut reader, line, decimals)?)?;
    }
    Ok(serde_json::to_string(alloc, &said)?)
}

/// What it says of one.
fn asked_of(
    alloc: Global,
    filter: &DocumentFilter<'_>,
    reader: &mut LineReader,
    line: &[u8],
    decimals: bool,
) -> anyhow::Result<Option<bool>> {
    let document = reader.read(numbers_of(decimals), line)??;
    let said = filter.admits(Part::root_of(&document))?;
    if decimals {
        return Ok(Some(said));
    }
    let tree = Document::read(alloc, line)?;
    let laid = reader.lay(&tree)?;
    let other = filter.admits(Part::root_of(&laid))?;
    Ok(if said == other { Some(said) } else { None })
}
