//! What is told of a query, and a text as a terminal shows it.
//!
//! `{"explain":{"query":"$.a b"}}` asks where a query goes wrong and what might have stood there,
//! `{"notes":{"query":"$[?match(@,'^a')]"}}` what is told of its patterns, and `{"escaped":{"text":"a"}}`
//! what is shown of a text. `{"query_mark":{"query":"$.a","mark":9,"reason":"segment"}}` asks for the lines
//! by a mark that no query need have. A reason is `segment` or `too_deep`.

use crate::numbers::numbers_of;
use jp_check::plan_in;
use jp_explain::{Explanation, escaped, explain, pattern_notes, write_mark, write_pattern_note};
use jp_number::Numbers;
use jp_probe_parts::Row;
use jp_query_scan::{Expected, Reason, Rule};
use serde::Serialize;
use std::alloc::Global;

/// Where a query goes wrong, and what is said of it.
#[derive(Drop, Serialize)]
struct Told {
    mark: usize,
    words: String,
}

/// Answers `explain`, of a query: `null` where nothing is wrong.
pub fn answer_explain(alloc: Global, row: Row<'_>) -> anyhow::Result<String> {
    row.has_only(&["query", "numbers"])?;
    let told = match explain(alloc, row.text("query")?, numbers_of(row)?)? {
        Some(told) => Some(Told {
            mark: told.mark,
            words: format!(in alloc; "{}", told.reason)?,
        }),
        None => None,
    };
    Ok(serde_json::to_string(alloc, &told)?)
}

/// Answers `notes`, of a query: a line for each pattern of which something is told.
pub fn answer_notes(alloc: Global, row: Row<'_>) -> anyhow::Result<String> {
    row.has_only(&["query"])?;
    let plan = plan_in(alloc, row.text("query")?, Numbers::Whole)?;
    let mut lines = Vec::new(alloc);
    for note in &pattern_notes(alloc, &plan)? {
        lines.push(write_pattern_note(alloc, note)?)?;
    }
    Ok(serde_json::to_string(alloc, &lines)?)
}

/// Answers `escaped`, of a text for a terminal.
pub fn answer_escaped(alloc: Global, row: Row<'_>) -> anyhow::Result<String> {
    row.has_only(&["text"])?;
    let shown = escaped(alloc, row.text("text")?)?;
    Ok(serde_json::to_string(alloc, &shown)?)
}

/// What is to be said of a mark, as `reason`.
fn reason_of(row: Row<'_>) -> anyhow::Result<Reason> {
    match row.text("reason")? {
        "segment" => Ok(Reason::Expected(Expected::Segment)),
        "too_deep" => Ok(Reason::Rule(Rule::TooDeep)),
        _ => Err(anyhow::anyhow!("no reason has the name that stands in a row")),
    }
}

/// Answers `query_mark`, of a mark in a query: the lines.
pub fn answer_query_mark(alloc: Global, row: Row<'_>) -> anyhow::Result<String> {
    row.has_only(&["query", "mark", "reason"])?;
    let told = Explanation {
        mark: usize::try_from(row.number("mark")?)?,
        reason: reason_of(row)?,
    };
    let lines = write_mark(alloc, row.text("query")?, &told)?;
    Ok(serde_json::to_string(alloc, &lines)?)
}
