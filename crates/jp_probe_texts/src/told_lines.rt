//! Lines of which something is told.
//!
//! `{"line":{"line":"[1,}","number":7,"fault":"unreadable"}}` asks where a line goes wrong, with the fault of
//! that name or, without one, the fault that it has, and what is printed of it.
//! `{"line_mark":{"line":"abc","number":1,"mark":9,"reason":"utf8"}}` asks for the lines by a mark that no
//! line need have, of a line or, by `"document":true`, of a document over several. A reason is `utf8`,
//! `too_deep` or `{"not_whole":{"path":"$[0]","end":4}}`.

use crate::numbers::numbers_of;
use jp_doc::{DocFault, Document};
use jp_explain::{LineExplanation, explain_line, write_document_mark, write_line_mark};
use jp_line_scan::{LineReason, LineRule, NotWhole};
use jp_probe_parts::{Row, bytes_of, fault_named};
use serde::Serialize;
use std::alloc::{AllocError, Global};

/// Where a line goes wrong, and what is printed of it.
#[derive(Drop, Serialize)]
struct LineTold {
    mark: usize,
    printed: String,
}

/// Answers `line`, of a line: `null` where nothing is told.
pub fn answer_line(alloc: Global, row: Row<'_>) -> anyhow::Result<String> {
    row.has_only(&["line", "number", "fault", "numbers"])?;
    let line = bytes_of(alloc, row.text("line")?)?;
    let told = match fault_of(alloc, row, line.as_slice())? {
        Some(fault) => told_of(alloc, row, line.as_slice(), fault)?,
        None => None,
    };
    Ok(serde_json::to_string(alloc, &told)?)
}

/// The fault that is asked for, or the one that the line has.
fn fault_of(alloc: Global, row: Row<'_>, line: &[u8]) -> anyhow::Result<Option<DocFault>> {
    match row.text_if_any("fault")? {
        Some("memory") => Ok(Some(DocFault::Memory)),
        Some(name) => Ok(Some(fault_named(name)?)),
        None => Ok(own_fault(alloc, line)?),
    }
}

/// The fault that the line has.
fn own_fault(alloc: Global, line: &[u8]) -> Result<Option<DocFault>, AllocError> {
    match Document::read(alloc, line) {
        Ok(_) => Ok(None),
        Err(DocFault::Memory) => Err(AllocError),
        Err(fault) => Ok(Some(fault)),
    }
}

/// What is told of the line by that fault.
fn told_of(
    alloc: Global,
    row: Row<'_>,
    line: &[u8],
    fault: DocFault,
) -> anyhow::Result<Option<LineTold>> {
    let number = row.number("number")?;
    match explain_line(alloc, line, &fault, numbers_of(row)?)? {
        Some(told) => Ok(Some(LineTold {
            mark: told.mark,
            printed: write_line_mark(alloc, number, line, &told)?,
        })),
        None => Ok(None),
    }
}

/// What is to be said of a mark, as `reason`.
fn reason_of(alloc: Global, row: Row<'_>) -> anyhow::Result<LineReason> {
    let Some(reason) = row.member("reason") else {
        return Err(anyhow::anyhow!("a row lacks a reason"));
    };
    match reason.as_str() {
        Some("utf8") => Ok(LineReason::Rule(LineRule::Utf8)),
        Some("too_deep") => Ok(LineReason::Rule(LineRule::TooDeep)),
        Some(_) => Err(anyhow::anyhow!("no reason has the name that stands in a row")),
        None => Ok(LineReason::NotWhole(not_whole_of(alloc, Row::of(reason))?)),
    }
}

/// The number that is not whole, of which is to be said so.
fn not_whole_of(alloc: Global, row: Row<'_>) -> anyhow::Result<NotWhole> {
    let ("not_whole", row) = row.only_member()? else {
        return Err(anyhow::anyhow!("no reason has the name that stands in a row"));
    };
    row.has_only(&["path", "end"])?;
    Ok(NotWhole {
        path: String::from_str(alloc, row.text("path")?)?,
        end: usize::try_from(row.number("end")?)?,
    })
}

/// Answers `line_mark`, of a mark in a line: the lines.
pub fn answer_line_mark(alloc: Global, row: Row<'_>) -> anyhow::Result<String> {
    row.has_only(&["line", "number", "mark", "reason", "document"])?;
    let line = bytes_of(alloc, row.text("line")?)?;
    let number = row.number("number")?;
    let told = LineExplanation {
        mark: usize::try_from(row.number("mark")?)?,
        reason: reason_of(alloc, row)?,
    };
    let printed = if row.flag("document")? {
        write_document_mark(alloc, number, line.as_slice(), &told)?
    } else {
        write_line_mark(alloc, number, line.as_slice(), &told)?
    };
    Ok(serde_json::to_string(alloc, &printed)?)
}
