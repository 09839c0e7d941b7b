//! Lines by themselves: `{"output_lines":{"steps":["a"],"lines":[[3,"null"]]}}`, the lines of values at a
//! location; `{"fault_line":{"number":2,"fault":"unreadable"}}`; and chunks, which are joined:
//! `{"chunks":{"pushed":["a"],"appended":["b"]}}`.

use jp_doc::{DocFault, Document};
use jp_output::{append_chunks, join_chunks, push_chunk, write_fault, write_line};
use jp_probe_parts::{Row, fault_named, items_in, location_of, number_in, text_in, text_of};
use serde::Serialize;
use serde_json::Value;
use std::alloc::Global;

/// The answer to documents, each with the number of its line, and to the location of them all: `front`, and
/// the lines behind it.
pub fn answer_output_lines(alloc: Global, row: Row<'_>) -> anyhow::Result<String> {
    row.has_only(&["steps", "lines"])?;
    let location = location_of(alloc, row.items("steps")?)?;
    let mut out = Vec::from_slice(alloc, b"front")?;
    for line in row.items("lines")? {
        let (number, text) = numbered_line(line)?;
        let document = Document::read(alloc, text.as_bytes())?;
        write_line(alloc, number, &location, document.root(), &mut out)?;
    }
    let text = text_of(alloc, &out)?;
    Ok(serde_json::to_string(alloc, &text)?)
}

/// The number of a line, and its text.
fn numbered_line(value: &Value) -> anyhow::Result<(u64, &str)> {
    match items_in(value)? {
        [number, text] => Ok((number_in(number)?, text_in(text)?)),
        _ => Err(anyhow::anyhow!("a line in a row is not its number and its text")),
    }
}

/// What is written of a fault.
#[derive(Drop, Serialize)]
struct FaultLineAnswer {
    /// The fault as it shows itself, and its words.
    shown: String,
    words: &'static str,
    /// `front`, and its line behind it.
    line: Option<String>,
}

/// The answer to a fault, and to the number of its line. None stands for want of memory, of which no line is
/// written.
pub fn answer_fault_line(alloc: Global, row: Row<'_>) -> anyhow::Result<String> {
    row.has_only(&["number", "fault"])?;
    let name = row.text_if_any("fault")?;
    let fault = match name {
        Some(name) => fault_named(name)?,
        None => DocFault::Memory,
    };
    let line = match name {
        Some(name) => Some(fault_line(alloc, row.number("number")?, name)?),
        None => None,
    };
    let answer = FaultLineAnswer {
        shown: format!(in alloc; "{fault}")?,
        words: fault.words(),
        line,
    };
    Ok(serde_json::to_string(alloc, &answer)?)
}

/// The line of the fault of this name.
fn fault_line(alloc: Global, number: u64, name: &str) -> anyhow::Result<String> {
    let mut out = Vec::from_slice(alloc, b"front")?;
    write_fault(alloc, number, &fault_named(name)?, &mut out)?;
    Ok(text_of(alloc, &out)?)
}

/// How many chunks there are, and what they are joined.
#[derive(Drop, Serialize)]
struct ChunksAnswer {
    chunks: usize,
    joined: String,
}

/// The answer to chunks that are pushed one by one, and others that are appended behind them.
pub fn answer_chunks(alloc: Global, row: Row<'_>) -> anyhow::Result<String> {
    row.has_only(&["pushed", "appended"])?;
    let mut chunks = Vec::new(alloc);
    for text in row.items("pushed")? {
        push_chunk(&mut chunks, text_in(text)?.as_bytes().to_vec(alloc)?)?;
    }
    let mut more = Vec::new(alloc);
    for text in row.items("appended")? {
        more.push(text_in(text)?.as_bytes().to_vec(alloc)?)?;
    }
    append_chunks(&mut chunks, more)?;
    let answer = ChunksAnswer {
        chunks: chunks.len(),
        joined: text_of(alloc, &join_chunks(alloc, chunks)?)?,
    };
    Ok(serde_json::to_string(alloc, &answer)?)
}
