//! The driver of the rows of nodes: what queries select, paths, and how nodes are written.
//!
//! It reads rows of JSON, one on a line of standard input, answers each by public calls of the crates, and
//! writes the answer on a line of its own. It promises nothing. A row is an object with one member, whose
//! name says what is asked. Each file here has what answers the rows of one kind, or of a few.
#![tactic(auto)]

mod compared;
mod filters;
mod nodes;
mod output_lines;
mod outputs;
mod paths;
mod printed;

use compared::answer_compared;
use filters::answer_filter;
use jp_probe_parts::Row;
use nodes::answer_nodes;
use output_lines::{answer_chunks, answer_fault_line, answer_output_lines};
use outputs::answer_forms;
use paths::answer_path;
use printed::answer_printed;
use serde_json::Value;
use std::alloc::Global;
use std::io::{self, BufRead, BufReader, BufWriter, Write};
use std::thread::Threads;

/// Answers the rows of standard input.
fn main(rt: HostRuntime) -> anyhow::Result<()> {
    let alloc = rt.alloc();
    let mut output = BufWriter::new(alloc, io::writer(&rt))?;
    for line in BufReader::new(alloc, rt.reader())?.lines(alloc) {
        let answer = answer(&rt, alloc, line?.as_str())?;
        output.write_all(answer.as_bytes())?;
        output.write_all(b"\n")?;
    }
    output.flush()?;
    Ok(())
}

/// The answer to one row. That threads can be started is known of no method of a trait, so this driver has a
/// loop of its own.
fn answer<R: Threads + Sync>(rt: &R, alloc: Global, line: &str) -> anyhow::Result<String> {
    let value = Value::from_str(alloc, line)?;
    let (name, row) = Row::of(&value).only_member()?;
    match name {
        "chunks" => answer_chunks(alloc, row),
        "compared" => answer_compared(alloc, row),
        "fault_line" => answer_fault_line(alloc, row),
        "filter" => answer_filter(alloc, row),
        "forms" => answer_forms(alloc, row),
        "nodes" => answer_nodes(rt, alloc, row),
        "output_lines" => answer_output_lines(alloc, row),
        "path" => answer_path(alloc, row),
        "printed" => answer_printed(alloc, row),
        _ => Err(anyhow::anyhow!("a row asks nothing that is known")),
    }
}
