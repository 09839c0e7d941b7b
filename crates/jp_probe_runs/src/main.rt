//! The driver of the rows of answers to lines, runs and the command, over ends in memory.
//!
//! It reads rows of JSON, one on a line of standard input, answers each by public calls of the crates, and
//! writes the answer on a line of its own. It promises nothing. A row is an object with one member, whose
//! name says what is asked. Each file here has what answers the rows of one kind, or of a few.
#![tactic(auto)]

mod answers;
mod ends;
mod prepared;
mod programs;
mod runs;
mod settings;

use answers::answer_answers;
use jp_probe_parts::Row;
use prepared::answer_prepared;
use programs::answer_program;
use runs::answer_run;
use serde_json::Value;
use settings::answer_settings;
use std::alloc::{AllocGlobal, Global};
use std::io::{self, BufRead, BufReader, BufWriter, Write};
use std::thread::Threads;

/// Answers the rows of standard input.
fn main(rt: HostRuntime) -> anyhow::Result<()> {
    let alloc = rt.alloc();
    let mut output = BufWriter::new(alloc, io::writer(&rt))?;
    for line in BufReader::new(alloc, rt.reader())?.lines(alloc) {
        let answer = answer(&rt, alloc, line?.as_str())?;
        output.write_all(answer.as_bytes())?;
        output.write_all(b"\n")?;
    }
    output.flush()?;
    Ok(())
}

/// The answer to one row. That threads can be started is known of no method of a trait, so this driver has a
/// loop of its own.
fn answer<R: Threads + AllocGlobal + Sync>(
    rt: &R,
    alloc: Global,
    line: &str,
) -> anyhow::Result<String> {
    let value = Value::from_str(alloc, line)?;
    let (name, row) = Row::of(&value).only_member()?;
    match name {
        "answers" => answer_answers(rt, alloc, row),
        "prepared" => answer_prepared(rt, alloc, row),
        "program" => answer_program(rt, alloc, row),
        "run" => answer_run(rt, alloc, row),
        "settings" => answer_settings(alloc, row),
        _ => Err(anyhow::anyhow!("a row asks nothing that is known")),
    }
}
