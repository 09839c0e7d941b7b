//! The loop of a driver.

use crate::rows::Row;
use serde_json::Value;
use std::alloc::Global;
use std::io::{BufRead, Write};

/// What answers rows.
pub trait Answering {
    /// The answer to what a row asks by this name. An error where there is no such question.
    fn answer(&self, alloc: Global, name: &str, row: Row<'_>) -> anyhow::Result<String>;
}

/// Answers rows: of each line that it reads it writes the answer on a line of its own.
pub fn answer_rows<I: BufRead + Drop, O: Write, A: Answering>(
    alloc: Global,
    input: I,
    output: &mut O,
    answering: &A,
) -> anyhow::Result<()> {
    for line in input.lines(alloc) {
        let value = Value::from_str(alloc, line?.as_str())?;
        let (name, row) = Row::of(&value).only_member()?;
        let answer = answering.answer(alloc, name, row)?;
        output.write_all(answer.as_bytes())?;
        output.write_all(b"\n")?;
    }
    output.flush()?;
    Ok(())
}
