//! The driver of the rows of texts: patterns, numbers, queries and what is told of faulty ones.
//!
//! It reads rows of JSON, one on a line of standard input, answers each by public calls of the crates, and
//! writes the answer on a line of its own. It promises nothing. A row is an object with one member, whose
//! name says what is asked. Each file here has the rows of one kind, or a few, and what answers them.
#![tactic(auto)]

mod explained;
mod marks;
mod numbers;
mod patterns;
mod plans;
mod queries;
mod searches;
mod texts;
mod told_lines;

use explained::{answer_escaped, answer_explain, answer_notes, answer_query_mark};
use jp_probe_parts::{Answering, Row, answer_rows};
use marks::{answer_fronts, answer_literals};
use numbers::{answer_limits, answer_order};
use patterns::answer_pattern;
use plans::{answer_filter_plan, answer_plan};
use queries::answer_query;
use searches::{answer_counted, answer_search};
use std::alloc::Global;
use std::io::{self, BufReader, BufWriter};
use told_lines::{answer_line, answer_line_mark};

/// The questions that this driver answers.
struct Questions;

impl Answering for Questions {
    fn answer(&self, alloc: Global, name: &str, row: Row<'_>) -> anyhow::Result<String> {
        match name {
            "counted" => answer_counted(alloc, row),
            "escaped" => answer_escaped(alloc, row),
            "explain" => answer_explain(alloc, row),
            "filter_plan" => answer_filter_plan(alloc, row),
            "fronts" => answer_fronts(alloc, row),
            "limits" => answer_limits(alloc, row),
            "line" => answer_line(alloc, row),
            "line_mark" => answer_line_mark(alloc, row),
            "literals" => answer_literals(alloc, row),
            "notes" => answer_notes(alloc, row),
            "order" => answer_order(alloc, row),
            "pattern" => answer_pattern(alloc, row),
            "plan" => answer_plan(alloc, row),
            "query" => answer_query(alloc, row),
            "query_mark" => answer_query_mark(alloc, row),
            "search" => answer_search(alloc, row),
            _ => Err(anyhow::anyhow!("no question has the name of a row")),
        }
    }
}

/// Answers the rows of standard input.
fn main(rt: HostRuntime) -> anyhow::Result<()> {
    let alloc = rt.alloc();
    let mut output = BufWriter::new(alloc, io::writer(&rt))?;
    answer_rows(
        alloc,
        BufReader::new(alloc, rt.reader())?,
        &mut output,
        &Questions,
    )
}
