//! The driver of the rows of documents, lines and what waits of a stream.
//!
//! It reads rows of JSON, one on a line of standard input, answers each by public calls of the crates, and
//! writes the answer on a line of its own. It promises nothing. A row is an object with one member, whose
//! name says what is asked. Each file here has the rows of one kind, or a few, and what answers them.
#![tactic(auto)]

mod beside;
mod buffers;
mod documents;
mod drawn;
mod feeding;
mod flat_values;
mod lines;
mod one_pass;
mod wide;

use documents::{answer_items, answer_places};
use drawn::answer_drawn;
use feeding::{answer_cuts, answer_pieces, answer_waiting};
use flat_values::{answer_flat_value, answer_one_byte_off};
use jp_probe_parts::{Answering, Row, answer_rows};
use lines::answer_lines;
use std::alloc::Global;
use std::io::{self, BufReader, BufWriter};
use wide::answer_wide;

/// What rows ask.
struct Questions;

impl Answering for Questions {
    fn answer(&self, alloc: Global, name: &str, row: Row<'_>) -> anyhow::Result<String> {
        match name {
            "cuts" => answer_cuts(alloc, row),
            "drawn" => answer_drawn(alloc, row),
            "flat_value" => answer_flat_value(alloc, row),
            "items" => answer_items(alloc, row),
            "lines" => answer_lines(alloc, row),
            "one_byte_off" => answer_one_byte_off(alloc, row),
            "pieces" => answer_pieces(alloc, row),
            "places" => answer_places(alloc, row),
            "waiting" => answer_waiting(alloc, row),
            "wide" => answer_wide(alloc, row),
            _ => Err(anyhow::anyhow!("a row asks what is not known")),
        }
    }
}

/// Answers the rows of standard input.
fn main(rt: HostRuntime) -> anyhow::Result<()> {
    let alloc = rt.alloc();
    let mut output = BufWriter::new(alloc, io::writer(&rt))?;
    answer_rows(
        alloc,
        BufReader::new(alloc, rt.reader())?,
        &mut output,
        &Questions,
    )
}
