//! Output lines of a query's nodes: `{"printed":{"query":"$.*","documents":["[1]"]}}`, of one evaluator for
//! all documents.

use jp_check::{Plan, plan};
use jp_doc::{Document, Location};
use jp_eval::Evaluator;
use jp_flat::LineReader;
use jp_node::Part;
use jp_output::{NodeLines, join_chunks, write_path};
use jp_path::path_plan;
use jp_probe_parts::{Row, text_in, text_of};
use jp_select::{evaluate, visit_nodes};
use serde::Serialize;
use std::alloc::Global;

/// What is printed.
#[derive(Drop, Serialize)]
struct PrintedAnswer {
    /// The lines, where no path is run as a query.
    lines: String,
    /// Whether each document prints its lines by itself too, in chunks that are joined.
    is_alike: bool,
    /// How many paths were run as queries.
    back: u64,
    /// How many documents have one that prints another line than its own, by its text or by its location.
    wrong: u64,
}

/// The answer to a query and its documents.
pub fn answer_printed(alloc: Global, row: Row<'_>) -> anyhow::Result<String> {
    row.has_only(&["query", "documents", "before", "back"])?;
    let plan = plan(alloc, row.text("query")?)?;
    let mut evaluator = Evaluator::new(alloc, plan.compiled());
    let mut reader = LineReader::new(alloc);
    let mut lines = NodeLines::new(alloc);
    let mut joined = Vec::new(alloc);
    let mut answer = PrintedAnswer {
        lines: String::new(alloc),
        is_alike: true,
        back: 0,
        wrong: 0,
    };
    // The number of the line before the first document.
    let mut number = row.number("before")?;
    // Whether each path that is printed is run as a query.
    let is_back = row.flag("back")?;
    for text in row.items("documents")? {
        number = number.wrapping_add(1);
        let document = Document::read(alloc, text_in(text)?.as_bytes())?;
        lines.begin(number);
        let flat = reader.lay(&document)?;
        evaluator.visit(Part::root_of(&flat), &mut lines)?;
        joined.extend_from_slice(&lines_of(alloc, &plan, &document, number)?)?;
        if is_back {
            run_back(alloc, &plan, &document, number, &mut answer)?;
        }
    }
    let bytes = lines.into_bytes(alloc)?;
    answer.is_alike = bytes == joined;
    if !is_back {
        answer.lines = text_of(alloc, &bytes)?;
    }
    Ok(serde_json::to_string(alloc, &answer)?)
}

/// The lines of a plan's nodes in a document, in chunks that are joined.
fn lines_of(
    alloc: Global,
    plan: &Plan,
    document: &Document,
    number: u64,
) -> anyhow::Result<Vec<u8>> {
    let mut lines = NodeLines::new(alloc);
    lines.begin(number);
    let lines = visit_nodes(alloc, plan, document, lines)?;
    Ok(join_chunks(alloc, lines.into_chunks()?)?)
}

/// Runs each path that the plan prints as a query.
fn run_back(
    alloc: Global,
    whole: &Plan,
    document: &Document,
    number: u64,
    answer: &mut PrintedAnswer,
) -> anyhow::Result<()> {
    let mut by_texts = Vec::new(alloc);
    let mut by_locations = Vec::new(alloc);
    for location in &evaluate(alloc, whole, document)? {
        let (text, other) = plans_of(alloc, location)?;
        by_texts.extend_from_slice(&lines_of(alloc, &text, document, number)?)?;
        by_locations.extend_from_slice(&lines_of(alloc, &other, document, number)?)?;
        answer.back = answer.back.wrapping_add(1);
    }
    let printed = lines_of(alloc, whole, document, number)?;
    if by_texts != printed || by_locations != printed {
        answer.wrong = answer.wrong.wrapping_add(1);
    }
    Ok(())
}

/// The plans of a location's path, by its text and by the location.
fn plans_of(alloc: Global, location: &Location) -> anyhow::Result<(Plan, Plan)> {
    let text = write_path(alloc, location)?;
    let by_text = plan(alloc, text.as_str())?;
    Ok((by_text, path_plan(alloc, location)?))
}
