//! The forms of the answer: `{"forms":{"name":"a","turns":[{"number":1,"line":"[1,2]","places":[0]}]}}` is
//! what each form writes of the turns, over trees and over flat documents. With `"null":true` U+0000 ends
//! values.

use jp_doc::Document;
use jp_flat::LineReader;
use jp_node::{Part, PathStack};
use jp_number::Numbers;
use jp_output::{
    Ending, FieldList, Form, Head, InputLines, Layout, NodeLines, RawLines, TextLines, ValueLines,
    join_chunks,
};
use jp_probe_parts::{Row, fault_named, number_in, text_of};
use serde::Serialize;
use std::alloc::{AllocError, Global};

/// What each form writes, or `unlike` where it is not the same of trees and of flat documents; and whether it
/// is full behind the beginning of each line, and behind its nodes: `f`, or else `-`.
#[derive(Drop, Serialize)]
struct FormsAnswer {
    nodes: String,
    values: String,
    texts: String,
    raw: String,
    lines: String,
    full_nodes: String,
    full_values: String,
    full_texts: String,
    full_raw: String,
    full_lines: String,
}

/// What one form writes, and when it is full.
#[derive(Drop, PartialEq)]
struct Written {
    text: String,
    full: String,
}

/// The answer to turns, which each form writes.
pub fn answer_forms(alloc: Global, row: Row<'_>) -> anyhow::Result<String> {
    row.has_only(&["name", "null", "turns"])?;
    let nodes = written_by::<NodeLines>(alloc, row)?;
    let values = written_by::<ValueLines>(alloc, row)?;
    let texts = written_by::<TextLines>(alloc, row)?;
    let raw = written_by::<RawLines>(alloc, row)?;
    let lines = written_by::<InputLines>(alloc, row)?;
    let answer = FormsAnswer {
        nodes: nodes.text,
        values: values.text,
        texts: texts.text,
        raw: raw.text,
        lines: lines.text,
        full_nodes: nodes.full,
        full_values: values.full,
        full_texts: texts.full,
        full_raw: raw.full,
        full_lines: lines.full,
    };
    Ok(serde_json::to_string(alloc, &answer)?)
}

/// What a form writes.
fn written_by<F: Form + Drop>(alloc: Global, row: Row<'_>) -> anyhow::Result<Written> {
    let of_trees = written_over::<F>(alloc, row, false)?;
    let of_flat = written_over::<F>(alloc, row, true)?;
    if of_trees == of_flat {
        return Ok(of_trees);
    }
    Ok(Written {
        text: String::from_str(alloc, "unlike")?,
        full: of_trees.full,
    })
}

/// What a form writes over trees, or over flat documents.
fn written_over<F: Form + Drop>(
    alloc: Global,
    row: Row<'_>,
    is_flat: bool,
) -> anyhow::Result<Written> {
    let mut form = new_form::<F>(alloc, row)?;
    let mut reader = LineReader::new(alloc);
    let mut full = String::new(alloc);
    for turn in row.items("turns")? {
        add_turn(
            alloc,
            &mut form,
            &mut reader,
            Row::of(turn),
            is_flat,
            &mut full,
        )?;
    }
    let bytes = join_chunks(alloc, form.into_chunks()?)?;
    let text = text_of(alloc, &bytes)?;
    Ok(Written { text, full })
}

/// A form that has written nothing. Nothing but it has what stands before its lines any more.
fn new_form<F: Form>(alloc: Global, row: Row<'_>) -> anyhow::Result<F> {
    // The name that stands before each line of nodes, if one does.
    let head = match row.text_if_any("name")? {
        Some(name) => Head::of_name(alloc, name)?,
        None => Head::none(),
    };
    let ending = if row.flag("null")? {
        Ending::Null
    } else {
        Ending::LineFeed
    };
    Ok(F::new(
        alloc,
        &Layout {
            head,
            ending,
            fields: FieldList::none(),
        },
    ))
}

/// Has a form write a line of which nodes are visited, or one with a fault, which has no document.
fn add_turn<F: Form + Drop>(
    alloc: Global,
    form: &mut F,
    reader: &mut LineReader,
    turn: Row<'_>,
    is_flat: bool,
    full: &mut String,
) -> anyhow::Result<()> {
    turn.has_only(&["number", "line", "roots", "places", "halves", "fault"])?;
    if let Some(name) = turn.text_if_any("fault")? {
        form.push_fault(alloc, turn.number("number")?, &fault_named(name)?)?;
        return Ok(());
    }
    add_line(alloc, form, reader, turn, is_flat, full)
}

/// Has a form write a line.
fn add_line<F: Form + Drop>(
    alloc: Global,
    form: &mut F,
    reader: &mut LineReader,
    turn: Row<'_>,
    is_flat: bool,
    full: &mut String,
) -> anyhow::Result<()> {
    let line = turn.text_if_any("line")?.unwrap_or("").as_bytes();
    form.begin(turn.number("number")?);
    push_full(form, full)?;
    if is_flat {
        let document = reader.read(Numbers::Whole, line)??;
        add_nodes(alloc, form, turn, Part::root_of(&document))?;
    } else {
        let tree = Document::read(alloc, line)?;
        let document = reader.lay(&tree)?;
        add_nodes(alloc, form, turn, Part::root_of(&document))?;
    }
    push_full(form, full)?;
    form.end(line)?;
    Ok(())
}

/// Notes whether a form is full.
fn push_full<F: Form>(form: &F, full: &mut String) -> Result<(), AllocError> {
    full.push(if form.is_full() { 'f' } else { '-' })
}

/// Visits the nodes of a line: its root so many times, the items at these places behind that, and the root
/// again by a fresh visitor, and by a fresh one of that, which are appended, so many times each.
fn add_nodes<F: Form + Drop>(
    alloc: Global,
    form: &mut F,
    turn: Row<'_>,
    root: Part<'_>,
) -> anyhow::Result<()> {
    add_again(alloc, form, root, turn.number("roots")?)?;
    for place in turn.items("places")? {
        if let Some(item) = item_at(root, number_in(place)?) {
            form.node(alloc, &mut PathStack::new(alloc), item)?;
        }
    }
    let halves = turn.items("halves")?;
    let Some(half) = halves.first() else {
        return Ok(());
    };
    let mut first = form.fresh(alloc);
    add_again(alloc, &mut first, root, number_in(half)?)?;
    if let Some(quarter) = halves.get(1) {
        let mut second = first.fresh(alloc);
        add_again(alloc, &mut second, root, number_in(quarter)?)?;
        first.append(second)?;
    }
    form.append(first)?;
    Ok(())
}

/// The item at a place, if there is one.
fn item_at(root: Part<'_>, place: u64) -> Option<Part<'_>> {
    match u32::try_from(place) {
        Ok(place) => root.item(place),
        Err(_) => None,
    }
}

/// Visits a value so many times.
fn add_again<F: Form>(
    alloc: Global,
    form: &mut F,
    value: Part<'_>,
    times: u64,
) -> Result<(), AllocError> {
    for _ in 0..times {
        form.node(alloc, &mut PathStack::new(alloc), value)?;
    }
    Ok(())
}
