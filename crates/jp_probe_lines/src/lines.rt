//! Lines that are read one after another by a reader that is kept: `{"lines":{"lines":["[1]","{"]}}` says of
//! each how it is read as a tree, in one pass, and by the numbers that it may have.

use crate::beside::same;
use crate::one_pass::{is_as_laid, is_as_laid_decimal};
use jp_doc::{DocFault, Document};
use jp_flat::{FlatValue, LineReader};
use jp_number::Numbers;
use jp_probe_parts::{Row, bytes_of, text_in};
use serde::Serialize;
use std::alloc::{AllocError, Global};
use std::str;

/// How a line is read in one of two ways, beside the other.
#[derive(Clone, Copy, PartialEq, Eq)]
pub enum Alike {
    Alike,
    Unlike,
    /// The other way alone reads it.
    Left,
}

/// How lines are read, one behind another.
#[derive(Drop, Serialize)]
struct LinesAnswer {
    /// The documents that are read as trees, written compactly, and why there is none.
    trees: Vec<Option<String>>,
    faults: Vec<Option<&'static str>>,
    /// What the kept reader reads with whole numbers, beside them, by letters: `a` where that is alike, `l`
    /// where it is the same fault, and `u` where it is unlike.
    flat: String,
    /// How many items each flat document has, and the whole number that is the last of them.
    items: Vec<u32>,
    lasts: Vec<Option<i128>>,
    /// What is read in one pass, beside what is laid of what the kit reads, by the same letters.
    one_pass: String,
    one_pass_decimal: String,
    /// How each is read by the numbers that it may have: `flat`, with the whole number at `$.a` behind it, or
    /// a fault.
    whole: Vec<String>,
    decimals: Vec<String>,
}

/// The answer to what is asked of lines.
pub fn answer_lines(alloc: Global, row: Row<'_>) -> anyhow::Result<String> {
    row.has_only(&["lines", "are_long"])?;
    // Whether the lines are long, so that no tree is looked at.
    let are_long = row.flag("are_long")?;
    let mut reader = LineReader::new(alloc);
    let mut answer = no_lines(alloc);
    for value in row.items("lines")? {
        let line = bytes_of(alloc, text_in(value)?)?;
        add_line(alloc, &mut reader, &line, are_long, &mut answer)?;
    }
    Ok(serde_json::to_string(alloc, &answer)?)
}

/// Adds how a line is read.
fn add_line(
    alloc: Global,
    reader: &mut LineReader,
    line: &[u8],
    is_long: bool,
    answer: &mut LinesAnswer,
) -> anyhow::Result<()> {
    let (items, last) = items_of(reader, line)?;
    answer.items.push(items)?;
    answer.lasts.push(last)?;
    if !is_long {
        let (tree, fault) = tree_told(alloc, line)?;
        answer.trees.push(tree)?;
        answer.faults.push(fault)?;
        let told = is_read_alike(alloc, reader, line)?;
        answer.flat.push(letter(told))?;
    }
    let (one_pass, one_pass_decimal) = in_one_pass(alloc, line)?;
    answer.one_pass.push(letter(one_pass))?;
    answer.one_pass_decimal.push(letter(one_pass_decimal))?;
    let whole = told_by(alloc, reader, Numbers::Whole, line)?;
    answer.whole.push(whole)?;
    let decimals = told_by(alloc, reader, Numbers::Decimals, line)?;
    answer.decimals.push(decimals)?;
    Ok(())
}

/// The answer for no lines.
fn no_lines(alloc: Global) -> LinesAnswer {
    LinesAnswer {
        trees: Vec::new(alloc),
        faults: Vec::new(alloc),
        flat: String::new(alloc),
        items: Vec::new(alloc),
        lasts: Vec::new(alloc),
        one_pass: String::new(alloc),
        one_pass_decimal: String::new(alloc),
        whole: Vec::new(alloc),
        decimals: Vec::new(alloc),
    }
}

/// The letter that says how a line is read.
fn letter(told: Alike) -> char {
    match told {
        Alike::Alike => 'a',
        Alike::Unlike => 'u',
        Alike::Left => 'l',
    }
}

/// The text of the document that a line is as a tree, or why there is none.
fn tree_told(alloc: Global, line: &[u8]) -> anyhow::Result<(Option<String>, Option<&'static str>)> {
    match Document::read(alloc, line) {
        Ok(document) => Ok((Some(document.root().to_string(alloc)?), None)),
        Err(DocFault::Memory) => Err(AllocError.into()),
        Err(fault) => Ok((None, Some(fault.words()))),
    }
}

/// Whether a line is read, with whole numbers, as the document that is read as a tree, or is left: it has the
/// fault that this reading has.
pub fn is_read_alike(alloc: Global, reader: &mut LineReader, line: &[u8]) -> anyhow::Result<Alike> {
    let tree = match Document::read(alloc, line) {
        Err(DocFault::Memory) => return Err(AllocError.into()),
        read => read,
    };
    match reader.read(Numbers::Whole, line)? {
        Ok(document) => match tree {
            Ok(tree) => Ok(said(same(alloc, document.root(), tree.root(), 128)?)),
            Err(_) => Ok(Alike::Unlike),
        },
        Err(fault) if tree.err() == Some(fault) => Ok(Alike::Left),
        Err(_) => Ok(Alike::Unlike),
    }
}

fn said(is_alike: bool) -> Alike {
    if is_alike {
        Alike::Alike
    } else {
        Alike::Unlike
    }
}

/// How many items the flat document has, and the whole number that is the last of them. The line is read once
/// before: where that is refused, it is read again by the same reader.
fn items_of(reader: &mut LineReader, line: &[u8]) -> Result<(u32, Option<i128>), AllocError> {
    let _was_refused = reader.read(Numbers::Whole, line).is_err();
    match reader.read(Numbers::Whole, line)? {
        Ok(document) => Ok(last_of(document.root())),
        Err(_) => Ok((0, None)),
    }
}

fn last_of(root: FlatValue<'_>) -> (u32, Option<i128>) {
    let count = root.item_count();
    let last = root.item(count.saturating_sub(1));
    (count, last.and_then(|item| item.whole()))
}

/// How a line is read in one pass, with whole numbers and with any.
pub fn in_one_pass(alloc: Global, line: &[u8]) -> Result<(Alike, Alike), AllocError> {
    let Ok(text) = str::from_utf8(line) else {
        return Ok((Alike::Left, Alike::Left));
    };
    let whole = is_as_laid(alloc, text)?;
    let decimal = is_as_laid_decimal(alloc, text)?;
    Ok((told(whole), told(decimal)))
}

fn told(is_alike: Option<bool>) -> Alike {
    match is_alike {
        Some(is_alike) => said(is_alike),
        None => Alike::Left,
    }
}

/// How a line is read that may have such numbers. It is read once before: where that is refused, it is read
/// again by the same reader.
fn told_by(
    alloc: Global,
    reader: &mut LineReader,
    numbers: Numbers,
    line: &[u8],
) -> Result<String, AllocError> {
    let _was_refused = reader.read(numbers, line).is_err();
    let (form, number) = match reader.read(numbers, line)? {
        Ok(document) => {
            let value = document.root().member("a");
            ("flat", value.and_then(|value| value.whole()))
        }
        Err(fault) => (fault.words(), None),
    };
    match number {
        Some(number) => format!(in alloc; "{form} {number}"),
        None => String::from_str(alloc, form),
    }
}
