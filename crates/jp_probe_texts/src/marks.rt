//! The marks of many queries at once.
//!
//! `{"fronts":{"query":"$.a"}}` asks which fronts of a query do not go on where they end, or go on behind a
//! character that stands in no query.
//! `{"literals":{"before":"$[?@==","characters":"-0","length":4,"behind":"]"}}` asks for the marks of the
//! queries of all such literals: a digit for each, how many of its characters stand before the mark, or `=`
//! where there is none.

use crate::numbers::numbers_of;
use crate::texts::texts_of;
use jp_explain::{Explanation, explain};
use jp_number::Numbers;
use jp_probe_parts::Row;
use jp_query_scan::Reason;
use serde::Serialize;
use std::alloc::{AllocError, Global};

/// How many fronts a query has, how long those are that are marked elsewhere, and whether it is accepted.
#[derive(Drop, Serialize)]
struct FrontsAnswer {
    fronts: usize,
    astray: Vec<usize>,
    accepted: bool,
}

/// So many characters of the text.
fn front_of(alloc: Global, text: &str, count: usize) -> Result<String, AllocError> {
    let mut front = String::new(alloc);
    for c in text.chars().take(count) {
        front.push(c)?;
    }
    Ok(front)
}

/// Whether the mark stands there, by the grammar.
fn is_there(told: &Explanation, mark: usize) -> bool {
    told.mark == mark && matches!(told.reason, Reason::Expected(_))
}

/// Answers `fronts`, of a query.
pub fn answer_fronts(alloc: Global, row: Row<'_>) -> anyhow::Result<String> {
    row.has_only(&["query", "numbers"])?;
    let (query, numbers) = (row.text("query")?, numbers_of(row)?);
    let fronts = query.chars().count();
    let mut astray = Vec::new(alloc);
    for count in 0..fronts {
        if !goes_on(alloc, query, count, numbers)? {
            astray.push(count)?;
        }
    }
    let answer = FrontsAnswer {
        fronts,
        astray,
        accepted: explain(alloc, query, numbers)?.is_none(),
    };
    Ok(serde_json::to_string(alloc, &answer)?)
}

/// Whether the front of so many characters of a query goes on, and nowhere behind a character more that
/// stands in no query.
fn goes_on(alloc: Global, query: &str, count: usize, numbers: Numbers) -> Result<bool, AllocError> {
    let mut front = front_of(alloc, query, count)?;
    let told = explain(alloc, front.as_str(), numbers)?;
    front.push('\u{1}')?;
    let broken = explain(alloc, front.as_str(), numbers)?;
    let goes_on = match &told {
        Some(told) => is_there(told, count),
        None => true,
    };
    Ok(match &broken {
        Some(broken) => goes_on && is_there(broken, count),
        None => false,
    })
}

/// What stands for a mark, where so many characters stand before the literal.
fn letter(told: Option<Explanation>, before: usize) -> char {
    match told {
        None => '=',
        Some(told) => match told.mark.checked_sub(before) {
            Some(0) => '0',
            Some(1) => '1',
            Some(2) => '2',
            Some(3) => '3',
            Some(4) => '4',
            _ => '?',
        },
    }
}

/// Answers `literals`, all literals of so many of some characters, in a query: the marks of all, in the order
/// of the characters.
pub fn answer_literals(alloc: Global, row: Row<'_>) -> anyhow::Result<String> {
    row.has_only(&["before", "characters", "length", "behind", "numbers"])?;
    let (before, behind) = (row.text("before")?, row.text("behind")?);
    let numbers = numbers_of(row)?;
    let start = before.chars().count();
    let mut marks = String::new(alloc);
    for literal in &texts_of(alloc, row.text("characters")?, row.number("length")?)? {
        let query = format!(in alloc; "{before}{literal}{behind}")?;
        let told = explain(alloc, query.as_str(), numbers)?;
        marks.push(letter(told, start))?;
    }
    Ok(serde_json::to_string(alloc, &marks)?)
}
