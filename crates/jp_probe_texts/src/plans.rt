//! Plans: `{"plan":{"text":"$[?match(@,'a')]","by":"check","numbers":"decimals","known":["a"]}}`, and
//! filters by themselves: `{"filter_plan":{"text":"@.a==1"}}`.

use crate::numbers::numbers_of;
use crate::queries::fault_text;
use jp_check::{Known, Plan, check, filter_in, filter_query_text, plan, plan_in};
use jp_compiled::{CompiledQuery, CompiledSegment, CompiledSelector, RootPart, Want};
use jp_number::Numbers;
use jp_probe_parts::{Row, text_in};
use jp_syntax::read_query;
use jp_tree::QueryFault;
use serde::Serialize;
use serde_json::Value;
use std::alloc::{AllocError, Global};

/// What is said of a text that is refused.
#[derive(Drop, Serialize)]
struct NoPlan {
    fault: String,
}

/// What is said of a plan.
#[derive(Drop, Serialize)]
struct PlanAnswer {
    /// Whether its query is the one that the text spells.
    keeps: bool,
    numbers: &'static str,
    segments: usize,
    known: Vec<&'static str>,
    /// What each selector of each segment is compiled to.
    compiled: Vec<Vec<String>>,
    /// What stands before, and is answered once a document.
    roots: Vec<&'static str>,
}

/// What is said of a filter: its fault, if it is refused.
#[derive(Drop, Serialize)]
struct FilterAnswer {
    /// The text of the query that it stands in.
    query: String,
    fault: Option<String>,
    numbers: Option<&'static str>,
    /// Whether its compiled query is one filter.
    alone: Option<bool>,
}

/// The name of the numbers.
fn name_of(numbers: Numbers) -> &'static str {
    match numbers {
        Numbers::Whole => "whole",
        Numbers::Decimals => "decimals",
    }
}

/// Answers `plan`, of the text of a query.
pub fn answer_plan(alloc: Global, row: Row<'_>) -> anyhow::Result<String> {
    row.has_only(&["text", "by", "numbers", "known"])?;
    match planned(alloc, row)? {
        Ok(plan) => Ok(serde_json::to_string(alloc, &said(alloc, row, &plan)?)?),
        Err(fault) => {
            let fault = fault_text(alloc, fault)?;
            Ok(serde_json::to_string(alloc, &NoPlan { fault })?)
        }
    }
}

/// The plan, by the call that is asked for, as `by`: `plan`, where literals are whole, `plan_in`, as where
/// none is named, or `check`, of the tree that is read.
fn planned(alloc: Global, row: Row<'_>) -> anyhow::Result<Result<Plan, QueryFault>> {
    let (text, numbers) = (row.text("text")?, numbers_of(row)?);
    match row.text_if_any("by")? {
        Some("plan") => Ok(plan(alloc, text)),
        Some("plan_in") | None => Ok(plan_in(alloc, text, numbers)),
        Some("check") => Ok(checked(alloc, text, numbers)),
        Some(_) => Err(anyhow::anyhow!("no call has the name that stands in a row")),
    }
}

/// The plan of the tree that is read.
fn checked(alloc: Global, text: &str, numbers: Numbers) -> Result<Plan, QueryFault> {
    check(alloc, read_query(alloc, text)?, numbers)
}

/// What is said of the plan. `known` are the texts of which is asked what it knows of them as patterns.
fn said(alloc: Global, row: Row<'_>, plan: &Plan) -> anyhow::Result<PlanAnswer> {
    Ok(PlanAnswer {
        keeps: *plan.query() == read_query(alloc, row.text("text")?)?,
        numbers: name_of(plan.numbers()),
        segments: plan.query().segments.len(),
        known: all_known(alloc, plan, row.items("known")?)?,
        compiled: compiled_segments(alloc, plan.compiled())?,
        roots: roots(alloc, plan.compiled())?,
    })
}

/// What the plan knows of each text as a pattern.
fn all_known(alloc: Global, plan: &Plan, texts: &[Value]) -> anyhow::Result<Vec<&'static str>> {
    let mut known = Vec::new(alloc);
    for text in texts {
        known.push(known_of(plan, text_in(text)?))?;
    }
    Ok(known)
}

/// What the plan knows of the text as a pattern.
fn known_of(plan: &Plan, text: &str) -> &'static str {
    match plan.pattern(text) {
        Known::Read(_) => "a pattern",
        Known::NoPattern => "no pattern",
        Known::Unknown => "unknown",
    }
}

/// What each selector of each segment is compiled to.
fn compiled_segments(alloc: Global, query: &CompiledQuery) -> Result<Vec<Vec<String>>, AllocError> {
    let mut segments = Vec::new(alloc);
    for segment in &query.segments {
        segments.push(compiled_selectors(alloc, segment)?)?;
    }
    Ok(segments)
}

/// What each selector of a segment is compiled to.
fn compiled_selectors(alloc: Global, segment: &CompiledSegment) -> Result<Vec<String>, AllocError> {
    let mut selectors = Vec::new(alloc);
    for selector in &segment.selectors {
        let text = match selector {
            CompiledSelector::Name(_) => String::from_str(alloc, "name")?,
            CompiledSelector::Wild => String::from_str(alloc, "all")?,
            CompiledSelector::Index(index) => format!(in alloc; "index {}", index.value)?,
            CompiledSelector::Slice(_) => String::from_str(alloc, "slice")?,
            CompiledSelector::Filter(_) => String::from_str(alloc, "filter")?,
        };
        selectors.push(text)?;
    }
    Ok(selectors)
}

/// What is answered once a document: what is wanted of a `$` query, or that it is a test.
fn roots(alloc: Global, query: &CompiledQuery) -> Result<Vec<&'static str>, AllocError> {
    let mut roots = Vec::new(alloc);
    for root in &query.roots {
        roots.push(match root {
            RootPart::Query(query) => wanted(query.want),
            RootPart::Test(_) => "test",
        })?;
    }
    Ok(roots)
}

/// The name of what is wanted of a query.
fn wanted(want: Want) -> &'static str {
    match want {
        Want::First => "first",
        Want::Count => "count",
        Want::Only => "only",
        Want::Distinct => "distinct",
    }
}

/// Answers `filter_plan`, of a filter by itself.
pub fn answer_filter_plan(alloc: Global, row: Row<'_>) -> anyhow::Result<String> {
    row.has_only(&["text", "numbers"])?;
    let (text, numbers) = (row.text("text")?, numbers_of(row)?);
    let query = filter_query_text(alloc, text)?;
    let answer = match filter_in(alloc, text, numbers) {
        Ok(plan) => FilterAnswer {
            query,
            fault: None,
            numbers: Some(name_of(plan.numbers())),
            alone: Some(plan.compiled().only_filter().is_some()),
        },
        Err(fault) => FilterAnswer {
            query,
            fault: Some(fault_text(alloc, fault)?),
            numbers: None,
            alone: None,
        },
    };
    Ok(serde_json::to_string(alloc, &answer)?)
}
