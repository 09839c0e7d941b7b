//! Queries as they are read:
//! `{"query":{"text":"$.a.a","like":"$['a']['a']","part":"$.a","sample":"a"}}`.

use jp_probe_parts::Row;
use jp_syntax::read_query;
use jp_tokens::bracket_depth;
use jp_tree::{
    Comparable, Literal, Logical, Query, QueryFault, Segment, Selector, Start, is_singular,
};
use serde::Serialize;
use std::alloc::{AllocError, Global};

/// What is said of a text that spells no query.
#[derive(Drop, Serialize)]
struct NoQuery {
    depth: u64,
    fault: String,
}

/// What is said of a query.
#[derive(Drop, Serialize)]
struct QueryAnswer {
    accepted: bool,
    depth: u64,
    singular: bool,
    /// How many selectors each segment has.
    selectors: Vec<usize>,
    /// The number on the right of the one comparison.
    number: Option<String>,
    like: Option<bool>,
    parts: Option<usize>,
    sample: Option<bool>,
}

/// What is told of a fault.
pub fn fault_text(alloc: Global, fault: QueryFault) -> Result<String, AllocError> {
    format!(in alloc; "{fault}")
}

/// Answers `query`, of a text.
pub fn answer_query(alloc: Global, row: Row<'_>) -> anyhow::Result<String> {
    row.has_only(&["text", "like", "part", "sample"])?;
    let text = row.text("text")?;
    let depth = bracket_depth(text);
    match read_query(alloc, text) {
        Ok(query) => {
            let answer = said(alloc, row, &query, depth)?;
            Ok(serde_json::to_string(alloc, &answer)?)
        }
        Err(fault) => {
            let fault = fault_text(alloc, fault)?;
            Ok(serde_json::to_string(alloc, &NoQuery { depth, fault })?)
        }
    }
}

/// What is said of the query of the text.
fn said(alloc: Global, row: Row<'_>, query: &Query, depth: u64) -> anyhow::Result<QueryAnswer> {
    let number = match compared_number(query) {
        Some(number) => Some(String::from_str(alloc, number)?),
        None => None,
    };
    Ok(QueryAnswer {
        accepted: true,
        depth,
        singular: is_singular(query),
        selectors: selector_counts(alloc, query)?,
        number,
        like: is_like(alloc, row, query)?,
        parts: parts(alloc, row, query)?,
        sample: is_sample(alloc, row, query)?,
    })
}

/// Whether another text spells the same query, `like`.
fn is_like(alloc: Global, row: Row<'_>, query: &Query) -> anyhow::Result<Option<bool>> {
    match row.text_if_any("like")? {
        Some(text) => Ok(Some(read_query(alloc, text)? == *query)),
        None => Ok(None),
    }
}

/// How many segments are that of a query of one segment, `part`.
fn parts(alloc: Global, row: Row<'_>, query: &Query) -> anyhow::Result<Option<usize>> {
    match row.text_if_any("part")? {
        Some(text) => Ok(Some(equal_segments(query, &read_query(alloc, text)?))),
        None => Ok(None),
    }
}

/// Whether the query is the tree of `$['NAME',?@.*]` that is made by hand, with the name `sample`.
fn is_sample(alloc: Global, row: Row<'_>, query: &Query) -> anyhow::Result<Option<bool>> {
    match row.text_if_any("sample")? {
        Some(name) => Ok(Some(sample(alloc, name)? == *query)),
        None => Ok(None),
    }
}

/// How many selectors each segment has.
fn selector_counts(alloc: Global, query: &Query) -> Result<Vec<usize>, AllocError> {
    let mut counts = Vec::new(alloc);
    for segment in &query.segments {
        counts.push(segment.selectors.len())?;
    }
    Ok(counts)
}

/// The number on the right of the one comparison of a query.
fn compared_number(query: &Query) -> Option<&str> {
    match query.segments.first()?.selectors.first()? {
        Selector::Filter(Logical::Compare(comparison)) => match &comparison.right {
            Comparable::Literal(Literal::Number(number)) => Some(number.as_str()),
            _ => None,
        },
        _ => None,
    }
}

/// How many segments of a query are that of a query of one.
fn equal_segments(query: &Query, one: &Query) -> usize {
    let [single] = one.segments.as_slice() else {
        return 0;
    };
    let mut count = 0usize;
    for segment in &query.segments {
        if segment == single {
            count = count.saturating_add(1);
        }
    }
    count
}

/// The tree of `$['NAME',?@.*]`, made by hand.
fn sample(alloc: Global, name: &str) -> Result<Query, AllocError> {
    let any = Query {
        start: Start::Current,
        segments: vec![in alloc;
            Segment {
                deep: false,
                selectors: vec![in alloc; Selector::Wild]?
            },
        ]?,
    };
    let selectors = vec![in alloc;
        Selector::Name(String::from_str(alloc, name)?),
        Selector::Filter(Logical::Test(any)),
    ]?;
    Ok(Query {
        start: Start::Root,
        segments: vec![in alloc;
            Segment {
                deep: false,
                selectors
            },
        ]?,
    })
}
