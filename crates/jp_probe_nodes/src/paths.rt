//! Paths: `{"path":{"steps":["a",0]}}` is the text of a location, and what is read of it.

use jp_check::plan;
use jp_doc::{Location, Step};
use jp_output::write_path;
use jp_path::{path_plan, query_of};
use jp_probe_parts::{Row, location_of};
use jp_syntax::read_query;
use jp_tokens::bracket_depth;
use serde::Serialize;
use std::alloc::{AllocError, Global};

/// What is said of a location.
#[derive(Drop, Serialize)]
struct PathAnswer {
    path: String,
    /// How deep the path's brackets are.
    depth: u64,
    /// Whether the path is read as the query that is made of the location.
    reads_back: bool,
    /// Whether the path is planned.
    is_planned: bool,
    /// Whether the plan that is made of the location is of that query.
    is_by_location: bool,
    /// Whether a copy is equal to the location.
    copy_is_equal: bool,
    /// Whether the location is equal to that of the root.
    is_root: bool,
}

/// The answer to a location's steps, of which the last is there so many `more` times.
pub fn answer_path(alloc: Global, row: Row<'_>) -> anyhow::Result<String> {
    row.has_only(&["steps", "more"])?;
    let mut location = location_of(alloc, row.items("steps")?)?;
    add_again(&mut location, row.number("more")?)?;
    let path = write_path(alloc, &location)?;
    let query = query_of(alloc, &location)?;
    let root = Location {
        steps: Vec::new(alloc),
    };
    let answer = PathAnswer {
        depth: bracket_depth(path.as_str()),
        reads_back: read_query(alloc, path.as_str())? == query,
        is_planned: plan(alloc, path.as_str()).is_ok(),
        is_by_location: *path_plan(alloc, &location)?.query() == query,
        copy_is_equal: location.clone()? == location,
        is_root: location == root,
        path,
    };
    Ok(serde_json::to_string(alloc, &answer)?)
}

/// Adds the last step so many times.
fn add_again(location: &mut Location, more: u64) -> Result<(), AllocError> {
    for _ in 0..more {
        if let Some(Step::Index(index)) = location.steps.last() {
            let step = Step::Index(*index);
            location.steps.push(step)?;
        }
    }
    Ok(())
}
