use jp_explain::{explain, write_mark};
use jp_number::Numbers;
use std::alloc::{AllocError, Global};

/// The lines that help with a query that is refused where numbers are whole; none of an accepted one.
fn help(alloc: Global, query: &str) -> Result<Option<String>, AllocError> {
    match explain(alloc, query, Numbers::Whole)? {
        Some(explanation) => Ok(Some(write_mark(alloc, query, &explanation)?)),
        None => Ok(None),
    }
}
