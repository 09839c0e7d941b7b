use jp_number::Numbers;
use jp_query_scan::scan;
use std::alloc::{AllocError, Global};

/// How many characters of a refused query are right.
fn right_characters(alloc: Global, query: &str) -> Result<usize, AllocError> {
    let found = scan(alloc, query, Numbers::Whole)?;
    Ok(found.mark)
}
