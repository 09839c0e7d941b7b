use jp_line_scan::first_fault;
use std::alloc::{AllocError, Global};

/// How many bytes of a line with no JSON text are right.
fn right_bytes(alloc: Global, line: &[u8]) -> Result<usize, AllocError> {
    match first_fault(alloc, line)? {
        Some((mark, _reason)) => Ok(mark),
        None => Ok(line.len()),
    }
}
