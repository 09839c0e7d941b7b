use jp_regexp::Pattern;
use std::alloc::{AllocError, Global};

fn is_year(alloc: Global, text: &str) -> Result<bool, AllocError> {
    match Pattern::read(alloc, "[0-9]{4}")? {
        Some(year) => Ok(year.matches(alloc, text)?),
        None => Ok(false),
    }
}
