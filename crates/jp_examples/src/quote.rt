use jp_quote::quote;
use std::alloc::{AllocError, Global};

fn lines_of_user(alloc: Global, user: &str) -> Result<String, AllocError> {
    let literal = quote(alloc, user)?;
    format!(in alloc; "$[?@.user=={literal}]")
}
