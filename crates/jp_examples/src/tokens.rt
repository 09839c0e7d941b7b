use jp_tokens::{is_too_deep, literal_at, skip};
use jp_tree::{Literal, QueryFault};
use std::alloc::Global;

fn first_literal(alloc: Global, text: &str) -> Result<Literal, QueryFault> {
    if is_too_deep(text) {
        return Err(QueryFault::TooDeep);
    }
    let (literal, _rest) = literal_at(alloc, skip(text))?;
    Ok(literal)
}
