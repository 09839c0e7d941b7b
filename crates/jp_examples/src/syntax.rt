use jp_syntax::read_query;
use jp_tree::{QueryFault, is_singular};
use std::alloc::Global;

fn selects_one_node(alloc: Global, text: &str) -> Result<bool, QueryFault> {
    let query = read_query(alloc, text)?;
    Ok(is_singular(&query))
}
