use jp_check::plan;
use jp_tree::QueryFault;
use std::alloc::Global;

fn is_accepted(alloc: Global, text: &str) -> Result<bool, QueryFault> {
    match plan(alloc, text) {
        Ok(_plan) => Ok(true),
        Err(QueryFault::Memory) => Err(QueryFault::Memory),
        Err(_) => Ok(false),
    }
}
