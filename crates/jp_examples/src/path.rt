use jp_check::{Plan, check};
use jp_doc::Location;
use jp_number::Numbers;
use jp_path::query_of;
use jp_tree::QueryFault;
use std::alloc::Global;

fn plan_of_node(alloc: Global, location: &Location) -> Result<Plan, QueryFault> {
    check(alloc, query_of(alloc, location)?, Numbers::Whole)
}
