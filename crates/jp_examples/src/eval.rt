use jp_compiled::CompiledQuery;
use jp_doc::Location;
use jp_eval::{EvalFault, Evaluator};
use jp_node::{Locations, Part};
use std::alloc::Global;

fn selected(
    alloc: Global,
    query: &CompiledQuery,
    root: Part<'_>,
) -> Result<Vec<Location>, EvalFault> {
    let mut found = Locations {
        locations: Vec::new(alloc),
    };
    Evaluator::new(alloc, query).visit(root, &mut found)?;
    Ok(found.locations)
}
