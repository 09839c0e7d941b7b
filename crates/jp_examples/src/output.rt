use jp_check::Plan;
use jp_doc::Document;
use jp_eval::EvalFault;
use jp_output::NodeLines;
use jp_select::visit_nodes;
use std::alloc::Global;

fn lines(
    alloc: Global,
    plan: &Plan,
    number: u64,
    document: &Document,
) -> Result<Vec<u8>, EvalFault> {
    let mut lines = NodeLines::new(alloc);
    lines.begin(number);
    Ok(visit_nodes(alloc, plan, document, lines)?.into_bytes(alloc)?)
}
