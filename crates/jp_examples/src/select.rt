use jp_select::{Document, evaluate, plan, write_path};
use std::alloc::Global;

/// The normalized path of the first node that a query selects in a document.
fn first_path(alloc: Global, query: &str, text: &[u8]) -> Option<String> {
    let plan = plan(alloc, query).ok()?;
    let document = Document::read(alloc, text).ok()?;
    let found = evaluate(alloc, &plan, &document).ok()?;
    write_path(alloc, found.first()?).ok()
}
