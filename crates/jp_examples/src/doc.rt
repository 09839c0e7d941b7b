use jp_doc::{DocFault, Document, Step, whole_number};
use std::alloc::Global;

// The whole number at `$[0]` of a line, or `None` where there is none.
fn first_number(alloc: Global, line: &[u8]) -> Result<Option<i128>, DocFault> {
    let document = Document::read(alloc, line)?;
    let steps = [Step::Index(0)];
    Ok(document.at(&steps).and_then(|value| whole_number(value)))
}
