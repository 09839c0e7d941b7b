use jp_memory::answer_prepared;
use jp_run::{Output, Prepared, RunFault, Settings};
use std::alloc::Global;

/// The values of all names in some inputs, one on a line. The query is read and compiled once.
fn names(alloc: Global, inputs: &[&[u8]]) -> Result<Vec<u8>, RunFault> {
    let settings = Settings::new(1, 1, 1)?.with_output(Output::Values);
    let query = Prepared::new(alloc, "$..name", settings.filter, settings.numbers)?;
    let mut all = Vec::new(alloc);
    for input in inputs {
        let answered = answer_prepared(alloc, &query, &settings, input)?;
        all.extend_from_slice(answered.bytes.as_slice())?;
    }
    Ok(all)
}
