//! What is asked of each block of a run.

ghost use Rattle.jp_answer.specs.Ranges.{AreWorkers};

use crate::policy::LinePolicy;
use jp_compiled::CompiledQuery;
use jp_eval::DocumentFilter;
use jp_output::Layout;

/// What is asked of each block of a run.
#[derive(Clone, Copy, Drop)]
pub struct Asked<'q> {
    /// The query.
    pub query: &'q CompiledQuery,
    /// The filter of which the documents are true that are answered, if there is one.
    pub filter: Option<DocumentFilter<'q>>,
    /// What stands around what is written, in a form that has such a thing.
    pub layout: &'q Layout,
    /// How lines are read, and what is done where one is faulty.
    pub policy: LinePolicy,
    /// How many workers there are, 1 to 64: a long list of a document is walked by no more threads at once,
    /// or by the next power of two.
    pub workers: u64,
    pub ghost few_workers: { AreWorkers workers },
}
