//! Why a run ended early.

ghost use Rattle.std.specs.Prelude.{◌≡◌};
ghost use Rattle.jp_run.specs.declared.fault.RunFault.TheVariants.{Memory};
ghost use Rattle.jp_run.specs.Status.{status_of};

use jp_doc::DocFault;
use jp_tree::QueryFault;
use std::alloc::AllocError;
use thiserror::Error;

/// Why a run ended early, and what stands then.
#[derive(Debug, Drop, Error)]
pub enum RunFault {
    /// The query is refused. Nothing was read and nothing was written.
    #[error("{0}")]
    Query(QueryFault),
    /// The filter is refused. Nothing was read and nothing was written.
    #[error("{}", filter_words(.0))]
    Filter(QueryFault),
    /// The first faulty line and its fault. Exactly the lines of the documents before it were written.
    #[error("line {line}: {fault}")]
    Document {
        /// The line's number, from 1.
        line: u64,
        /// What is wrong with it.
        fault: DocFault,
    },
    /// The source failed.
    #[error("read")]
    Read,
    /// The sink failed. A front of the answer was written.
    #[error("write")]
    Write,
    /// There were 2^40 calls of `read` without an end, or a line past number 4,294,967,295.
    #[error("limit")]
    Limit,
    /// A growth of memory was refused. A front of the answer was written.
    #[error("memory")]
    Memory,
    /// A number of workers, of documents, or of the first line is out of its range.
    #[error("command line")]
    Settings,
}

/// The words for a filter that is refused: those for a query, of the option that has it.
fn filter_words(fault: &QueryFault) -> &'static str {
    match fault {
        QueryFault::TooDeep => "where: too deep",
        QueryFault::Syntax => "where: syntax",
        QueryFault::Fraction => "where: fraction",
        QueryFault::Range => "where: range",
        QueryFault::IllTyped => "where: type",
        QueryFault::Memory => "memory",
    }
}

impl From<AllocError> for RunFault {
    ghost from_gives = { λ _ e. e ≡ Memory };

    fn from(_error: AllocError) -> RunFault {
        RunFault::Memory
    }
}

impl RunFault {
    /// The status that a program ends with: 2 for the query or the filter, 3 for a document, 4 for an end or
    /// a limit, 5 for memory, 64 for the settings.
    pub fn status(&self) -> u8
        ensures { result ≡ status_of self.now }
    {
        match self {
            RunFault::Query(_) | RunFault::Filter(_) => 2,
            RunFault::Document { .. } => 3,
            RunFault::Read | RunFault::Write | RunFault::Limit => 4,
            RunFault::Memory => 5,
            RunFault::Settings => 64,
        }
    }
}
