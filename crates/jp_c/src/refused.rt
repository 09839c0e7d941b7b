//! Why C is given no answer.

ghost use Rattle.std.specs.Prelude.{◌≡◌};
ghost use Rattle.jp_c.specs.declared.refused.Refused.TheVariants.{Memory};

use crate::codes::{FILTER_TEXT, LIMIT, MEMORY, OPTIONS, QUERY_TEXT, filter_code, query_code};
use jp_run::RunFault;
use jp_tree::QueryFault;

/// Why there is no answer.
#[derive(Clone, Copy, Debug, PartialEq, Eq, Drop)]
pub enum Refused {
    /// An option is out of its range.
    Options,
    /// The bytes of the query are no UTF-8.
    QueryText,
    /// The bytes of the filter are no UTF-8.
    FilterText,
    /// The query is refused.
    Query(QueryFault),
    /// The filter is refused.
    Filter(QueryFault),
    /// There is a line past number 4,294,967,295.
    Limit,
    /// A growth of memory was refused.
    Memory,
}

impl Refused {
    ghost use Rattle.jp_c.specs.Codes.{code_of};
    ghost use Rattle.jp_c.specs.inner.Refusals.{refusal_of};

    /// Of what an answer in memory may end in: all else is told as want of memory.
    pub(crate) fn of(fault: &RunFault) -> Refused
        ensures { result ≡ refusal_of fault.now }
    {
        match fault {
            RunFault::Query(fault) => Refused::Query(*fault),
            RunFault::Filter(fault) => Refused::Filter(*fault),
            RunFault::Limit => Refused::Limit,
            _ => Refused::Memory,
        }
    }

    /// Its number.
    pub(crate) fn code(self) -> u32
        ensures { result ≡ code_of self }
    {
        match self {
            Refused::Options => OPTIONS,
            Refused::QueryText => QUERY_TEXT,
            Refused::FilterText => FILTER_TEXT,
            Refused::Query(fault) => query_code(fault),
            Refused::Filter(fault) => filter_code(fault),
            Refused::Limit => LIMIT,
            Refused::Memory => MEMORY,
        }
    }
}
