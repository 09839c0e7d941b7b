//! The numbers that C is given.

ghost use Rattle.std.specs.Prelude.{◌≡◌};
ghost use Rattle.jp_c.specs.Codes as codes;

use jp_doc::DocFault;
use jp_tree::QueryFault;

/// A query that is accepted, or an answer to the whole input.
pub(crate) const OK: u32 = 0;

/// The bytes of a query are no UTF-8.
pub(crate) const QUERY_TEXT: u32 = 6;

/// Those of a filter.
pub(crate) const FILTER_TEXT: u32 = 22;

/// An answer that ends at a faulty line.
pub(crate) const FAULTY_LINE: u32 = 32;

/// A line past number 4,294,967,295.
pub(crate) const LIMIT: u32 = 33;

/// An option is out of its range.
pub(crate) const OPTIONS: u32 = 34;

/// A growth of memory was refused.
pub(crate) const MEMORY: u32 = 35;

/// The number of a query's fault.
pub(crate) fn query_code(fault: QueryFault) -> u32
    ensures { result ≡ codes.query_code fault }
{
    match fault {
        QueryFault::TooDeep => 1,
        QueryFault::Syntax => 2,
        QueryFault::Fraction => 3,
        QueryFault::Range => 4,
        QueryFault::IllTyped => 5,
        QueryFault::Memory => MEMORY,
    }
}

/// The number of a filter's fault.
pub(crate) fn filter_code(fault: QueryFault) -> u32
    ensures { result ≡ codes.filter_code fault }
{
    match fault {
        QueryFault::TooDeep => 17,
        QueryFault::Syntax => 18,
        QueryFault::Fraction => 19,
        QueryFault::Range => 20,
        QueryFault::IllTyped => 21,
        QueryFault::Memory => MEMORY,
    }
}

/// The number of a line's fault.
pub(crate) fn line_code(fault: DocFault) -> u32
    ensures { result ≡ codes.line_code fault }
{
    match fault {
        DocFault::LongLine => 1,
        DocFault::Unreadable => 2,
        DocFault::NotWhole => 3,
        DocFault::LongNumber => 4,
        DocFault::LongArray => 5,
        DocFault::Memory => 6,
    }
}
