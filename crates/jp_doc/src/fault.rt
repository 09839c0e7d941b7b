//! Why a line holds no document.

ghost use Rattle.std.specs.Prelude.{◌≡◌};

use thiserror::Error;

/// Why a line holds no document: the first of these that applies, in this order. `Memory` may come in the
/// place of each but the first. It is shown as its words.
#[derive(Clone, Copy, Debug, PartialEq, Eq, Drop, Error)]
#[error("{words}", words = self.words())]
pub enum DocFault {
    /// The line has more than 268,435,456 bytes.
    LongLine,
    /// The JSON crate reads no value from the whole line: it is no JSON text (RFC 8259), or nested more
    /// than 127 deep; where numbers have to be whole, a number beyond the largest float too.
    Unreadable,
    /// Some number is no signed or unsigned whole number of 64 bits.
    NotWhole,
    /// Where numbers need not be whole: some number has over 1,000 digits, or over 9 digits of an exponent.
    LongNumber,
    /// Some array has more than 16,777,216 items.
    LongArray,
    /// A growth of memory was refused.
    Memory,
}

impl DocFault {
    ghost use Rattle.jp_doc.specs.FaultWords.{fault_words};

    /// What is wrong, in the words of a fault line.
    pub fn words(&self) -> &'static str
        ensures { result.now ≡ fault_words self.now }
    {
        match self {
            DocFault::LongLine => "long line",
            DocFault::Unreadable => "unreadable",
            DocFault::NotWhole => "not whole",
            DocFault::LongNumber => "long number",
            DocFault::LongArray => "long array",
            DocFault::Memory => "memory",
        }
    }
}
