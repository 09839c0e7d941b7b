//! What is wrong with a line.

ghost use Rattle.std.specs.Prelude.{◌≡◌, IfOk};
ghost use Rattle.jp_doc.specs.ReadingIn.{reading_in};
ghost use Rattle.jp_answer.specs.Faults.{fault_in};

use jp_doc::DocFault;
use jp_flat::LineReader;
use jp_number::Numbers;
use std::alloc::{AllocError, Global};

/// What is wrong with a line, if anything, where documents may have these numbers.
///
/// `AllocError` if a growth was refused.
pub fn line_fault(
    alloc: Global,
    numbers: Numbers,
    line: &[u8],
) -> Result<Option<DocFault>, AllocError>
    ensures { IfOk result (λ o. o ≡ fault_in (reading_in numbers line.now)) }
{
    let mut reader = LineReader::new(alloc);
    match reader.read(numbers, line)? {
        Ok(_) => Ok(None),
        Err(fault) => Ok(Some(fault)),
    }
}
