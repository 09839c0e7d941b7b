//! Fault lines.

ghost use Rattle.std.specs.Prelude.{◌≡◌, ◌≢◌, ◌++◌, ◌∷◌, [], decimal, OnOk, OnErr};
ghost use Rattle.jp_doc.specs.declared.fault.DocFault.TheVariants.{Memory};
ghost use Rattle.jp_node.specs.Appended.{Extends};
ghost use Rattle.jp_doc.specs.FaultWords.{fault_words};
ghost use Rattle.jp_output.specs.FaultLine.{fault_line};

use crate::head::Head;
use crate::output_line::append_number;
use jp_doc::DocFault;
use std::alloc::{AllocError, Global};

/// Appends the fault line of a faulty line: its number, a tab, `!`, a tab, what is wrong with it
/// (`unreadable`, `not whole`, `long number`, `long array` or `long line`) and a line feed.
///
/// The fault is not `Memory`, which is no fault of the line. After an `AllocError`, which says that a growth
/// was refused, `out` is as before. No other memory is taken.
pub fn write_fault(
    // Not used: no memory is taken but the growth of `out` (README, A fault line only grows its output).
    _alloc: Global,
    number: u64,
    fault: &DocFault,
    out: &mut Vec<u8>,
) -> Result<(), AllocError>
    requires { fault.now ≢ Memory }
    ensures ok { OnOk result (out.new.items ≡ out.old.items ++ fault_line number fault.now) }
    ensures err { OnErr result (out.new.items ≡ out.old.items) }
{
    write_fault_behind(&Head::none(), number, fault, out)
}

/// The same, behind a head.
pub(crate) fn write_fault_behind(
    head: &Head,
    number: u64,
    fault: &DocFault,
    out: &mut Vec<u8>,
) -> Result<(), AllocError>
    ensures ok { OnOk result (out.new.items ≡ out.old.items ++ (head.now ++ fault_line number fault.now)) }
    ensures err { OnErr result (out.new.items ≡ out.old.items) }
{
    let before = out.len();
    match append_fault(head, number, fault, out) {
        Ok(()) => Ok(()),
        Err(error) => {
            out.truncate(before);
            Err(error)
        }
    }
}

/// Appends the parts of a line, and on an error some of them.
fn append_fault(
    head: &Head,
    number: u64,
    fault: &DocFault,
    out: &mut Vec<u8>,
) -> Result<(), AllocError>
    ensures ok { OnOk result (out.new.items ≡ out.old.items
        ++ (head.now ++ (decimal number ++ (9 ∷ 33 ∷ 9 ∷ fault_words fault.now ++ 10 ∷ [])))) }
    ensures kept { Extends out.old.items out.new.items }
{
    head.append_to(out)?;
    append_number(number, out)?;
    out.push(b'!')?;
    out.push(b'\t')?;
    out.extend_from_slice(fault.words().as_bytes())?;
    out.push(b'\n')?;
    Ok(())
}
