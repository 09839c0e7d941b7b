//! Bytes that are cut into lines, behind those that wait.

ghost use Rattle.std.specs.Prelude.{◌≡◌, ◌+◌, ◌≤◌, ◌++◌, length, IfOk, OnOk, OnErr};
ghost use Rattle.jp_doc.specs.Feeding.{cut, numbered, max_lines};
ghost use Rattle.jp_buffer.specs.inner.Waiting.{Begins};

use crate::waiting::WaitingLines;
use jp_doc::first_line;
use std::alloc::AllocError;

/// Adds the lines that end in the bytes, numbered on from `before`. Gives how many lines have ended then,
/// and the bytes of the next. An `Err` may leave more behind the lines that wait.
pub(crate) fn push_lines<'b>(
    before: u64,
    bytes: &'b [u8],
    waiting: &mut WaitingLines,
) -> Result<(u64, &'b [u8]), AllocError>
    requires { before ≤ max_lines + 1 }
    ensures lines { OnOk result
        (waiting.new ≡ waiting.old ++ numbered (before + 1) (cut bytes.now).ended) }
    ensures count { IfOk result (λ r. r.0 ≡ before + length (cut bytes.now).ended) }
    ensures rest { IfOk result (λ r. r.1.now ≡ (cut bytes.now).open_line) }
    ensures more_lines { OnErr result (Begins waiting.old waiting.new) }
{
    let mut count = before;
    let mut rest = bytes;
    while let Some((line, after)) = first_line(rest) {
        count += 1;
        waiting.push(count, &[], line)?;
        rest = after;
    }
    Ok((count, rest))
}
