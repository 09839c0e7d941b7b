//! The explanation of a faulty line.

ghost use Rattle.std.specs.Prelude.{◌≡◌, ◌≤◌, length, Some, None, IfOk, IfSome, IsTrue, IsUtf8};
ghost use Rattle.serde_json.specs.Read.{read as read_text};
ghost use Rattle.serde_json.specs.View.{view};
ghost use Rattle.serde_json.specs.Written.{has_float};
ghost use Rattle.jp_doc.specs.Reading.{max_line, reading};
ghost use Rattle.jp_number.specs.declared.numbers.Numbers.TheVariants.{Decimals};
ghost use Rattle.jp_doc.specs.ReadingIn.{reading_in};
ghost use Rattle.jp_explain.specs.LineMark.{IsNumber, IsLongNumber, IsSilent};

use jp_doc::DocFault;
use jp_flat::LineReader;
use jp_line_scan::{
    LineReason, LongNumber, NotWhole, first_fault, first_fault_of_decimals, first_long_number,
    has_number_not_whole, lead, long_length, number_length, place_of,
};
use jp_node::PathStack;
use jp_number::Numbers;
use serde_json::Value;
use std::alloc::{AllocError, Global};

/// Where a faulty line went wrong, and what is to be said of that place.
#[derive(Debug, PartialEq, Eq, Drop)]
pub struct LineExplanation {
    /// How many bytes of the line stand before the mark.
    pub mark: usize,
    /// What might have stood there, which rule is broken there, or that the number there is not whole or over
    /// the limits.
    pub reason: LineReason,
}

/// The same of a line that holds no JSON text, whatever its numbers, or where each is within what a float can
/// be.
pub(crate) fn explain_unreadable(
    alloc: Global,
    line: &[u8],
    numbers: Numbers,
) -> Result<Option<LineExplanation>, AllocError>
    ensures { IfOk result (λ o. IfSome o (λ x. x.mark ≤ length line.now)) }
{
    let found = match numbers {
        Numbers::Decimals => first_fault_of_decimals(alloc, line)?,
        Numbers::Whole => first_fault(alloc, line)?,
    };
    match found {
        Some((place, reason)) => Ok(Some(LineExplanation {
            mark: place.min(line.len()),
            reason,
        })),
        None => Ok(None),
    }
}

/// The value of the line, if there is one.
fn read(alloc: Global, line: &[u8]) -> Result<Option<Value>, AllocError>
    ensures { IfOk result
        (λ o. IfSome o (λ v. IsUtf8 line.now × (read_text line.now ≡ Some (view v)))) }
{
    match Value::from_slice(alloc, line) {
        Ok(value) => Ok(Some(value)),
        Err(error) if error.is_memory() => Err(AllocError),
        Err(_) => Ok(None),
    }
}

/// The text of the path.
fn text_of_path(alloc: Global, path: &mut PathStack<'_>) -> Result<String, AllocError> {
    let mut bytes = Vec::new(alloc);
    path.append_path(&mut bytes)?;
    String::from_utf8_lossy(alloc, bytes.as_slice())
}

/// The path of the first number of the value that is not whole, and where it begins in the line.
fn first_number(
    alloc: Global,
    line: &[u8],
    root: &Value,
) -> Result<Option<(String, usize)>, AllocError>
    ensures { IfOk result (λ o. IfSome o (λ _. IsTrue (has_float (view root.now)))) }
{
    if !has_number_not_whole(root) {
        return Ok(None);
    }
    let mut path = PathStack::new(alloc);
    lead(root, &mut path)?;
    match place_of(alloc, line, path.links())? {
        Some(place) => Ok(Some((text_of_path(alloc, &mut path)?, place))),
        None => Ok(None),
    }
}

/// The same of a line with a number that is not whole.
fn explain_not_whole(alloc: Global, line: &[u8]) -> Result<Option<LineExplanation>, AllocError>
    ensures number { IfOk result (λ o. IfSome o (λ x. IsNumber x line.now)) }
    ensures fault { IfOk result
        (λ o. IfSome o (λ _. length line.now ≤ max_line → reading line.now ≡ Err DocFault.NotWhole)) }
{
    let Some(root) = read(alloc, line)? else {
        return Ok(None);
    };
    match first_number(alloc, line, &root)? {
        Some((path, place)) => Ok(marked_number(line, path, place)),
        None => Ok(None),
    }
}

/// The explanation of the number that begins there, if one does.
fn marked_number(line: &[u8], path: String, place: usize) -> Option<LineExplanation>
    ensures { IfSome result (λ x. IsNumber x line.now) }
{
    let mark = place.min(line.len());
    let length = number_length(&line[mark..]);
    if length == 0 {
        return None;
    }
    let end = mark + length;
    Some(LineExplanation {
        mark,
        reason: LineReason::NotWhole(NotWhole { path, end }),
    })
}

/// Whether the fault of the line is a number over the limits.
fn has_long_number(alloc: Global, line: &[u8]) -> Result<bool, AllocError>
    ensures { IfOk result (λ b. IsTrue b → reading_in Decimals line.now ≡ Err DocFault.LongNumber) }
{
    let mut reader = LineReader::new(alloc);
    match reader.read(Numbers::Decimals, line)? {
        Ok(_) => Ok(false),
        Err(fault) => Ok(fault == DocFault::LongNumber),
    }
}

/// The same of a line with a number over the limits.
fn explain_long_number(alloc: Global, line: &[u8]) -> Result<Option<LineExplanation>, AllocError>
    ensures number { IfOk result (λ o. IfSome o (λ x. IsLongNumber x line.now)) }
    ensures fault { IfOk result (λ o. IfSome o (λ _. (g : DocFault) → reading line.now ≡ Err g
        → reading_in Decimals line.now ≡ Err DocFault.LongNumber)) }
{
    if !has_long_number(alloc, line)? {
        return Ok(None);
    }
    match first_long_number(alloc, line)? {
        Some((path, place)) => Ok(marked_long_number(line, path, place)),
        None => Ok(None),
    }
}

/// The explanation of the number over the limits that begins there, if one does.
fn marked_long_number(line: &[u8], path: String, place: usize) -> Option<LineExplanation>
    ensures { IfSome result (λ x. IsLongNumber x line.now) }
{
    let mark = place.min(line.len());
    let Some(length) = long_length(&line[mark..]) else {
        return None;
    };
    Some(LineExplanation {
        mark,
        reason: LineReason::LongNumber(LongNumber {
            path,
            end: mark + length,
        }),
    })
}

/// Where a faulty line went wrong that was read by these numbers, and what is to be said of that place.
///
/// Of an unreadable line it is the first byte at which reading can't go on by the grammar of RFC 8259, or at
/// which begins what a rule forbids: half of a surrogate pair and, where the line was read without decimals,
/// a number beyond what a float can be. Of a line with a number that is not whole it is the first such
/// number, where names rise, with its path; a member that a later one of its name covers does not count. Of a
/// line with a number over the limits it is the first such number from the left, with its path, also in a
/// member that is covered. Of the other faults, and of a line that has none, there is nothing to say: `None`.
///
/// # Errors
///
/// `AllocError` where a growth of memory was refused.
pub fn explain_line(
    alloc: Global,
    line: &[u8],
    fault: &DocFault,
    numbers: Numbers,
) -> Result<Option<LineExplanation>, AllocError>
    // Three faults alone have a place.
    ensures silent { IsSilent fault.now → result ≡ Ok None }
    // The mark is in the line, or at its end.
    ensures mark { IfOk result (λ o. IfSome o (λ x. x.mark ≤ length line.now)) }
    // What stands from the mark to the end that is told is characters of numbers.
    ensures number { fault.now ≡ DocFault.NotWhole
        → IfOk result (λ o. IfSome o (λ x. IsNumber x line.now)) }
    // It is told of lines alone that have this fault.
    ensures not_whole { fault.now ≡ DocFault.NotWhole → length line.now ≤ max_line
        → IfOk result (λ o. IfSome o (λ _. reading line.now ≡ Err DocFault.NotWhole)) }
    // What stands from the mark to the end that is told is over the limits, if it is a number.
    ensures long { fault.now ≡ DocFault.LongNumber
        → IfOk result (λ o. IfSome o (λ x. IsLongNumber x line.now)) }
    // It is told of lines alone that have this fault with decimals, where they have one with whole numbers.
    ensures long_number { fault.now ≡ DocFault.LongNumber → IfOk result (λ o. IfSome o (λ _.
        (g : DocFault) → reading line.now ≡ Err g
        → reading_in Decimals line.now ≡ Err DocFault.LongNumber)) }
{
    match fault {
        DocFault::Unreadable => explain_unreadable(alloc, line, numbers),
        DocFault::NotWhole => explain_not_whole(alloc, line),
        DocFault::LongNumber => explain_long_number(alloc, line),
        DocFault::LongLine | DocFault::LongArray | DocFault::Memory => Ok(None),
    }
}
