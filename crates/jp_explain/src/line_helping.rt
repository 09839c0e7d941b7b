//! What helps with a faulty line.

ghost use Rattle.std.specs.Prelude.{◌≡◌, [], true, false, is_some, IfOk, Ok, None};
ghost use Rattle.jp_tree.specs.View.{text_of};
ghost use Rattle.jp_explain.specs.LineMark.{IsSilent, has_help, may_go_on};
ghost use Rattle.jp_explain.specs.Picture.{IsHelp};

use crate::line::PlainLine;
use crate::line_cause::cause_of;
use crate::line_explanation::{LineExplanation, explain_unreadable};
use jp_doc::DocFault;
use jp_line_scan::{LineExpected, LineReason, LineRule};
use jp_number::Numbers;
use std::alloc::{AllocError, Global};

/// What helps where a number is not whole, or beyond what a float can be.
const DECIMALS_HELP: &str = "--decimals reads such a number";

/// The most bytes of an unreadable line that is scanned: so a long one costs little more than a good one.
const LONGEST_SCANNED: usize = 1_000_000;

/// Whether a document may go on so in the next line.
fn may_go_on(expected: LineExpected) -> bool
    ensures { result ≡ may_go_on expected }
{
    match expected {
        LineExpected::Value | LineExpected::FirstItem | LineExpected::ItemEnd => true,
        LineExpected::FirstName | LineExpected::Name | LineExpected::Colon => true,
        LineExpected::MemberEnd => true,
        LineExpected::End | LineExpected::Rest(_) | LineExpected::Digit => false,
        LineExpected::Exponent | LineExpected::Escape | LineExpected::HexDigit => false,
    }
}

/// What helps with a line that is faulty for that reason, in a few words; nothing where it is not known.
pub fn line_help(reason: &LineReason) -> Option<&'static str>
    // It is known of three reasons.
    ensures { is_some result ≡ has_help reason.now }
{
    match reason {
        LineReason::NotWhole(_) | LineReason::Rule(LineRule::TooLarge) => Some(DECIMALS_HELP),
        LineReason::Ended(expected) if may_go_on(*expected) => {
            Some("a document over several lines? --documents reads it")
        }
        _ => None,
    }
}

/// The same of a document over lines: no document goes on behind it.
pub fn document_help(reason: &LineReason) -> Option<&'static str> {
    match reason {
        LineReason::NotWhole(_) | LineReason::Rule(LineRule::TooLarge) => line_help(reason),
        _ => None,
    }
}

/// Where an unreadable line goes wrong, and what is to be said of that place; nothing of a long one.
fn scanned(
    alloc: Global,
    line: &[u8],
    numbers: Numbers,
) -> Result<Option<LineExplanation>, AllocError> {
    if line.len() > LONGEST_SCANNED {
        return Ok(None);
    }
    explain_unreadable(alloc, line, numbers)
}

/// What helps with a line of that fault that was read by these numbers: of an unreadable line what its first
/// bytes show, or else the words of `line_help`; nothing where it is not known. An unreadable line of at most
/// 1,000,000 bytes is scanned for where it goes wrong, and no other one is looked at.
///
/// # Errors
///
/// `AllocError` where a growth of memory was refused.
pub fn help_with_line(
    alloc: Global,
    line: &[u8],
    fault: &DocFault,
    numbers: Numbers,
) -> Result<Option<&'static str>, AllocError>
    ensures not_whole { fault.now ≡ DocFault.NotWhole → IfOk result (λ help. is_some help ≡ true) }
    ensures silent { IsSilent fault.now → result ≡ Ok None }
    ensures long_number { fault.now ≡ DocFault.LongNumber → result ≡ Ok None }
{
    match fault {
        DocFault::NotWhole => Ok(Some(DECIMALS_HELP)),
        DocFault::Unreadable => match cause_of(line) {
            Some(cause) => Ok(Some(cause)),
            None => match scanned(alloc, line, numbers)? {
                Some(told) => Ok(line_help(&told.reason)),
                None => Ok(None),
            },
        },
        DocFault::LongLine | DocFault::LongNumber | DocFault::LongArray | DocFault::Memory => Ok(
            None,
        ),
    }
}

/// The same of a document over lines: no document goes on behind it.
///
/// # Errors
///
/// `AllocError` where a growth of memory was refused.
pub fn help_with_document(
    alloc: Global,
    document: &[u8],
    fault: &DocFault,
    numbers: Numbers,
) -> Result<Option<&'static str>, AllocError>
    ensures not_whole { fault.now ≡ DocFault.NotWhole → IfOk result (λ help. is_some help ≡ true) }
    ensures silent { IsSilent fault.now → result ≡ Ok None }
    ensures long_number { fault.now ≡ DocFault.LongNumber → result ≡ Ok None }
{
    match fault {
        DocFault::NotWhole => Ok(Some(DECIMALS_HELP)),
        DocFault::Unreadable => match cause_of(document) {
            Some(cause) => Ok(Some(cause)),
            None => match scanned(alloc, document, numbers)? {
                Some(told) => Ok(document_help(&told.reason)),
                None => Ok(None),
            },
        },
        DocFault::LongLine | DocFault::LongNumber | DocFault::LongArray | DocFault::Memory => Ok(
            None,
        ),
    }
}

/// What helps as a line of its own; nothing where it is not known.
pub(crate) fn line_of_help(alloc: Global, help: Option<&'static str>) -> Result<String, AllocError>
    ensures shown { IfOk result (λ s. IsHelp (text_of s)) }
    ensures none { is_some help.entry ≡ false → IfOk result (λ s. text_of s ≡ []) }
{
    match help {
        Some(words) => {
            let mut line = PlainLine::new(alloc);
            line.push_text(words)?;
            line.above(alloc, "")
        }
        None => Ok(String::new(alloc)),
    }
}
