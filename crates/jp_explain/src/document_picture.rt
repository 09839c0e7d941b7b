//! A faulty document with its mark, as a terminal shows it: the line of it in which the mark stands.

ghost use Rattle.std.specs.Prelude.{IfOk};
ghost use Rattle.jp_tree.specs.View.{text_of};
ghost use Rattle.jp_explain.specs.Picture.{IsLinePicture};

use crate::line::PlainLine;
use crate::line_explanation::LineExplanation;
use crate::line_helping::{document_help, line_of_help};
use crate::line_picture::{bytes_between, marked, push_reason};
use jp_line_scan::LineReason;
use std::alloc::{AllocError, Global};

/// A place in a text of several lines.
#[derive(Clone, Copy, Drop)]
struct LineStart {
    /// The number of its line, from 1.
    line: usize,
    /// Where its line begins.
    start: usize,
}

/// The place behind these bytes.
fn place_behind(bytes: &[u8]) -> LineStart {
    let mut place = LineStart { line: 1, start: 0 };
    for (at, byte) in bytes.iter().enumerate() {
        if *byte == b'\n' {
            place.line = place.line.saturating_add(1);
            place.start = at.saturating_add(1);
        }
    }
    place
}

/// How many bytes stand before the first line feed, or in all.
fn line_length(bytes: &[u8]) -> usize {
    for (at, byte) in bytes.iter().enumerate() {
        if *byte == b'\n' {
            return at;
        }
    }
    bytes.len()
}

/// What is to be said of the document of that number, with the mark at this place, so many bytes into its
/// line.
fn head(
    alloc: Global,
    number: u64,
    document: &[u8],
    explanation: &LineExplanation,
    (line, byte): (usize, usize),
) -> Result<PlainLine, AllocError> {
    let mut head = PlainLine::new(alloc);
    let front = format!(in alloc; "document {number}, line {line}, ")?;
    head.push_text(front.as_str())?;
    match &explanation.reason {
        LineReason::Ended(expected) => {
            let words = format!(in alloc; "byte {byte}: the document ends: {expected}")?;
            head.push_text(words.as_str())?;
        }
        _ => push_reason(alloc, &mut head, document, explanation, byte)?,
    }
    Ok(head)
}

/// Three lines for a terminal: what is to be said of the document of that number, the bytes around the mark
/// in its line, and a caret under it. Lines are counted within the document, from 1. Where it is known what
/// helps ([`document_help`](crate::document_help)), a fourth says it.
///
/// What is shown as an escape, and where it is cut, is as in [`write_line_mark`](crate::write_line_mark).
///
/// # Errors
///
/// `AllocError` where a growth of memory was refused.
pub fn write_document_mark(
    alloc: Global,
    number: u64,
    document: &[u8],
    explanation: &LineExplanation,
) -> Result<String, AllocError>
    // No such character of the document is shown, and so no line feed.
    ensures shown { IfOk result (λ s. IsLinePicture (text_of s)) }
{
    let place = place_behind(bytes_between(document, 0, explanation.mark));
    let byte = explanation.mark.saturating_sub(place.start);
    let head = head(alloc, number, document, explanation, (place.line, byte))?;
    let help = line_of_help(alloc, document_help(&explanation.reason))?;
    let rest = bytes_between(document, place.start, document.len());
    let line = bytes_between(rest, 0, line_length(rest));
    let picture = marked(alloc, line, byte.min(line.len()), help.as_str())?;
    head.above(alloc, picture.as_str())
}
