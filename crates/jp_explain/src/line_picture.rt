//! A faulty line with its mark, as a terminal shows it.

ghost use Rattle.std.specs.Prelude.{◌≡◌, [], false, IfOk};
ghost use Rattle.std.specs.Str.{chars};
ghost use Rattle.jp_tree.specs.View.{text_of};
ghost use Rattle.jp_explain.specs.LineMark.{has_help};
ghost use Rattle.jp_explain.specs.Picture.{IsLinePicture, IsLinePictureWith, IsPictureWith};

use crate::line::PlainLine;
use crate::line_explanation::LineExplanation;
use crate::line_helping::{line_help, line_of_help};
use crate::sizes::{
    LINE_BYTES, LINE_BYTES_BEFORE, LINE_BYTES_BEHIND, NUMBER_BYTES, PATH_CHARACTERS,
};
use std::alloc::{AllocError, Global};

/// The first place from there on, three bytes farther at most, at which a character may begin in UTF-8.
fn boundary(line: &[u8], from: usize) -> usize {
    for more in 0..4 {
        let at = from.saturating_add(more);
        if !matches!(line.get(at), Some(0x80..=0xbf)) {
            return at;
        }
    }
    from
}

/// Behind how many bytes that is shown begins, and ends.
fn shown_range(line: &[u8], mark: usize) -> (usize, usize) {
    if line.len() <= LINE_BYTES {
        return (0, line.len());
    }
    let start = boundary(line, mark.saturating_sub(LINE_BYTES_BEFORE));
    let end = boundary(line, mark.saturating_add(LINE_BYTES_BEHIND));
    (start, end.min(line.len()))
}

/// The bytes of the line from one place to another.
pub(crate) fn bytes_between(line: &[u8], start: usize, end: usize) -> &[u8] {
    line.get(start..end).unwrap_or(&[])
}

/// The line around the mark, with a caret under it, and the words.
pub(crate) fn marked(
    alloc: Global,
    line: &[u8],
    mark: usize,
    words: &str,
) -> Result<String, AllocError>
    ensures { IfOk result (λ s. IsPictureWith (chars words.now) (text_of s)) }
{
    let (start, end) = shown_range(line, mark);
    let mut shown = PlainLine::new(alloc);
    if start > 0 {
        shown.push_gap()?;
    }
    shown.push_bytes(bytes_between(line, start, mark))?;
    let column = shown.columns();
    shown.push_bytes(bytes_between(line, mark, end))?;
    if end < line.len() {
        shown.push_gap()?;
    }
    shown.with_caret(alloc, column, words)
}

/// The path of a number, and its text.
fn push_number(head: &mut PlainLine, path: &str, number: &[u8]) -> Result<(), AllocError> {
    head.push_front(path, PATH_CHARACTERS)?;
    head.push_text(": ")?;
    let shown = number.len().min(NUMBER_BYTES);
    head.push_bytes(bytes_between(number, 0, shown))?;
    if shown < number.len() {
        head.push_gap()?;
    }
    Ok(())
}

/// What is to be said of the mark, which stands behind so many bytes of its line: the number that begins
/// there and what is wrong with it, or the words.
pub(crate) fn push_reason(
    alloc: Global,
    head: &mut PlainLine,
    text: &[u8],
    explanation: &LineExplanation,
    byte: usize,
) -> Result<(), AllocError> {
    let reason = &explanation.reason;
    let words = match reason.number() {
        Some((path, end)) => {
            push_number(head, path, bytes_between(text, explanation.mark, end))?;
            format!(in alloc; " {reason}")?
        }
        None => format!(in alloc; "byte {byte}: {reason}")?,
    };
    head.push_text(words.as_str())
}

/// What is to be said of the line of that number.
fn head(
    alloc: Global,
    number: u64,
    line: &[u8],
    explanation: &LineExplanation,
) -> Result<PlainLine, AllocError> {
    let mut head = PlainLine::new(alloc);
    let front = format!(in alloc; "line {number}, ")?;
    head.push_text(front.as_str())?;
    push_reason(alloc, &mut head, line, explanation, explanation.mark)?;
    Ok(head)
}

/// Three lines for a terminal: what is to be said of the line of that number, the bytes around the mark, and
/// a caret under it. Where it is known what helps ([`line_help`](crate::line_help)), a fourth says it.
///
/// Control characters, characters that show nothing or change how others stand, and bytes that are no UTF-8
/// are shown as escapes. A line of more than 60 bytes is cut on both sides of the mark, with `..` in the
/// place of what is left out; so are a long path and a long number behind their fronts.
///
/// # Errors
///
/// `AllocError` where a growth of memory was refused.
pub fn write_line_mark(
    alloc: Global,
    number: u64,
    line: &[u8],
    explanation: &LineExplanation,
) -> Result<String, AllocError>
    // No such character of the line is shown, and so no line feed.
    ensures shown { IfOk result (λ s. IsLinePicture (text_of s)) }
    // Nothing stands below the caret where it is not known what helps.
    ensures bare { has_help explanation.now.reason ≡ false
        → IfOk result (λ s. IsLinePictureWith [] (text_of s)) }
{
    let head = head(alloc, number, line, explanation)?;
    let help = line_of_help(alloc, line_help(&explanation.reason))?;
    let mark = explanation.mark.min(line.len());
    let picture = marked(alloc, line, mark, help.as_str())?;
    head.above(alloc, picture.as_str())
}
