//! A query with its mark, as a terminal shows it.

ghost use Rattle.std.specs.Prelude.{◌≡◌, ◌<◌, ◌≤◌, [], true, false, length, IfOk};
ghost use Rattle.std.specs.Str.{chars};
ghost use Rattle.jp_tree.specs.View.{text_of};
ghost use Rattle.jp_explain.specs.Picture.{is_escaped, is_shown, ShowsShort, IsPicture, IsHelp, AreWords};
ghost use Rattle.jp_explain.specs.Picture.{AreWordsAlone, IsPictureAlone};

use crate::characters::{columns, is_escaped};
use crate::cure::cure;
use crate::explanation::Explanation;
use crate::line::PlainLine;
use crate::sizes::{HELP_CHARACTERS, QUERY_COLUMNS, QUERY_COLUMNS_BEFORE, QUERY_COLUMNS_BEHIND};
use std::alloc::{AllocError, Global};

/// The columns that are set aside for it, so that none takes no room at all.
fn room(c: char) -> usize
    ensures { is_escaped c ≡ false → result ≤ 2 }
{
    let taken = columns(c).max(1);
    if is_escaped(c) { taken } else { taken.min(2) }
}

/// Whether the whole text has room.
fn has_room(text: &str) -> bool
    ensures { is_shown (chars text.now) ≡ true → length (chars text.now) ≤ 35 → result ≡ true }
{
    let mut taken = 0usize;
    for c in text.chars() {
        taken = taken.saturating_add(room(c));
    }
    taken <= QUERY_COLUMNS
}

/// Behind how many characters that is shown begins which stands before the mark.
fn first_shown(text: &str, mark: usize) -> usize {
    let mut taken = 0usize;
    for c in text.chars().take(mark) {
        taken = taken.saturating_add(room(c));
    }
    let mut first = 0;
    for (at, c) in text.chars().take(mark).enumerate() {
        if taken <= QUERY_COLUMNS_BEFORE {
            break;
        }
        taken = taken.saturating_sub(room(c));
        first = at.saturating_add(1);
    }
    first
}

/// Shows what stands before the mark.
fn push_before(
    line: &mut PlainLine,
    text: &str,
    first: usize,
    mark: usize,
) -> Result<(), AllocError> {
    if first > 0 {
        line.push_gap()?;
    }
    for c in text.chars().take(mark).skip(first) {
        line.push_shown(c)?;
    }
    Ok(())
}

/// Shows what stands behind the mark, as far as it has room.
fn push_behind(
    line: &mut PlainLine,
    text: &str,
    mark: usize,
    limit: usize,
) -> Result<(), AllocError> {
    let mut taken = 0usize;
    for c in text.chars().skip(mark) {
        taken = taken.saturating_add(room(c));
        if taken > limit {
            return line.push_gap();
        }
        line.push_shown(c)?;
    }
    Ok(())
}

/// How many columns the first characters of the text take, so many.
fn columns_before(text: &str, count: usize) -> usize {
    let mut taken = 0usize;
    for c in text.chars().take(count) {
        taken = taken.saturating_add(columns(c));
    }
    taken
}

/// A line that shows a query, and the column of its mark.
#[derive(Drop)]
struct Shown {
    line: PlainLine,
    column: usize,
}

/// The whole query.
fn whole_query(alloc: Global, query: &str, mark: usize) -> Result<Shown, AllocError>
    ensures { is_shown (chars query.now) ≡ true
        → IfOk result (λ x. text_of x.line.text ≡ chars query.now) }
{
    let mut line = PlainLine::new(alloc);
    line.push_text(query)?;
    Ok(Shown {
        line,
        column: columns_before(query, mark),
    })
}

/// What of it has room around the mark.
fn cut_query(alloc: Global, query: &str, mark: usize) -> Result<Shown, AllocError> {
    let mut line = PlainLine::new(alloc);
    push_before(&mut line, query, first_shown(query, mark), mark)?;
    let column = line.columns();
    push_behind(&mut line, query, mark, QUERY_COLUMNS_BEHIND)?;
    Ok(Shown { line, column })
}

/// The query, as far as it has room.
fn shown_query(alloc: Global, query: &str, mark: usize) -> Result<Shown, AllocError>
    ensures { IfOk result (λ x. ShowsShort (chars query.now) (text_of x.line.text)) }
{
    if has_room(query) {
        return whole_query(alloc, query, mark);
    }
    cut_query(alloc, query, mark)
}

/// What helps at the mark, as a line of its own; nothing where that is not known.
fn help(alloc: Global, query: &str, explanation: &Explanation) -> Result<String, AllocError>
    ensures shown { IfOk result (λ s. IsHelp (text_of s)) }
    ensures within { length (chars query.now) < explanation.now.mark
        → IfOk result (λ s. text_of s ≡ []) }
{
    match cure(query, explanation) {
        Some(cure) => {
            let text = format!(in alloc; "{cure}")?;
            let mut line = PlainLine::new(alloc);
            line.push_front(text.as_str(), HELP_CHARACTERS)?;
            line.above(alloc, "")
        }
        None => Ok(String::new(alloc)),
    }
}

/// What is to be said of the mark, and what helps there.
fn words(alloc: Global, query: &str, explanation: &Explanation) -> Result<String, AllocError>
    ensures shown { IfOk result (λ s. AreWords (text_of s)) }
    ensures within { length (chars query.now) < explanation.now.mark
        → IfOk result (λ s. AreWordsAlone (text_of s)) }
{
    let help = help(alloc, query, explanation)?;
    let text = format!(in alloc; "{}", explanation.reason)?;
    let mut line = PlainLine::new(alloc);
    line.push_text(text.as_str())?;
    line.above(alloc, help.as_str())
}

/// Three lines for a terminal: the query, a caret under the mark, and what is to be said of it. Where it is
/// known what was meant, a fourth says what is to be written in its place.
///
/// Control characters, and characters that show nothing or change how others stand, are shown as escapes. A
/// query of more than 70 columns is cut on both sides of the mark, with `..` in the place of what is left
/// out.
///
/// # Errors
///
/// `AllocError` where a growth of memory was refused.
pub fn write_mark(
    alloc: Global,
    query: &str,
    explanation: &Explanation,
) -> Result<String, AllocError>
    // No such character of the query is shown, and so no line feed; a short one stands as it is.
    ensures shown { IfOk result (λ s. IsPicture (chars query.now) (text_of s)) }
    // What helps is told of a place in the query, or at its end, alone.
    ensures within { length (chars query.now) < explanation.now.mark
        → IfOk result (λ s. IsPictureAlone (text_of s)) }
{
    let shown = shown_query(alloc, query, explanation.mark)?;
    let words = words(alloc, query, explanation)?;
    shown.line.with_caret(alloc, shown.column, words.as_str())
}
