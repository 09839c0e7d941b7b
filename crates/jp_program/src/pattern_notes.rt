//! What is told of a query, and of a filter, before anything is read: of their literal patterns, of a filter
//! that is a query, and of texts that mean something else than they seem to.

ghost use Rattle.std.specs.Prelude.{◌≡◌, true};

use crate::command::{note, note_text};
use jp_check::Plan;
use jp_explain::{PatternNote, pattern_notes, query_notes, write_pattern_note};
use jp_run::{Prepared, Sink};
use std::alloc::{AllocError, Global};

/// Tells of each literal pattern of what is prepared, the query and then the filter, that may not match what
/// was meant, in a line each. Where memory for it is refused, nothing is told or that.
/// Behind them it tells of their texts, and of a filter that begins as a query with a filter does: it is true
/// wherever that query selects anything.
pub(crate) fn tell_prepared<N: Sink>(
    alloc: Global,
    notes: &mut N,
    prepared: &Prepared,
    query: &str,
    filter: Option<&str>,
)
    ensures untouched { N.failed notes.old ≡ true → notes.new ≡ notes.old }
{
    tell_patterns(alloc, notes, prepared.plan());
    if let Some(filter) = prepared.filter() {
        // The query that it stands in has the filter's literals.
        tell_patterns(alloc, notes, filter.plan());
    }
    tell_texts(alloc, notes, query, filter);
    if filter.is_some_and(|text| text.trim_start().starts_with("$[?")) {
        note_text(
            notes,
            "jp: note: --where takes what stands behind ?, as '@.a==1': a query is true where it selects\n",
        );
    }
}

/// The same of a plan.
fn tell_patterns<N: Sink>(alloc: Global, notes: &mut N, plan: &Plan)
    ensures untouched { N.failed notes.old ≡ true → notes.new ≡ notes.old }
{
    if notes.failed() {
        return;
    }
    let Ok(found) = pattern_notes(alloc, plan) else {
        return;
    };
    for one in &found {
        note(notes, line_of(alloc, one));
    }
}

/// Tells of `.length` that is compared, and of a name with a sign for an operator, in a line each: of the
/// query, or else of the filter. Both are accepted. Where memory for it is refused, nothing is told or that.
fn tell_texts<N: Sink>(alloc: Global, notes: &mut N, query: &str, filter: Option<&str>)
    ensures untouched { N.failed notes.old ≡ true → notes.new ≡ notes.old }
{
    let Ok(of_query) = query_notes(alloc, query) else {
        return;
    };
    let Ok(of_filter) = query_notes(alloc, filter.unwrap_or("")) else {
        return;
    };
    tell_first(alloc, notes, &of_query.length, &of_filter.length);
    tell_first(alloc, notes, &of_query.sign, &of_filter.sign);
}

/// Tells the first of two notes, where there is one.
fn tell_first<N: Sink>(
    alloc: Global,
    notes: &mut N,
    first: &Option<String>,
    second: &Option<String>,
)
    ensures untouched { N.failed notes.old ≡ true → notes.new ≡ notes.old }
{
    let told = match first {
        Some(_) => first,
        None => second,
    };
    if let Some(words) = told {
        note(notes, format!(in alloc; "jp: note: {words}\n"));
    }
}

/// The line of a note, with its line feed.
fn line_of(alloc: Global, one: &PatternNote) -> Result<String, AllocError> {
    let words = write_pattern_note(alloc, one)?;
    format!(in alloc; "jp: note: {words}\n")
}
