//! What is told of the file at which a run has ended, and of one that it has passed.

ghost use Rattle.std.specs.Prelude.{◌≡◌, true};

use crate::command::{note, note_text, tell};
use crate::command_line::{Invocation, read_words};
use crate::split::{QUESTION, looks_like_query};
use jp_explain::escaped;
use jp_run::{Cutting, RunFault, Sink};
use std::alloc::{AllocError, Global};

/// What is known of the end of a run, beside its fault.
#[derive(Drop)]
pub(crate) struct RunEnd {
    /// How the input is cut.
    pub(crate) cutting: Cutting,
    /// Whether nobody reads any more what is written.
    pub(crate) lost_reader: bool,
    /// How many files were opened: the run ended at the last of them.
    pub(crate) opened: u64,
    /// Why that one could not be read, in the system's words.
    pub(crate) reason: Option<String>,
    /// Why standard output could not be written, in the system's words.
    pub(crate) write_reason: Option<String>,
    /// Whether files that cannot be read are passed: each was told as it came.
    pub(crate) passes_files: bool,
}

impl RunEnd {
    /// Whether this fault was told before the run has ended.
    fn was_told(&self, fault: &RunFault) -> bool {
        self.passes_files && matches!(fault, RunFault::Read)
    }
}

/// The line that tells what to do where two queries are given.
const ONE_QUERY: &str = "jp: a second query? one is run: '$[\"a\",\"b\"]' selects two members\n";

/// A file's name, with escapes for a terminal, and whether it is one of several.
#[derive(Drop)]
struct NamedFile {
    name: String,
    has_others: bool,
    /// Whether it looks like a part of a query.
    asks_for_quotes: bool,
}

impl NamedFile {
    /// Whether the name is a whole query by its brackets, where the words have another one that is accepted.
    fn looks_like_second_query(&self) -> bool {
        let name = self.name.as_str();
        let is_query = name.starts_with("$.") || name.starts_with("$[");
        let opened = name.bytes().filter(|byte| *byte == b'[').count();
        is_query && opened == name.bytes().filter(|byte| *byte == b']').count()
    }
}

/// Tells the fault of a run in one line, which names the file at which it ended, if it is one of several. Of
/// a file, or standard input, that could not be read a further line says why, and of standard output that
/// could not be written. What was told of files that were passed is not told again.
pub(crate) fn tell_of_run<N: Sink>(
    alloc: Global,
    notes: &mut N,
    words: &[&str],
    fault: &RunFault,
    end: &RunEnd,
)
    ensures untouched { N.failed notes.old ≡ true → notes.new ≡ notes.old }
{
    if end.was_told(fault) {
        return;
    }
    let file = match file_at(alloc, words, end.opened) {
        Ok(Some(file)) => file,
        Ok(None) => return tell_of_streams(alloc, notes, fault, end),
        Err(_) => return note(notes, fault_line(alloc, fault, end.cutting, None)),
    };
    match fault {
        RunFault::Read => {
            tell(alloc, notes, fault);
            tell_reason(alloc, notes, &file, &end.reason);
        }
        RunFault::Document { .. } | RunFault::Limit if file.has_others => {
            let name = Some(file.name.as_str());
            note(notes, fault_line(alloc, fault, end.cutting, name));
        }
        _ => tell_of_streams(alloc, notes, fault, end),
    }
}

/// Tells a fault that names no file, and why standard input or output failed, where this is known.
fn tell_of_streams<N: Sink>(alloc: Global, notes: &mut N, fault: &RunFault, end: &RunEnd)
    ensures untouched { N.failed notes.old ≡ true → notes.new ≡ notes.old }
{
    note(notes, fault_line(alloc, fault, end.cutting, None));
    match (fault, &end.reason, &end.write_reason) {
        (RunFault::Read, Some(reason), _) => {
            note(notes, format!(in alloc; "jp: standard input: {reason}\n"));
        }
        (RunFault::Write, _, Some(reason)) => {
            note(notes, format!(in alloc; "jp: standard output: {reason}\n"));
        }
        _ => {}
    }
}

/// The line that tells a fault, with the name of its file, if that is given. A document over lines is told by
/// its own number.
fn fault_line(
    alloc: Global,
    fault: &RunFault,
    cutting: Cutting,
    name: Option<&str>,
) -> Result<String, AllocError> {
    let words = match (cutting, fault) {
        (Cutting::Documents, RunFault::Document { line, fault }) => {
            format!(in alloc; "document {line}: {fault}")?
        }
        _ => format!(in alloc; "{fault}")?,
    };
    match name {
        Some(name) => format!(in alloc; "jp: {name}: {words}\n"),
        None => format!(in alloc; "jp: {words}\n"),
    }
}

/// Tells that a file could not be read, and was passed: the fault with the first one alone, and of each its
/// name and why.
pub(crate) fn tell_failed_file<N: Sink>(
    alloc: Global,
    notes: &mut N,
    name: &str,
    reason: &Option<String>,
    is_first: bool,
)
    ensures untouched { N.failed notes.old ≡ true → notes.new ≡ notes.old }
{
    if is_first {
        tell(alloc, notes, &RunFault::Read);
    }
    match named(alloc, name, true) {
        Ok(file) => tell_reason(alloc, notes, &file, reason),
        Err(_) => note_text(notes, "jp: memory\n"),
    }
}

/// Tells why a file could not be read, and asks whether its name is a part of the query.
fn tell_reason<N: Sink>(alloc: Global, notes: &mut N, file: &NamedFile, reason: &Option<String>)
    ensures untouched { N.failed notes.old ≡ true → notes.new ≡ notes.old }
{
    let name = file.name.as_str();
    match reason {
        Some(reason) => note(notes, format!(in alloc; "jp: {name}: {reason}\n")),
        None => note(notes, format!(in alloc; "jp: {name}\n")),
    }
    if file.looks_like_second_query() {
        note_text(notes, ONE_QUERY);
    } else if file.asks_for_quotes {
        note_text(notes, QUESTION);
    }
}

/// The wanted file that was opened last, of so many; none where none was.
fn file_at(alloc: Global, words: &[&str], opened: u64) -> Result<Option<NamedFile>, RunFault> {
    let Invocation::Query(wanted) = read_words(alloc, words)? else {
        return Ok(None);
    };
    let Some(last) = opened.checked_sub(1) else {
        return Ok(None);
    };
    match wanted.files.get(last as usize) {
        Some(name) => Ok(Some(named(alloc, name, wanted.files.len() > 1)?)),
        None => Ok(None),
    }
}

/// A file by its name.
fn named(alloc: Global, name: &str, has_others: bool) -> Result<NamedFile, AllocError> {
    Ok(NamedFile {
        name: escaped(alloc, name)?,
        has_others,
        asks_for_quotes: looks_like_query(name),
    })
}
