//! What helps where a command line or a query is refused.

ghost use Rattle.std.specs.Prelude.{◌≡◌, true, Err, IfOk, IfSome, IfNone, IsSomeAnd, string_bytes};
ghost use Rattle.std.specs.Str.{chars};
ghost use Rattle.clap.specs.Walk.{texts};
ghost use Rattle.jp_tree.specs.declared.fault.QueryFault.{QueryFault as Refusal};
ghost use Rattle.jp_tree.specs.View.{text_of};
ghost use Rattle.jp_check.specs.Verdict.{IsVerdictIn};
ghost use Rattle.jp_explain.specs.Mark.{IsQuery};
ghost use Rattle.jp_explain.specs.Picture.{is_shown, IsPicture};
ghost use Rattle.jp_program.specs.Outcome.{IsRefusedWish};
ghost use Rattle.jp_program.specs.Told.{IsExplained, IsTold, query_line};
ghost use Rattle.jp_program.specs.Wanted.{Wanted as Wish, Wants};

use crate::command::{note, note_text, tell};
use crate::command_line::{
    Invocation, MAX_FIELDS, counts_by, ending_by, fields_by, files_by, matches, output_by,
    read_words,
};
use crate::file_notes::{RunEnd, tell_of_run};
use crate::filter_advice::tell_filter_refusal;
use crate::output::has_fields;
use crate::peer_options::first_own_way;
use crate::split::with_question;
use clap::ArgMatches;
use clap::error::ErrorKind;
use jp_explain::{escaped, explain, write_mark};
use jp_number::Numbers;
use jp_run::{Output, RunFault, Sink};
use jp_tree::QueryFault;
use std::alloc::{AllocError, Global};

/// Tells a fault in one line. Behind that of a command line a further one says what is wrong with the words,
/// or what to do; behind that of a query further ones show where it went wrong. A write that failed since the
/// reader has gone is not told.
pub(crate) fn tell_of_words<N: Sink>(
    alloc: Global,
    notes: &mut N,
    words: &[&str],
    fault: &RunFault,
    end: &RunEnd,
)
    ensures untouched { N.failed notes.old ≡ true → notes.new ≡ notes.old }
    ensures refused { (w : Wish) → Wants (texts words.now) w → IsRefusedWish w fault.now
        → IsTold w fault.now (N.failed notes.new) (N.contents notes.old) (N.contents notes.new) }
{
    match fault {
        RunFault::Query(refusal) => tell_refusal(alloc, notes, words, *refusal),
        RunFault::Filter(refusal) => tell_filter_refusal(alloc, notes, words, *refusal),
        RunFault::Settings => {
            tell(alloc, notes, fault);
            // Where memory for it is refused there is none (README, A second reading finds what helps).
            if let Ok(line) = advice_line(alloc, words) {
                note(notes, Ok(line));
            }
        }
        // Whoever has stopped reading knows it.
        RunFault::Write if end.lost_reader => {}
        _ => tell_of_run(alloc, notes, words, fault, end),
    }
}

/// Tells why the wanted query is refused in one line, and behind it where it went wrong, with the question
/// for its quotes, where the shell seems to have split it; or that memory was wanted for that.
fn tell_refusal<N: Sink>(alloc: Global, notes: &mut N, words: &[&str], refusal: QueryFault)
    ensures untouched { N.failed notes.old ≡ true → notes.new ≡ notes.old }
    ensures told { (w : Wish) → Wants (texts words.now) w
        → IsVerdictIn w.numbers w.query (Err refusal)
        → IsTold w (RunFault.Query refusal) (N.failed notes.new) (N.contents notes.old)
        (N.contents notes.new) }
{
    note_text(notes, query_line(refusal));
    match explanation(alloc, words) {
        Ok(Some(lines)) => note_text(notes, lines.as_str()),
        Ok(None) => {}
        Err(_) => note_text(notes, "jp: memory\n"),
    }
}

/// The line of a refusal, with its line feed.
fn query_line(refusal: QueryFault) -> &'static str
    ensures { result.now ≡ query_line refusal }
{
    match refusal {
        QueryFault::TooDeep => "jp: query: too deep\n",
        QueryFault::Syntax => "jp: query: syntax\n",
        QueryFault::Fraction => "jp: query: fraction\n",
        QueryFault::Range => "jp: query: range\n",
        QueryFault::IllTyped => "jp: query: type\n",
        QueryFault::Memory => "jp: memory\n",
    }
}

/// The lines that show where the wanted query went wrong, and the question for its quotes, where the shell
/// seems to have split it; none where it is accepted, or none is wanted.
fn explanation(alloc: Global, words: &[&str]) -> Result<Option<String>, RunFault>
    ensures { (f : Refusal) (w : Wish) → Wants (texts words.now) w
        → IsVerdictIn w.numbers w.query (Err f)
        → IfOk result (λ o. IsSomeAnd o (λ s. IsExplained w (string_bytes s))) }
{
    match read_words(alloc, words)? {
        Invocation::Query(wanted) => {
            let lines = lines_of(alloc, wanted.query, wanted.settings.numbers)?;
            let Some(lines) = lines else {
                return Ok(None);
            };
            let files = wanted.files.as_slice();
            Ok(Some(with_question(lines, wanted.query, files)?))
        }
        Invocation::Show(_text) => Ok(None),
    }
}

/// The lines that show where a query went wrong, whose literals may be these numbers; none of an accepted
/// one.
pub(crate) fn lines_of(
    alloc: Global,
    query: &str,
    numbers: Numbers,
) -> Result<Option<String>, AllocError>
    ensures shown { IfOk result (λ o. IfSome o (λ s. IsPicture (chars query.now) (text_of s))) }
    ensures accepted { IfOk result (λ o. IfNone o (IsQuery numbers (chars query.now))) }
{
    match explain(alloc, query, numbers)? {
        Some(explanation) => Ok(Some(write_mark(alloc, query, &explanation)?)),
        None => Ok(None),
    }
}

/// The line that helps, with its line feed.
fn advice_line(alloc: Global, words: &[&str]) -> Result<String, AllocError> {
    let advice = advice(alloc, words)?;
    format!(in alloc; "{advice}\n")
}

/// What helps. It may name a word, in which anything may stand: so it has escapes for a terminal.
fn advice(alloc: Global, words: &[&str]) -> Result<String, AllocError>
    ensures { IfOk result (λ s. is_shown (text_of s) ≡ true) }
{
    let plain = plain_advice(alloc, words)?;
    escaped(alloc, plain.as_str())
}

/// The same, with each word as it was given.
fn plain_advice(alloc: Global, words: &[&str]) -> Result<String, AllocError> {
    // A second reading of the words, so that the contracts of the first need not speak of texts
    // (README, A second reading finds what helps).
    match matches(alloc, words) {
        Ok(matches) => String::from_str(alloc, wrong_value(alloc, &matches)?),
        Err(error) => {
            let text = format!(in alloc; "{error}")?;
            advice_by(alloc, words, error.kind(), &text)
        }
    }
}

/// The same, by what the reader of the words says: its first line, and its tip where that names an option.
/// Behind an option of another tool stands what does the same here.
fn advice_by(
    alloc: Global,
    words: &[&str],
    kind: ErrorKind,
    text: &str,
) -> Result<String, AllocError> {
    let said = said_in(text);
    if let (ErrorKind::UnknownArgument, Some(way)) = (kind, first_own_way(words)) {
        return format!(in alloc; "jp: {said}; {way}");
    }
    match (kind, tip_in(text)) {
        (ErrorKind::MissingRequiredArgument, _) => {
            let cure = missing_cure(words);
            format!(in alloc; "jp: there is no query; {cure}")
        }
        (_, Some(tip)) if tip.starts_with("a similar") => format!(in alloc; "jp: {said}; {tip}"),
        (_, _) => format!(in alloc; "jp: {said}; try jp --help"),
    }
}

/// Which value of words that are read is wrong.
fn wrong_value(alloc: Global, matches: &ArgMatches<'_>) -> Result<&'static str, AllocError> {
    let Some(output) = output_by(matches) else {
        return Ok("jp: --output takes nodes, values, texts, raw, rows or lines");
    };
    if counts_by(matches, output).is_none() {
        return Ok("jp: -c, --count stands in the place of --output");
    }
    if ending_by(matches, output).is_none() {
        return Ok("jp: -0, --null goes with --output values, texts or raw");
    }
    if fields_by(alloc, matches, output)?.is_none() {
        return Ok(wrong_fields(output, fields_given(matches)));
    }
    if files_by(alloc, matches)?.is_none() {
        return Ok("jp: a file's name has a control character");
    }
    Ok("jp: a number is out of its range; try jp --help")
}

/// How often a field is given.
fn fields_given(matches: &ArgMatches<'_>) -> usize {
    match matches.get_strs("field") {
        Some(given) => given.len(),
        None => 0,
    }
}

/// What is wrong with so many fields in this form.
fn wrong_fields(output: Output, given: usize) -> &'static str {
    if !has_fields(output) {
        return "jp: --field goes with --output rows";
    }
    if given == 0 {
        return "jp: --output rows takes --field FIELD, once or more";
    }
    if given > MAX_FIELDS {
        return "jp: --field is given 64 times at most";
    }
    "jp: --field takes a singular query of @, as @.name or @['a'][0]"
}

/// What to do where there is no query. A word that looks like one was taken by the option before it.
fn missing_cure(words: &[&str]) -> &'static str {
    for word in words {
        if word.starts_with('$') {
            return "an option before it has taken it: -o FORM, --workers N";
        }
    }
    "try jp --help"
}

/// The first line, without what stands before it.
fn said_in(text: &str) -> &str {
    let line = text.lines().next().unwrap_or("");
    line.strip_prefix("error: ").unwrap_or(line)
}

/// The first tip.
fn tip_in(text: &str) -> Option<&str> {
    let (_, rest) = text.split_once("  tip: ")?;
    rest.lines().next()
}
