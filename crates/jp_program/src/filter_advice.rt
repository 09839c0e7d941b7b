//! What helps where a filter of documents is refused.

ghost use Rattle.std.specs.Prelude.{◌≡◌, ◌⊎◌, true, IfOk, IsSomeAnd, string_bytes};
ghost use Rattle.std.specs.Str.{chars};
ghost use Rattle.clap.specs.Walk.{texts};
ghost use Rattle.jp_tree.specs.declared.fault.QueryFault.{QueryFault as Refusal};
ghost use Rattle.jp_tree.specs.View.{text_of};
ghost use Rattle.jp_check.specs.Filter.{filter_text};
ghost use Rattle.jp_explain.specs.Picture.{IsPicture};
ghost use Rattle.jp_run.specs.AskedTexts.{IsFilterRefused};
ghost use Rattle.jp_program.specs.Told.{IsFilterExplained, IsTold, filter_line, one_filter_line};
ghost use Rattle.jp_program.specs.Wanted.{Wanted as Wish, Wants};

use crate::advice::lines_of;
use crate::command::note_text;
use crate::command_line::{Invocation, read_words};
use jp_check::filter_query_text;
use jp_number::Numbers;
use jp_run::{RunFault, Sink};
use jp_tree::QueryFault;
use std::alloc::{AllocError, Global};

/// The line of a text that is more than one filter.
const ONE_FILTER: &str = "jp: --where takes one filter: join two by && or ||\n";

/// Tells why the wanted filter is refused in one line, and behind it where the query with it went wrong, or
/// that it is more than one; or that memory was wanted for that.
pub(crate) fn tell_filter_refusal<N: Sink>(
    alloc: Global,
    notes: &mut N,
    words: &[&str],
    refusal: QueryFault,
)
    ensures untouched { N.failed notes.old ≡ true → notes.new ≡ notes.old }
    ensures told { (w : Wish) → Wants (texts words.now) w
        → IsFilterRefused w.numbers w.filter refusal
        → IsTold w (RunFault.Filter refusal) (N.failed notes.new) (N.contents notes.old)
        (N.contents notes.new) }
{
    note_text(notes, filter_line(refusal));
    match explanation(alloc, words) {
        Ok(Some(lines)) => note_text(notes, lines.as_str()),
        Ok(None) => {}
        Err(_) => note_text(notes, "jp: memory\n"),
    }
}

/// The line of a refusal, with its line feed.
fn filter_line(refusal: QueryFault) -> &'static str
    ensures { result.now ≡ filter_line refusal }
{
    match refusal {
        QueryFault::TooDeep => "jp: where: too deep\n",
        QueryFault::Syntax => "jp: where: syntax\n",
        QueryFault::Fraction => "jp: where: fraction\n",
        QueryFault::Range => "jp: where: range\n",
        QueryFault::IllTyped => "jp: where: type\n",
        QueryFault::Memory => "jp: memory\n",
    }
}

/// The lines that show where the query with the wanted filter went wrong; none where none is wanted.
fn explanation(alloc: Global, words: &[&str]) -> Result<Option<String>, RunFault>
    ensures { (f : Refusal) (w : Wish) → Wants (texts words.now) w
        → IsFilterRefused w.numbers w.filter f
        → IfOk result (λ o. IsSomeAnd o (λ s. IsFilterExplained w (string_bytes s))) }
{
    match read_words(alloc, words)? {
        Invocation::Query(wanted) => match wanted.settings.filter {
            Some(filter) => Ok(Some(filter_lines(alloc, filter, wanted.settings.numbers)?)),
            None => Ok(None),
        },
        Invocation::Show(_text) => Ok(None),
    }
}

/// The lines that show where the query with a filter went wrong, whose literals may be these numbers; of an
/// accepted query the line that it has more than one filter.
fn filter_lines(alloc: Global, filter: &str, numbers: Numbers) -> Result<String, AllocError>
    ensures { IfOk result (λ s. IsPicture (filter_text (chars filter.now)) (text_of s)
        ⊎ (string_bytes s ≡ one_filter_line)) }
{
    let query = filter_query_text(alloc, filter)?;
    let lines = lines_of(alloc, query.as_str(), numbers)?;
    match lines {
        Some(lines) => Ok(lines),
        None => String::from_str(alloc, ONE_FILTER),
    }
}
