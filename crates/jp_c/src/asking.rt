//! An answer that C asks for.

ghost use Rattle.std.specs.Prelude.{◌≡◌, ◌≤◌, None, Some, IfOk, IfErr, IsUtf8, option_map};
ghost use Rattle.std.specs.Str.{chars};
ghost use Rattle.jp_memory.specs.Answered.{answered_of};
ghost use Rattle.jp_run.specs.Answered.{manner_of};
ghost use Rattle.jp_run.specs.Limits.{max_lines};
ghost use Rattle.jp_c.specs.Asked.{IsAnswerAsked, IsRefusedSo};
ghost use Rattle.jp_c.specs.Options.{filter_by, manner_by};
ghost use Rattle.jp_c.specs.Options as by;

use crate::options::{Options, cutting_by, form_named, numbers_by, on_fault_by};
use crate::refused::Refused;
use jp_memory::{Answered, answer_bytes};
use jp_output::Ending;
use jp_run::{Output, Settings};
use std::alloc::Global;
use std::str;
use std::str::Utf8Error;

/// The greatest number of a line.
const MAX_LINES: u64 = 4_294_967_295;

/// The answer that is asked for, or why there is none.
pub(crate) fn answer(
    alloc: Global,
    query: &[u8],
    filter: &[u8],
    options: &Options,
    input: &[u8],
) -> Result<Answered, Refused>
    ensures answer { IfOk result (λ a. IsAnswerAsked options.now query.now filter.now input.now
        (answered_of a)) }
    ensures refused { IfErr result (IsRefusedSo options.now query.now filter.now input.now) }
{
    let Some(form) = form_named(options.form) else {
        return Err(Refused::Options);
    };
    if options.first > MAX_LINES {
        return Err(Refused::Options);
    }
    let Ok(text) = str::from_utf8(query) else {
        return Err(Refused::QueryText);
    };
    let Ok(chosen) = filter_text(options.has_filter, filter) else {
        return Err(Refused::FilterText);
    };
    let settings = settings_by(options, form, chosen);
    match answer_bytes(alloc, text, &settings, input) {
        Ok(answered) => Ok(answered),
        Err(fault) => Err(Refused::of(&fault)),
    }
}

/// The text of the filter, if there is one. `Err` where its bytes are no UTF-8.
fn filter_text(has_filter: u32, filter: &[u8]) -> Result<Option<&str>, Utf8Error>
    ensures text { IfOk result (λ o. option_map (λ text. chars text.now) o
        ≡ filter_by has_filter filter.now) }
    ensures none { IfErr result (λ _. ¬ IsUtf8 filter.now) }
{
    if has_filter == 0 {
        return Ok(None);
    }
    match str::from_utf8(filter) {
        Ok(text) => Ok(Some(text)),
        Err(fault) => Err(fault),
    }
}

/// The settings of a run that answers so. One worker answers: no thread is started.
fn settings_by<'f>(options: &Options, form: Output, filter: Option<&'f str>) -> Settings<'f>
    requires { options.now.first ≤ max_lines }
    ensures manner { manner_of result ≡ manner_by options.now form }
    ensures filter { result.filter ≡ filter.entry }
    ensures numbers { result.numbers ≡ by.numbers_by options.now.decimals }
{
    Settings {
        workers: 1,
        piece: 1,
        batch: 1,
        on_fault: on_fault_by(options.keep_going),
        numbers: numbers_by(options.decimals),
        cutting: cutting_by(options.documents),
        before: options.first.saturating_sub(1),
        output: form,
        ending: Ending::LineFeed,
        name: None,
        fields: &[],
        filter,
    }
}
