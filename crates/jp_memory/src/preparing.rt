//! The answer to an input that stands in memory, for callers.

ghost use Rattle.std.specs.Prelude.{◌≡◌, ◌<◌, ◌⊎◌, ◌↔◌, Err, IfOk, IfErr, IsErrOf, option_map};
ghost use Rattle.std.specs.Str.{chars};
ghost use Rattle.jp_tree.specs.declared.fault.QueryFault.{QueryFault as Refusal};
ghost use Rattle.jp_tokens.specs.Depth.{bracket_depth, max_depth};
ghost use Rattle.jp_check.specs.PlannedFilter.{planned_filter};
ghost use Rattle.jp_check.specs.Verdict.{IsVerdictIn};
ghost use Rattle.jp_eval.specs.Filter.{asked_filter};
ghost use Rattle.jp_pattern.specs.Tests.{Tests, AreRight};
ghost use Rattle.jp_answer.specs.Answer.{answer_by};
ghost use Rattle.jp_answer.specs.Asking.{asked_query};
ghost use Rattle.jp_answer.specs.FilteredQuery.{FilteredQuery};
ghost use Rattle.jp_answer.specs.Policy.{policy};
ghost use Rattle.jp_run.specs.Answered.{IsAnswerBy, head_of, layout_of, manner_of, numbering_of};
ghost use Rattle.jp_run.specs.AskedTexts.{AskedTexts, AreAcceptedIn, AreRefusedIn, asked_by};
ghost use Rattle.jp_run.specs.Cutting.{documents, last_number};
ghost use Rattle.jp_run.specs.Forms.{form_of};
ghost use Rattle.jp_run.specs.Limits.{max_lines};
ghost use Rattle.jp_run.specs.Prepared.{prepared_query};
ghost use Rattle.jp_memory.specs.Answered.{answered_of};

use crate::answered::Answered;
use crate::answering::answer_in;
use jp_answer::{Asked, LinePolicy};
use jp_eval::DocumentFilter;
use jp_output::{
    FieldList, Head, InputLines, Layout, NodeLines, RawLines, RowLines, TextLines, ValueLines,
};
use jp_run::{Output, Prepared, RunFault, Settings};
use jp_tree::QueryFault;
use std::alloc::{AllocError, Global};

/// The answer to all documents of an input, one on a line or one behind another (RFC 8259), to the query of
/// this text (RFC 9535), by these settings: the bytes that [`jp_run::run`] writes, in one piece. It is made
/// on the calling thread: how many workers there are, and how many documents are a piece or a batch, changes
/// nothing.
///
/// The bytes of an input are copied, 65,536 at most at a time and those of the document that is open.
///
/// # Errors
///
/// [`RunFault::Query`] where the query is refused, else [`RunFault::Filter`] where the filter is;
/// [`RunFault::Limit`] past line 4,294,967,295; [`RunFault::Memory`] where a growth of memory was refused. A
/// faulty line is none: where the answer ends there, [`Answered::stopped`] says so.
pub fn answer_bytes(
    alloc: Global,
    query: &str,
    settings: &Settings<'_>,
    input: &[u8],
) -> Result<Answered, RunFault>
    ensures answer { IfOk result (λ a. IsAnswerBy (manner_of settings.now) (asked_by query.now settings.now)
        input.now (answered_of a)) }
    ensures fault { IfErr result (λ fault. (fault ≡ RunFault.Memory)
        ⊎ AreRefusedIn settings.now.numbers (asked_by query.now settings.now) fault
        ⊎ ((fault ≡ RunFault.Limit) × (max_lines < last_number (numbering_of settings.now) input.now))) }
    // A text is too deep exactly where its bracket depth is over 64: want of memory is not told in its place.
    ensures too_deep { IsErrOf result (RunFault.Query QueryFault.TooDeep)
        ↔ (max_depth < bracket_depth (chars query.now)) }
{
    let prepared = Prepared::new(alloc, query, settings.filter, settings.numbers)?;
    answer_prepared(alloc, &prepared, settings, input)
}

/// The same, to what is prepared: by these settings, but for their filter. So a query that is asked of many
/// inputs is read and compiled once.
///
/// # Errors
///
/// Those of [`answer_bytes`], but that nothing is refused.
pub fn answer_prepared(
    alloc: Global,
    prepared: &Prepared,
    settings: &Settings<'_>,
    input: &[u8],
) -> Result<Answered, RunFault>
    ensures answer { (asked : AskedTexts)
        → AreAcceptedIn settings.now.numbers asked (prepared_query prepared.now)
        → IfOk result (λ a. IsAnswerBy (manner_of settings.now) asked input.now (answered_of a)) }
    ensures fault { IfErr result (λ fault. (fault ≡ RunFault.Memory) ⊎ ((fault ≡ RunFault.Limit)
        × (max_lines < last_number (numbering_of settings.now) input.now))) }
{
    let layout = layout_by(alloc, settings)?;
    let asked = Asked {
        query: prepared.plan().compiled(),
        filter: document_filter(alloc, prepared),
        layout: &layout,
        policy: LinePolicy {
            numbers: settings.numbers,
            on_fault: settings.on_fault,
        },
        // All is done on the calling thread.
        workers: 1,
    };
    answer_in_form(alloc, &asked, settings, input)
}

/// What each line stands behind, in a form whose lines have a head. `AllocError` if memory was refused: none
/// is taken where there is no name.
fn head_by(alloc: Global, settings: &Settings<'_>) -> Result<Head, AllocError>
    ensures { IfOk result (λ head. head ≡ head_of settings.now) }
{
    match settings.name {
        Some(name) => Head::of_name(alloc, name),
        None => Ok(Head::none()),
    }
}

/// What stands around what is written. `AllocError` if memory was refused: none is taken where there is no
/// name, and no field.
fn layout_by(alloc: Global, settings: &Settings<'_>) -> Result<Layout, AllocError>
    ensures { IfOk result (λ layout. layout ≡ layout_of settings.now) }
{
    Ok(Layout {
        head: head_by(alloc, settings)?,
        ending: settings.ending,
        fields: FieldList::of(alloc, settings.fields)?,
    })
}

/// What asks the filter, if there is one, of documents. It takes no memory.
fn document_filter(alloc: Global, prepared: &Prepared) -> Option<DocumentFilter<'_>>
    ensures { option_map asked_filter result ≡ (prepared_query prepared.now).filter }
{
    match prepared.filter() {
        Some(plan) => DocumentFilter::new(alloc, plan.compiled()),
        None => None,
    }
}

/// The answer in the form that the settings name.
fn answer_in_form(
    alloc: Global,
    asked: &Asked<'_>,
    settings: &Settings<'_>,
    input: &[u8],
) -> Result<Answered, RunFault>
    ensures answer { IfOk result (λ a. (t : Tests) → AreRight t
        → answer_by (form_of settings.now.output asked.now.layout.now) asked.now.policy t
        (asked_query asked.now) (documents (numbering_of settings.now) input.now) ≡ answered_of a) }
    ensures fault { IfErr result (λ fault. (fault ≡ RunFault.Memory) ⊎ ((fault ≡ RunFault.Limit)
        × (max_lines < last_number (numbering_of settings.now) input.now))) }
{
    match settings.output {
        Output::Nodes => answer_in::<NodeLines>(alloc, asked, settings, input),
        Output::Values => answer_in::<ValueLines>(alloc, asked, settings, input),
        Output::Texts => answer_in::<TextLines>(alloc, asked, settings, input),
        Output::Raw => answer_in::<RawLines>(alloc, asked, settings, input),
        Output::Rows => answer_in::<RowLines>(alloc, asked, settings, input),
        Output::Lines => answer_in::<InputLines>(alloc, asked, settings, input),
    }
}
