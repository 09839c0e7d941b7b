//! The answer to an input that stands in memory, a piece of it after another.

ghost use Rattle.std.specs.Prelude.{◌≡◌, ◌+◌, ◌<◌, ◌≤◌, ◌⊎◌, [], None, IfOk, OnOk, IfErr, length};
ghost use Rattle.jp_doc.specs.Feeding.{finished, finished_lines};
ghost use Rattle.jp_pattern.specs.Tests.{Tests, AreRight};
ghost use Rattle.jp_answer.specs.Answer.{answer_by, joined, nothing};
ghost use Rattle.jp_answer.specs.Asking.{asked_query};
ghost use Rattle.jp_run.specs.Answered.{numbering_of};
ghost use Rattle.jp_run.specs.Cutting.{documents, fed, fed_lines, last_number};
ghost use Rattle.jp_run.specs.Limits.{max_lines};
ghost use Rattle.jp_memory.specs.Answered.{answered_of};
ghost use Rattle.jp_memory.specs.inner.Adding.{told};
ghost use Rattle.jp_memory.specs.inner.Filtered.{filtered_query};

use crate::adding::Answering;
use crate::answered::Answered;
use crate::input::InputBuffer;
use crate::limits::{MAX_LINES, PIECE_BYTES};
use jp_answer::Asked;
use jp_output::Form;
use jp_run::{RunFault, Settings};
use std::alloc::{AllocError, Global};

/// The answer in some form to the documents of an input, of which this is asked, as the settings cut and
/// number it.
///
/// `Limit` past line 4,294,967,295, and `Memory` if a growth was refused.
pub(crate) fn answer_in<F: Form + Drop>(
    alloc: Global,
    asked: &Asked<'_>,
    settings: &Settings<'_>,
    input: &[u8],
) -> Result<Answered, RunFault>
    ensures answer { IfOk result (λ a. (t : Tests) → AreRight t
        → answer_by (F.says asked.now.layout.now) asked.now.policy t (asked_query asked.now)
        (documents (numbering_of settings.now) input.now) ≡ answered_of a) }
    ensures fault { IfErr result (λ fault. (fault ≡ RunFault.Memory) ⊎ ((fault ≡ RunFault.Limit)
        × (max_lines < last_number (numbering_of settings.now) input.now))) }
{
    let mut answering: Answering<'_, F> = Answering::new(alloc, asked);
    answer_all(&mut answering, settings, input)?;
    Ok(answering.into_answered()?)
}

/// Adds the answer to the documents of an input to that to nothing.
fn answer_all<F: Form + Drop>(
    answering: &mut Answering<'_, F>,
    settings: &Settings<'_>,
    input: &[u8],
) -> Result<(), RunFault>
    requires none { told (F.written answering.old.written) answering.old.stopped answering.old.faulty
        ≡ nothing }
    requires unstopped { answering.old.stopped ≡ None }
    requires form { F.form answering.old.written ≡ F.says answering.old.asked.layout.now }
    requires query { filtered_query answering.old.evaluator ≡ asked_query answering.old.asked }
    ensures answer { OnOk result ((t : Tests) → AreRight t
        → answer_by (F.says answering.old.asked.layout.now) answering.old.asked.policy t
        (asked_query answering.old.asked) (documents (numbering_of settings.now) input.now)
        ≡ told (F.written answering.new.written) answering.new.stopped answering.new.faulty) }
    ensures fault { IfErr result (λ fault. (fault ≡ RunFault.Memory) ⊎ ((fault ≡ RunFault.Limit)
        × (max_lines < last_number (numbering_of settings.now) input.now))) }
{
    let mut buffer = InputBuffer::new(answering.alloc, settings.cutting, settings.before);
    let mut rest = input;
    while !rest.is_empty() {
        let (piece, behind) = rest.split_at(rest.len().min(PIECE_BYTES));
        answer_piece(answering, &mut buffer, piece)?;
        if answering.stopped.is_some() {
            return Ok(());
        }
        rest = behind;
    }
    answer_last(answering, &mut buffer)
}

/// Adds the answer to the documents that a piece completes, where none waits.
fn answer_piece<F: Form + Drop>(
    answering: &mut Answering<'_, F>,
    buffer: &mut InputBuffer,
    piece: &[u8],
) -> Result<(), RunFault>
    requires none { buffer.old.lines ≡ [] }
    requires few_lines { buffer.old.progress.count ≤ max_lines }
    requires few_faulty { answering.old.faulty ≤ buffer.old.progress.count }
    requires unstopped { answering.old.stopped ≡ None }
    ensures answer { OnOk result ((t : Tests) → AreRight t
        → told (F.written answering.new.written) answering.new.stopped answering.new.faulty
        ≡ joined (told (F.written answering.old.written) answering.old.stopped answering.old.faulty)
        (answer_by (F.form answering.old.written) answering.old.asked.policy t
        (filtered_query answering.old.evaluator)
        (fed_lines buffer.old.cutting buffer.old.progress piece.now))) }
    ensures form { OnOk result ((t : Tests) → AreRight t
        → F.form answering.new.written ≡ F.form answering.old.written) }
    ensures query { filtered_query answering.new.evaluator ≡ filtered_query answering.old.evaluator }
    ensures asked { answering.new.asked ≡ answering.old.asked }
    ensures none { OnOk result (buffer.new.lines ≡ []) }
    ensures progress { OnOk result (buffer.new.progress
        ≡ fed buffer.old.cutting buffer.old.progress piece.now) }
    ensures cutting { buffer.new.cutting ≡ buffer.old.cutting }
    ensures few_lines { OnOk result (buffer.new.progress.count ≤ max_lines) }
    ensures few_faulty { OnOk result (answering.new.faulty ≤ buffer.new.progress.count) }
    ensures fault { IfErr result (λ fault. (fault ≡ RunFault.Memory) ⊎ ((fault ≡ RunFault.Limit)
        × (max_lines < (fed buffer.old.cutting buffer.old.progress piece.now).count))) }
{
    buffer.feed(piece)?;
    answer_come(answering, buffer)?;
    buffer.take_all_away();
    Ok(())
}

/// Adds the answer to the document that the end of the input completes, if there is one, where none waits.
fn answer_last<F: Form + Drop>(
    answering: &mut Answering<'_, F>,
    buffer: &mut InputBuffer,
) -> Result<(), RunFault>
    requires none { buffer.old.lines ≡ [] }
    requires few_lines { buffer.old.progress.count ≤ max_lines }
    requires few_faulty { answering.old.faulty ≤ buffer.old.progress.count }
    requires unstopped { answering.old.stopped ≡ None }
    ensures answer { OnOk result ((t : Tests) → AreRight t
        → told (F.written answering.new.written) answering.new.stopped answering.new.faulty
        ≡ joined (told (F.written answering.old.written) answering.old.stopped answering.old.faulty)
        (answer_by (F.form answering.old.written) answering.old.asked.policy t
        (filtered_query answering.old.evaluator) (finished_lines buffer.old.progress))) }
    ensures fault { IfErr result (λ fault. (fault ≡ RunFault.Memory) ⊎ ((fault ≡ RunFault.Limit)
        × (max_lines < (finished buffer.old.progress).count))) }
{
    buffer.finish()?;
    answer_come(answering, buffer)
}

/// Adds the answer to the documents that wait.
fn answer_come<F: Form + Drop>(
    answering: &mut Answering<'_, F>,
    buffer: &InputBuffer,
) -> Result<(), RunFault>
    requires few { answering.old.faulty + length buffer.now.lines ≤ buffer.now.progress.count }
    requires unstopped { answering.old.stopped ≡ None }
    ensures answer { OnOk result ((t : Tests) → AreRight t
        → told (F.written answering.new.written) answering.new.stopped answering.new.faulty
        ≡ joined (told (F.written answering.old.written) answering.old.stopped answering.old.faulty)
        (answer_by (F.form answering.old.written) answering.old.asked.policy t
        (filtered_query answering.old.evaluator) buffer.now.lines)) }
    ensures form { OnOk result ((t : Tests) → AreRight t
        → F.form answering.new.written ≡ F.form answering.old.written) }
    ensures query { filtered_query answering.new.evaluator ≡ filtered_query answering.old.evaluator }
    ensures asked { answering.new.asked ≡ answering.old.asked }
    ensures few_lines { OnOk result (buffer.now.progress.count ≤ max_lines) }
    ensures few_faulty { OnOk result (answering.new.faulty ≤ buffer.now.progress.count) }
    ensures fault { IfErr result (λ fault. (fault ≡ RunFault.Memory) ⊎ ((fault ≡ RunFault.Limit)
        × (max_lines < buffer.now.progress.count))) }
{
    if buffer.count() > MAX_LINES {
        return Err(RunFault::Limit);
    }
    let lines = buffer.lines(answering.alloc)?;
    Ok(answering.add_lines(&lines)?)
}
