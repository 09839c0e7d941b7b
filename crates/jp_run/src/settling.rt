//! When lines that have come are answered: before a read that may wait, and once there are many.

ghost use Rattle.std.specs.Prelude.{◌≡◌, ◌+◌, ◌<◌, ◌≤◌, ◌⊎◌, ◌++◌, false, true, None, length};
ghost use Rattle.std.specs.Prelude.{IfOk, OnOk, IfErr};
ghost use Rattle.jp_doc.specs.Feeding.{finished, finished_lines};
ghost use Rattle.jp_run.specs.Answered.{manner_in, passed_in};
ghost use Rattle.jp_run.specs.inner.Answering.{HasHandedOut};
ghost use Rattle.jp_run.specs.inner.Ended.{AnswerEnded, FailureEnded, RestEnded};
ghost use Rattle.jp_run.specs.inner.Ready.{IsReady, StaysReady};
ghost use Rattle.jp_run.specs.inner.Standing.{HasAnswered, HasSettled, IsCounted};
ghost use Rattle.jp_run.specs.inner.Wrote.{HasBytesMore};
ghost use Rattle.jp_run.specs.Handed.{Handed};
ghost use Rattle.jp_run.specs.Limits.{max_lines, window};
ghost use Rattle.jp_run.specs.inner.Jobs.{job_query};
ghost use Rattle.jp_run.specs.Written.{IsPassedOn};

use crate::answering::answer_lines;
use crate::ends::{Sink, Supply};
use crate::fault::RunFault;
use crate::gathering::take_last;
use crate::input::InputBuffer;
use crate::job::Job;
use crate::limits::{CACHE_BYTES, WINDOW_BYTES};
use crate::running::Totals;
use crate::settings::Settings;
use crate::stream::{Passed, Stream};
use jp_answer::Gate;
use jp_output::Form;
use std::thread::Threads;

/// Answers all lines that have come, unless the source says that the next read does not wait and little has
/// come.
pub(crate) fn settle<R: Threads + Sync, S: Supply, K: Sink, G: Gate + Sync, F: Form + Drop + Send>(
    job: &Job<R, G>,
    source: &mut S,
    sink: &mut K,
    stream: &mut Stream,
) -> Result<(), RunFault>
    requires ready { IsReady K.Sink sink.old }
    requires counted { IsCounted stream.old }
    ensures settled { OnOk result (HasSettled (manner_in F.says job.now.settings) (job_query
        job.now) (K.contents sink.old) (K.contents sink.new) stream.old stream.new) }
    ensures prompt { OnOk result ((S.told_ready source.new ≡ true) ⊎ (stream.new.come ≡ 0)) }
    ensures near { OnOk result (stream.new.come < window) }
    ensures bytes { S.remaining source.new ≡ S.remaining source.old }
    ensures reads { S.reads source.new ≡ S.reads source.old }
    ensures begun { S.begun source.new ≡ S.begun source.old }
    ensures source_working { S.failed source.new ≡ S.failed source.old }
    ensures left { stream.new.left ≡ stream.old.left }
    ensures ready { StaysReady K.Sink sink.new result }
    ensures fault { IfErr result (AnswerEnded (manner_in F.says job.now.settings) (job_query
        job.now) stream.old.buffer.lines (K.failed sink.new) (K.contents sink.old)
        (K.contents sink.new)) }
{
    if source.is_ready() && !has_enough(&job.settings, stream) {
        return Ok(());
    }
    answer_come::<R, K, G, F>(job, sink, stream)
}

/// Whether what has come is answered, although the next read does not wait: a batch of lines, or many bytes.
fn has_enough(settings: &Settings<'_>, stream: &Stream) -> bool
    ensures { result ≡ false → stream.now.come < window }
{
    let bytes = if settings.workers == 1 {
        CACHE_BYTES
    } else {
        WINDOW_BYTES
    };
    stream.come >= bytes || stream.buffer.len() as u64 >= settings.batch
}

/// Answers all lines that have come.
pub(crate) fn answer_come<R: Threads + Sync, K: Sink, G: Gate + Sync, F: Form + Drop + Send>(
    job: &Job<R, G>,
    sink: &mut K,
    stream: &mut Stream,
) -> Result<(), RunFault>
    requires ready { IsReady K.Sink sink.old }
    requires counted { IsCounted stream.old }
    ensures answered { OnOk result (HasAnswered (manner_in F.says job.now.settings) (job_query
        job.now) (K.contents sink.old) (K.contents sink.new) stream.old stream.new) }
    ensures left { stream.new.left ≡ stream.old.left }
    ensures ready { StaysReady K.Sink sink.new result }
    ensures fault { IfErr result (AnswerEnded (manner_in F.says job.now.settings) (job_query
        job.now) stream.old.buffer.lines (K.failed sink.new) (K.contents sink.old)
        (K.contents sink.new)) }
{
    let count = stream.buffer.len();
    let passed = answer_waiting::<R, K, G, F>(job, sink, &stream.buffer)?;
    stream.answered.lines += count as u64;
    stream.answered.faulty += passed.faulty;
    stream.answered.wrote = stream.answered.wrote.saturating_add(passed.wrote);
    stream.buffer.take_away(count);
    stream.come = 0;
    Ok(())
}

/// Answers the lines of a buffer.
fn answer_waiting<R: Threads + Sync, K: Sink, G: Gate + Sync, F: Form + Drop + Send>(
    job: &Job<R, G>,
    sink: &mut K,
    buffer: &InputBuffer,
) -> Result<Passed, RunFault>
    requires ready { IsReady K.Sink sink.old }
    requires few { length buffer.now.lines ≤ max_lines + 1 }
    ensures handed_out { HasHandedOut F.says K.Sink job.now buffer.now.lines sink.old sink.new result }
    ensures few_faulty { IfOk result (λ p. p.faulty ≤ length buffer.now.lines) }
{
    // A list of no lines would take memory at each read of a slow source.
    if buffer.len() == 0 {
        return Ok(Passed {
            faulty: 0,
            wrote: 0,
        });
    }
    let lines = buffer.lines(job.crew.alloc)?;
    answer_lines::<R, K, G, F>(job, &lines, sink)
}

/// Answers the last line too, and what is left.
pub(crate) fn answer_rest<R: Threads + Sync, K: Sink, G: Gate + Sync, F: Form + Drop + Send>(
    job: &Job<R, G>,
    sink: &mut K,
    stream: &mut Stream,
) -> Result<Totals, RunFault>
    requires ready { IsReady K.Sink sink.old }
    requires few_lines { stream.old.buffer.progress.count ≤ max_lines }
    requires behind { job.now.settings.before ≤ stream.old.buffer.progress.count }
    requires few { stream.old.answered.lines + length stream.old.buffer.lines ≤ max_lines }
    requires few_faulty { stream.old.answered.faulty ≤ stream.old.answered.lines }
    ensures handed { OnOk result (Handed (manner_in F.says job.now.settings) (job_query
        job.now) (stream.old.buffer.lines ++ finished_lines stream.old.buffer.progress) None
        (K.contents sink.old) (K.contents sink.new)) }
    ensures lines { IfOk result (λ totals. totals.lines + job.now.settings.before
        ≡ (finished stream.old.buffer.progress).count) }
    ensures documents { IfOk result (λ totals. totals.documents ≡ stream.old.answered.lines
        + length (stream.old.buffer.lines ++ finished_lines stream.old.buffer.progress)) }
    ensures passed { IfOk result (λ totals. totals.faulty ≡ stream.old.answered.faulty
        + passed_in job.now.settings
        (stream.old.buffer.lines ++ finished_lines stream.old.buffer.progress)) }
    ensures wrote { IfOk result (λ totals. HasBytesMore (manner_in F.says job.now.settings) (job_query
        job.now) (stream.old.buffer.lines ++ finished_lines stream.old.buffer.progress)
        stream.old.answered.wrote totals.wrote) }
    ensures few_lines { IfOk result (λ totals. totals.lines ≤ max_lines) }
    ensures ready { StaysReady K.Sink sink.new result }
    ensures fault { IfErr result (RestEnded (manner_in F.says job.now.settings) (job_query
        job.now) (stream.old.buffer.lines ++ finished_lines stream.old.buffer.progress)
        (finished stream.old.buffer.progress).count (K.failed sink.new) (K.contents sink.old)
        (K.contents sink.new)) }
{
    let count = take_last(&mut stream.buffer)?;
    answer_come::<R, K, G, F>(job, sink, stream)?;
    Ok(Totals {
        lines: count - job.settings.before,
        documents: stream.answered.lines,
        faulty: stream.answered.faulty,
        wrote: stream.answered.wrote,
    })
}

/// Answers all lines that have come, where a read behind them has failed. Gives what is told then: the first
/// of them that stops the answer, or the failure.
pub(crate) fn answer_before_failure<
    R: Threads + Sync,
    K: Sink,
    G: Gate + Sync,
    F: Form + Drop + Send,
>(job: &Job<R, G>, sink: &mut K, stream: &mut Stream) -> RunFault
    requires ready { IsReady K.Sink sink.old }
    requires counted { IsCounted stream.old }
    ensures passed_on { IsPassedOn (K.flushed sink.new) (K.failed sink.new) }
    ensures fault { FailureEnded (manner_in F.says job.now.settings) (job_query job.now)
        stream.old.buffer.lines (K.failed sink.new) (K.contents sink.old) (K.contents sink.new) result }
{
    match answer_come::<R, K, G, F>(job, sink, stream) {
        Ok(()) => RunFault::Read,
        Err(fault) => fault,
    }
}
