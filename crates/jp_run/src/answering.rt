//! Lines that are answered in batches, each handed to the sink, and passed on, before the next begins.

ghost use Rattle.std.specs.Prelude.{◌≡◌, ◌+◌, ◌<◌, ◌≤◌, map, length, take, drop, IfOk};
ghost use Rattle.jp_buffer.specs.Buffered.{line_at};
ghost use Rattle.jp_answer.specs.Blocks.{IsAnswerTo};
ghost use Rattle.jp_run.specs.Answered.{manner_in};
ghost use Rattle.jp_run.specs.inner.Answering.{HasHandedOut};
ghost use Rattle.jp_run.specs.inner.Ready.{IsReady};
ghost use Rattle.jp_run.specs.Limits.{max_lines};
ghost use Rattle.jp_run.specs.inner.Jobs.{job_query};

use crate::ends::Sink;
use crate::fault::RunFault;
use crate::job::Job;
use crate::stream::Passed;
use crate::telling::tell_gate;
use crate::writing::{byte_count, hand_out};
use jp_answer::{Answerer, Gate, Outcome};
use jp_buffer::LineRef;
use jp_output::Form;
use std::alloc::AllocError;
use std::thread::Threads;

/// Answers lines, one batch after another.
pub(crate) fn answer_lines<R: Threads + Sync, K: Sink, G: Gate + Sync, F: Form + Drop + Send>(
    job: &Job<R, G>,
    lines: &[LineRef<'_>],
    sink: &mut K,
) -> Result<Passed, RunFault>
    requires ready { IsReady K.Sink sink.old }
    requires few { length lines.now ≤ max_lines + 1 }
    ensures handed_out { HasHandedOut F.says K.Sink job.now (map line_at lines.now) sink.old sink.new
        result }
{
    let batch = job.settings.batch as usize;
    let mut done = 0;
    let mut faulty = 0;
    let mut wrote: u64 = 0;
    while done < lines.len() {
        let front = batch_at(&*lines, done, batch);
        let passed = answer_batch::<R, K, G, F>(job, front, sink)?;
        faulty += passed.faulty;
        wrote = wrote.saturating_add(passed.wrote);
        done += front.len();
    }
    Ok(Passed { faulty, wrote })
}

/// The lines of one batch, from this place on: fewer at the end.
fn batch_at<'b>(lines: &'b [LineRef<'b>], done: usize, batch: usize) -> &'b [LineRef<'b>]
    requires some { 0 < batch }
    requires left { done < length lines.now }
    ensures front { result.now ≡ take (length result.now) (drop done lines.now) }
    ensures some { 0 < length result.now }
    ensures within { done + length result.now ≤ length lines.now }
{
    let (_, rest) = lines.split_at(done);
    let (front, _) = rest.split_at(batch.min(rest.len()));
    front
}

/// Answers the lines of a batch, and hands the answer to the sink, which passes it on.
fn answer_batch<R: Threads + Sync, K: Sink, G: Gate + Sync, F: Form + Drop + Send>(
    job: &Job<R, G>,
    lines: &[LineRef<'_>],
    sink: &mut K,
) -> Result<Passed, RunFault>
    requires ready { IsReady K.Sink sink.old }
    requires few { length lines.now ≤ max_lines + 1 }
    ensures handed_out { HasHandedOut F.says K.Sink job.now (map line_at lines.now) sink.old sink.new
        result }
{
    let answer = answer_to::<R, G, F>(job, lines)?;
    hand_out(sink, &answer)?;
    Ok(Passed {
        faulty: answer.faulty,
        wrote: byte_count(&answer),
    })
}

/// The answer to some lines, on this thread.
fn answer_to<R: Threads + Sync, G: Gate + Sync, F: Form + Drop + Send>(
    job: &Job<R, G>,
    lines: &[LineRef<'_>],
) -> Result<Outcome, AllocError>
    requires { length lines.now ≤ max_lines + 1 }
    ensures { IfOk result (IsAnswerTo (manner_in F.says job.now.settings).form
        (manner_in F.says job.now.settings).policy (job_query job.now) (map line_at lines.now)) }
{
    let asked = job.asked();
    // One for these lines alone: what it keeps of a long line is let go with it.
    let mut answerer = Answerer::new(job.crew.alloc);
    let answer = answerer.answer_lines::<R, G, F>(&job.crew, &asked, lines)?;
    tell_gate(&job.crew, asked.policy.numbers, lines, &answer);
    Ok(answer)
}
