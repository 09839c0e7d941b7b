//! The answers to blocks that are out, written in order: from the front.

ghost use Rattle.std.specs.Prelude.{◌≡◌, ◌+◌, ◌<◌, [], length, OnOk};
ghost use Rattle.jp_answer.specs.Blocks.{IsTaskAnswer};
ghost use Rattle.jp_answer.specs.Queued.{sent_task};
ghost use Rattle.jp_run.specs.inner.Serving.{HasServed, HasWrittenBlock, MayServe, MayWrite};
ghost use Rattle.jp_run.specs.Limits.{window};

use crate::ends::Sink;
use crate::fault::RunFault;
use crate::job::Job;
use crate::limits::WINDOW_BYTES;
use crate::settling::answer_come;
use crate::stream::Stream;
use crate::telling::tell_waiting;
use crate::writing::{byte_count, hand_out};
use jp_answer::{Answerer, Gate, Outcome, Queue, Sent};
use jp_output::Form;
use std::thread::Threads;

/// Writes the answers that are there, up to the first that is not.
pub(crate) fn write_found<R: Threads + Sync, K: Sink, G: Gate + Sync, F: Form + Drop + Send>(
    job: &Job<R, G>,
    sink: &mut K,
    stream: &mut Stream,
    out: &mut Queue<'_, '_, F>,
) -> Result<(), RunFault>
    requires serving { MayServe K.Sink job.now sink.old stream.old out.old }
    ensures served { HasServed K.Sink job.now sink.old sink.new stream.old stream.new out.old out.new
        result }
{
    while out.has_front() {
        write_front::<R, K, G, F>(job, sink, stream, out)?;
    }
    Ok(())
}

/// Writes answers until another block may go out, and another read come.
pub(crate) fn make_room<R: Threads + Sync, K: Sink, G: Gate + Sync, F: Form + Drop + Send>(
    job: &Job<R, G>,
    sink: &mut K,
    stream: &mut Stream,
    out: &mut Queue<'_, '_, F>,
) -> Result<(), RunFault>
    requires serving { MayServe K.Sink job.now sink.old stream.old out.old }
    ensures served { HasServed K.Sink job.now sink.old sink.new stream.old stream.new out.old out.new
        result }
    ensures near { OnOk result (stream.new.come < window) }
{
    while out.is_full() {
        write_next::<R, K, G, F>(job, sink, stream, out)?;
    }
    if stream.come >= WINDOW_BYTES {
        write_all::<R, K, G, F>(job, sink, stream, out)?;
        answer_behind::<R, K, G, F>(job, sink, stream, out)?;
    }
    Ok(())
}

/// Writes the answers to all blocks that are out.
pub(crate) fn write_all<R: Threads + Sync, K: Sink, G: Gate + Sync, F: Form + Drop + Send>(
    job: &Job<R, G>,
    sink: &mut K,
    stream: &mut Stream,
    out: &mut Queue<'_, '_, F>,
) -> Result<(), RunFault>
    requires serving { MayServe K.Sink job.now sink.old stream.old out.old }
    ensures served { HasServed K.Sink job.now sink.old sink.new stream.old stream.new out.old out.new
        result }
    ensures none { OnOk result (out.new.sent.items ≡ []) }
{
    while !out.sent.is_empty() {
        write_next::<R, K, G, F>(job, sink, stream, out)?;
    }
    Ok(())
}

/// Answers the lines that wait where no block is out.
pub(crate) fn answer_behind<R: Threads + Sync, K: Sink, G: Gate + Sync, F: Form + Drop + Send>(
    job: &Job<R, G>,
    sink: &mut K,
    stream: &mut Stream,
    out: &mut Queue<'_, '_, F>,
) -> Result<(), RunFault>
    requires serving { MayServe K.Sink job.now sink.old stream.old out.old }
    requires none { out.old.sent.items ≡ [] }
    ensures served { HasServed K.Sink job.now sink.old sink.new stream.old stream.new out.old out.new
        result }
    ensures none { OnOk result (out.new.sent.items ≡ []) }
    ensures come { OnOk result (stream.new.come ≡ 0) }
{
    answer_come::<R, K, G, F>(job, sink, stream)?;
    out.bytes = 0;
    Ok(())
}

/// Writes the answer to the front block, which is waited for.
fn write_next<R: Threads + Sync, K: Sink, G: Gate + Sync, F: Form + Drop + Send>(
    job: &Job<R, G>,
    sink: &mut K,
    stream: &mut Stream,
    out: &mut Queue<'_, '_, F>,
) -> Result<(), RunFault>
    requires serving { MayServe K.Sink job.now sink.old stream.old out.old }
    requires some { 0 < length out.old.sent.items }
    ensures served { HasServed K.Sink job.now sink.old sink.new stream.old stream.new out.old out.new
        result }
    ensures fewer { OnOk result (length out.new.sent.items + 1 ≡ length out.old.sent.items) }
{
    out.await_front(&job.crew);
    write_front::<R, K, G, F>(job, sink, stream, out)
}

/// Writes the answer to the front block, which is made here where it has not come.
fn write_front<R: Threads + Sync, K: Sink, G: Gate + Sync, F: Form + Drop + Send>(
    job: &Job<R, G>,
    sink: &mut K,
    stream: &mut Stream,
    out: &mut Queue<'_, '_, F>,
) -> Result<(), RunFault>
    requires serving { MayServe K.Sink job.now sink.old stream.old out.old }
    requires some { 0 < length out.old.sent.items }
    ensures served { HasServed K.Sink job.now sink.old sink.new stream.old stream.new out.old out.new
        result }
    ensures fewer { OnOk result (length out.new.sent.items + 1 ≡ length out.old.sent.items) }
{
    let Some(front) = out.sent.pop_front() else {
        unreachable!();
    };
    write_block::<R, K, G, F>(job, sink, stream, &front, &mut out.answerer)?;
    out.bytes -= front.bytes;
    out.let_go(front);
    Ok(())
}

/// Writes the answer to a block, which is made here where it has not come, and counts it.
fn write_block<R: Threads + Sync, K: Sink, G: Gate + Sync, F: Form + Drop + Send>(
    job: &Job<R, G>,
    sink: &mut K,
    stream: &mut Stream,
    front: &Sent<'_, F>,
    answerer: &mut Answerer,
) -> Result<(), RunFault>
    requires writing { MayWrite K.Sink sink.old stream.old front.now }
    ensures block { HasWrittenBlock K.Sink job.now front.now sink.old sink.new stream.old stream.new
        result }
{
    if let Some(answer) = front.block.found() {
        return write_answer::<R, K, G, F>(job, sink, stream, front, answer);
    }
    let answer = answerer.answer(&job.crew, &front.block)?;
    write_answer::<R, K, G, F>(job, sink, stream, front, &answer)
}

/// Writes the answer to a block, and counts it.
fn write_answer<R: Threads + Sync, K: Sink, G: Gate + Sync, F: Form + Drop + Send>(
    job: &Job<R, G>,
    sink: &mut K,
    stream: &mut Stream,
    front: &Sent<'_, F>,
    answer: &Outcome,
) -> Result<(), RunFault>
    requires writing { MayWrite K.Sink sink.old stream.old front.now }
    requires answer { IsTaskAnswer F.says (sent_task front.now) answer.now }
    ensures block { HasWrittenBlock K.Sink job.now front.now sink.old sink.new stream.old stream.new
        result }
{
    let lines = &front.block.task.lines;
    tell_waiting(&job.crew, job.settings.numbers, lines, answer);
    hand_out(sink, answer)?;
    stream.answered.lines += lines.len() as u64;
    stream.answered.faulty += answer.faulty;
    stream.answered.wrote = stream.answered.wrote.saturating_add(byte_count(answer));
    stream.come -= front.bytes;
    Ok(())
}
