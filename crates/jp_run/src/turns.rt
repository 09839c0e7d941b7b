//! A turn of a run: what has come is answered, or waits for more, and a read brings more.

ghost use Rattle.std.specs.Prelude.{◌≡◌, ◌<◌, ◌≤◌, IfOk, OnOk};
ghost use Rattle.jp_run.specs.inner.Turned.{HasTurned, MayTurn};

use crate::beside::answer_beside;
use crate::ends::{Sink, Source};
use crate::fault::RunFault;
use crate::gathering::{Came, read_on};
use crate::job::Job;
use crate::limits::{FIRST_READS, MANY_BYTES, MANY_LINES, MAX_READS};
use crate::settings::Settings;
use crate::settling::settle;
use crate::stream::Stream;
use jp_answer::{Gate, Queue, Ring};
use jp_output::Form;
use std::thread::Threads;

/// Answers what has come, or leaves it waiting, and reads: once, or where many bytes wait, reads do not wait
/// and there are several workers, as long as that is so. Gives what the last read came to.
pub(crate) fn turn<R: Threads + Sync, S: Source<K>, K: Sink, G: Gate + Sync, F: Form + Drop + Send>(
    job: &Job<R, G>,
    source: &mut S,
    sink: &mut K,
    stream: &mut Stream,
) -> Result<Came, RunFault>
    requires turning { MayTurn F.says S.Supply K.Sink job.now source.old sink.old stream.old }
    ensures turned { HasTurned F.says S.Supply K.Sink job.now source.old source.new sink.old sink.new
        stream.old stream.new result }
    ensures left { IfOk result (λ came. came ≡ Came.More → stream.new.left < stream.old.left) }
{
    if job.settings.workers == 1 || !has_much(&job.settings, stream) {
        return settle_and_read::<R, S, K, G, F>(job, source, sink, stream);
    }
    if !source.is_ready() {
        return settle_and_read::<R, S, K, G, F>(job, source, sink, stream);
    }
    match read_blocks::<R, S, K, G, F>(job, source, sink, stream)? {
        Came::More => settle_and_read::<R, S, K, G, F>(job, source, sink, stream),
        last => Ok(last),
    }
}

/// Whether workers are worth it: where some reads were made, a line is there to be answered, and many bytes
/// wait, or many lines. More than a batch are no block.
fn has_much(settings: &Settings<'_>, stream: &Stream) -> bool {
    let lines = stream.buffer.len() as u64;
    stream.left <= MAX_READS - FIRST_READS
        && 0 < lines
        && lines <= settings.batch
        && (stream.come >= MANY_BYTES || lines >= MANY_LINES.max(settings.batch / 2))
}

/// Reads on as long as reads do not wait, through a ring of its own.
fn read_blocks<R: Threads + Sync, S: Source<K>, K: Sink, G: Gate + Sync, F: Form + Drop + Send>(
    job: &Job<R, G>,
    source: &mut S,
    sink: &mut K,
    stream: &mut Stream,
) -> Result<Came, RunFault>
    requires turning { MayTurn F.says S.Supply K.Sink job.now source.old sink.old stream.old }
    ensures turned { HasTurned F.says S.Supply K.Sink job.now source.old source.new sink.old sink.new
        stream.old stream.new result }
    ensures left { OnOk result ((0 < stream.new.left) × (stream.new.left ≤ stream.old.left)) }
{
    let ring: Ring<'_, F> = Ring::new(job.crew.alloc)?;
    let mut out = Queue::new(job.crew.alloc, &ring, job.asked());
    answer_beside::<R, S, K, G, F>(job, source, sink, stream, &mut out)
}

/// Answers what has come, or leaves it waiting, and reads once.
fn settle_and_read<R: Threads + Sync, S: Source<K>, K: Sink, G: Gate + Sync, F: Form + Drop + Send>(
    job: &Job<R, G>,
    source: &mut S,
    sink: &mut K,
    stream: &mut Stream,
) -> Result<Came, RunFault>
    requires turning { MayTurn F.says S.Supply K.Sink job.now source.old sink.old stream.old }
    ensures turned { HasTurned F.says S.Supply K.Sink job.now source.old source.new sink.old sink.new
        stream.old stream.new result }
    ensures left { OnOk result (stream.new.left < stream.old.left) }
{
    settle::<R, S, K, G, F>(job, source, sink, stream)?;
    let came = read_on(source, sink, stream, job.settings.batch)?;
    Ok(came)
}
