//! Lines that have come are put into blocks, which go out to workers.

ghost use Rattle.std.specs.Prelude.{◌≡◌, ◌≤◌, length, OnOk};
ghost use Rattle.jp_run.specs.inner.Going.{WentOut};
ghost use Rattle.jp_run.specs.inner.Serving.{HasServed, MayServe};
ghost use Rattle.jp_run.specs.Limits.{max_lines};

use crate::ends::Sink;
use crate::fault::RunFault;
use crate::fronts::{answer_behind, write_all};
use crate::job::Job;
use crate::limits::BLOCK_BYTES;
use crate::settings::Settings;
use crate::stream::Stream;
use jp_answer::{Gate, Queue};
use jp_output::Form;
use std::alloc::{AllocError, Global};
use std::thread::Threads;

/// Hands the lines that wait out as a block, where they are enough for one. Where they are more than a batch
/// they are answered here, behind the blocks that are out.
pub(crate) fn send_come<R: Threads + Sync, K: Sink, G: Gate + Sync, F: Form + Drop + Send>(
    job: &Job<R, G>,
    sink: &mut K,
    stream: &mut Stream,
    out: &mut Queue<'_, '_, F>,
) -> Result<(), RunFault>
    requires serving { MayServe K.Sink job.now sink.old stream.old out.old }
    ensures served { HasServed K.Sink job.now sink.old sink.new stream.old stream.new out.old out.new
        result }
{
    if stream.buffer.len() as u64 > job.settings.batch {
        write_all::<R, K, G, F>(job, sink, stream, out)?;
        return answer_behind::<R, K, G, F>(job, sink, stream, out);
    }
    if !is_enough(&job.settings, stream) {
        return Ok(());
    }
    send_block(job.crew.alloc, stream, out)?;
    Ok(())
}

/// Whether the lines that wait are a block: a piece of them, or many bytes.
fn is_enough(settings: &Settings<'_>, stream: &Stream) -> bool {
    stream.buffer.len() as u64 >= settings.piece || stream.buffer.total_bytes() >= BLOCK_BYTES
}

/// Hands the lines that wait out as a block.
fn send_block<F: Form + Drop>(
    alloc: Global,
    stream: &mut Stream,
    out: &mut Queue<'_, '_, F>,
) -> Result<(), AllocError>
    requires few_lines { length stream.old.buffer.lines ≤ max_lines }
    requires bytes { out.old.bytes ≤ stream.old.come }
    ensures sent { OnOk result (WentOut stream.old stream.new out.old out.new) }
    ensures asked { out.new.asked ≡ out.old.asked }
    ensures left { stream.new.left ≡ stream.old.left }
{
    let mut lines = out.buffer(alloc);
    stream.buffer.exchange(&mut lines);
    out.send(alloc, lines, stream.come - out.bytes)?;
    out.bytes = stream.come;
    Ok(())
}
