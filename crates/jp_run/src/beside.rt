//! What comes is answered beside workers, as long as reads do not wait.

ghost use Rattle.std.specs.Prelude.{◌≡◌, ◌<◌, ◌≤◌, [], IfOk, OnOk};
ghost use Rattle.jp_run.specs.inner.Serving.{HasServed, IsUnused, MayServe};
ghost use Rattle.jp_run.specs.inner.Turned.{HasTurned, MayTurn};
ghost use Rattle.jp_run.specs.Limits.{window};

use crate::ends::{Sink, Source};
use crate::fault::RunFault;
use crate::fronts::{make_room, write_all, write_found};
use crate::gathering::{Came, read_on};
use crate::job::Job;
use crate::sending::send_come;
use crate::stream::Stream;
use jp_answer::{Gate, Queue, beside_workers};
use jp_output::Form;
use std::thread::Threads;

/// Reads on as long as reads do not wait, while workers answer what comes in blocks. Gives what the last read
/// came to, or `More` where the next one may wait, or a worker has ended: then the blocks are answered.
pub(crate) fn answer_beside<
    R: Threads + Sync,
    S: Source<K>,
    K: Sink,
    G: Gate + Sync,
    F: Form + Drop + Send,
>(
    job: &Job<R, G>,
    source: &mut S,
    sink: &mut K,
    stream: &mut Stream,
    out: &mut Queue<'_, '_, F>,
) -> Result<Came, RunFault>
    requires turning { MayTurn F.says S.Supply K.Sink job.now source.old sink.old stream.old }
    requires unused { IsUnused job.now out.old }
    ensures turned { HasTurned F.says S.Supply K.Sink job.now source.old source.new sink.old sink.new
        stream.old stream.new result }
    ensures left { OnOk result ((0 < stream.new.left) × (stream.new.left ≤ stream.old.left)) }
{
    let ring = out.ring;
    let mut reading = || -> Result<Came, RunFault>
        requires { MayTurn F.says S.Supply K.Sink job.now source.now sink.now stream.now
            × IsUnused job.now out.now }
        ensures { HasTurned F.says S.Supply K.Sink job.entry.now source.entry.now source.exit.now
            sink.entry.now sink.exit.now stream.entry.now stream.exit.now result
            × OnOk result ((0 < stream.exit.now.left) × (stream.exit.now.left ≤ stream.entry.now.left)) }
    { read_beside::<R, S, K, G, F>(job, source, sink, stream, out) };
    beside_workers(&job.crew, ring, job.settings.workers, &mut reading)
}

/// The same, beside the workers of a ring.
fn read_beside<R: Threads + Sync, S: Source<K>, K: Sink, G: Gate + Sync, F: Form + Drop + Send>(
    job: &Job<R, G>,
    source: &mut S,
    sink: &mut K,
    stream: &mut Stream,
    out: &mut Queue<'_, '_, F>,
) -> Result<Came, RunFault>
    requires turning { MayTurn F.says S.Supply K.Sink job.now source.old sink.old stream.old }
    requires unused { IsUnused job.now out.old }
    ensures turned { HasTurned F.says S.Supply K.Sink job.now source.old source.new sink.old sink.new
        stream.old stream.new result }
    ensures left { OnOk result ((0 < stream.new.left) × (stream.new.left ≤ stream.old.left)) }
{
    while stream.left > 1 {
        serve::<R, K, G, F>(job, sink, stream, out)?;
        if !source.is_ready() || out.ring.ended() > 0 {
            return finish::<R, K, G, F>(job, sink, stream, out, Came::More);
        }
        match read_on(source, sink, stream, job.settings.batch)? {
            Came::More => {}
            last => return finish::<R, K, G, F>(job, sink, stream, out, last),
        }
    }
    finish::<R, K, G, F>(job, sink, stream, out, Came::More)
}

/// Writes the answers to all blocks that are out, and gives what the last read came to.
fn finish<R: Threads + Sync, K: Sink, G: Gate + Sync, F: Form + Drop + Send>(
    job: &Job<R, G>,
    sink: &mut K,
    stream: &mut Stream,
    out: &mut Queue<'_, '_, F>,
    came: Came,
) -> Result<Came, RunFault>
    requires serving { MayServe K.Sink job.now sink.old stream.old out.old }
    ensures served { HasServed K.Sink job.now sink.old sink.new stream.old stream.new out.old out.new
        result }
    ensures none { OnOk result (out.new.sent.items ≡ []) }
    ensures came { IfOk result (λ r. r ≡ came) }
{
    write_all::<R, K, G, F>(job, sink, stream, out)?;
    Ok(came)
}

/// Hands out what has come, writes the answers that are there, and makes room for another read.
fn serve<R: Threads + Sync, K: Sink, G: Gate + Sync, F: Form + Drop + Send>(
    job: &Job<R, G>,
    sink: &mut K,
    stream: &mut Stream,
    out: &mut Queue<'_, '_, F>,
) -> Result<(), RunFault>
    requires serving { MayServe K.Sink job.now sink.old stream.old out.old }
    ensures served { HasServed K.Sink job.now sink.old sink.new stream.old stream.new out.old out.new
        result }
    ensures near { OnOk result (stream.new.come < window) }
{
    send_come::<R, K, G, F>(job, sink, stream, out)?;
    write_found::<R, K, G, F>(job, sink, stream, out)?;
    make_room::<R, K, G, F>(job, sink, stream, out)?;
    Ok(())
}
