//! The lines of a source, as its bytes come in.

ghost use Rattle.std.specs.Prelude.{◌≡◌, ◌+◌, ◌<◌, ◌≤◌, ◌++◌, false, true, IfOk, OnOk, OnErr, IfErr, IsErrOf};
ghost use Rattle.std.specs.Prelude.{vec_len};
ghost use Rattle.jp_doc.specs.Feeding.{finished, finished_lines};
ghost use Rattle.jp_run.specs.Begun.{OneMore};
ghost use Rattle.jp_run.specs.Counts.{counted};
ghost use Rattle.jp_run.specs.inner.Ended.{ReadEnded, LastEnded};
ghost use Rattle.jp_run.specs.inner.Reading.{HasCome};
ghost use Rattle.jp_run.specs.Limits.{max_lines, window};

use crate::ends::{Sink, Source};
use crate::fault::RunFault;
use crate::input::InputBuffer;
use crate::limits::{LEAST_READ, MAX_LINES};
use crate::stream::Stream;

/// What a read came to.
#[derive(Clone, Copy, Drop)]
pub(crate) enum Came {
    /// Bytes.
    More,
    /// The end of the input.
    End,
    /// The source failed.
    Failure,
}

/// Reads once, and adds the lines that are complete then. Where the read failed the lines stand as they
/// stood. Where it brought more lines than these the next one asks for fewer bytes.
///
/// `Limit` past line 4,294,967,295.
pub(crate) fn read_on<K: Sink, S: Source<K>>(
    source: &mut S,
    sink: &K,
    stream: &mut Stream,
    most: u64,
) -> Result<Came, RunFault>
    requires working { S.failed source.old ≡ false }
    requires passed_on { S.told_ready source.old ≡ false → K.flushed sink.now ≡ true }
    requires few_lines { stream.old.buffer.progress.count ≤ max_lines }
    requires some_left { 0 < stream.old.left }
    requires near { stream.old.come < window }
    ensures came { IfOk result (HasCome (S.failed source.new) (S.remaining source.old)
        (S.remaining source.new) stream.old stream.new) }
    ensures few_lines { OnOk result (stream.new.buffer.progress.count ≤ max_lines) }
    ensures begun { OneMore (S.begun source.old) (S.begun source.new) (record {
      ready = S.told_ready source.old;
      remaining = S.remaining source.old;
      contents = K.contents sink.now;
      flushed = K.flushed sink.now;
    }) }
    ensures fault { IfErr result (ReadEnded stream.old.buffer.cutting stream.old.buffer.progress
        (S.remaining source.old) (S.remaining source.new)) }
    ensures reads { S.reads source.new ≡ counted (S.reads source.old) 1 }
    ensures left { stream.new.left + 1 ≡ stream.old.left }
{
    stream.left -= 1;
    let Ok(n) = source.read(&mut stream.scratch, sink) else {
        return Ok(Came::Failure);
    };
    let (piece, _) = stream.scratch.split_at(n);
    let before = stream.buffer.len();
    stream.buffer.feed(piece)?;
    // Tested before the lines of this read are answered (README, The limit is tested before answering).
    within_limit(&stream.buffer)?;
    stream.come += n;
    let lines = stream.buffer.len().saturating_sub(before) as u64;
    narrow(&mut stream.scratch, lines > most);
    Ok(if n == 0 { Came::End } else { Came::More })
}

/// Halves the room of a read that was too wide, but leaves 8,192 bytes.
fn narrow(scratch: &mut Vec<u8>, is_wide: bool)
    requires { 0 < vec_len scratch.old }
    ensures { 0 < vec_len scratch.new }
{
    let half = scratch.len() / 2;
    if is_wide && half >= LEAST_READ {
        scratch.truncate(half);
    }
}

/// Adds the last line, if there is one. Gives how many lines there are in all, blank ones and those before
/// the input too.
///
/// `Limit` if they are more than 4,294,967,295.
pub(crate) fn take_last(buffer: &mut InputBuffer) -> Result<u64, RunFault>
    requires few_lines { buffer.old.progress.count ≤ max_lines }
    ensures lines { OnOk result (buffer.new.lines
        ≡ buffer.old.lines ++ finished_lines buffer.old.progress) }
    ensures count { IfOk result (λ count. count ≡ (finished buffer.old.progress).count) }
    ensures cutting { buffer.new.cutting ≡ buffer.old.cutting }
    ensures few_lines { IfOk result (λ count. count ≤ max_lines) }
    ensures fault { IfErr result (LastEnded (finished buffer.old.progress).count) }
{
    buffer.finish()?;
    within_limit(buffer)
}

/// The number of lines that have ended, those before the input too.
///
/// `Limit` if they are more than 4,294,967,295.
fn within_limit(buffer: &InputBuffer) -> Result<u64, RunFault>
    ensures ok { IfOk result (λ count. (count ≡ buffer.now.progress.count)
        × (buffer.now.progress.count ≤ max_lines)) }
    ensures limit { OnErr result (IsErrOf result RunFault.Limit × (max_lines < buffer.now.progress.count)) }
{
    let count = buffer.count();
    if count > MAX_LINES {
        return Err(RunFault::Limit);
    }
    Ok(count)
}
