//! An answer to a sink.

ghost use Rattle.std.specs.Prelude.{◌≡◌, false, true, length, None, OnOk, OnErr, IfErr};
ghost use Rattle.std.specs.Io.KnownBytes.{Appends, Keeps};
ghost use Rattle.jp_answer.specs.Answered.{outcome_of};
ghost use Rattle.jp_output.specs.Chunks.{bytes_in};
ghost use Rattle.jp_run.specs.Counts.{counted};
ghost use Rattle.jp_run.specs.inner.Ended.{HandingEnded};
ghost use Rattle.jp_run.specs.Written.{AppendsFront, IsPassedOn};

use crate::ends::{Broken, Sink};
use crate::fault::RunFault;
use jp_answer::Outcome;

/// Hands over all of the bytes, to a sink that has not failed.
///
/// # Errors
///
/// [`Broken`] where a call of the sink failed: a front of the bytes was written.
pub fn write_all<K: Sink>(sink: &mut K, bytes: &[u8]) -> Result<(), Broken>
    requires { K.failed sink.old ≡ false }
    ensures ok { OnOk result (Appends (K.contents sink.old) (K.contents sink.new) bytes.now) }
    ensures working { OnOk result (K.failed sink.new ≡ false) }
    ensures front { OnErr result (AppendsFront (K.contents sink.old) (K.contents sink.new) bytes.now) }
    ensures broken { OnErr result (K.failed sink.new ≡ true) }
{
    let mut rest = bytes;
    while !rest.is_empty() {
        let Ok(n) = sink.write(rest) else {
            return Err(Broken);
        };
        let (_, left) = rest.split_at(n);
        rest = left;
    }
    Ok(())
}

/// Hands over the bytes of all chunks, to a sink that has not failed.
///
/// # Errors
///
/// [`Broken`] where a call of the sink failed: a front of the bytes was written.
fn write_chunks<K: Sink>(sink: &mut K, chunks: &[Vec<u8>]) -> Result<(), Broken>
    requires { K.failed sink.old ≡ false }
    ensures ok { OnOk result (Appends (K.contents sink.old) (K.contents sink.new) (bytes_in chunks.now)) }
    ensures working { OnOk result (K.failed sink.new ≡ false) }
    ensures front { OnErr result (AppendsFront (K.contents sink.old) (K.contents sink.new)
        (bytes_in chunks.now)) }
    ensures broken { OnErr result (K.failed sink.new ≡ true) }
{
    for chunk in chunks {
        let Ok(()) = write_all(sink, chunk.as_slice()) else {
            return Err(Broken);
        };
    }
    Ok(())
}

/// How many bytes an answer has, which stops at 18446744073709551615.
pub(crate) fn byte_count(answer: &Outcome) -> u64
    ensures { result ≡ counted 0 (length (outcome_of answer.now).bytes) }
{
    let mut count: u64 = 0;
    for chunk in &answer.chunks {
        count = count.saturating_add(chunk.len() as u64);
    }
    count
}

/// Hands over the bytes of an answer and passes them on, and then tells its faulty line, if there is one.
pub(crate) fn hand_out<K: Sink>(sink: &mut K, answer: &Outcome) -> Result<(), RunFault>
    requires { K.failed sink.old ≡ false }
    ensures whole { OnOk result ((outcome_of answer.now).stopped ≡ None) }
    ensures ok { OnOk result (Appends (K.contents sink.old) (K.contents sink.new)
        (outcome_of answer.now).bytes) }
    ensures working { OnOk result (K.failed sink.new ≡ false) }
    ensures flushed { OnOk result (K.flushed sink.new ≡ true) }
    ensures passed_on { IsPassedOn (K.flushed sink.new) (K.failed sink.new) }
    ensures fault { IfErr result (HandingEnded (outcome_of answer.now) (K.failed sink.new)
        (K.contents sink.old) (K.contents sink.new)) }
{
    if write_chunks(sink, &answer.chunks).is_err() {
        return Err(RunFault::Write);
    }
    // Before the faulty line is told, so that no sink holds its batch back; one function, so that its own
    // clauses refuse each wrong order (README, One function hands over an answer).
    pass_on(sink)?;
    if let Some(stop) = answer.stopped {
        return Err(RunFault::Document {
            line: stop.line,
            fault: stop.fault,
        });
    }
    Ok(())
}

/// Passes on all that was handed over.
pub(crate) fn pass_on<K: Sink>(sink: &mut K) -> Result<(), RunFault>
    requires { K.failed sink.old ≡ false }
    ensures bytes { Keeps (K.contents sink.old) (K.contents sink.new) }
    ensures flushed { OnOk result (K.flushed sink.new ≡ true) }
    ensures working { OnOk result (K.failed sink.new ≡ false) }
    ensures fault { IfErr result (λ fault. (fault ≡ RunFault.Write) × (K.failed sink.new ≡ true)) }
{
    if sink.flush().is_err() {
        return Err(RunFault::Write);
    }
    Ok(())
}
