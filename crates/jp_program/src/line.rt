//! A line that is written and passed on.

ghost use Rattle.std.specs.Prelude.{◌≡◌, true, false, IfErr, OnOk};
ghost use Rattle.std.specs.Io.KnownBytes.{Appends};
ghost use Rattle.jp_run.specs.Written.{AppendsFront};

use jp_run::{RunFault, Sink, write_all};

/// Writes a line, and passes it on.
///
/// # Errors
///
/// [`RunFault::Write`] where a call of the sink failed.
pub(crate) fn write_line<K: Sink>(sink: &mut K, line: &str) -> Result<(), RunFault>
    requires { K.failed sink.old ≡ false }
    ensures ok { OnOk result (Appends (K.contents sink.old) (K.contents sink.new) line.now) }
    ensures flushed { OnOk result (K.flushed sink.new ≡ true) }
    ensures working { OnOk result (K.failed sink.new ≡ false) }
    ensures fault { IfErr result (λ fault. (fault ≡ RunFault.Write) × (K.failed sink.new ≡ true)
        × AppendsFront (K.contents sink.old) (K.contents sink.new) line.now) }
{
    if write_all(sink, line.as_bytes()).is_err() {
        return Err(RunFault::Write);
    }
    if sink.flush().is_err() {
        return Err(RunFault::Write);
    }
    Ok(())
}
