//! What a run reads from and writes to.

ghost use Rattle.std.specs.Prelude.{◌≡◌, ℕ, ◌<◌, length, List, Bool, true, false, Option, ◌||◌, is_err, IfOk};
ghost use Rattle.std.specs.Prelude.{OnOk};
ghost use Rattle.std.specs.Io.KnownBytes.{ReadConsumes, WriteAppends, Keeps};
ghost use Rattle.std.specs.Io.{ReadsAtMost, WritesAtMost};
ghost use Rattle.jp_run.specs.Begun.{Begun, OneMore};
ghost use Rattle.jp_run.specs.Counts.{counted, given_after};

use std::alloc::{AllocError, Global};

/// A call that failed, for whatever reason.
#[derive(Clone, Copy, Debug, PartialEq, Eq)]
pub struct Broken;

/// What is known of where bytes come from, whatever sink its reads are shown.
pub trait Supply {
    /// The bytes that are still to come, where they are known, as those in memory are.
    ghost remaining: { Self → Option (List ℕ) };

    /// The number of calls of `read` so far.
    ghost reads: { Self → ℕ };

    /// The number of bytes that its Ok calls handed out.
    ghost given: { Self → ℕ };

    /// What stood as each read began, in order, where that is known.
    ghost begun: { Self → Option (List Begun) };

    /// Whether it was said since the last read that the next one does not wait.
    ghost told_ready: { Self → Bool };

    /// Whether any call so far has failed.
    ghost failed: { Self → Bool };

    /// Whether the next read does not wait. `false` where that cannot be said.
    fn is_ready(&mut self) -> bool
        ensures told { told_ready self.new ≡ result }
        ensures bytes { remaining self.new ≡ remaining self.old }
        ensures reads { reads self.new ≡ reads self.old }
        ensures given { given self.new ≡ given self.old }
        ensures begun { begun self.new ≡ begun self.old }
        ensures failed { failed self.new ≡ failed self.old };

    /// The number of calls of `read` so far, which stops at 18446744073709551615.
    fn reads(&self) -> u64
        ensures { result ≡ reads self.now };

    /// The number of bytes that the Ok calls of `read` handed out, which stops at 18446744073709551615.
    fn given(&self) -> u64
        ensures { result ≡ given self.now };

    /// Whether any call so far has failed.
    fn failed(&self) -> bool
        ensures { result ≡ failed self.now };
}

/// Where the bytes come from, beside a sink that each read is shown.
///
/// An `Err` comes exactly from a call that fails. An Ok `read` hands out at most the buffer's length; 0 for a
/// buffer that isn't empty is the end of the input.
pub trait Source<K: Sink>: Supply {
    /// Hands out bytes at the front of the buffer, and says how many. Where the read may wait the sink has
    /// passed on what it has taken.
    ///
    /// `Broken` if the call failed.
    fn read(&mut self, buf: &mut [u8], sink: &K) -> Result<usize, Broken>
        requires passed_on { Self.told_ready self.old ≡ false → K.flushed sink.now ≡ true }
        ensures bound { ReadsAtMost result buf.new }
        ensures bytes { ReadConsumes (Self.remaining self.old) (Self.remaining self.new) result buf.new }
        ensures reads { Self.reads self.new ≡ counted (Self.reads self.old) 1 }
        ensures given { Self.given self.new ≡ given_after (Self.given self.old) result }
        ensures begun { OneMore (Self.begun self.old) (Self.begun self.new) (record {
          ready = Self.told_ready self.old;
          remaining = Self.remaining self.old;
          contents = K.contents sink.now;
          flushed = K.flushed sink.now;
        }) }
        ensures told { Self.told_ready self.new ≡ false }
        ensures failed { Self.failed self.new ≡ Self.failed self.old || is_err result };
}

/// Where the bytes go.
///
/// An `Err` comes exactly from a call that fails. A `write` that fails takes no byte; an Ok `write` of some
/// bytes takes at least one, and never more than it was given.
pub trait Sink {
    /// The bytes that it has taken, where they are known, as those in memory are.
    ghost contents: { Self → Option (List ℕ) };

    /// Whether any call so far has failed.
    ghost failed: { Self → Bool };

    /// Whether what it has taken was passed on: an Ok `write` of some bytes makes it false, an Ok `flush`
    /// true.
    ghost flushed: { Self → Bool };

    /// Takes bytes from the front, and says how many.
    ///
    /// `Broken` if the call failed.
    fn write(&mut self, bytes: &[u8]) -> Result<usize, Broken>
        ensures bound { WritesAtMost result bytes.now }
        ensures some { IfOk result (λ n. 0 < length bytes.now → 0 < n) }
        ensures bytes { WriteAppends (contents self.old) (contents self.new) result bytes.now }
        ensures unflushed { OnOk result (0 < length bytes.now → flushed self.new ≡ false) }
        ensures failed { failed self.new ≡ failed self.old || is_err result };

    /// Passes on what was taken.
    ///
    /// `Broken` if the call failed.
    fn flush(&mut self) -> Result<(), Broken>
        ensures bytes { Keeps (contents self.old) (contents self.new) }
        ensures flushed { OnOk result (flushed self.new ≡ true) }
        ensures failed { failed self.new ≡ failed self.old || is_err result };

    /// Whether any call so far has failed.
    fn failed(&self) -> bool
        ensures { result ≡ failed self.now };

    /// Whether a call has failed because nobody reads any more what is written. A sink that cannot say says
    /// no; no clause speaks of it.
    fn lost_reader(&self) -> bool {
        false
    }

    /// Why a call has failed, in the system's words; none where that is not known. No clause speaks of it.
    /// `AllocError` if a growth was refused.
    fn reason(&self, _alloc: Global) -> Result<Option<String>, AllocError> {
        Ok(None)
    }
}
