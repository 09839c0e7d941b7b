//! Ends over std's readers and writers.

ghost use Rattle.std.specs.Prelude.{◌≡◌, None, true, false};

use crate::ends::{Broken, Sink, Source, Supply};
use std::alloc::{AllocError, Global};
use std::io::{Error, ErrorKind, Read, Write};

/// A source over a reader of std. Each error of a read, of whatever kind, is a failure.
#[derive(Drop)]
pub struct FromReader<R> {
    reader: R,
    /// Whether the caller says that no read waits.
    never_waits: bool,
    told_ready: bool,
    reads: u64,
    given: u64,
    failed: bool,
}

impl<R: Read> FromReader<R> {
    /// A source from which nothing was read, and each of whose reads may wait. It takes no memory.
    pub fn new(reader: R) -> FromReader<R>
        ensures remaining { ⟦<FromReader<R> as Supply>⟧.remaining result ≡ R.remaining reader }
        ensures unread { ⟦<FromReader<R> as Supply>⟧.reads result ≡ 0 }
        ensures ungiven { ⟦<FromReader<R> as Supply>⟧.given result ≡ 0 }
        ensures working { ⟦<FromReader<R> as Supply>⟧.failed result ≡ false }
    {
        FromReader::over(reader, false, false)
    }

    /// A source from which nothing was read, and none of whose reads waits: that is the caller's word, as of
    /// a file or of memory. It takes no memory.
    pub fn never_waits(reader: R) -> FromReader<R>
        ensures remaining { ⟦<FromReader<R> as Supply>⟧.remaining result ≡ R.remaining reader }
        ensures unread { ⟦<FromReader<R> as Supply>⟧.reads result ≡ 0 }
        ensures ungiven { ⟦<FromReader<R> as Supply>⟧.given result ≡ 0 }
        ensures working { ⟦<FromReader<R> as Supply>⟧.failed result ≡ false }
    {
        FromReader::over(reader, true, false)
    }

    /// A source that has failed before its first read, as one that could not be opened. It takes no memory.
    pub fn broken(reader: R) -> FromReader<R>
        ensures remaining { ⟦<FromReader<R> as Supply>⟧.remaining result ≡ R.remaining reader }
        ensures unread { ⟦<FromReader<R> as Supply>⟧.reads result ≡ 0 }
        ensures ungiven { ⟦<FromReader<R> as Supply>⟧.given result ≡ 0 }
        ensures failed { ⟦<FromReader<R> as Supply>⟧.failed result ≡ true }
    {
        FromReader::over(reader, false, true)
    }

    /// A source from which nothing was read.
    fn over(reader: R, never_waits: bool, failed: bool) -> FromReader<R>
        ensures remaining { ⟦<FromReader<R> as Supply>⟧.remaining result ≡ R.remaining reader }
        ensures unread { ⟦<FromReader<R> as Supply>⟧.reads result ≡ 0 }
        ensures ungiven { ⟦<FromReader<R> as Supply>⟧.given result ≡ 0 }
        ensures failed { ⟦<FromReader<R> as Supply>⟧.failed result ≡ failed }
    {
        FromReader {
            reader,
            never_waits,
            told_ready: false,
            reads: 0,
            given: 0,
            failed,
        }
    }
}

impl<R: Read> Supply for FromReader<R> {
    ghost remaining = { λ s. R.remaining s.reader };

    ghost reads = { λ s. s.reads };

    ghost given = { λ s. s.given };

    ghost begun = { λ _. None };

    ghost told_ready = { λ s. s.told_ready };

    ghost failed = { λ s. s.failed };

    fn is_ready(&mut self) -> bool {
        self.told_ready = self.never_waits;
        self.told_ready
    }

    fn reads(&self) -> u64 {
        self.reads
    }

    fn given(&self) -> u64 {
        self.given
    }

    fn failed(&self) -> bool {
        self.failed
    }
}

impl<R: Read, K: Sink> Source<K> for FromReader<R> {
    fn read(&mut self, buf: &mut [u8], _sink: &K) -> Result<usize, Broken> {
        self.told_ready = false;
        // The counts of the trait stop and do not wrap, so that no call has to be forbidden.
        self.reads = self.reads.saturating_add(1);
        match self.reader.read(buf) {
            Ok(n) => {
                self.given = self.given.saturating_add(n as u64);
                Ok(n)
            }
            Err(_) => {
                self.failed = true;
                Err(Broken)
            }
        }
    }
}

/// A sink over a writer of std. A write that takes none of some bytes is a failure, and so is each error.
#[derive(Drop)]
pub struct FromWriter<W> {
    writer: W,
    failed: bool,
    flushed: bool,
    /// The error of the system, where that is why it has failed.
    error: Option<Error>,
}

impl<W: Write> FromWriter<W> {
    /// A sink to which nothing was written. It takes no memory.
    pub fn new(writer: W) -> FromWriter<W>
        ensures contents { ⟦<FromWriter<W> as Sink>⟧.contents result ≡ W.contents writer }
        ensures working { ⟦<FromWriter<W> as Sink>⟧.failed result ≡ false }
    {
        FromWriter {
            writer,
            failed: false,
            flushed: true,
            error: None,
        }
    }
}

impl<W: Write> Sink for FromWriter<W> {
    ghost contents = { λ s. W.contents s.writer };

    ghost failed = { λ s. s.failed };

    ghost flushed = { λ s. s.flushed };

    fn write(&mut self, bytes: &[u8]) -> Result<usize, Broken> {
        match self.writer.write(bytes) {
            Ok(n) if 0 < n || bytes.is_empty() => {
                self.flushed = false;
                Ok(n)
            }
            Ok(_) => {
                self.failed = true;
                Err(Broken)
            }
            Err(error) => {
                self.failed = true;
                self.error = Some(error);
                Err(Broken)
            }
        }
    }

    fn flush(&mut self) -> Result<(), Broken> {
        match self.writer.flush() {
            Ok(()) => {
                self.flushed = true;
                Ok(())
            }
            Err(error) => {
                self.failed = true;
                self.error = Some(error);
                Err(Broken)
            }
        }
    }

    fn failed(&self) -> bool {
        self.failed
    }

    fn lost_reader(&self) -> bool {
        match &self.error {
            Some(error) => error.kind() == ErrorKind::BrokenPipe,
            None => false,
        }
    }

    fn reason(&self, alloc: Global) -> Result<Option<String>, AllocError> {
        match &self.error {
            Some(error) => Ok(Some(format!(in alloc; "{error}")?)),
            None => Ok(None),
        }
    }
}
