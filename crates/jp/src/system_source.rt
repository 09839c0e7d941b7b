//! An input of the system: standard input, or a file.

ghost use Rattle.std.specs.Prelude.{◌≡◌, ◌≤◌, None, IfOk, length, true, false};

use crate::beside::BesideReader;
use jp_run::{Broken, Sink, Source, Supply};
use std::fmt;
use std::io::{self, Input, Read};
use std::sync::Wait;

/// Why an input could not be opened, or not be read.
#[derive(Clone, Copy)]
pub enum Reason {
    /// What the system says.
    System(io::Error),
    /// It is the file that the answer is written to: what is read would grow with each line that is written.
    IsOutput,
}

impl fmt::Display for Reason {
    fn fmt<W: fmt::Write>(&self, f: &mut fmt::Formatter<W>) -> fmt::Result {
        match self {
            Reason::System(error) => write!(f, "{error}"),
            Reason::IsOutput => write!(f, "input file is also the output"),
        }
    }
}

/// What is open.
#[derive(Drop)]
pub enum OpenInput<'r, R, I, F> {
    /// Nothing, and why.
    Nothing(Reason),
    /// Standard input, read by whoever asks.
    Input(I),
    File(F),
    /// One of both, read by a thread beside.
    Beside(BesideReader<'r, R, F>),
}

impl<R: Input + Wait, I: Read, F: Read + Drop> OpenInput<'_, R, I, F> {
    /// Reads some bytes to the front of the buffer, and says how many: none at the end.
    fn read(&mut self, buf: &mut [u8]) -> Result<usize, Reason>
        ensures bound { IfOk result (λ n. n ≤ length buf.new) }
    {
        let read = match self {
            OpenInput::Nothing(reason) => return Err(*reason),
            OpenInput::Input(reader) => reader.read(buf),
            OpenInput::File(file) => file.read(buf),
            OpenInput::Beside(reader) => reader.read(buf),
        };
        match read {
            Ok(n) => Ok(n),
            Err(error) => Err(Reason::System(error)),
        }
    }
}

/// A source over an input of the system. Nothing is known of its bytes.
#[derive(Drop)]
pub struct SystemSource<'r, R, I, F> {
    opened: OpenInput<'r, R, I, F>,
    /// Whether no read waits, where no thread beside says so.
    never_waits: bool,
    /// Why it could not be opened, or why the last read that failed did.
    reason: Option<Reason>,
    told_ready: bool,
    reads: u64,
    given: u64,
    failed: bool,
}

impl<'r, R: Input + Wait, I: Read, F: Read + Drop> SystemSource<'r, R, I, F> {
    /// What is open, from which nothing was read.
    pub fn over(opened: OpenInput<'r, R, I, F>, never_waits: bool) -> SystemSource<'r, R, I, F>
        ensures unread { ⟦<SystemSource<'r, R, I, F> as Supply>⟧.reads result ≡ 0 }
        ensures ungiven { ⟦<SystemSource<'r, R, I, F> as Supply>⟧.given result ≡ 0 }
        ensures working { ⟦<SystemSource<'r, R, I, F> as Supply>⟧.failed result ≡ false }
    {
        SystemSource {
            opened,
            never_waits,
            reason: None,
            told_ready: false,
            reads: 0,
            given: 0,
            failed: false,
        }
    }

    /// What could not be opened, and why. It has failed before its first read.
    pub fn broken(reason: Reason) -> SystemSource<'r, R, I, F>
        ensures unread { ⟦<SystemSource<'r, R, I, F> as Supply>⟧.reads result ≡ 0 }
        ensures ungiven { ⟦<SystemSource<'r, R, I, F> as Supply>⟧.given result ≡ 0 }
        ensures failed { ⟦<SystemSource<'r, R, I, F> as Supply>⟧.failed result ≡ true }
    {
        let mut source = SystemSource::over(OpenInput::Nothing(reason), true);
        source.reason = Some(reason);
        source.failed = true;
        source
    }

    /// Why it could not be opened, or why the last read that failed did.
    pub fn reason(&self) -> Option<Reason> {
        self.reason
    }
}

impl<R: Input + Wait, I: Read, F: Read + Drop> Supply for SystemSource<'_, R, I, F> {
    ghost remaining = { λ _. None };

    ghost reads = { λ s. s.reads };

    ghost given = { λ s. s.given };

    ghost begun = { λ _. None };

    ghost told_ready = { λ s. s.told_ready };

    ghost failed = { λ s. s.failed };

    fn is_ready(&mut self) -> bool {
        self.told_ready = match &mut self.opened {
            OpenInput::Beside(reader) => reader.is_ready(),
            _ => self.never_waits,
        };
        self.told_ready
    }

    fn reads(&self) -> u64 {
        self.reads
    }

    fn given(&self) -> u64 {
        self.given
    }

    fn failed(&self) -> bool {
        self.failed
    }
}

impl<R: Input + Wait, I: Read, F: Read + Drop, K: Sink> Source<K> for SystemSource<'_, R, I, F> {
    fn read(&mut self, buf: &mut [u8], _sink: &K) -> Result<usize, Broken> {
        self.told_ready = false;
        self.reads = self.reads.saturating_add(1);
        match self.opened.read(buf) {
            Ok(n) => {
                self.given = self.given.saturating_add(n as u64);
                Ok(n)
            }
            Err(reason) => {
                self.reason = Some(reason);
                self.failed = true;
                Err(Broken)
            }
        }
    }
}
