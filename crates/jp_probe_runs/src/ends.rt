//! Ends in memory: what a run reads from and writes to, of whatever row.

ghost use Rattle.std.specs.Prelude.{◌≡◌, ◌<◌, ◌≤◌, ◌++◌, [], Some, None, false, IfOk, length, take};

use jp_probe_parts::{Row, flag_in, items_in, number_in};
use jp_run::{Broken, Nowhere, Sink, Source, Supply};
use serde_json::Value;
use std::alloc::{AllocError, Global};
use std::io::{self, ErrorKind, Read, Write};

/// How many bytes a sink has room for at first, so that short runs grow no memory of their own.
const FIRST_ROOM: usize = 4_096;

/// What stood as a read began: whether it was said to be ready, how many bytes had been handed out, and how
/// many the sink had taken and passed on.
pub type Seen = (bool, u64, u64, u64);

/// Bytes in memory, which are handed out as a row says.
#[derive(Drop)]
pub struct Memory<'a> {
    rest: &'a [u8],
    /// Of each of the first reads how many bytes it hands out, one at least, and whether it is ready.
    plan: &'a [(u64, bool)],
    /// The most bytes of each read behind those.
    most: usize,
    /// Whether none of the reads behind those waits.
    never_waits: bool,
    /// The call that fails, from 1, or 0.
    fails_at: u64,
    /// How many bytes a line has at least, if it is asked how many wait to be answered.
    line: u64,
    /// Whether it was said since the last read that the next one does not wait.
    told_ready: bool,
    /// How often it was read, and how many bytes were handed out.
    pub reads: u64,
    pub given: u64,
    failed: bool,
    /// What stood as the first eight reads began, and how many of these places are taken.
    places: [Seen; 8],
    taken: usize,
    /// The most bytes that were not answered as a read began.
    pub waiting: u64,
}

/// How bytes are read.
#[derive(Clone, Copy)]
pub struct Reading<'a> {
    /// The first reads, as `Memory` has them.
    pub plan: &'a [(u64, bool)],
    /// The most bytes of each read behind those, or 0.
    pub most: u64,
    /// Whether none of those waits.
    pub never_waits: bool,
    /// The call that fails, from 1, or 0.
    pub fails_at: u64,
    /// How many bytes a line has at least, or 0.
    pub line: u64,
}

impl<'a> Reading<'a> {
    /// How they are read as a row says, of whose first reads this is the plan.
    pub fn of(row: Row<'_>, plan: &'a [(u64, bool)]) -> anyhow::Result<Reading<'a>> {
        Ok(Reading {
            plan,
            most: row.number("each_read")?,
            never_waits: row.flag("never_waits")?,
            fails_at: row.number("failing_read")?,
            line: row.number("line")?,
        })
    }
}

/// The first reads, as `Memory` has them.
pub fn plan_of(alloc: Global, values: &[Value]) -> anyhow::Result<Vec<(u64, bool)>> {
    let mut plan = Vec::new(alloc);
    for value in values {
        match items_in(value)? {
            [most, ready] => plan.push((number_in(most)?, flag_in(ready)?))?,
            _ => return Err(anyhow::anyhow!(
                "a read in a row is not how many and whether it is ready"
            )),
        }
    }
    Ok(plan)
}

impl<'a> Memory<'a> {
    /// These bytes, of which none was read.
    pub fn new(bytes: &'a [u8], reading: &Reading<'a>) -> Memory<'a>
        ensures unread { (result.reads ≡ 0) × (result.given ≡ 0) }
        ensures working { result.failed ≡ false }
    {
        Memory {
            rest: bytes,
            plan: reading.plan,
            most: if reading.most == 0 {
                usize::MAX
            } else {
                reading.most as usize
            },
            never_waits: reading.never_waits,
            fails_at: reading.fails_at,
            line: reading.line,
            told_ready: false,
            reads: 0,
            given: 0,
            failed: false,
            places: [(false, 0, 0, 0); 8],
            taken: 0,
            waiting: 0,
        }
    }

    /// What stood as the first eight reads began.
    pub fn seen(&self) -> &[Seen] {
        let (seen, _) = self.places.split_at(self.taken.min(8));
        seen
    }
}

/// How many lines these bytes end.
pub fn line_ends(bytes: &[u8]) -> u64 {
    bytes.iter().filter(|byte| **byte == b'\n').count() as u64
}

/// Hands out bytes at the front of the buffer: at most so many, and one at least where there is one. Gives
/// how many they are, and those that are left.
fn hand_out<'a>(rest: &'a [u8], buf: &mut [u8], most: usize) -> (usize, &'a [u8])
    ensures bound { result.0 ≤ length buf.new }
    ensures bytes { rest.now ≡ take result.0 buf.new ++ result.1.now }
    ensures end { result.0 ≡ 0 → 0 < length buf.new → result.1.now ≡ [] }
{
    let n = most.max(1).min(buf.len()).min(rest.len());
    let (front, left) = rest.split_at(n);
    buf[..n].copy_from_slice(front);
    (n, left)
}

impl Supply for Memory<'_> {
    ghost remaining = { λ s. Some s.rest.now };

    ghost reads = { λ s. s.reads };

    ghost given = { λ s. s.given };

    ghost begun = { λ _. None };

    ghost told_ready = { λ s. s.told_ready };

    ghost failed = { λ s. s.failed };

    fn is_ready(&mut self) -> bool {
        self.told_ready = match self.plan.first() {
            Some((_, ready)) => *ready,
            None => self.never_waits,
        };
        self.told_ready
    }

    fn reads(&self) -> u64 {
        self.reads
    }

    fn given(&self) -> u64 {
        self.given
    }

    fn failed(&self) -> bool {
        self.failed
    }
}

/// A sink that tells what it has.
pub trait Telling: Sink {
    /// How many lines it has.
    fn lines(&self) -> u64;

    /// How many bytes it has, and how many of them it has passed on.
    fn bytes(&self) -> (u64, u64);
}

impl Telling for Kept {
    fn lines(&self) -> u64 {
        line_ends(&self.bytes)
    }

    fn bytes(&self) -> (u64, u64) {
        (self.bytes.len() as u64, self.passed_on as u64)
    }
}

impl Telling for Nowhere {
    fn lines(&self) -> u64 {
        0
    }

    fn bytes(&self) -> (u64, u64) {
        (0, 0)
    }
}

impl<K: Telling> Source<K> for Memory<'_> {
    fn read(&mut self, buf: &mut [u8], sink: &K) -> Result<usize, Broken> {
        if self.line > 0 {
            let answered = sink.lines().saturating_mul(self.line);
            self.waiting = self.waiting.max(self.given.saturating_sub(answered));
        }
        let (bytes, passed_on) = sink.bytes();
        let seen = (self.told_ready, self.given, bytes, passed_on);
        self.reads = self.reads.saturating_add(1);
        self.told_ready = false;
        if self.reads == self.fails_at {
            self.failed = true;
            return Err(Broken);
        }
        if let Some(place) = self.places.get_mut(self.taken) {
            *place = seen;
            self.taken += 1;
        }
        let most = match self.plan.split_first() {
            Some(((most, _), plan)) => {
                self.plan = plan;
                *most as usize
            }
            None => self.most,
        };
        let (n, rest) = hand_out(self.rest, buf, most);
        self.rest = rest;
        self.given = self.given.saturating_add(n as u64);
        Ok(n)
    }
}

impl Read for Memory<'_> {
    fn read(&mut self, buf: &mut [u8]) -> io::Result<usize> {
        self.reads = self.reads.saturating_add(1);
        if self.reads == self.fails_at {
            return Err(ErrorKind::ConnectionReset.into());
        }
        let n = self.most.min(buf.len());
        let (front, _) = buf.split_at_mut(n);
        let given = self.rest.read(front)?;
        self.given = self.given.saturating_add(given as u64);
        Ok(given)
    }
}

/// How a writer of std fails, where it has no room or passes nothing on: it takes none, its disk is full, or
/// its reader has gone.
#[derive(Clone, Copy)]
pub enum Failing {
    TakesNone,
    Full,
    Gone,
}

/// The way to fail of this name, as `takes_none`.
fn failing_named(name: &str) -> anyhow::Result<Failing> {
    Ok(match name {
        "takes_none" => Failing::TakesNone,
        "full" => Failing::Full,
        "gone" => Failing::Gone,
        _ => return Err(anyhow::anyhow!("no way to fail has the name that stands in a row")),
    })
}

/// How bytes are taken.
#[derive(Clone, Copy)]
pub struct Taking {
    /// The most bytes of a write, or 0.
    pub most: u64,
    /// How many bytes have room in all.
    pub room: Option<u64>,
    /// How many flushes pass.
    pub flushes: Option<u64>,
    pub fails: Failing,
}

impl Taking {
    /// How they are taken as a row says.
    pub fn of(row: Row<'_>) -> anyhow::Result<Taking> {
        Ok(Taking {
            most: row.number("each_write")?,
            room: row.number_if_any("room")?,
            flushes: row.number_if_any("flushes")?,
            fails: failing_named(row.text_if_any("fails")?.unwrap_or("takes_none"))?,
        })
    }
}

/// Takes at most so many bytes a call, so many in all, and then fails. So many flushes pass, and then they
/// fail.
#[derive(Drop)]
pub struct Kept {
    pub bytes: Vec<u8>,
    most: usize,
    room: usize,
    flushes: u64,
    fails: Failing,
    flushed: bool,
    failed: bool,
    /// How many bytes it had taken at the first flush that found some, and at the last.
    pub first: usize,
    pub passed_on: usize,
    /// Whether a write followed one that failed.
    pub called_again: bool,
    ghost some: { 0 < most },
}

impl Kept {
    /// A sink that has taken these bytes before.
    pub fn new(alloc: Global, before: &[u8], taking: Taking) -> Result<Kept, AllocError>
        ensures { IfOk result (λ sink. sink.failed ≡ false) }
    {
        let mut bytes = Vec::with_capacity(alloc, FIRST_ROOM)?;
        bytes.extend_from_slice(before)?;
        Ok(Kept {
            bytes,
            most: if taking.most == 0 {
                usize::MAX
            } else {
                taking.most as usize
            },
            room: taking.room.unwrap_or(u64::MAX) as usize,
            flushes: taking.flushes.unwrap_or(u64::MAX),
            fails: taking.fails,
            flushed: true,
            failed: false,
            first: 0,
            passed_on: 0,
            called_again: false,
        })
    }

    /// The error of a writer that fails so.
    fn error(&self) -> io::Error {
        match self.fails {
            Failing::Gone => ErrorKind::BrokenPipe.into(),
            _ => ErrorKind::StorageFull.into(),
        }
    }
}

impl Sink for Kept {
    ghost contents = { λ s. Some s.bytes.items };

    ghost failed = { λ s. s.failed };

    ghost flushed = { λ s. s.flushed };

    fn write(&mut self, bytes: &[u8]) -> Result<usize, Broken> {
        self.called_again |= self.failed;
        let n = bytes.len().min(self.most).min(self.room);
        if n == 0 && !bytes.is_empty() {
            self.failed = true;
            return Err(Broken);
        }
        let (front, _) = bytes.split_at(n);
        if self.bytes.extend_from_slice(front).is_err() {
            self.failed = true;
            return Err(Broken);
        }
        self.room -= n;
        self.flushed = false;
        Ok(n)
    }

    fn flush(&mut self) -> Result<(), Broken> {
        if self.flushes == 0 {
            self.failed = true;
            return Err(Broken);
        }
        self.flushes -= 1;
        self.flushed = true;
        self.passed_on = self.bytes.len();
        Ok(())
    }

    fn failed(&self) -> bool {
        self.failed
    }
}

impl Write for Kept {
    fn write(&mut self, buf: &[u8]) -> io::Result<usize> {
        let n = buf.len().min(self.most).min(self.room);
        if n == 0 && !buf.is_empty() && !matches!(self.fails, Failing::TakesNone) {
            return Err(self.error());
        }
        let (front, _) = buf.split_at(n);
        if self.bytes.extend_from_slice(front).is_err() {
            return Err(ErrorKind::OutOfMemory.into());
        }
        self.room -= n;
        Ok(n)
    }

    fn flush(&mut self) -> io::Result<()> {
        if self.flushes == 0 {
            return Err(self.error());
        }
        self.flushes -= 1;
        self.passed_on = self.bytes.len();
        if self.first == 0 {
            self.first = self.passed_on;
        }
        Ok(())
    }
}
