//! A source over memory that keeps what stood as each of its reads began. Of a source that keeps no such list
//! the clauses `prompt` and `window` of `run` say nothing: of this one they say how each read began.

ghost use Rattle.std.specs.Prelude.{◌≡◌, ◌<◌, ◌≤◌, ◌++◌, ◌∷◌, [], Some, false, IfOk, IfSome, length, take};
ghost use Rattle.std.specs.Prelude.{option_map};
ghost use Rattle.std.specs.List.{All};
ghost use Rattle.jp_run.specs.Answered.{manner_of};
ghost use Rattle.jp_run.specs.AskedTexts.{asked_by};
ghost use Rattle.jp_run.specs.Limits.{window};
ghost use Rattle.jp_run.specs.Prompt.{IsNear, IsPrompt};

use crate::shared::push_long;
use jp_answer::{Gate, OpenGate};
use jp_run::{Broken, RunFault, Settings, Sink, Source, Supply, Totals, run};
use std::alloc::{AllocError, Global};
use std::marker::Model;
use std::test::Fail;
use std::thread::Threads;

/// What stood as a read began: to a clause it is the `Begun` of `jp_run`.
#[derive(Drop)]
struct KeptRead<'a> {
    /// Whether it was said that the read does not wait.
    ready: bool,
    /// The bytes that were still to come.
    rest: &'a [u8],
    /// The bytes that the sink had taken, and whether they were passed on.
    written: Vec<u8>,
    flushed: bool,
}

impl<'a> Model for KeptRead<'a> {
    ghost use Rattle.std.specs.Prelude.{Some};
    ghost use Rattle.jp_run.specs.Begun.{Begun};

    ghost Value = { Begun };

    ghost view = { λ r. record {
      ready = r.ready;
      remaining = Some r.rest.now;
      contents = Some r.written.items;
      flushed = r.flushed;
    } };
}

/// Bytes that were written.
#[derive(Drop)]
struct Written {
    bytes: Vec<u8>,
    flushed: bool,
    failed: bool,
}

impl Sink for Written {
    ghost contents = { λ s. Some s.bytes.items };

    ghost failed = { λ s. s.failed };

    ghost flushed = { λ s. s.flushed };

    fn write(&mut self, bytes: &[u8]) -> Result<usize, Broken> {
        if self.bytes.extend_from_slice(bytes).is_err() {
            self.failed = true;
            return Err(Broken);
        }
        self.flushed = false;
        Ok(bytes.len())
    }

    fn flush(&mut self) -> Result<(), Broken> {
        self.flushed = true;
        Ok(())
    }

    fn failed(&self) -> bool {
        self.failed
    }
}

/// Bytes in memory, with what stood as each read of them began.
#[derive(Drop)]
struct KeptReads<'a> {
    alloc: Global,
    rest: &'a [u8],
    /// Of each of the first reads how many bytes it hands out, and whether it is ready. Those behind it may
    /// wait, and hand out as many as have room.
    plan: &'a [(usize, bool)],
    told_ready: bool,
    reads: u64,
    given: u64,
    /// What stood as each read began, or nothing once a growth was refused.
    kept: Option<Vec<KeptRead<'a>>>,
}

impl<'a> KeptReads<'a> {
    /// These bytes, of which none was read.
    fn new(alloc: Global, bytes: &'a [u8], plan: &'a [(usize, bool)]) -> KeptReads<'a>
        ensures bytes { result.rest.now ≡ bytes.now }
        ensures unread { (result.reads ≡ 0) × (result.given ≡ 0) }
        ensures kept { option_map (λ kept. kept.items) result.kept ≡ Some [] }
    {
        KeptReads {
            alloc,
            rest: bytes,
            plan,
            told_ready: false,
            reads: 0,
            given: 0,
            kept: Some(Vec::new(alloc)),
        }
    }

    /// How many bytes the next read hands out at most.
    fn next_most(&mut self) -> usize
        ensures { self.new ≡ record self.old { plan = self.new.plan } }
    {
        match self.plan.split_first() {
            Some(((most, _), plan)) => {
                self.plan = plan;
                *most
            }
            None => usize::MAX,
        }
    }
}

/// These reads, and one that begins so. `AllocError` if a growth was refused.
fn with_one_more<'a>(
    alloc: Global,
    mut reads: Vec<KeptRead<'a>>,
    ready: bool,
    rest: &'a [u8],
    sink: &Written,
) -> Result<Vec<KeptRead<'a>>, AllocError>
    ensures { IfOk result (λ more. more.items ≡ reads.entry.items ++ record {
      ready = ready;
      remaining = Some rest.now;
      contents = Some sink.now.bytes.items;
      flushed = sink.now.flushed;
    } ∷ []) }
{
    let written = Vec::from_slice(alloc, &sink.bytes)?;
    reads.push(KeptRead {
        ready,
        rest,
        written,
        flushed: sink.flushed,
    })?;
    Ok(reads)
}

/// Hands out bytes at the front of the buffer: at most so many, and one at least where there is one. Gives
/// how many they are, and those that are left.
fn hand_out<'a>(rest: &'a [u8], buf: &mut [u8], most: usize) -> (usize, &'a [u8])
    ensures bound { result.0 ≤ length buf.new }
    ensures bytes { rest.now ≡ take result.0 buf.new ++ result.1.now }
    ensures end { result.0 ≡ 0 → 0 < length buf.new → result.1.now ≡ [] }
{
    let n = most.max(1).min(buf.len()).min(rest.len());
    let (front, left) = rest.split_at(n);
    buf[..n].copy_from_slice(front);
    (n, left)
}

impl Supply for KeptReads<'_> {
    ghost remaining = { λ s. Some s.rest.now };

    ghost reads = { λ s. s.reads };

    ghost given = { λ s. s.given };

    ghost begun = { λ s. option_map (λ kept. kept.items) s.kept };

    ghost told_ready = { λ s. s.told_ready };

    ghost failed = { λ _. false };

    fn is_ready(&mut self) -> bool {
        self.told_ready = match self.plan.first() {
            Some((_, ready)) => *ready,
            None => false,
        };
        self.told_ready
    }

    fn reads(&self) -> u64 {
        self.reads
    }

    fn given(&self) -> u64 {
        self.given
    }

    fn failed(&self) -> bool {
        false
    }
}

impl Source<Written> for KeptReads<'_> {
    fn read(&mut self, buf: &mut [u8], sink: &Written) -> Result<usize, Broken> {
        self.kept = match self.kept.take() {
            Some(reads) => with_one_more(self.alloc, reads, self.told_ready, self.rest, sink).ok(),
            None => None,
        };
        self.told_ready = false;
        self.reads = self.reads.saturating_add(1);
        let most = self.next_most();
        let (n, rest) = hand_out(self.rest, buf, most);
        self.rest = rest;
        self.given = self.given.saturating_add(n as u64);
        Ok(n)
    }
}

/// What a run over these bytes comes to, and what stood as each of its reads began, where no growth of this
/// list was refused: before each that may wait all lines whose end has come were answered and passed on, and
/// at none so many bytes as the window were not answered.
fn run_kept<'a, R: Threads + Sync, G: Gate + Sync>(
    rt: &R,
    alloc: Global,
    bytes: &'a [u8],
    plan: &'a [(usize, bool)],
    query: &str,
    settings: &Settings<'_>,
    gate: &G,
) -> (Result<Totals, RunFault>, Option<Vec<KeptRead<'a>>>)
    ensures prompt { IfSome result.1 (λ reads. All (IsPrompt (manner_of settings.now)
        (asked_by query.now settings.now) (Some bytes.now) (Some [])) reads.items) }
    ensures window { IfSome result.1 (λ reads. All (IsNear window (manner_of settings.now)
        (asked_by query.now settings.now) (Some bytes.now) (Some [])) reads.items) }
{
    let mut source = KeptReads::new(alloc, bytes, plan);
    let mut sink = Written {
        bytes: Vec::new(alloc),
        flushed: true,
        failed: false,
    };
    let end = run(rt, alloc, &mut source, &mut sink, query, settings, gate);
    (end, source.kept)
}

/// How a read has to begin: whether it is ready, the bytes that are still to come, those that are written,
/// and whether they are passed on.
type Wanted<'a> = (bool, &'a [u8], &'a [u8], bool);

/// Whether these reads began so.
fn began_so(reads: &[KeptRead<'_>], wanted: &[Wanted<'_>]) -> bool {
    let began = reads.iter().zip(wanted.iter()).all(|(read, (ready, rest, written, flushed))| {
        read.ready == *ready
            && read.rest == *rest
            && read.written.as_slice() == *written
            && read.flushed == *flushed
    });
    began && reads.len() == wanted.len()
}

/// Whether a run by one worker, in batches of so many documents, reads so.
fn reads_so<R: Threads + Sync>(
    rt: &R,
    alloc: Global,
    plan: &[(usize, bool)],
    batch: u64,
    wanted: &[Wanted<'_>],
) -> Result<bool, RunFault> {
    let settings = Settings::new(1, 64, batch)?;
    let bytes = b"10\n20\n30\n40";
    let (end, kept) = run_kept(rt, alloc, bytes, plan, "$", &settings, &OpenGate);
    let Some(reads) = kept else {
        return Err(RunFault::Memory);
    };
    Ok(end?.lines == 4 && began_so(&reads, wanted))
}

/// Each read may wait. The second begins in the midst of a line, the third behind its end, and the last
/// behind the begin of a line that has no end.
#[test]
fn reads_that_wait(rt: HostRuntime) -> Result<(), Fail> {
    let plan = [(2, false), (2, false), (5, false), (9, false)];
    let wanted: [Wanted<'_>; 5] = [
        (false, b"10\n20\n30\n40", b"", true),
        (false, b"\n20\n30\n40", b"", true),
        (false, b"0\n30\n40", b"1\t$\t10\n", true),
        (false, b"40", b"1\t$\t10\n2\t$\t20\n3\t$\t30\n", true),
        (false, b"", b"1\t$\t10\n2\t$\t20\n3\t$\t30\n", true),
    ];
    for batch in [1, 2, 1_000] {
        assert!(rt;
            reads_so(&rt, rt.alloc(), &plan, batch, &wanted)?,
            "{batch}"
        );
    }
    Ok(())
}

/// The second read is ready, so the line before it is not answered, and the third may wait.
#[test]
fn reads_that_are_ready(rt: HostRuntime) -> Result<(), Fail> {
    let plan = [(3, true), (3, true), (3, false), (3, true)];
    let wanted: [Wanted<'_>; 5] = [
        (true, b"10\n20\n30\n40", b"", true),
        (true, b"20\n30\n40", b"", true),
        (false, b"30\n40", b"1\t$\t10\n2\t$\t20\n", true),
        (true, b"40", b"1\t$\t10\n2\t$\t20\n", true),
        (false, b"", b"1\t$\t10\n2\t$\t20\n3\t$\t30\n", true),
    ];
    assert!(rt; reads_so(&rt, rt.alloc(), &plan, 1_000, &wanted)?);
    Ok(())
}

/// How many lines there are, and how many bytes each has.
const LINES: usize = 130;

const LINE_BYTES: usize = 70_004;

/// The most bytes that had come and were not answered as one of these reads began, of so many in all.
fn most_waiting(reads: &[KeptRead<'_>], bytes: usize) -> usize {
    let mut most = 0;
    for read in reads {
        let answered = read.written.iter().filter(|byte| **byte == b'\n').count();
        let come = bytes.saturating_sub(read.rest.len());
        most = most.max(come.saturating_sub(answered.saturating_mul(LINE_BYTES)));
    }
    most
}

/// Reads of 65,536 bytes that are ready, of lines that are longer: they go ahead of the answer, and no more
/// waits than the window and the begin of a line.
#[test]
fn reads_ahead(rt: HostRuntime) -> Result<(), Fail> {
    let mut text = String::new(rt.alloc());
    for _line in 0..LINES {
        push_long("[0]", LINE_BYTES - 4, &mut text)?;
    }
    let plan = vec![in rt.alloc(); (65_536, true); 140]?;
    for workers in [1, 4] {
        let settings = Settings::new(workers, 64, 1_000)?;
        let bytes = text.as_bytes();
        let (end, kept) = run_kept(&rt, rt.alloc(), bytes, &plan, "$[0]", &settings, &OpenGate);
        let most = most_waiting(&kept.ok_or(RunFault::Memory)?, text.len());
        let ahead = LINE_BYTES < most && most < 4_194_304 + LINE_BYTES;
        assert!(rt; end.is_ok() && ahead, "{most}");
    }
    Ok(())
}
