//! Runs: `{"run":{"query":"$.a","cut":[4,2,8],"input":"{\"a\":1}\n"}}`.

ghost use Rattle.std.specs.Prelude.{◌≡◌, ◌^◌, ◌≤◌, false};

use crate::ends::{Kept, Memory, Reading, Seen, Taking, line_ends, plan_of};
use crate::settings::{FaultAnswer, cut_of, settings_of};
use jp_answer::Gate;
use jp_doc::DocFault;
use jp_probe_parts::{Row, number_in};
use jp_run::{FromReader, FromWriter, RunFault, Settings, Sink, Source, Supply, Totals};
use once_cell::race::OnceBox;
use serde::Serialize;
use std::alloc::{AllocError, Global};
use std::str;
use std::thread::Threads;

/// What a row of a run may have.
const MEMBERS: [&str; 19] = [
    "query",
    "cut",
    "settings",
    "input",
    "blanks",
    "by_std",
    "plan",
    "each_read",
    "never_waits",
    "failing_read",
    "each_write",
    "room",
    "flushes",
    "fails",
    "wants_told",
    "line",
    "window",
    "reads_within",
    "whole",
];

/// What a run came to.
#[derive(Drop, Serialize)]
struct RunAnswer<'a> {
    /// `ok`, or the text of the fault.
    end: String,
    status: u8,
    /// Lines, documents and faulty lines, and whether it wrote, where it ended well.
    totals: Option<(u64, u64, u64)>,
    wrote: Option<bool>,
    output: &'a str,
    /// How many lines that is.
    lines: u64,
    reads: u64,
    given: u64,
    passed_on: u64,
    sink_failed: bool,
    called_again: bool,
    told: Vec<&'a str>,
    seen: &'a [Seen],
    waits_below: bool,
    reads_within: bool,
}

/// The faulty lines that a run has told, as long as there is a place for one more.
#[derive(Drop)]
struct Told {
    places: Vec<OnceBox<String>>,
}

impl Told {
    /// So many places.
    fn new(alloc: Global, count: u64) -> Result<Told, AllocError> {
        let mut places = Vec::new(alloc);
        for _place in 0..count {
            places.push(OnceBox::new(alloc))?;
        }
        Ok(Told { places })
    }

    /// The texts that were told.
    fn texts(&self, alloc: Global) -> Result<Vec<&str>, AllocError> {
        let mut texts = Vec::new(alloc);
        for place in &self.places {
            if let Some(text) = place.get() {
                texts.push(text.as_str())?;
            }
        }
        Ok(texts)
    }
}

impl Gate for Told {
    fn pass(&self, _piece: u64) {}

    fn wants_faulty(&self) -> bool {
        self.places.iter().any(|place| place.get().is_none())
    }

    /// The number of the line, how many bytes it has, and its fault.
    fn faulty(&self, alloc: Global, number: u64, line: &[u8], fault: &DocFault) {
        let Some(place) = self.places.iter().find(|place| place.get().is_none()) else {
            return;
        };
        let Ok(text) = format!(in alloc; "{number} {} {fault}", line.len()) else {
            return;
        };
        if let Ok(text) = Box::new(alloc, text) {
            let _is_set = place.set(text).is_ok();
        }
    }
}

/// A text with so many blanks before each line feed besides.
pub fn with_blanks(alloc: Global, text: &str, count: u64) -> Result<String, AllocError> {
    let mut longer = String::new(alloc);
    let blanks = blanks_of(alloc, count)?;
    for c in text.chars() {
        if c == '\n' {
            longer.push_str(&blanks)?;
        }
        longer.push(c)?;
    }
    Ok(longer)
}

/// So many blanks.
fn blanks_of(alloc: Global, count: u64) -> Result<String, AllocError> {
    let mut blanks = String::new(alloc);
    for _blank in 0..count {
        blanks.push(' ')?;
    }
    Ok(blanks)
}

/// A run. It promises nothing here.
pub fn run_unpromised<R: Threads + Sync, S: Source<K>, K: Sink, G: Gate + Sync>(
    rt: &R,
    alloc: Global,
    source: &mut S,
    sink: &mut K,
    query: &str,
    settings: &Settings<'_>,
    gate: &G,
) -> Result<Totals, RunFault>
    requires working { (S.failed source.old ≡ false) × (K.failed sink.old ≡ false) }
    requires few { (S.reads source.old ≤ 2 ^ 62) × (S.given source.old ≤ 2 ^ 62) }
{
    jp_run::run(rt, alloc, source, sink, query, settings, gate)
}

/// What a run ended with, and its ends.
#[derive(Drop)]
struct Ran<'a> {
    end: Result<Totals, RunFault>,
    source: Memory<'a>,
    sink: Kept,
    /// Whether the sink says that a call has failed.
    sink_failed: bool,
}

/// The answer to what is asked of a run: what it came to, or its want of memory.
pub fn answer_run<R: Threads + Sync>(
    rt: &R,
    alloc: Global,
    row: Row<'_>,
) -> anyhow::Result<String> {
    row.has_only(&MEMBERS)?;
    // How many blanks stand before each line feed of the input besides.
    let input = with_blanks(alloc, row.text("input")?, row.number("blanks")?)?;
    // How many faulty lines the gate wants to be told.
    let told = Told::new(alloc, row.number("wants_told")?)?;
    let plan = plan_of(alloc, row.items("plan")?)?;
    let mut source = Memory::new(input.as_bytes(), &Reading::of(row, &plan)?);
    let mut sink = Kept::new(alloc, b"", Taking::of(row)?)?;
    let (end, sink_failed) = match settings_of(cut_of(row)?, row.items("settings")?)? {
        Ok(settings) => end_of(rt, alloc, row, &settings, &mut source, &mut sink, &told)?,
        Err(fault) => (Err(fault), false),
    };
    if let Err(RunFault::Memory) = end {
        return want_of_memory(alloc, row, &sink.bytes);
    }
    let ran = Ran {
        end,
        source,
        sink,
        sink_failed,
    };
    said_of(alloc, row, &ran, &told)
}

/// What a run over these ends ends with, and whether its sink says that a call has failed. They stand under
/// std's readers and writers, as `FromReader` and `FromWriter` have them, if the row says so.
fn end_of<R: Threads + Sync>(
    rt: &R,
    alloc: Global,
    row: Row<'_>,
    settings: &Settings<'_>,
    memory: &mut Memory<'_>,
    kept: &mut Kept,
    told: &Told,
) -> anyhow::Result<(Result<Totals, RunFault>, bool)>
    requires working { (memory.old.failed ≡ false) × (kept.old.failed ≡ false) }
    requires few { (memory.old.reads ≤ 2 ^ 62) × (memory.old.given ≤ 2 ^ 62) }
{
    let query = row.text("query")?;
    if !row.flag("by_std")? {
        return Ok(ended(rt, alloc, memory, kept, query, settings, told));
    }
    let mut source = if row.flag("never_waits")? {
        FromReader::never_waits(memory)
    } else {
        FromReader::new(memory)
    };
    let mut sink = FromWriter::new(kept);
    Ok(ended(rt, alloc, &mut source, &mut sink, query, settings, told))
}

/// What a run ends with, and whether its sink says that a call has failed.
fn ended<R: Threads + Sync, S: Source<K>, K: Sink>(
    rt: &R,
    alloc: Global,
    source: &mut S,
    sink: &mut K,
    query: &str,
    settings: &Settings<'_>,
    told: &Told,
) -> (Result<Totals, RunFault>, bool)
    requires working { (S.failed source.old ≡ false) × (K.failed sink.old ≡ false) }
    requires few { (S.reads source.old ≤ 2 ^ 62) × (S.given source.old ≤ 2 ^ 62) }
{
    let end = run_unpromised(rt, alloc, source, sink, query, settings, told);
    (end, sink.failed())
}

/// The answer where memory is wanted, of which a front of the whole output is written.
fn want_of_memory(alloc: Global, row: Row<'_>, bytes: &[u8]) -> anyhow::Result<String> {
    let whole = row.text_if_any("whole")?.unwrap_or("");
    let words = if whole.as_bytes().starts_with(bytes) {
        "memory"
    } else {
        "no front of the output"
    };
    let fault = String::from_str(alloc, words)?;
    Ok(serde_json::to_string(alloc, &FaultAnswer { fault })?)
}

/// The answer of a run that ended so.
fn said_of(alloc: Global, row: Row<'_>, ran: &Ran<'_>, told: &Told) -> anyhow::Result<String> {
    let (end, source, sink) = (&ran.end, &ran.source, &ran.sink);
    // Below how many bytes what waits to be answered stays.
    let window = row.number("window")?;
    let answer = RunAnswer {
        end: text_of_end(alloc, end)?,
        status: status_of_end(end),
        totals: totals_of(end),
        wrote: wrote_of(end),
        output: str::from_utf8(&sink.bytes).unwrap_or("no UTF-8"),
        lines: line_ends(&sink.bytes),
        reads: source.reads,
        given: source.given,
        passed_on: sink.passed_on as u64,
        sink_failed: ran.sink_failed,
        called_again: sink.called_again,
        told: told.texts(alloc)?,
        seen: source.seen(),
        waits_below: source.waiting < window && source.waiting > 0,
        reads_within: are_within(row, source.reads)?,
    };
    Ok(serde_json::to_string(alloc, &answer)?)
}

/// Whether there are as many reads as there may be: the row may say the least and the most.
fn are_within(row: Row<'_>, reads: u64) -> anyhow::Result<bool> {
    match row.items("reads_within")? {
        [] => Ok(true),
        [least, most] => Ok(number_in(least)? <= reads && reads <= number_in(most)?),
        _ => Err(anyhow::anyhow!("a row says of reads no least and most")),
    }
}

/// `ok`, or the text of the fault.
pub fn text_of_end(alloc: Global, end: &Result<Totals, RunFault>) -> Result<String, AllocError> {
    match end {
        Ok(_) => String::from_str(alloc, "ok"),
        Err(fault) => format!(in alloc; "{fault}"),
    }
}

/// The status that a program ends with.
fn status_of_end(end: &Result<Totals, RunFault>) -> u8 {
    match end {
        Ok(totals) => totals.status(),
        Err(fault) => fault.status(),
    }
}

/// Lines, documents and faulty lines, where a run ended well.
fn totals_of(end: &Result<Totals, RunFault>) -> Option<(u64, u64, u64)> {
    match end {
        Ok(totals) => Some((totals.lines, totals.documents, totals.faulty)),
        Err(_) => None,
    }
}

/// Whether it wrote, where it ended well.
fn wrote_of(end: &Result<Totals, RunFault>) -> Option<bool> {
    match end {
        Ok(totals) => Some(totals.wrote > 0),
        Err(_) => None,
    }
}
