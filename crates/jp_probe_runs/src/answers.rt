//! Lines that are answered in all ways: by one thread, by workers in pieces, in two blocks that one thread
//! fills, by `answer` or `answer_all` of `jp_run`, and by a run, if its batch is no 0:
//! `{"answers":{"query":"$.a","cut":[4,1,0],"text":"{\"a\":1}\n{\n"}}`.

ghost use Rattle.std.specs.Prelude.{◌≤◌, length};
ghost use Rattle.jp_answer.specs.Ranges.{AreDocuments};

use crate::runs::{run_unpromised, with_blanks};
use crate::settings::{FaultAnswer, cut_of, settings_of};
use jp_answer::{
    Answerer, Asked, Block, Crew, DocStop, LinePolicy, OnFault, OpenGate, Outcome, Task,
    answer_by_workers,
};
use jp_buffer::{LineRef, WaitingLines, refs_of};
use jp_check::{Plan, plan_in};
use jp_doc::{Line, Lines};
use jp_number::Numbers;
use jp_output::{
    FieldList, Form, Head, InputLines, Layout, NodeLines, RawLines, RowLines, TextLines, ValueLines,
};
use jp_probe_parts::{Row, items_in, number_in, text_in};
use jp_run::{FromReader, FromWriter, Output, RunFault, Settings, answer, answer_all};
use serde::Serialize;
use serde_json::Value;
use std::alloc::{AllocError, Global};
use std::str;
use std::thread::Threads;

/// The most lines that are answered at once.
const MOST_LINES: usize = 4_294_967_296;

/// What one thread answers lines with, and the ways that answer otherwise.
#[derive(Drop, Serialize)]
struct AllAnswers<'a> {
    output: &'a str,
    faulty: u64,
    /// The line at which the answer ends, and its fault.
    stopped: Option<String>,
    unlike: Vec<&'static str>,
}

/// What lines are answered with, in one piece.
#[derive(Drop)]
struct Found {
    bytes: Vec<u8>,
    faulty: u64,
    stopped: Option<DocStop>,
}

impl Found {
    /// The chunks of an answer in one piece.
    fn of(alloc: Global, answer: &Outcome) -> Result<Found, AllocError> {
        let mut bytes = Vec::new(alloc);
        for chunk in &answer.chunks {
            bytes.extend_from_slice(chunk)?;
        }
        Ok(Found {
            bytes,
            faulty: answer.faulty,
            stopped: answer.stopped,
        })
    }

    /// Whether another is the same.
    fn is(&self, other: &Found) -> bool {
        self.bytes.as_slice() == other.bytes.as_slice()
            && self.faulty == other.faulty
            && self.stopped == other.stopped
    }
}

/// What lines are answered with in all ways.
#[derive(Drop)]
struct Ways {
    one: Found,
    unlike: Vec<&'static str>,
}

impl Ways {
    /// Holds another way to the one of one thread.
    fn hold(&mut self, way: &'static str, found: &Found) -> Result<(), AllocError> {
        if self.one.is(found) {
            return Ok(());
        }
        self.say(way)
    }

    /// Says that a way answers otherwise.
    fn say(&mut self, way: &'static str) -> Result<(), AllocError> {
        self.unlike.push(way)?;
        Ok(())
    }
}

/// The answer to lines: what they are answered with, or the fault of the query.
pub fn answer_answers<R: Threads + Sync>(
    rt: &R,
    alloc: Global,
    row: Row<'_>,
) -> anyhow::Result<String> {
    row.has_only(&["query", "cut", "settings", "text", "blanks", "numbered"])?;
    // Workers, lines of a piece, and lines of a batch of the run, or 0 where there is none.
    let (workers, piece, batch) = cut_of(row)?;
    let settings = settings_of((workers, piece, batch.max(1)), row.items("settings")?)??;
    let plan = match plan_in(alloc, row.text("query")?, settings.numbers) {
        Ok(plan) => plan,
        Err(fault) => {
            let fault = format!(in alloc; "{fault}")?;
            return Ok(serde_json::to_string(alloc, &FaultAnswer { fault })?);
        }
    };
    let Ways { one, unlike } = all_ways(rt, alloc, row, &plan, &settings)?;
    let answer = AllAnswers {
        output: str::from_utf8(&one.bytes).unwrap_or("no UTF-8"),
        faulty: one.faulty,
        stopped: text_of_stop(alloc, one.stopped)?,
        unlike,
    };
    Ok(serde_json::to_string(alloc, &answer)?)
}

/// The lines are answered in all ways. They are those of a text, but for its blank ones, before each of whose
/// line feeds so many blanks stand besides, and those that are numbered, if there is no text.
fn all_ways<R: Threads + Sync>(
    rt: &R,
    alloc: Global,
    row: Row<'_>,
    plan: &Plan,
    settings: &Settings<'_>,
) -> anyhow::Result<Ways> {
    let text = row.text_if_any("text")?.unwrap_or("");
    let text = with_blanks(alloc, text, row.number("blanks")?)?;
    let mut lines = lines_of(alloc, text.as_bytes())?;
    add_numbered(alloc, row.items("numbered")?, &mut lines)?;
    let layout = Layout {
        head: head_of(alloc, settings.name)?,
        ending: settings.ending,
        fields: FieldList::of(alloc, settings.fields)?,
    };
    let crew = Crew {
        rt,
        alloc,
        gate: &OpenGate,
    };
    let asked = asked_of(plan, &layout, settings);
    let mut ways = ways_of_form(&crew, asked, &lines, settings)?;
    if is_listed(settings) {
        let found = listed(&crew, plan, &lines, settings)?;
        ways.hold("lists", &found)?;
    }
    if cut_of(row)?.2 > 0 {
        match run_found(&crew, row.text("query")?, &text, settings)? {
            Some(found) => ways.hold("run", &found)?,
            None => ways.say("run ends")?,
        }
    }
    Ok(ways)
}

/// The lines of a text.
fn lines_of(alloc: Global, text: &[u8]) -> Result<Vec<Line>, AllocError> {
    let mut lines = Vec::new(alloc);
    let mut progress = Lines::new(alloc);
    progress.feed(text, &mut lines)?;
    if progress.count() < 1_000_000 {
        progress.finish(&mut lines)?;
    }
    Ok(lines)
}

/// Adds lines by their numbers.
fn add_numbered(alloc: Global, values: &[Value], lines: &mut Vec<Line>) -> anyhow::Result<()> {
    for value in values {
        let [number, text] = items_in(value)? else {
            return Err(anyhow::anyhow!("a line in a row is not its number and its text"));
        };
        let number = number_in(number)?;
        let bytes = Vec::from_slice(alloc, text_in(text)?.as_bytes())?;
        lines.push(Line { number, bytes })?;
    }
    Ok(())
}

/// What stands before each line behind a name, if there is one.
fn head_of(alloc: Global, name: Option<&str>) -> Result<Head, AllocError> {
    match name {
        Some(name) => Head::of_name(alloc, name),
        None => Ok(Head::none()),
    }
}

/// What these settings ask of each line.
fn asked_of<'q>(plan: &'q Plan, layout: &'q Layout, settings: &Settings<'_>) -> Asked<'q> {
    Asked {
        query: plan.compiled(),
        filter: None,
        layout,
        policy: LinePolicy {
            numbers: settings.numbers,
            on_fault: settings.on_fault,
        },
        workers: settings.workers,
    }
}

/// The line and its fault, if an answer ends at one.
fn text_of_stop(alloc: Global, stop: Option<DocStop>) -> Result<Option<String>, AllocError> {
    match stop {
        Some(stop) => Ok(Some(format!(in alloc; "line {}: {}", stop.line, stop.fault)?)),
        None => Ok(None),
    }
}

/// The ways of `jp_answer`, in the form that the settings say.
fn ways_of_form<R: Threads + Sync>(
    crew: &Crew<R, OpenGate>,
    asked: Asked<'_>,
    lines: &[Line],
    settings: &Settings<'_>,
) -> Result<Ways, AllocError> {
    let refs = refs_of(crew.alloc, lines)?;
    if refs.len() > MOST_LINES {
        return Err(AllocError);
    }
    let piece = settings.piece;
    match settings.output {
        Output::Nodes => ways_in::<R, NodeLines>(crew, asked, &refs, piece),
        Output::Values => ways_in::<R, ValueLines>(crew, asked, &refs, piece),
        Output::Texts => ways_in::<R, TextLines>(crew, asked, &refs, piece),
        Output::Raw => ways_in::<R, RawLines>(crew, asked, &refs, piece),
        Output::Rows => ways_in::<R, RowLines>(crew, asked, &refs, piece),
        Output::Lines => ways_in::<R, InputLines>(crew, asked, &refs, piece),
    }
}

/// One thread, workers and blocks.
fn ways_in<R: Threads + Sync, F: Form + Drop + Send>(
    crew: &Crew<R, OpenGate>,
    asked: Asked<'_>,
    lines: &[LineRef<'_>],
    piece: u64,
) -> Result<Ways, AllocError>
    requires lines { length lines.now ≤ 4294967296 }
    requires piece { AreDocuments piece }
{
    let mut answerer = Answerer::new(crew.alloc);
    let one = answerer.answer_lines::<R, OpenGate, F>(crew, &asked, lines)?;
    let mut ways = Ways {
        one: Found::of(crew.alloc, &one)?,
        unlike: Vec::new(crew.alloc),
    };
    let by_workers = answer_by_workers::<R, OpenGate, F>(crew, asked, lines, piece)?;
    ways.hold("workers", &Found::of(crew.alloc, &by_workers)?)?;
    let first = filled::<R, F>(crew, &mut answerer, asked, lines)?;
    ways.hold("first block", &first)?;
    let second = filled::<R, F>(crew, &mut answerer, asked, lines)?;
    ways.hold("second block", &second)?;
    Ok(ways)
}

/// What a block of the lines is filled with.
fn filled<R: Threads + Sync, F: Form + Drop + Send>(
    crew: &Crew<R, OpenGate>,
    answerer: &mut Answerer,
    asked: Asked<'_>,
    lines: &[LineRef<'_>],
) -> Result<Found, AllocError>
    requires lines { length lines.now ≤ 4294967296 }
{
    let mut waiting = WaitingLines::new(crew.alloc);
    waiting.extend(lines)?;
    if waiting.len() > MOST_LINES {
        return Err(AllocError);
    }
    let task = Task {
        asked,
        lines: waiting,
    };
    let block: Block<'_, F> = Block::new(task);
    answerer.fill(crew, &block);
    let found = match block.found() {
        Some(answer) => Found::of(crew.alloc, answer)?,
        None => return Err(AllocError),
    };
    // The buffer is used again, so it has no lines.
    if block.into_lines().len() > 0 {
        return Err(AllocError);
    }
    Ok(found)
}

/// Whether `answer` and `answer_all` give what these settings say.
fn is_listed(settings: &Settings<'_>) -> bool {
    settings.output == Output::Nodes && settings.name == None && settings.numbers == Numbers::Whole
}

/// What `answer` gives, or `answer_all`.
fn listed<R: Threads + Sync>(
    crew: &Crew<R, OpenGate>,
    plan: &Plan,
    lines: &[Line],
    settings: &Settings<'_>,
) -> Result<Found, RunFault> {
    if lines.len() > MOST_LINES {
        return Err(RunFault::Memory);
    }
    let (rt, alloc, gate) = (crew.rt, crew.alloc, crew.gate);
    let (workers, piece) = (settings.workers, settings.piece);
    match settings.on_fault {
        OnFault::Stop => {
            let found = answer(rt, alloc, plan, lines, workers, piece, gate)?;
            Ok(found_of(found.bytes, 0, found.stopped))
        }
        OnFault::KeepGoing => {
            let found = answer_all(rt, alloc, plan, lines, workers, piece, gate)?;
            Ok(found_of(found.bytes, found.faulty, None))
        }
    }
}

/// What lines are answered with.
fn found_of(bytes: Vec<u8>, faulty: u64, stopped: Option<DocStop>) -> Found {
    Found {
        bytes,
        faulty,
        stopped,
    }
}

/// What a run over the text gives, unless it ends in another way than at a faulty line.
fn run_found<R: Threads + Sync>(
    crew: &Crew<R, OpenGate>,
    query: &str,
    text: &str,
    settings: &Settings<'_>,
) -> Result<Option<Found>, AllocError> {
    let mut source = FromReader::new(text.as_bytes());
    let mut bytes = Vec::new(crew.alloc);
    let mut sink = FromWriter::new(&mut bytes);
    let (rt, alloc, gate) = (crew.rt, crew.alloc, crew.gate);
    let end = run_unpromised(rt, alloc, &mut source, &mut sink, query, settings, gate);
    match end {
        Ok(totals) => Ok(Some(found_of(bytes, totals.faulty, None))),
        Err(RunFault::Document { line, fault }) => {
            let stopped = Some(DocStop { line, fault });
            Ok(Some(found_of(bytes, 0, stopped)))
        }
        Err(RunFault::Memory) => Err(AllocError),
        Err(_) => Ok(None),
    }
}
