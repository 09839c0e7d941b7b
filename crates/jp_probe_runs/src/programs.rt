//! The command over ends in memory:
//! `{"program":{"words":["jp","$.a","b"],"files":[{"name":"b","bytes":"{}\n"}]}}`.

ghost use Rattle.std.specs.Prelude.{◌≡◌, ◌≤◌, ◌^◌, None, false};

use crate::ends::{Failing, Kept, Memory, Reading, Taking, line_ends};
use crate::settings::FaultAnswer;
use jp_probe_parts::{Row, items_in, text_in};
use jp_program::{Inputs, refuse_words};
use jp_run::{Broken, FromReader, FromWriter, Nowhere, Sink, Source, Supply};
use serde::Serialize;
use serde_json::Value;
use std::alloc::{AllocError, AllocGlobal, Global};
use std::str;
use std::thread::Threads;

/// What a row of the command may have.
const MEMBERS: [&str; 15] = [
    "words",
    "files",
    "input",
    "failing_read",
    "before",
    "room",
    "flushes",
    "fails",
    "notes_room",
    "texts",
    "begin",
    "end",
    "notes_begin",
    "note",
    "want_of_memory",
];

/// A file in memory.
#[derive(Clone, Copy)]
struct File<'v> {
    name: &'v str,
    bytes: &'v str,
    /// Whether it cannot be opened.
    is_shut: bool,
    /// The read that fails, from 1, or 0.
    failing_read: u64,
}

impl<'v> File<'v> {
    /// The file that a row says.
    fn of(row: Row<'v>) -> anyhow::Result<File<'v>> {
        row.has_only(&["name", "bytes", "shut", "failing_read"])?;
        Ok(File {
            name: row.text("name")?,
            bytes: row.text("bytes")?,
            is_shut: row.flag("shut")?,
            failing_read: row.number("failing_read")?,
        })
    }
}

/// The files that rows say.
fn files_of<'v>(alloc: Global, values: &'v [Value]) -> anyhow::Result<Vec<File<'v>>> {
    let mut files = Vec::new(alloc);
    for value in values {
        files.push(File::of(Row::of(value))?)?;
    }
    Ok(files)
}

/// What the command leaves.
#[derive(Drop, Serialize)]
struct ProgramAnswer<'l, 'r> {
    status: u8,
    output: &'l str,
    notes: &'l str,
    /// How often a file was opened.
    opens: u64,
    /// How many bytes the output had at the first flush that found some, and at the last.
    first: u64,
    passed_on: u64,
    /// The texts that the output lacks, whether it begins and ends so, and how many lines it has.
    lacks: Vec<&'r str>,
    begins: bool,
    ends: bool,
    lines: u64,
    /// Whether the notes begin so, and how many lines of them do.
    notes_begin: bool,
    such_notes: u64,
}

/// Files in memory. One whose name is not among them cannot be opened.
#[derive(Drop)]
struct Shelf<'a> {
    files: &'a [File<'a>],
    opens: u64,
    broken: u64,
}

/// How bytes are read whose read of this number fails.
fn reading_of<'a>(fails_at: u64) -> Reading<'a> {
    Reading {
        plan: &[],
        most: 0,
        never_waits: false,
        fails_at,
        line: 0,
    }
}

impl<'a> Shelf<'a> {
    /// These files, none of which was opened.
    fn new(files: &'a [File<'a>]) -> Shelf<'a>
        ensures unopened { ⟦<Shelf<'a> as Inputs<FromReader<Memory<'a>>>>⟧.opens result ≡ 0 }
    {
        Shelf {
            files,
            opens: 0,
            broken: 0,
        }
    }

    /// What opens where this name is asked for.
    fn found(&self, name: &str) -> Option<Memory<'a>> {
        let file = self
            .files
            .iter()
            .find(|file| file.name == name && !file.is_shut)?;
        Some(Memory::new(file.bytes.as_bytes(), &reading_of(file.failing_read)))
    }
}

impl<'a> Inputs<FromReader<Memory<'a>>> for Shelf<'a> {
    ghost holds = { λ _ _. None };

    ghost opens = { λ s. s.opens };

    ghost broken = { λ s. s.broken };

    fn open(&mut self, name: &str, source: &mut FromReader<Memory<'a>>) -> Result<(), Broken> {
        self.opens = self.opens.saturating_add(1);
        if source.failed() {
            self.broken = self.broken.saturating_add(1);
        }
        match self.found(name) {
            Some(held) => {
                *source = FromReader::new(held);
                Ok(())
            }
            None => {
                *source = FromReader::broken(Memory::new(&[], &reading_of(0)));
                Err(Broken)
            }
        }
    }

    fn opens(&self) -> u64 {
        self.opens
    }

    fn reason(
        &self,
        alloc: Global,
        source: &FromReader<Memory<'a>>,
    ) -> Result<Option<String>, AllocError> {
        if !source.failed() {
            return Ok(None);
        }
        let words = if source.reads() == 0 {
            "it is not on the shelf"
        } else {
            "a page is torn"
        };
        Ok(Some(String::from_str(alloc, words)?))
    }
}

/// The command. It promises nothing here.
fn program_unpromised<
    R: Threads + AllocGlobal + Sync,
    S: Source<K> + Source<Nowhere>,
    I: Inputs<S>,
    K: Sink,
    N: Sink,
>(rt: &R, words: &[&str], inputs: &mut I, source: &mut S, sink: &mut K, notes: &mut N) -> u8
    requires working { (S.failed source.old ≡ false) × (K.failed sink.old ≡ false) }
    requires few { (S.reads source.old ≤ 2 ^ 62) × (S.given source.old ≤ 2 ^ 62)
        × (I.opens inputs.old ≤ 2 ^ 62) }
{
    jp_program::program(rt, words, inputs, source, sink, notes)
}

/// What the command left.
#[derive(Drop)]
struct Left {
    status: u8,
    output: Kept,
    notes: Kept,
    opens: u64,
}

/// The answer to what is asked of the command: what it leaves, or its want of memory.
pub fn answer_program<R: Threads + AllocGlobal + Sync>(
    rt: &R,
    alloc: Global,
    row: Row<'_>,
) -> anyhow::Result<String> {
    row.has_only(&MEMBERS)?;
    // The words, or none where one of them is no UTF-8.
    let left = match row.member("words") {
        Some(words) => left_for(rt, alloc, row, items_in(words)?)?,
        None => refused(alloc, row)?,
    };
    if is_want_of_memory(row, &left)? {
        let fault = String::from_str(alloc, "memory")?;
        return Ok(serde_json::to_string(alloc, &FaultAnswer { fault })?);
    }
    said_of(alloc, row, &left)
}

/// The answer of what is left. The row may ask how the output begins and ends, how the notes begin, and how
/// many of their lines begin as its note does.
fn said_of(alloc: Global, row: Row<'_>, left: &Left) -> anyhow::Result<String> {
    let output = str::from_utf8(&left.output.bytes).unwrap_or("no UTF-8");
    let notes = str::from_utf8(&left.notes.bytes).unwrap_or("no UTF-8");
    let answer = ProgramAnswer {
        status: left.status,
        output,
        notes,
        opens: left.opens,
        first: left.output.first as u64,
        passed_on: left.output.passed_on as u64,
        lacks: lacks(alloc, row.items("texts")?, output)?,
        begins: is_begin(row.text_if_any("begin")?, output.as_bytes()),
        ends: is_end(row.text_if_any("end")?, output),
        lines: line_ends(output.as_bytes()),
        notes_begin: is_begin(row.text_if_any("notes_begin")?, &left.notes.bytes),
        such_notes: such_notes(row.text_if_any("note")?, notes),
    };
    Ok(serde_json::to_string(alloc, &answer)?)
}

/// A sink for the output, which may have taken bytes before, and one for the notes, of which so many bytes
/// may have room.
fn sinks(alloc: Global, row: Row<'_>) -> anyhow::Result<(Kept, Kept)> {
    let noting = Taking {
        most: 0,
        room: row.number_if_any("notes_room")?,
        flushes: None,
        fails: Failing::TakesNone,
    };
    let before = row.text_if_any("before")?.unwrap_or("");
    let output = Kept::new(alloc, before.as_bytes(), Taking::of(row)?)?;
    Ok((output, Kept::new(alloc, b"", noting)?))
}

/// What is left for these words, where standard input has this and its read of this number fails.
fn left_for<R: Threads + AllocGlobal + Sync>(
    rt: &R,
    alloc: Global,
    row: Row<'_>,
    words: &[Value],
) -> anyhow::Result<Left> {
    let words = words_of(alloc, words)?;
    let files = files_of(alloc, row.items("files")?)?;
    let input = row.text_if_any("input")?.unwrap_or("");
    let held = Memory::new(input.as_bytes(), &reading_of(row.number("failing_read")?));
    let (mut output, mut notes) = sinks(alloc, row)?;
    let mut source = FromReader::new(held);
    let mut sink = FromWriter::new(&mut output);
    let mut told = FromWriter::new(&mut notes);
    let mut shelf = Shelf::new(&files);
    let status = program_unpromised(rt, &words, &mut shelf, &mut source, &mut sink, &mut told);
    let opens = shelf.opens();
    Ok(Left {
        status,
        output,
        notes,
        opens,
    })
}

/// These words.
fn words_of<'v>(alloc: Global, values: &'v [Value]) -> anyhow::Result<Vec<&'v str>> {
    let mut words = Vec::new(alloc);
    for value in values {
        words.push(text_in(value)?)?;
    }
    Ok(words)
}

/// What is left for words of which one is no UTF-8.
fn refused(alloc: Global, row: Row<'_>) -> anyhow::Result<Left> {
    let (output, mut notes) = sinks(alloc, row)?;
    let status = refuse_words(alloc, &mut FromWriter::new(&mut notes));
    Ok(Left {
        status,
        output,
        notes,
        opens: 0,
    })
}

/// Of these texts those that the output lacks.
fn lacks<'v>(alloc: Global, texts: &'v [Value], output: &str) -> anyhow::Result<Vec<&'v str>> {
    let mut lacks = Vec::new(alloc);
    for value in texts {
        let text = text_in(value)?;
        if !output.contains(text) {
            lacks.push(text)?;
        }
    }
    Ok(lacks)
}

/// How many lines of the notes begin so.
fn such_notes(note: Option<&str>, notes: &str) -> u64 {
    let Some(note) = note else {
        return 0;
    };
    notes.lines().filter(|line| line.starts_with(note)).count() as u64
}

/// Whether what is left tells want of memory, as the row says.
fn is_want_of_memory(row: Row<'_>, left: &Left) -> anyhow::Result<bool> {
    for want in row.items("want_of_memory")? {
        if is_left(Row::of(want), left)? {
            return Ok(true);
        }
    }
    Ok(false)
}

/// Whether this is what is left: the status, the notes or how they begin, and the output if it is one.
fn is_left(want: Row<'_>, left: &Left) -> anyhow::Result<bool> {
    want.has_only(&["status", "notes", "notes_begin", "output"])?;
    let (notes, output) = (want.text_if_any("notes")?, want.text_if_any("output")?);
    let begin = want.text_if_any("notes_begin")?;
    let status = want.number_if_any("status")?;
    Ok(
        status == Some(u64::from(left.status))
            && is_all(notes, &left.notes.bytes)
            && is_all(output, &left.output.bytes)
            && is_begin(begin, &left.notes.bytes),
    )
}

/// Whether a text is these bytes, if there is one.
fn is_all(text: Option<&str>, bytes: &[u8]) -> bool {
    match text {
        Some(text) => text.as_bytes() == bytes,
        None => true,
    }
}

/// Whether bytes begin with a text, if there is one.
fn is_begin(text: Option<&str>, bytes: &[u8]) -> bool {
    match text {
        Some(text) => bytes.starts_with(text.as_bytes()),
        None => true,
    }
}

/// Whether a text ends with another, if there is one.
fn is_end(end: Option<&str>, text: &str) -> bool {
    match end {
        Some(end) => text.ends_with(end),
        None => true,
    }
}
