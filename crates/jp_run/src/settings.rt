//! How a run is cut up.

ghost use Rattle.std.specs.Prelude.{◌≡◌, ◌+◌, ◌≤◌, ◌↔◌, [], None, Some, IsOk, IfOk, OnErr, IsErrOf};
ghost use Rattle.jp_run.specs.Limits.{max_lines};
ghost use Rattle.jp_run.specs.Settings.{AreSettings, IsFirst};

use crate::cutting::Cutting;
use crate::fault::RunFault;
use crate::limits::{MAX_DOCUMENTS, MAX_LINES, MAX_WORKERS};
use crate::output::Output;
use jp_answer::{LinePolicy, OnFault};
use jp_number::Numbers;
use jp_output::{Ending, Field, FieldList, Head, Layout};
use std::alloc::{AllocError, Global};

/// How many workers answer, how many documents are a piece, how many a batch, how the input is cut into
/// documents, how these are numbered, which numbers there may be, what a faulty line does, which form the
/// answer has, what ends its values, what name stands before its lines, which fields its rows have, and which
/// filter chooses documents.
#[derive(Clone, Copy, Debug, PartialEq, Eq, Drop)]
pub struct Settings<'n> {
    /// The number of workers, 1 to 64.
    pub workers: u64,
    /// The least number of documents of a piece, 1 to 1,000,000: fewer are one where they are 32,768 bytes.
    pub piece: u64,
    /// The number of documents of a batch, 1 to 1,000,000; the last may have fewer.
    pub batch: u64,
    /// What is done where a line is faulty.
    pub on_fault: OnFault,
    /// Which numbers the documents and the literals of the query may have.
    pub numbers: Numbers,
    /// How the input is cut into documents.
    pub cutting: Cutting,
    /// How many lines, or documents over lines, stand before the first of the input, which so has the next
    /// number: 4,294,967,295 at most.
    pub before: u64,
    /// What is written.
    pub output: Output,
    /// What ends each value, in a form of values.
    pub ending: Ending,
    /// The name before each line of nodes and each fault line, with a tab, in the form that has these.
    pub name: Option<&'n str>,
    /// What each row has, in the form of rows.
    pub fields: &'n [Field],
    /// The text of the filter of which the documents are true that are answered: what may stand behind `?` in
    /// `$[?FILTER]` (RFC 9535, 2.3.5), where both `@` and `$` are the whole document.
    pub filter: Option<&'n str>,
    pub ghost in_range: { AreSettings workers piece batch },
    pub ghost few_before: { before ≤ max_lines },
}

impl<'n> Settings<'n> {
    ghost use Rattle.jp_answer.specs.Policy.{policy};
    ghost use Rattle.jp_run.specs.Answered.{head_of, layout_of};

    /// The settings, which take no memory. A document is a line, the first has the number 1, numbers are
    /// whole, and the answer ends at the first faulty line, and has a line for each node of every document,
    /// with no name before it. Line feeds end values, and rows have no fields.
    ///
    /// # Errors
    ///
    /// [`RunFault::Settings`] for a number of workers outside 1 to 64, or of documents outside 1 to
    /// 1,000,000.
    pub fn new(workers: u64, piece: u64, batch: u64) -> Result<Settings<'n>, RunFault>
        ensures settings { IfOk result (λ s. (s.workers ≡ workers) × (s.piece ≡ piece) × (s.batch ≡ batch)) }
        ensures ends { IfOk result (λ s. s.on_fault ≡ OnFault.Stop) }
        ensures whole { IfOk result (λ s. s.numbers ≡ Numbers.Whole) }
        ensures nodes { IfOk result (λ s. s.output ≡ Output.Nodes) }
        ensures line_feeds { IfOk result (λ s. s.ending ≡ Ending.LineFeed) }
        ensures lines { IfOk result (λ s. s.cutting ≡ Cutting.Lines) }
        ensures first { IfOk result (λ s. s.before ≡ 0) }
        ensures no_name { IfOk result (λ s. s.name ≡ None) }
        ensures no_fields { IfOk result (λ s. s.fields.now ≡ []) }
        ensures no_filter { IfOk result (λ s. s.filter ≡ None) }
        ensures in_range { IsOk result ↔ AreSettings workers piece batch }
        ensures fault { OnErr result (IsErrOf result RunFault.Settings) }
    {
        if !(1..=MAX_WORKERS).contains(&workers)
            || !(1..=MAX_DOCUMENTS).contains(&piece)
            || !(1..=MAX_DOCUMENTS).contains(&batch)
        {
            return Err(RunFault::Settings);
        }
        Ok(Settings {
            workers,
            piece,
            batch,
            on_fault: OnFault::Stop,
            numbers: Numbers::Whole,
            cutting: Cutting::Lines,
            before: 0,
            output: Output::Nodes,
            ending: Ending::LineFeed,
            name: None,
            fields: &[],
            filter: None,
        })
    }

    /// How lines are read, and what is done where one is faulty.
    pub(crate) fn policy(&self) -> LinePolicy
        ensures { result ≡ policy self.now.numbers self.now.on_fault }
    {
        LinePolicy {
            numbers: self.numbers,
            on_fault: self.on_fault,
        }
    }

    /// The same settings, but for an answer that keeps going after a faulty line. It takes no memory.
    pub fn keep_going(self) -> Settings<'n>
        ensures same { (result.workers ≡ self.entry.workers) × (result.piece ≡ self.entry.piece)
            × (result.batch ≡ self.entry.batch) × (result.output ≡ self.entry.output)
            × (result.numbers ≡ self.entry.numbers) × (result.name ≡ self.entry.name)
            × (result.cutting ≡ self.entry.cutting) × (result.filter ≡ self.entry.filter)
            × (result.before ≡ self.entry.before) × (result.ending ≡ self.entry.ending)
            × (result.fields ≡ self.entry.fields) }
        ensures going { result.on_fault ≡ OnFault.KeepGoing }
    {
        Settings {
            workers: self.workers,
            piece: self.piece,
            batch: self.batch,
            on_fault: OnFault::KeepGoing,
            numbers: self.numbers,
            cutting: self.cutting,
            before: self.before,
            output: self.output,
            ending: self.ending,
            name: self.name,
            fields: self.fields,
            filter: self.filter,
        }
    }

    /// The same settings, but for documents and literals of the query that may have every number of JSON
    /// (RFC 8259, 6). It takes no memory.
    pub fn with_decimals(self) -> Settings<'n>
        ensures same { (result.workers ≡ self.entry.workers) × (result.piece ≡ self.entry.piece)
            × (result.batch ≡ self.entry.batch) × (result.output ≡ self.entry.output)
            × (result.on_fault ≡ self.entry.on_fault) × (result.name ≡ self.entry.name)
            × (result.cutting ≡ self.entry.cutting) × (result.filter ≡ self.entry.filter)
            × (result.before ≡ self.entry.before) × (result.ending ≡ self.entry.ending)
            × (result.fields ≡ self.entry.fields) }
        ensures decimals { result.numbers ≡ Numbers.Decimals }
    {
        Settings {
            workers: self.workers,
            piece: self.piece,
            batch: self.batch,
            on_fault: self.on_fault,
            numbers: Numbers::Decimals,
            cutting: self.cutting,
            before: self.before,
            output: self.output,
            ending: self.ending,
            name: self.name,
            fields: self.fields,
            filter: self.filter,
        }
    }

    /// The same settings, but for an answer in this form. It takes no memory.
    pub fn with_output(self, output: Output) -> Settings<'n>
        ensures same { (result.workers ≡ self.entry.workers) × (result.piece ≡ self.entry.piece)
            × (result.batch ≡ self.entry.batch) × (result.on_fault ≡ self.entry.on_fault)
            × (result.numbers ≡ self.entry.numbers) × (result.name ≡ self.entry.name)
            × (result.cutting ≡ self.entry.cutting) × (result.filter ≡ self.entry.filter)
            × (result.before ≡ self.entry.before) × (result.ending ≡ self.entry.ending)
            × (result.fields ≡ self.entry.fields) }
        ensures output { result.output ≡ output }
    {
        Settings {
            workers: self.workers,
            piece: self.piece,
            batch: self.batch,
            on_fault: self.on_fault,
            numbers: self.numbers,
            cutting: self.cutting,
            before: self.before,
            output,
            ending: self.ending,
            name: self.name,
            fields: self.fields,
            filter: self.filter,
        }
    }

    /// The same settings, but for an answer of which this ends each value, in a form of values. It takes no
    /// memory.
    pub fn with_ending(self, ending: Ending) -> Settings<'n>
        ensures same { (result.workers ≡ self.entry.workers) × (result.piece ≡ self.entry.piece)
            × (result.batch ≡ self.entry.batch) × (result.on_fault ≡ self.entry.on_fault)
            × (result.numbers ≡ self.entry.numbers) × (result.output ≡ self.entry.output)
            × (result.name ≡ self.entry.name) × (result.cutting ≡ self.entry.cutting)
            × (result.before ≡ self.entry.before) × (result.filter ≡ self.entry.filter)
            × (result.fields ≡ self.entry.fields) }
        ensures ending { result.ending ≡ ending }
    {
        Settings {
            workers: self.workers,
            piece: self.piece,
            batch: self.batch,
            on_fault: self.on_fault,
            numbers: self.numbers,
            cutting: self.cutting,
            before: self.before,
            output: self.output,
            ending,
            name: self.name,
            fields: self.fields,
            filter: self.filter,
        }
    }

    /// The same settings, but for an answer whose lines of nodes and fault lines stand behind this name and a
    /// tab, or behind none. It takes no memory.
    pub fn with_name(self, name: Option<&'n str>) -> Settings<'n>
        ensures same { (result.workers ≡ self.entry.workers) × (result.piece ≡ self.entry.piece)
            × (result.batch ≡ self.entry.batch) × (result.on_fault ≡ self.entry.on_fault)
            × (result.numbers ≡ self.entry.numbers) × (result.output ≡ self.entry.output)
            × (result.cutting ≡ self.entry.cutting) × (result.filter ≡ self.entry.filter)
            × (result.before ≡ self.entry.before) × (result.ending ≡ self.entry.ending)
            × (result.fields ≡ self.entry.fields) }
        ensures name { result.name ≡ name.entry }
    {
        Settings {
            workers: self.workers,
            piece: self.piece,
            batch: self.batch,
            on_fault: self.on_fault,
            numbers: self.numbers,
            cutting: self.cutting,
            before: self.before,
            output: self.output,
            ending: self.ending,
            name,
            fields: self.fields,
            filter: self.filter,
        }
    }

    /// The same settings, but for an input that is cut so. It takes no memory.
    pub fn with_cutting(self, cutting: Cutting) -> Settings<'n>
        ensures same { (result.workers ≡ self.entry.workers) × (result.piece ≡ self.entry.piece)
            × (result.batch ≡ self.entry.batch) × (result.on_fault ≡ self.entry.on_fault)
            × (result.numbers ≡ self.entry.numbers) × (result.output ≡ self.entry.output)
            × (result.name ≡ self.entry.name) × (result.filter ≡ self.entry.filter)
            × (result.before ≡ self.entry.before) × (result.ending ≡ self.entry.ending)
            × (result.fields ≡ self.entry.fields) }
        ensures cutting { result.cutting ≡ cutting }
    {
        Settings {
            workers: self.workers,
            piece: self.piece,
            batch: self.batch,
            on_fault: self.on_fault,
            numbers: self.numbers,
            cutting,
            before: self.before,
            output: self.output,
            ending: self.ending,
            name: self.name,
            fields: self.fields,
            filter: self.filter,
        }
    }

    /// The same settings, but for an input whose first line, or document over lines, has this number: a part
    /// of a larger one, whose lines have the numbers of the whole. It takes no memory.
    ///
    /// # Errors
    ///
    /// [`RunFault::Settings`] for a number outside 1 to 4,294,967,295.
    pub fn with_first(self, first: u64) -> Result<Settings<'n>, RunFault>
        ensures same { IfOk result (λ s. (s.workers ≡ self.entry.workers) × (s.piece ≡ self.entry.piece)
            × (s.batch ≡ self.entry.batch) × (s.on_fault ≡ self.entry.on_fault)
            × (s.numbers ≡ self.entry.numbers) × (s.output ≡ self.entry.output)
            × (s.name ≡ self.entry.name) × (s.cutting ≡ self.entry.cutting)
            × (s.filter ≡ self.entry.filter) × (s.ending ≡ self.entry.ending)
            × (s.fields ≡ self.entry.fields)) }
        ensures first { IfOk result (λ s. s.before + 1 ≡ first) }
        ensures in_range { IsOk result ↔ IsFirst first }
        ensures fault { OnErr result (IsErrOf result RunFault.Settings) }
    {
        if !(1..=MAX_LINES).contains(&first) {
            return Err(RunFault::Settings);
        }
        Ok(Settings {
            workers: self.workers,
            piece: self.piece,
            batch: self.batch,
            on_fault: self.on_fault,
            numbers: self.numbers,
            cutting: self.cutting,
            before: first - 1,
            output: self.output,
            ending: self.ending,
            name: self.name,
            fields: self.fields,
            filter: self.filter,
        })
    }

    /// The same settings, but for an answer of the documents alone of which the filter of this text is true,
    /// or of all. It takes no memory.
    pub fn with_filter(self, filter: Option<&'n str>) -> Settings<'n>
        ensures same { (result.workers ≡ self.entry.workers) × (result.piece ≡ self.entry.piece)
            × (result.batch ≡ self.entry.batch) × (result.on_fault ≡ self.entry.on_fault)
            × (result.numbers ≡ self.entry.numbers) × (result.output ≡ self.entry.output)
            × (result.name ≡ self.entry.name) × (result.cutting ≡ self.entry.cutting)
            × (result.before ≡ self.entry.before) × (result.ending ≡ self.entry.ending)
            × (result.fields ≡ self.entry.fields) }
        ensures filter { result.filter ≡ filter.entry }
    {
        Settings {
            workers: self.workers,
            piece: self.piece,
            batch: self.batch,
            on_fault: self.on_fault,
            numbers: self.numbers,
            cutting: self.cutting,
            before: self.before,
            output: self.output,
            ending: self.ending,
            name: self.name,
            fields: self.fields,
            filter,
        }
    }

    /// The same settings, but for an answer whose rows have these fields, in the form of rows. It takes no
    /// memory.
    pub fn with_fields(self, fields: &'n [Field]) -> Settings<'n>
        ensures same { (result.workers ≡ self.entry.workers) × (result.piece ≡ self.entry.piece)
            × (result.batch ≡ self.entry.batch) × (result.on_fault ≡ self.entry.on_fault)
            × (result.numbers ≡ self.entry.numbers) × (result.output ≡ self.entry.output)
            × (result.name ≡ self.entry.name) × (result.cutting ≡ self.entry.cutting)
            × (result.before ≡ self.entry.before) × (result.ending ≡ self.entry.ending)
            × (result.filter ≡ self.entry.filter) }
        ensures fields { result.fields ≡ fields.entry }
    {
        Settings {
            workers: self.workers,
            piece: self.piece,
            batch: self.batch,
            on_fault: self.on_fault,
            numbers: self.numbers,
            cutting: self.cutting,
            before: self.before,
            output: self.output,
            ending: self.ending,
            name: self.name,
            fields,
            filter: self.filter,
        }
    }

    /// What each line stands behind, in a form whose lines have a head. `AllocError` if memory was refused:
    /// none is taken where there is no name.
    fn head(&self, alloc: Global) -> Result<Head, AllocError>
        ensures { IfOk result (λ head. head ≡ head_of self.now) }
    {
        match self.name {
            Some(name) => Head::of_name(alloc, name),
            None => Ok(Head::none()),
        }
    }

    /// What stands around what is written. `AllocError` if memory was refused: none is taken where there is
    /// no name, and no field.
    pub(crate) fn layout(&self, alloc: Global) -> Result<Layout, AllocError>
        ensures { IfOk result (λ layout. layout ≡ layout_of self.now) }
    {
        Ok(Layout {
            head: self.head(alloc)?,
            ending: self.ending,
            fields: FieldList::of(alloc, self.fields)?,
        })
    }
}
