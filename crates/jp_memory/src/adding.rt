//! Lines that are answered, each behind the answer to those before it.

ghost use Rattle.std.specs.Prelude.{◌≡◌, ◌≢◌, ◌+◌, ◌≤◌, ◌^◌, ◌++◌, ℕ, List, [], ◌∷◌, None, IfOk, OnOk};
ghost use Rattle.std.specs.Prelude.{length, map};
ghost use Rattle.std.specs.List.{fold};
ghost use Rattle.jp_buffer.specs.Buffered.{line_at};
ghost use Rattle.jp_doc.specs.Location.{Node};
ghost use Rattle.jp_node.specs.Part.{part_value};
ghost use Rattle.jp_pattern.specs.Tests.{Tests, AreRight};
ghost use Rattle.jp_answer.specs.Answer.{answer_by, document_bytes, joined, nothing};
ghost use Rattle.jp_answer.specs.Asking.{asked_query};
ghost use Rattle.jp_memory.specs.Answered.{answered_of};
ghost use Rattle.jp_memory.specs.inner.Adding.{told, fault_answer};
ghost use Rattle.jp_memory.specs.inner.Filtered.{filtered_query};

use crate::answered::Answered;
use crate::filtered::FilteredEvaluator;
use jp_answer::{Asked, DocStop, OnFault};
use jp_buffer::LineRef;
use jp_doc::DocFault;
use jp_flat::LineReader;
use jp_node::Part;
use jp_output::{Form, join_chunks};
use std::alloc::{AllocError, Global};

/// An answer in some form that is added to, line after line, and what it is made with.
#[derive(Drop)]
pub(crate) struct Answering<'q, F> {
    pub(crate) alloc: Global,
    pub(crate) asked: Asked<'q>,
    pub(crate) reader: LineReader,
    pub(crate) evaluator: FilteredEvaluator<'q>,
    /// What is written so far.
    pub(crate) written: F,
    /// How many faulty lines it passes.
    pub(crate) faulty: u64,
    /// The faulty line that ends it, if there is one.
    pub(crate) stopped: Option<DocStop>,
}

impl<'q, F: Form + Drop> Answering<'q, F> {
    /// The answer to nothing, of which this is asked. It takes no memory.
    pub(crate) fn new(alloc: Global, asked: &Asked<'q>) -> Answering<'q, F>
        ensures answer { told (F.written result.written) result.stopped result.faulty ≡ nothing }
        ensures unstopped { result.stopped ≡ None }
        ensures form { F.form result.written ≡ F.says asked.now.layout.now }
        ensures asked { result.asked ≡ asked.now }
        ensures query { filtered_query result.evaluator ≡ asked_query asked.now }
    {
        Answering {
            alloc,
            asked: *asked,
            reader: LineReader::new(alloc),
            evaluator: FilteredEvaluator::new(alloc, asked),
            written: F::new(alloc, asked.layout),
            faulty: 0,
            stopped: None,
        }
    }

    /// Adds the answer to lines, up to the first at which it ends. It has not ended before.
    ///
    /// `AllocError` if a growth was refused.
    pub(crate) fn add_lines(&mut self, lines: &[LineRef<'_>]) -> Result<(), AllocError>
        requires unstopped { self.old.stopped ≡ None }
        requires few { self.old.faulty + length lines.now ≤ 2 ^ 40 }
        ensures answer { OnOk result ((t : Tests) → AreRight t
            → told (F.written self.new.written) self.new.stopped self.new.faulty
            ≡ joined (told (F.written self.old.written) self.old.stopped self.old.faulty)
            (answer_by (F.form self.old.written) self.old.asked.policy t
            (filtered_query self.old.evaluator) (map line_at lines.now))) }
        ensures form { OnOk result ((t : Tests) → AreRight t
            → F.form self.new.written ≡ F.form self.old.written) }
        ensures query { filtered_query self.new.evaluator ≡ filtered_query self.old.evaluator }
        ensures asked { self.new.asked ≡ self.old.asked }
        ensures few { OnOk result (self.new.faulty ≤ self.old.faulty + length lines.now) }
    {
        for line in lines {
            self.add_line(line)?;
            if self.stopped.is_some() {
                return Ok(());
            }
        }
        Ok(())
    }

    /// Adds the answer to a line.
    fn add_line(&mut self, line: &LineRef<'_>) -> Result<(), AllocError>
        requires unstopped { self.old.stopped ≡ None }
        requires few { self.old.faulty ≤ 2 ^ 40 }
        ensures answer { OnOk result ((t : Tests) → AreRight t
            → told (F.written self.new.written) self.new.stopped self.new.faulty
            ≡ joined (told (F.written self.old.written) self.old.stopped self.old.faulty)
            (answer_by (F.form self.old.written) self.old.asked.policy t
            (filtered_query self.old.evaluator) (line_at line.now ∷ []))) }
        ensures form { OnOk result ((t : Tests) → AreRight t
            → F.form self.new.written ≡ F.form self.old.written) }
        ensures query { filtered_query self.new.evaluator ≡ filtered_query self.old.evaluator }
        ensures asked { self.new.asked ≡ self.old.asked }
        ensures few { OnOk result (self.new.faulty ≤ self.old.faulty + 1) }
    {
        match self.reader.read(self.asked.policy.numbers, line.bytes)? {
            Ok(document) => {
                let root = Part::root_of(&document);
                add_nodes(&mut self.evaluator, line, root, &mut self.written)
            }
            Err(fault) => self.add_fault(line.number, fault),
        }
    }

    /// Adds the answer to a faulty line: it ends there, or says so.
    fn add_fault(&mut self, number: u64, fault: DocFault) -> Result<(), AllocError>
        requires fault { fault ≢ DocFault.Memory }
        requires unstopped { self.old.stopped ≡ None }
        requires few { self.old.faulty ≤ 2 ^ 40 }
        ensures answer { OnOk result (told (F.written self.new.written) self.new.stopped self.new.faulty
            ≡ joined (told (F.written self.old.written) self.old.stopped self.old.faulty)
            (fault_answer (F.form self.old.written) self.old.asked.policy.on_fault number fault)) }
        ensures form { F.form self.new.written ≡ F.form self.old.written }
        ensures query { filtered_query self.new.evaluator ≡ filtered_query self.old.evaluator }
        ensures asked { self.new.asked ≡ self.old.asked }
        ensures few { OnOk result (self.new.faulty ≤ self.old.faulty + 1) }
    {
        match self.asked.policy.on_fault {
            OnFault::Stop => {
                self.stopped = Some(DocStop {
                    line: number,
                    fault,
                });
                Ok(())
            }
            OnFault::KeepGoing => {
                self.written.push_fault(self.alloc, number, &fault)?;
                self.faulty += 1;
                Ok(())
            }
        }
    }

    /// The answer, in one piece. `AllocError` if a growth was refused.
    pub(crate) fn into_answered(self) -> Result<Answered, AllocError>
        ensures { IfOk result (λ a. answered_of a
            ≡ told (F.written self.entry.written) self.entry.stopped self.entry.faulty) }
    {
        let chunks = self.written.into_chunks()?;
        Ok(Answered {
            bytes: join_chunks(self.alloc, chunks)?,
            faulty: self.faulty,
            stopped: self.stopped,
        })
    }
}

/// Adds what is said of the document of a line, of which the query selects nodes.
fn add_nodes<F: Form + Drop>(
    evaluator: &mut FilteredEvaluator<'_>,
    line: &LineRef<'_>,
    root: Part<'_>,
    written: &mut F,
) -> Result<(), AllocError>
    ensures lines { OnOk result ((t : Tests) → AreRight t → F.written written.new
        ≡ F.written written.old ++ document_bytes (F.form written.old) t (filtered_query evaluator.old)
        (line_at line.now) (part_value root.entry)) }
    ensures form { OnOk result ((t : Tests) → AreRight t → F.form written.new ≡ F.form written.old) }
    ensures query { filtered_query evaluator.new ≡ filtered_query evaluator.old }
{
    written.begin(line.number);
    let Ok(()) = evaluator.visit(root, written) else {
        return Err(AllocError);
    };
    end_line(line, written)
}

/// Ends a line that had begun, and whose document was visited.
fn end_line<F: Form + Drop>(line: &LineRef<'_>, written: &mut F) -> Result<(), AllocError>
    ensures written { OnOk result ((begun : F) (before : List ℕ) (ns : List Node)
        → F.HasBegun begun line.now.number before
        → F.kept written.old ≡ fold F.put (F.kept begun) ns
        → F.written written.new ≡ before ++ (F.form begun).of_document (line_at line.now) ns) }
    ensures form { (begun : F) (ns : List Node) → F.kept written.old ≡ fold F.put (F.kept begun) ns
        → F.form written.new ≡ F.form begun }
{
    written.end(line.bytes)
}
