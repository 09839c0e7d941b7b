//! The answer to numbered lines, on one thread.

ghost use Rattle.std.specs.Prelude.{◌≡◌, ◌≢◌, ◌≤◌, ◌++◌, ℕ, List, IfOk, OnOk, length, map};
ghost use Rattle.std.specs.List.{fold};
ghost use Rattle.jp_buffer.specs.Buffered.{line_at};
ghost use Rattle.jp_doc.specs.Location.{Node};
ghost use Rattle.jp_node.specs.Part.{part_value};
ghost use Rattle.jp_pattern.specs.Tests.{Tests, AreRight};
ghost use Rattle.jp_board.specs.Limits.{max_pieces};
ghost use Rattle.jp_answer.specs.Answer.{answer_by, document_bytes};
ghost use Rattle.jp_answer.specs.Answered.{outcome_of};
ghost use Rattle.jp_answer.specs.Asking.{asked_query};
ghost use Rattle.jp_answer.specs.Faults.{fault_in};
ghost use Rattle.jp_answer.specs.Policy.{reading_by, stop_in, passed_in};
ghost use Rattle.jp_answer.specs.declared.on_fault.OnFault.TheVariants.{Stop, KeepGoing};
ghost use Rattle.jp_answer.specs.inner.Filtered.{filtered_query};
ghost use Rattle.jp_answer.specs.inner.Giving.{given};

use crate::asked::Asked;
use crate::crew::Crew;
use crate::filtered::FilteredEvaluator;
use crate::on_fault::OnFault;
use crate::outcome::{DocStop, Outcome};
use crate::walking::{Walking, walk_of};
use jp_buffer::LineRef;
use jp_doc::DocFault;
use jp_flat::LineReader;
use jp_node::Part;
use jp_output::Form;
use std::alloc::{AllocError, Global};
use std::thread::Threads;

/// What a thread answers lines with, one after another.
#[derive(Drop)]
pub(crate) struct Tools<'r, 'q> {
    pub(crate) reader: &'r mut LineReader,
    pub(crate) evaluator: FilteredEvaluator<'q>,
}

/// The answer to lines in a form, each read and evaluated in turn, by tools for their query. A faulty line
/// ends it, or is told and counted where the answer keeps going.
///
/// `AllocError` if a growth was refused.
pub(crate) fn answer_lines<R: Threads + Sync, G, F: Form + Drop + Send>(
    crew: &Crew<R, G>,
    asked: &Asked<'_>,
    tools: &mut Tools<'_, '_>,
    lines: &[LineRef<'_>],
) -> Result<Outcome, AllocError>
    requires few { length lines.now ≤ max_pieces }
    requires query { filtered_query tools.old.evaluator ≡ asked_query asked.now }
    ensures answer { IfOk result (λ a. (t : Tests) → AreRight t → answer_by (F.says asked.now.layout.now)
        asked.now.policy t (asked_query asked.now) (map line_at lines.now) ≡ outcome_of a) }
    ensures stopped { IfOk result (λ a. stop_in asked.now.policy (map line_at lines.now)
        ≡ (outcome_of a).stopped) }
    ensures passed { IfOk result (λ a. passed_in asked.now.policy (map line_at lines.now)
        ≡ a.faulty) }
    ensures query { filtered_query tools.new.evaluator ≡ filtered_query tools.old.evaluator }
{
    let mut written = F::new(crew.alloc, asked.layout);
    let mut faulty = 0;
    for line in lines {
        let Some(fault) = add_line(crew, asked, tools, line, &mut written)? else {
            continue;
        };
        match asked.policy.on_fault {
            OnFault::Stop => {
                let stop = DocStop {
                    line: line.number,
                    fault,
                };
                return Ok(Outcome {
                    chunks: written.into_chunks()?,
                    faulty,
                    stopped: Some(stop),
                });
            }
            OnFault::KeepGoing => faulty += 1,
        }
    }
    let chunks = written.into_chunks()?;
    Ok(Outcome {
        chunks,
        faulty,
        stopped: None,
    })
}

/// Adds what a line gives to what was written so far, and tells what is wrong with it, if anything.
fn add_line<R: Threads + Sync, G, F: Form + Drop + Send>(
    crew: &Crew<R, G>,
    asked: &Asked<'_>,
    tools: &mut Tools<'_, '_>,
    line: &LineRef<'_>,
    written: &mut F,
) -> Result<Option<DocFault>, AllocError>
    ensures lines { OnOk result ((t : Tests) → AreRight t → F.written written.new
        ≡ F.written written.old ++ given (F.form written.old) asked.now.policy.on_fault t
        (filtered_query tools.old.evaluator) (line_at line.now)
        (reading_by asked.now.policy line.now.bytes.now)) }
    ensures fault { IfOk result (λ fault. fault ≡ fault_in (reading_by asked.now.policy line.now.bytes.now)) }
    ensures form { OnOk result ((t : Tests) → AreRight t → F.form written.new ≡ F.form written.old) }
    ensures query { filtered_query tools.new.evaluator ≡ filtered_query tools.old.evaluator }
{
    match tools.reader.read(asked.policy.numbers, line.bytes)? {
        Ok(document) => {
            let root = Part::root_of(&document);
            let walk = walk_of(asked, line);
            add_nodes(crew, &mut tools.evaluator, line, (root, walk), written)?;
            Ok(None)
        }
        Err(fault) => {
            add_fault(
                crew.alloc,
                asked.policy.on_fault,
                line.number,
                &fault,
                written,
            )?;
            Ok(Some(fault))
        }
    }
}

/// Adds what is said of a faulty line.
fn add_fault<F: Form + Drop>(
    alloc: Global,
    on_fault: OnFault,
    number: u64,
    fault: &DocFault,
    written: &mut F,
) -> Result<(), AllocError>
    requires { fault.now ≢ DocFault.Memory }
    ensures going { on_fault ≡ KeepGoing → OnOk result (F.written written.new
        ≡ F.written written.old ++ (F.form written.old).of_fault number fault.now) }
    ensures stopping { on_fault ≡ Stop → F.written written.new ≡ F.written written.old }
    ensures form { F.form written.new ≡ F.form written.old }
{
    match on_fault {
        OnFault::Stop => Ok(()),
        OnFault::KeepGoing => written.push_fault(alloc, number, fault),
    }
}

/// Adds what is said of the document of a line, of which the query selects nodes.
fn add_nodes<R: Threads + Sync, G, F: Form + Drop + Send>(
    crew: &Crew<R, G>,
    evaluator: &mut FilteredEvaluator<'_>,
    line: &LineRef<'_>,
    walked: (Part<'_>, Walking),
    written: &mut F,
) -> Result<(), AllocError>
    ensures lines { OnOk result ((t : Tests) → AreRight t → F.written written.new
        ≡ F.written written.old ++ document_bytes (F.form written.old) t (filtered_query evaluator.old)
        (line_at line.now) (part_value walked.entry.0)) }
    ensures form { OnOk result ((t : Tests) → AreRight t → F.form written.new ≡ F.form written.old) }
    ensures query { filtered_query evaluator.new ≡ filtered_query evaluator.old }
{
    written.begin(line.number);
    let Ok(()) = evaluator.visit(crew, walked, written) else {
        return Err(AllocError);
    };
    end_line(line, written)
}

/// Ends a line that had begun, and whose document was visited.
fn end_line<F: Form + Drop>(line: &LineRef<'_>, written: &mut F) -> Result<(), AllocError>
    ensures written { OnOk result ((begun : F) (before : List ℕ) (ns : List Node)
        → F.HasBegun begun line.now.number before
        → F.kept written.old ≡ fold F.put (F.kept begun) ns
        → F.written written.new ≡ before ++ (F.form begun).of_document (line_at line.now) ns) }
    ensures form { (begun : F) (ns : List Node) → F.kept written.old ≡ fold F.put (F.kept begun) ns
        → F.form written.new ≡ F.form begun }
{
    written.end(line.bytes)
}
