//! The answer to lines that a caller has, as a run gives it.

ghost use Rattle.std.specs.Prelude.{◌≡◌, ◌+◌, ◌≤◌, length, map, IfOk, OnErr, IsErrOf};
ghost use Rattle.jp_doc.specs.Lines.{line_of};
ghost use Rattle.jp_check.specs.Plan.{planned_query};
ghost use Rattle.jp_pattern.specs.Tests.{Tests, AreRight};
ghost use Rattle.jp_number.specs.declared.numbers.Numbers.TheVariants.{Whole as Integers};
ghost use Rattle.jp_compiled.specs.Compiled.{compiled_query};
ghost use Rattle.jp_answer.specs.Answer.{answer as answer_to, whole};
ghost use Rattle.jp_answer.specs.Asking.{asked_query};
ghost use Rattle.jp_answer.specs.FilteredQuery.{unfiltered};
ghost use Rattle.jp_answer.specs.Policy.{policy};
ghost use Rattle.jp_answer.specs.Ranges.{AreWorkers, AreDocuments};
ghost use Rattle.jp_run.specs.Answered.{answer_of, whole_of};
ghost use Rattle.jp_run.specs.Limits.{max_lines};

use crate::fault::RunFault;
use crate::outcome::{Answer, Whole};
use jp_answer::{Asked, Crew, Gate, LinePolicy, OnFault, answer_by_workers};
use jp_buffer::refs_of;
use jp_check::Plan;
use jp_compiled::CompiledQuery;
use jp_doc::Line;
use jp_number::Numbers;
use jp_output::{Layout, NodeLines, join_chunks};
use std::alloc::Global;
use std::thread::Threads;

/// The answer to lines, whose numbers are whole, by at most that many workers, each of which claims `piece`
/// lines at a time: there are no more of them than pieces.
///
/// It is the same for every number of workers, every size of a piece, every gate, and in whatever order the
/// workers take their steps. There are 1 to 64 workers, a piece has 1 to 1,000,000 lines, and there are at
/// most 4,294,967,296 lines. The calling thread may be one of the workers.
///
/// # Errors
///
/// [`RunFault::Memory`] where a growth of memory was refused to any worker, even where a line is faulty.
pub fn answer<R: Threads + Sync, G: Gate + Sync>(
    rt: &R,
    alloc: Global,
    plan: &Plan,
    lines: &[Line],
    workers: u64,
    piece: u64,
    gate: &G,
) -> Result<Answer, RunFault>
    requires workers { AreWorkers workers }
    requires piece { AreDocuments piece }
    requires lines { length lines.now ≤ max_lines + 1 }
    ensures answer { IfOk result (λ a. (t : Tests) → AreRight t →
        answer_to t (planned_query plan.now) (map line_of lines.now) ≡ answer_of a) }
    ensures fault { OnErr result (IsErrOf result RunFault.Memory) }
{
    let crew = Crew { rt, alloc, gate };
    let layout = Layout::plain();
    let asked = asked_of(plan.compiled(), &layout, OnFault::Stop, workers);
    let lines = refs_of(alloc, lines)?;
    let answer = answer_by_workers::<R, G, NodeLines>(&crew, asked, &lines, piece)?;
    Ok(Answer {
        bytes: join_chunks(alloc, answer.chunks)?,
        stopped: answer.stopped,
    })
}

/// The answer that keeps going, by at most that many workers, as `answer` has them: a faulty line gives its
/// fault line.
///
/// It is the same for every number of workers, every size of a piece, every gate, and in whatever order the
/// workers take their steps. There are 1 to 64 workers, a piece has 1 to 1,000,000 lines, and there are at
/// most 4,294,967,296 lines. The calling thread may be one of the workers.
///
/// # Errors
///
/// [`RunFault::Memory`] where a growth of memory was refused to any worker.
pub fn answer_all<R: Threads + Sync, G: Gate + Sync>(
    rt: &R,
    alloc: Global,
    plan: &Plan,
    lines: &[Line],
    workers: u64,
    piece: u64,
    gate: &G,
) -> Result<Whole, RunFault>
    requires workers { AreWorkers workers }
    requires piece { AreDocuments piece }
    requires lines { length lines.now ≤ max_lines + 1 }
    ensures whole { IfOk result (λ w. (t : Tests) → AreRight t →
        whole t (planned_query plan.now) (map line_of lines.now) ≡ whole_of w) }
    ensures fault { OnErr result (IsErrOf result RunFault.Memory) }
{
    let crew = Crew { rt, alloc, gate };
    let layout = Layout::plain();
    let asked = asked_of(plan.compiled(), &layout, OnFault::KeepGoing, workers);
    let lines = refs_of(alloc, lines)?;
    let answer = answer_by_workers::<R, G, NodeLines>(&crew, asked, &lines, piece)?;
    Ok(Whole {
        bytes: join_chunks(alloc, answer.chunks)?,
        faulty: answer.faulty,
    })
}

/// What is asked of lines whose numbers are whole: a query of every document.
fn asked_of<'q>(
    query: &'q CompiledQuery,
    layout: &'q Layout,
    on_fault: OnFault,
    workers: u64,
) -> Asked<'q>
    requires { AreWorkers workers }
    ensures query { asked_query result ≡ unfiltered (compiled_query query.now) }
    ensures layout { result.layout.now ≡ layout.now }
    ensures policy { result.policy ≡ policy Integers on_fault }
{
    Asked {
        query,
        filter: None,
        layout,
        policy: LinePolicy {
            numbers: Numbers::Whole,
            on_fault,
        },
        workers,
    }
}
