use jp_answer::{Asked, Crew, LinePolicy, OnFault, OpenGate, Outcome, answer_by_workers};
use jp_buffer::LineRef;
use jp_compiled::CompiledQuery;
use jp_number::Numbers;
use jp_output::{Layout, NodeLines};
use std::alloc::{AllocError, Global};
use std::thread::Threads;

/// The answer of four workers, where numbers are whole. `None` for more than 4,294,967,296 lines.
fn by_workers<R: Threads + Sync>(
    rt: &R,
    alloc: Global,
    query: &CompiledQuery,
    lines: &[LineRef<'_>],
) -> Option<Result<Outcome, AllocError>> {
    if lines.len() > 4_294_967_296 {
        return None;
    }
    let gate = OpenGate;
    let crew = Crew {
        rt,
        alloc,
        gate: &gate,
    };
    let layout = Layout::plain();
    let asked = asked_of(query, &layout);
    Some(answer_by_workers::<R, OpenGate, NodeLines>(&crew, asked, lines, 64))
}

/// What is asked of every document.
fn asked_of<'q>(query: &'q CompiledQuery, layout: &'q Layout) -> Asked<'q> {
    Asked {
        query,
        filter: None,
        layout,
        policy: LinePolicy {
            numbers: Numbers::Whole,
            on_fault: OnFault::Stop,
        },
        workers: 4,
    }
}
