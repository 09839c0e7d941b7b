//! Blocks that are answered on one thread.

use crate::tasks::{asked_of, going_on, has_bytes, lines_of, stopping, task_of};
use jp_answer::{Answerer, Asked, Block, Crew, DocStop, LinePolicy, OnFault, OpenGate, Outcome};
use jp_check::plan;
use jp_doc::DocFault;
use jp_number::Numbers;
use jp_output::{Ending, FieldList, Head, Layout, NodeLines};
use std::alloc::Global;
use std::thread::Threads;

/// Four lines, of which the second is faulty, and the fourth where numbers are whole.
const TEXT: &str = "{\"a\":1}\n{\n{\"a\":2}\n{\"a\":1.5}\n";

/// What a block of the lines is answered with, as its place has it, after nothing was found there before.
fn filled<R: Threads + Sync>(
    rt: &R,
    alloc: Global,
    asked: Asked<'_>,
    wanted: (&str, u64, Option<DocStop>),
) -> Option<bool> {
    let gate = OpenGate;
    let crew = Crew {
        rt,
        alloc,
        gate: &gate,
    };
    let task = task_of(asked, lines_of(alloc, TEXT, 1)?)?;
    let block: Block<'_, NodeLines> = Block::new(task);
    let was_empty = block.found().is_none();
    Answerer::new(alloc).fill(&crew, &block);
    let answer = block.found()?;
    Some(was_empty && is_answer(answer, wanted))
}

/// Whether an answer has these bytes, has passed so many faulty lines, and ends there.
fn is_answer(answer: &Outcome, wanted: (&str, u64, Option<DocStop>)) -> bool {
    has_bytes(answer, wanted.0) && answer.faulty == wanted.1 && answer.stopped == wanted.2
}

/// The line that ends the answer to the four lines.
fn second_line() -> Option<DocStop> {
    Some(DocStop {
        line: 2,
        fault: DocFault::Unreadable,
    })
}

/// Whether a block of the four lines, of which `$.a` is asked in a layout by a policy, is answered so.
fn is_filled_in<R: Threads + Sync>(
    rt: &R,
    alloc: Global,
    layout: &Layout,
    policy: LinePolicy,
    wanted: (&str, u64, Option<DocStop>),
) -> Option<bool> {
    let Ok(plan) = plan(alloc, "$.a") else {
        return None;
    };
    filled(rt, alloc, asked_of(plan.compiled(), layout, policy), wanted)
}

/// The same, with no head.
fn is_filled<R: Threads + Sync>(
    rt: &R,
    alloc: Global,
    policy: LinePolicy,
    wanted: (&str, u64, Option<DocStop>),
) -> Option<bool> {
    is_filled_in(rt, alloc, &Layout::plain(), policy, wanted)
}

#[test]
fn ends_before_a_faulty_line(rt: HostRuntime) {
    let wanted = ("1\t$['a']\t1\n", 0, second_line());
    assert!(rt; is_filled(&rt, rt.alloc(), stopping(), wanted) == Some(true));
}

#[test]
fn passes_faulty_lines(rt: HostRuntime) {
    let wanted = (
        "1\t$['a']\t1\n2\t!\tunreadable\n3\t$['a']\t2\n4\t!\tnot whole\n",
        2,
        None,
    );
    assert!(rt; is_filled(&rt, rt.alloc(), going_on(), wanted) == Some(true));
}

/// The same, behind a name.
fn is_filled_named<R: Threads + Sync>(
    rt: &R,
    alloc: Global,
    name: &str,
    wanted: (&str, u64, Option<DocStop>),
) -> Option<bool> {
    let Ok(head) = Head::of_name(alloc, name) else {
        return None;
    };
    let layout = Layout {
        head,
        ending: Ending::LineFeed,
        fields: FieldList::none(),
    };
    is_filled_in(rt, alloc, &layout, going_on(), wanted)
}

#[test]
fn lines_behind_a_name(rt: HostRuntime) {
    let wanted = (
        "a b\t1\t$['a']\t1\na b\t2\t!\tunreadable\na b\t3\t$['a']\t2\na b\t4\t!\tnot whole\n",
        2,
        None,
    );
    assert!(rt; is_filled_named(&rt, rt.alloc(), "a b", wanted) == Some(true));
}

#[test]
fn decimals(rt: HostRuntime) {
    let policy = LinePolicy {
        numbers: Numbers::Decimals,
        on_fault: OnFault::KeepGoing,
    };
    let wanted = (
        "1\t$['a']\t1\n2\t!\tunreadable\n3\t$['a']\t2\n4\t$['a']\t1.5\n",
        1,
        None,
    );
    assert!(rt; is_filled(&rt, rt.alloc(), policy, wanted) == Some(true));
}
