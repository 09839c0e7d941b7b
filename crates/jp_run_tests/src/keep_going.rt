//! An answer that keeps going after a faulty line, by two workers at once.

use crate::gates::{Entered, Pair};
use crate::shared::lines_of;
use jp_answer::Gate;
use jp_check::plan;
use jp_run::{Settings, Whole, answer_all};
use std::alloc::Global;
use std::thread::Threads;

/// A document, a line that is no JSON text, a document, and a number that is not whole.
const FOUR: &[u8] = b"{\"a\":1}\n{\n{\"a\":2}\n{\"a\":1.5}\n";

/// What `$.a` gives there.
const FOUR_LINES: &[u8] = b"1\t$['a']\t1\n2\t!\tunreadable\n3\t$['a']\t2\n4\t!\tnot whole\n";

/// What `$.a` gives, by so many workers, in pieces of that size.
fn answered<R: Threads + Sync, G: Gate + Sync>(
    rt: &R,
    alloc: Global,
    text: &[u8],
    cut: (u64, u64),
    gate: &G,
) -> Option<Whole> {
    let settings = Settings::new(cut.0, cut.1, 1).ok()?;
    let plan = plan(alloc, "$.a").ok()?;
    let lines = lines_of(alloc, text).ok()?;
    if lines.len() > 4_294_967_296 {
        return None;
    }
    let Settings { workers, piece, .. } = settings;
    answer_all(rt, alloc, &plan, &lines, workers, piece, gate).ok()
}

/// Whether `$.a` gives its lines and two faults there, by so many workers, in pieces of that size.
fn is_answered<R: Threads + Sync, G: Gate + Sync>(
    rt: &R,
    alloc: Global,
    cut: (u64, u64),
    gate: &G,
) -> bool {
    match answered(rt, alloc, FOUR, cut, gate) {
        Some(whole) => whole.bytes.as_slice() == FOUR_LINES && whole.faulty == 2,
        None => false,
    }
}

#[test]
fn two_workers_at_once(rt: HostRuntime) {
    let gate = Pair(Entered::new());
    assert!(rt; is_answered(&rt, rt.alloc(), (2, 1), &gate));
    assert_eq!(rt; gate.0.failures(), 0);
    assert_eq!(rt; gate.0.seen(), [true, true, true]);
}
