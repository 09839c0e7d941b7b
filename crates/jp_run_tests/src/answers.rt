//! Answers by several workers, whose gates tell which pieces were worked on.

use crate::gates::{Entered, FirstWaits, Pair, Recorder};
use crate::shared::lines_of;
use jp_answer::{DocStop, Gate};
use jp_check::plan;
use jp_doc::DocFault;
use jp_run::{Answer, Settings, answer};
use std::alloc::Global;
use std::sync::atomic::{AtomicU64, Ordering};
use std::thread::Threads;

/// The answer to the lines of a text, by so many workers, in pieces of that size.
fn answered<R: Threads + Sync, G: Gate + Sync>(
    rt: &R,
    alloc: Global,
    query: &str,
    text: &[u8],
    cut: (u64, u64),
    gate: &G,
) -> Option<Answer> {
    let settings = Settings::new(cut.0, cut.1, 1).ok()?;
    let plan = plan(alloc, query).ok()?;
    let lines = lines_of(alloc, text).ok()?;
    if lines.len() > 4_294_967_296 {
        return None;
    }
    answer(
        rt,
        alloc,
        &plan,
        &lines,
        settings.workers,
        settings.piece,
        gate,
    )
    .ok()
}

/// The answer that is wanted: its bytes, and where it stopped.
type Wanted<'a> = (&'a [u8], Option<DocStop>);

/// Whether the answer to the lines of a text is this one.
fn is_answered<R: Threads + Sync, G: Gate + Sync>(
    rt: &R,
    alloc: Global,
    input: (&str, &[u8]),
    cut: (u64, u64),
    gate: &G,
    wanted: Wanted<'_>,
) -> bool {
    match answered(rt, alloc, input.0, input.1, cut, gate) {
        Some(answer) => (answer.bytes.as_slice(), answer.stopped) == wanted,
        None => false,
    }
}

#[test]
fn two_pieces_at_once(rt: HostRuntime) {
    let gate = Pair(Entered::new());
    let input = ("$", b"[]\n{}\n".as_slice());
    let wanted = (b"1\t$\t[]\n2\t$\t{}\n".as_slice(), None);
    assert!(rt; is_answered(&rt, rt.alloc(), input, (2, 1), &gate, wanted));
    assert_eq!(rt; gate.0.failures(), 0);
    assert_eq!(rt; gate.0.seen(), [true, true, false]);
}

#[test]
fn the_first_piece_waits_for_the_third(rt: HostRuntime) {
    let gate = FirstWaits(Entered::new());
    let input = ("$", b"[]\n{}\n1\n".as_slice());
    let wanted = (b"1\t$\t[]\n2\t$\t{}\n3\t$\t1\n".as_slice(), None);
    assert!(rt; is_answered(&rt, rt.alloc(), input, (2, 1), &gate, wanted));
    assert_eq!(rt; gate.0.failures(), 0);
    assert_eq!(rt; gate.0.seen(), [true, true, true]);
}

#[test]
fn pieces_behind_a_faulty_one_are_left(rt: HostRuntime) {
    let gate = Recorder(AtomicU64::new(0));
    let input = ("$", b"1\n2\n{\n4\n5\n6\n7\n8\n9\n10\n".as_slice());
    let stop = DocStop {
        line: 3,
        fault: DocFault::Unreadable,
    };
    let wanted = (b"1\t$\t1\n2\t$\t2\n".as_slice(), Some(stop));
    assert!(rt; is_answered(&rt, rt.alloc(), input, (1, 1), &gate, wanted));
    assert_eq!(rt; gate.0.load(Ordering::SeqCst), 111);
}
