//! A queue of blocks with no worker.

use crate::tasks::{asked_of, has_bytes, lines_of, stopping};
use jp_answer::{Asked, Crew, Gate, Queue, Ring};
use jp_check::plan;
use jp_output::{Layout, NodeLines};
use std::alloc::Global;
use std::sync::atomic::{AtomicU64, Ordering};
use std::thread::Threads;

/// Counts the blocks that are passed.
#[derive(Drop)]
struct Passed(AtomicU64);

impl Gate for Passed {
    fn pass(&self, _block: u64) {
        self.0.fetch_add(1, Ordering::SeqCst);
    }
}

/// Hands so many blocks of one line out, each the document that its number is.
fn send(queue: &mut Queue<'_, '_, NodeLines>, alloc: Global, count: u64) -> Option<()> {
    for number in 0..count {
        let mut lines = queue.buffer(alloc);
        let Ok(text) = format!(in alloc; "{number}") else {
            return None;
        };
        if lines.push(number, text.as_bytes(), b"").is_err() || lines.len() > 4_294_967_296 {
            return None;
        }
        if queue.send(alloc, lines, 1).is_err() {
            return None;
        }
    }
    Some(())
}

/// Takes the front block out, whose answer is there. Gives whether it has these bytes.
fn takes<R: Threads + Sync>(
    crew: &Crew<R, Passed>,
    queue: &mut Queue<'_, '_, NodeLines>,
    wanted: &str,
) -> bool {
    queue.await_front(crew);
    let was_there = queue.has_front();
    let Some(front) = queue.sent.pop_front() else {
        return false;
    };
    let is_right = match front.block.found() {
        Some(answer) => has_bytes(answer, wanted),
        None => false,
    };
    queue.let_go(front);
    was_there && is_right
}

/// Whether 16 blocks fill the queue, and the calling thread answers them in order, each once.
fn is_in_order<R: Threads + Sync>(rt: &R, alloc: Global, asked: Asked<'_>) -> Option<bool> {
    let gate = Passed(AtomicU64::new(0));
    let crew = Crew {
        rt,
        alloc,
        gate: &gate,
    };
    let Ok(ring) = Ring::new(alloc) else {
        return None;
    };
    let mut queue = Queue::new(alloc, &ring, asked);
    send(&mut queue, alloc, 15)?;
    let had_room = !queue.is_full();
    send(&mut queue, alloc, 1)?;
    let was_full = queue.is_full() && !queue.has_front();
    let first = takes(&crew, &mut queue, "0\t$\t0\n");
    let second = takes(&crew, &mut queue, "1\t$\t1\n");
    let passed = gate.0.load(Ordering::SeqCst);
    Some(had_room && was_full && first && second && queue.sent.len() == 14 && passed == 2)
}

#[test]
fn in_order(rt: HostRuntime) {
    let Ok(plan) = plan(rt.alloc(), "$") else {
        return;
    };
    let layout = Layout::plain();
    let asked = asked_of(plan.compiled(), &layout, stopping());
    assert!(rt; is_in_order(&rt, rt.alloc(), asked) == Some(true));
}

/// Whether a queue has a buffer of no lines, and gives another where none is spare.
fn has_buffers(alloc: Global, asked: Asked<'_>) -> Option<bool> {
    let Ok(ring) = Ring::new(alloc) else {
        return None;
    };
    let mut queue: Queue<'_, '_, NodeLines> = Queue::new(alloc, &ring, asked);
    let buffers = (queue.buffer(alloc), queue.buffer(alloc));
    let lines = lines_of(alloc, "1\n", 1)?;
    if lines.len() > 4_294_967_296 || queue.send(alloc, lines, 2).is_err() {
        return None;
    }
    Some(buffers.0.len() == 0 && buffers.1.len() == 0 && queue.sent.len() == 1 && queue.bytes == 0)
}

#[test]
fn buffers(rt: HostRuntime) {
    let Ok(plan) = plan(rt.alloc(), "$") else {
        return;
    };
    let layout = Layout::plain();
    let asked = asked_of(plan.compiled(), &layout, stopping());
    assert!(rt; has_buffers(rt.alloc(), asked) == Some(true));
}
