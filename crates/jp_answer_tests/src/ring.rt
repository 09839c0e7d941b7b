//! A ring with no worker.

use crate::tasks::{asked_of, lines_of, stopping, task_of};
use jp_answer::{Asked, Block, Ring};
use jp_check::plan;
use jp_output::{Layout, NodeLines};
use std::alloc::Global;
use std::sync::Arc;

/// Hands a block out, and gives another owner of it.
fn handed<'q>(
    ring: &Ring<'q, NodeLines>,
    alloc: Global,
    asked: Asked<'q>,
    number: u64,
) -> Option<Arc<Block<'q, NodeLines>, Global>> {
    let task = task_of(asked, lines_of(alloc, "[1]\n", 1)?)?;
    let Ok(own) = Arc::new(alloc, Block::new(task)) else {
        return None;
    };
    let Ok(shared) = Arc::try_clone(&own) else {
        return None;
    };
    ring.hand_out(number, shared);
    Some(own)
}

/// Whether a block that was handed out is taken back once, and its buffer then.
fn is_taken_back(alloc: Global, asked: Asked<'_>) -> Option<bool> {
    let Ok(ring) = Ring::new(alloc) else {
        return None;
    };
    let was_there = ring.take_back(0);
    let own = handed(&ring, alloc, asked, 0)?;
    let turns = (
        was_there,
        ring.take_back(0),
        ring.take_back(0),
        ring.take_back(1),
    );
    match Arc::try_unwrap(own) {
        Ok(block) => Some(turns == (false, true, false, false) && block.into_lines().len() == 0),
        Err(_) => Some(false),
    }
}

#[test]
fn taken_back(rt: HostRuntime) {
    let Ok(plan) = plan(rt.alloc(), "$") else {
        return;
    };
    let layout = Layout::plain();
    let asked = asked_of(plan.compiled(), &layout, stopping());
    assert!(rt; is_taken_back(rt.alloc(), asked) == Some(true));
}

/// Whether the block 16 numbers on stands in the place of one that nobody has taken.
fn is_in_its_place(alloc: Global, asked: Asked<'_>) -> Option<bool> {
    let Ok(ring) = Ring::new(alloc) else {
        return None;
    };
    for number in 0..17u64 {
        handed(&ring, alloc, asked, number)?;
    }
    let turns = (ring.take_back(0), ring.take_back(1), ring.take_back(16));
    Some(turns == (false, true, true) && ring.ended() == 0 && !ring.is_closed())
}

#[test]
fn in_its_place(rt: HostRuntime) {
    let Ok(plan) = plan(rt.alloc(), "$") else {
        return;
    };
    let layout = Layout::plain();
    let asked = asked_of(plan.compiled(), &layout, stopping());
    assert!(rt; is_in_its_place(rt.alloc(), asked) == Some(true));
}
