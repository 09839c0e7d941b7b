//! Blocks that are handed out to workers, while the calling thread gathers their answers in order.

ghost use Rattle.std.specs.Prelude.{◌≡◌, ◌+◌, ◌<◌};

use crate::tasks::{
    asked_of, behind, by_one_thread, going_on, lines_of, many_lines, stopping, task_of,
};
use jp_answer::{Answerer, Asked, Block, Crew, Gate, LinePolicy, OpenGate, Ring, beside_workers};
use jp_check::plan;
use jp_output::{Ending, FieldList, Head, Layout, NodeLines};
use std::alloc::Global;
use std::sync::Arc;
use std::sync::atomic::AtomicU64;
use std::sync::atomic::Ordering::Relaxed;
use std::thread::{Threads, yield_now};

/// How many blocks may be out at once.
const OUT: usize = 16;

/// How often the calling thread looks for an answer while workers are there: some seconds.
const LOOKS: u32 = 10_000_000;

/// How many runs there are at most until some worker answers.
const RUNS: u32 = 100;

/// The lines of a block: two documents and what is none.
const TEXT: &str = "[1]\n[[2]]\n{\n";

type Shared<'q> = Arc<Block<'q, NodeLines>, Global>;

/// So many blocks of three lines.
fn blocks_of<'q>(alloc: Global, asked: Asked<'q>, count: u64) -> Option<Vec<Shared<'q>>> {
    let mut blocks = Vec::new(alloc);
    for at in 0..count {
        let first = at.saturating_mul(3).saturating_add(1);
        let task = task_of(asked, lines_of(alloc, TEXT, first)?)?;
        let Ok(block) = Arc::new(alloc, Block::new(task)) else {
            return None;
        };
        if blocks.push(block).is_err() {
            return None;
        }
    }
    Some(blocks)
}

/// Hands blocks out with the numbers from this one on.
fn hand_out<'q>(ring: &Ring<'q, NodeLines>, blocks: &[Shared<'q>], first: u64) -> Option<()> {
    let mut number = first;
    for block in blocks {
        let Ok(shared) = Arc::try_clone(block) else {
            return None;
        };
        ring.hand_out(number, shared);
        number = number.saturating_add(1);
    }
    Some(())
}

/// Whether some worker answers a block. It is looked for as long as a worker is left, of so many.
fn is_found(ring: &Ring<'_, NodeLines>, block: &Block<'_, NodeLines>, workers: u64) -> bool {
    for _look in 0..LOOKS {
        let is_last = ring.ended() >= workers;
        if block.found().is_some() {
            return true;
        }
        if is_last {
            return false;
        }
        yield_now();
    }
    false
}

/// How a run goes: by which policy, beside how many workers, of which it is one, over how many blocks, and
/// whether it takes back those that no worker has taken yet.
#[derive(Clone, Copy)]
struct Way {
    policy: LinePolicy,
    workers: u64,
    count: u64,
    takes_back: bool,
}

/// Hands blocks out, and gathers their answers in order, up to the first that has stopped. What no worker
/// answers is answered here. Gives how many blocks workers have answered, or `None` where the bytes are not
/// these.
fn gathered<'q, R: Threads + Sync>(
    crew: &Crew<R, OpenGate>,
    ring: &Ring<'q, NodeLines>,
    blocks: &[Shared<'q>],
    way: Way,
    wanted: &[u8],
) -> Option<u64> {
    let mut answerer = Answerer::new(crew.alloc);
    let mut by_workers: u64 = 0;
    let mut rest = wanted;
    let mut number = 0;
    for out in blocks.chunks(OUT) {
        hand_out(ring, out, number)?;
        for block in out {
            if way.takes_back && ring.take_back(number) {
                answerer.fill(crew, block);
            } else if is_found(ring, block, way.workers.saturating_sub(1)) {
                by_workers = by_workers.saturating_add(1);
            } else {
                answerer.fill(crew, block);
            }
            number = number.saturating_add(1);
            let answer = block.found()?;
            rest = behind(answer, rest)?;
            if answer.stopped.is_some() {
                return rest.is_empty().then_some(by_workers);
            }
        }
    }
    rest.is_empty().then_some(by_workers)
}

/// A run in which this is asked of the blocks. Gives how many of them other workers have answered, or `None`
/// where the answers in order are not the answer to all lines.
fn ran_of<R: Threads + Sync>(rt: &R, alloc: Global, asked: Asked<'_>, way: Way) -> Option<u64> {
    if way.workers < 1 || way.workers > 64 {
        return None;
    }
    let gate = OpenGate;
    let crew = Crew {
        rt,
        alloc,
        gate: &gate,
    };
    let lines = many_lines(alloc, TEXT, way.count)?;
    let wanted = by_one_thread(&crew, &asked, &lines)?;
    let blocks = blocks_of(alloc, asked, way.count)?;
    let Ok(ring) = Ring::new(alloc) else {
        return None;
    };
    let mut run = || -> Option<u64> { gathered(&crew, &ring, &blocks, way, &wanted) };
    beside_workers(&crew, &ring, way.workers, &mut run)
}

/// The same, where `$[0]` is asked, behind a name.
fn ran<R: Threads + Sync>(rt: &R, alloc: Global, way: Way) -> Option<u64> {
    let Ok(plan) = plan(alloc, "$[0]") else {
        return None;
    };
    let Ok(head) = Head::of_name(alloc, "b.jsonl") else {
        return None;
    };
    let layout = Layout {
        head,
        ending: Ending::LineFeed,
        fields: FieldList::none(),
    };
    ran_of(
        rt,
        alloc,
        asked_of(plan.compiled(), &layout, way.policy),
        way,
    )
}

/// A run over 40 blocks which waits for what workers answer.
fn way_of(policy: LinePolicy, workers: u64) -> Way {
    Way {
        policy,
        workers,
        count: 40,
        takes_back: false,
    }
}

#[test]
fn the_same_by_any_number_of_workers(rt: HostRuntime) {
    for workers in &[1u64, 2, 4, 64] {
        assert!(rt; ran(&rt, rt.alloc(), way_of(going_on(), *workers)).is_some());
    }
}

#[test]
fn the_same_where_it_stops(rt: HostRuntime) {
    for workers in &[1u64, 2, 4, 64] {
        assert!(rt; ran(&rt, rt.alloc(), way_of(stopping(), *workers)).is_some());
    }
}

#[test]
fn the_same_where_blocks_are_taken_back(rt: HostRuntime) {
    for workers in &[1u64, 2, 4, 64] {
        let way = Way {
            policy: going_on(),
            workers: *workers,
            count: 40,
            takes_back: true,
        };
        assert!(rt; ran(&rt, rt.alloc(), way).is_some());
    }
}

#[test]
fn many_workers_over_few_blocks(rt: HostRuntime) {
    let way = Way {
        policy: going_on(),
        workers: 64,
        count: 10,
        takes_back: false,
    };
    assert!(rt; ran(&rt, rt.alloc(), way).is_some());
}

/// Whether a worker answers some block, in so many runs at most.
fn does_any_answer<R: Threads + Sync>(rt: &R, alloc: Global) -> bool {
    for _run in 0..RUNS {
        match ran(rt, alloc, way_of(going_on(), 2)) {
            None => return false,
            Some(0) => {}
            Some(_) => return true,
        }
    }
    false
}

#[test]
fn workers_answer(rt: HostRuntime) {
    assert!(rt; does_any_answer(&rt, rt.alloc()));
}

/// A gate that keeps the number of the block that passed it last.
#[derive(Drop)]
struct LastPassed {
    number: AtomicU64,
}

impl Gate for LastPassed {
    fn pass(&self, piece: u64) {
        self.number.store(piece, Relaxed);
    }
}

/// Whether a second block is left behind one at whose faulty line the answer ends, by the one worker that has
/// answered the first and taken the second; `None` where it did not take both.
fn leaves_second<R: Threads + Sync>(rt: &R, alloc: Global) -> Option<bool> {
    let gate = LastPassed {
        number: AtomicU64::new(0),
    };
    let crew = Crew {
        rt,
        alloc,
        gate: &gate,
    };
    let Ok(plan) = plan(alloc, "$[0]") else {
        return None;
    };
    let layout = Layout::plain();
    let blocks = blocks_of(alloc, asked_of(plan.compiled(), &layout, stopping()), 2)?;
    let Ok(ring) = Ring::new(alloc) else {
        return None;
    };
    let first = blocks.get(..1)?;
    let second = blocks.get(1..)?;
    let mut run = || -> Option<bool> {
        hand_out(&ring, first, 0)?;
        let is_first = first.iter().all(|block| is_found(&ring, block, 1));
        hand_out(&ring, second, 1)?;
        is_first.then_some(second.iter().any(|block| is_found(&ring, block, 1)))
    };
    let is_answered = beside_workers(&crew, &ring, 2, &mut run)?;
    (gate.number.load(Relaxed) == 1).then_some(!is_answered)
}

/// The same in the first of so many runs in which the worker took both blocks.
fn leaves_second_once<R: Threads + Sync>(rt: &R, alloc: Global) -> Option<bool> {
    for _run in 0..RUNS {
        if let Some(leaves) = leaves_second(rt, alloc) {
            return Some(leaves);
        }
    }
    None
}

#[test]
fn a_block_behind_a_fault_is_left(rt: HostRuntime) {
    assert!(rt; leaves_second_once(&rt, rt.alloc()) == Some(true));
}

/// What a run does beside workers, and gives, is what its clause says.
fn counted<R: Threads + Sync>(
    crew: &Crew<R, OpenGate>,
    ring: &Ring<'_, NodeLines>,
    count: &mut u64,
) -> u64
    requires { count.old < 10 }
    ensures given { result ≡ count.old }
    ensures count { count.new ≡ count.old + 1 }
{
    let mut run = || -> u64
        requires { count.now < 10 }
        ensures { (result ≡ count.entry.now) × (count.exit.now ≡ count.entry.now + 1) }
    {
        let before = *count;
        *count = before + 1;
        before
    };
    beside_workers(crew, ring, 2, &mut run)
}

/// Whether a run over an empty ring counts once.
fn counts_once<R: Threads + Sync>(rt: &R, alloc: Global) -> Option<bool> {
    let gate = OpenGate;
    let crew = Crew {
        rt,
        alloc,
        gate: &gate,
    };
    let Ok(ring) = Ring::new(alloc) else {
        return None;
    };
    let mut count = 3;
    let before = counted(&crew, &ring, &mut count);
    Some(before == 3 && count == 4 && ring.is_closed())
}

#[test]
fn a_run_that_hands_nothing_out(rt: HostRuntime) {
    assert!(rt; counts_once(&rt, rt.alloc()) == Some(true));
}
