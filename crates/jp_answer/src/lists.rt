//! The answer to lines that are all there, by workers that claim pieces of them.

ghost use Rattle.std.specs.Prelude.{◌≡◌, ◌+◌, ◌<◌, ◌≤◌, ◌⊎◌, None, [], length, map, take, drop, IfOk, OnOk};
ghost use Rattle.std.specs.Prelude.{IsSome};
ghost use Rattle.jp_buffer.specs.Buffered.{line_at};
ghost use Rattle.jp_pattern.specs.Tests.{Tests, AreRight};
ghost use Rattle.jp_board.specs.Limits.{max_pieces};
ghost use Rattle.jp_answer.specs.Answer.{answer_by};
ghost use Rattle.jp_answer.specs.Answered.{outcome_of};
ghost use Rattle.jp_answer.specs.Asking.{asked_query};
ghost use Rattle.jp_answer.specs.Policy.{passed_in};
ghost use Rattle.jp_answer.specs.Queued.{HasSent, sent_task};
ghost use Rattle.jp_answer.specs.Ranges.{AreDocuments, AreWorkers};
ghost use Rattle.jp_answer.specs.inner.Gathering.{GathersOn, HasPut, IsAllOf, IsGathering, gathered_of};

use crate::answerer::Answerer;
use crate::asked::Asked;
use crate::beside::beside_workers;
use crate::crew::Crew;
use crate::gate::Gate;
use crate::gathered::Gathered;
use crate::outcome::Outcome;
use crate::queue::{Queue, Sent};
use crate::ring::Ring;
use jp_buffer::LineRef;
use jp_output::Form;
use std::alloc::{AllocError, Global};
use std::thread::Threads;

/// The answer to lines in a form, by as many workers as are asked for, each of which claims `piece` lines at
/// a time: there are no more of them than pieces. The calling thread is one of the workers.
///
/// It is the same for every number of workers, every size of a piece, every gate, and in whatever order the
/// workers take their steps. There are at most 4,294,967,296 lines, and 1 to 1,000,000 of them are a piece.
/// The lines of the pieces that are out, 16 at most, are copied.
///
/// `AllocError` where a growth of memory was refused to the calling thread, even where a line is faulty.
pub fn answer_by_workers<R: Threads + Sync, G: Gate + Sync, F: Form + Drop + Send>(
    crew: &Crew<R, G>,
    asked: Asked<'_>,
    lines: &[LineRef<'_>],
    piece: u64,
) -> Result<Outcome, AllocError>
    requires lines { length lines.now ≤ max_pieces }
    requires piece { AreDocuments piece }
    ensures answer { IfOk result (λ a. (t : Tests) → AreRight t →
        answer_by (F.says asked.entry.layout.now) asked.entry.policy t
        (asked_query asked.entry) (map line_at lines.now) ≡ outcome_of a) }
    ensures passed { IfOk result (λ a. passed_in asked.entry.policy (map line_at lines.now) ≡ a.faulty) }
{
    let ring: Ring<'_, F> = Ring::new(crew.alloc)?;
    let mut out = Queue::new(crew.alloc, &ring, asked);
    let done = gather_beside::<R, G, F>(crew, lines, piece as usize, &mut out)?;
    done.into_outcome(crew.alloc)
}

/// The answers to all lines, while workers answer the blocks that are handed out.
fn gather_beside<R: Threads + Sync, G: Gate + Sync, F: Form + Drop + Send>(
    crew: &Crew<R, G>,
    lines: &[LineRef<'_>],
    piece: usize,
    out: &mut Queue<'_, '_, F>,
) -> Result<Gathered, AllocError>
    requires lines { length lines.now ≤ max_pieces }
    requires piece { AreDocuments piece }
    requires none { out.old.sent.items ≡ [] }
    ensures { IfOk result (IsAllOf F.says out.old.asked (map line_at lines.now)) }
{
    let ring = out.ring;
    let workers = at_work(out.asked.workers, lines.len(), piece);
    let mut gathering = || -> Result<Gathered, AllocError>
        requires { (length lines.now ≤ max_pieces) × AreDocuments piece × (out.now.sent.items ≡ []) }
        ensures { IfOk result (IsAllOf F.says out.entry.now.asked (map line_at lines.entry.now)) }
    { gather::<R, G, F>(crew, lines, piece, out) };
    beside_workers(crew, ring, workers, &mut gathering)
}

/// How many of the workers have work: no more than there are pieces, but one at least.
fn at_work(workers: u64, count: usize, piece: usize) -> u64
    requires { AreWorkers workers × AreDocuments piece }
    ensures { AreWorkers result }
{
    workers.min(count.div_ceil(piece).max(1) as u64)
}

/// Hands the lines out, a piece after another, and gathers the answers to them in order, up to the first that
/// has stopped.
fn gather<R: Threads + Sync, G: Gate + Sync, F: Form + Drop + Send>(
    crew: &Crew<R, G>,
    lines: &[LineRef<'_>],
    piece: usize,
    out: &mut Queue<'_, '_, F>,
) -> Result<Gathered, AllocError>
    requires lines { length lines.now ≤ max_pieces }
    requires piece { AreDocuments piece }
    requires none { out.old.sent.items ≡ [] }
    ensures { IfOk result (IsAllOf F.says out.old.asked (map line_at lines.now)) }
{
    let mut done = Gathered::new(crew.alloc);
    let mut sent = 0;
    while sent < lines.len() {
        make_room::<R, G, F>(crew, out, &mut done)?;
        if done.stopped.is_some() {
            return Ok(done);
        }
        sent += send_piece::<F>(crew.alloc, lines, sent, piece, out)?;
    }
    take_all::<R, G, F>(crew, out, &mut done)?;
    Ok(done)
}

/// Hands the lines from a place on out as a block, a piece of them. Gives how many.
fn send_piece<F: Form + Drop>(
    alloc: Global,
    lines: &[LineRef<'_>],
    from: usize,
    piece: usize,
    out: &mut Queue<'_, '_, F>,
) -> Result<usize, AllocError>
    requires few { length lines.now ≤ max_pieces }
    requires left { from < length lines.now }
    requires piece { AreDocuments piece }
    ensures sent { IfOk result (λ n. HasSent (map line_at (take n (drop from lines.now))) 0 out.old out.new) }
    ensures some { IfOk result (λ n. (0 < n) × (from + n ≤ length lines.now)) }
    ensures asked { out.new.asked ≡ out.old.asked }
{
    let (_, rest) = lines.split_at(from);
    let (front, _) = rest.split_at(piece.min(rest.len()));
    let mut copy = out.buffer(alloc);
    copy.extend(front)?;
    out.send(alloc, copy, 0)?;
    Ok(front.len())
}

/// Gathers the answer to the front block, where as many are out as may be.
fn make_room<R: Threads + Sync, G: Gate + Sync, F: Form + Drop + Send>(
    crew: &Crew<R, G>,
    out: &mut Queue<'_, '_, F>,
    done: &mut Gathered,
) -> Result<(), AllocError>
    requires unstopped { (gathered_of done.old).stopped ≡ None }
    requires gathers { IsGathering F.says out.old done.old }
    ensures gathers { OnOk result (GathersOn F.says out.old out.new done.old done.new) }
    ensures asked { out.new.asked ≡ out.old.asked }
{
    if out.is_full() {
        return take_front::<R, G, F>(crew, out, done);
    }
    Ok(())
}

/// Gathers the answers to all blocks that are out, up to the first that has stopped.
fn take_all<R: Threads + Sync, G: Gate + Sync, F: Form + Drop + Send>(
    crew: &Crew<R, G>,
    out: &mut Queue<'_, '_, F>,
    done: &mut Gathered,
) -> Result<(), AllocError>
    requires unstopped { (gathered_of done.old).stopped ≡ None }
    requires gathers { IsGathering F.says out.old done.old }
    ensures gathers { OnOk result (GathersOn F.says out.old out.new done.old done.new) }
    ensures all { OnOk result ((out.new.sent.items ≡ []) ⊎ IsSome (gathered_of done.new).stopped) }
    ensures asked { out.new.asked ≡ out.old.asked }
{
    while !out.sent.is_empty() {
        take_front::<R, G, F>(crew, out, done)?;
        if done.stopped.is_some() {
            return Ok(());
        }
    }
    Ok(())
}

/// Gathers the answer to the front block, which is waited for.
fn take_front<R: Threads + Sync, G: Gate + Sync, F: Form + Drop + Send>(
    crew: &Crew<R, G>,
    out: &mut Queue<'_, '_, F>,
    done: &mut Gathered,
) -> Result<(), AllocError>
    requires some { 0 < length out.old.sent.items }
    requires unstopped { (gathered_of done.old).stopped ≡ None }
    requires gathers { IsGathering F.says out.old done.old }
    ensures gathers { OnOk result (GathersOn F.says out.old out.new done.old done.new) }
    ensures asked { out.new.asked ≡ out.old.asked }
    ensures fewer { OnOk result (length out.new.sent.items + 1 ≡ length out.old.sent.items) }
{
    out.await_front(crew);
    let Some(front) = out.sent.pop_front() else {
        unreachable!();
    };
    put_answer::<R, G, F>(crew, &front, &mut out.answerer, done)?;
    out.let_go(front);
    Ok(())
}

/// Puts the answer to a block behind what was gathered. It is made here where it has not come.
fn put_answer<R: Threads + Sync, G: Gate + Sync, F: Form + Drop + Send>(
    crew: &Crew<R, G>,
    front: &Sent<'_, F>,
    answerer: &mut Answerer,
    done: &mut Gathered,
) -> Result<(), AllocError>
    requires few { done.old.faulty ≤ max_pieces }
    requires unstopped { (gathered_of done.old).stopped ≡ None }
    ensures { OnOk result (HasPut F.says (sent_task front.now) done.old done.new) }
{
    if let Some(answer) = front.block.found() {
        return done.put(answer);
    }
    let answer = answerer.answer(crew, &front.block)?;
    done.put(&answer)
}
