//! The blocks that are out, in order.

ghost use Rattle.std.specs.Prelude.{◌≡◌, ◌<◌, ◌≤◌, [], true, length, OnOk};
ghost use Rattle.jp_board.specs.Limits.{max_pieces};
ghost use Rattle.jp_answer.specs.Queued.{HasSent};

use crate::answerer::Answerer;
use crate::asked::Asked;
use crate::block::Block;
use crate::crew::Crew;
use crate::gate::Gate;
use crate::limits::{BYTES_BY_LOOK, LOOKS, MOST_OUT, SPARE_BYTES};
use crate::ring::Ring;
use crate::task::Task;
use jp_buffer::WaitingLines;
use jp_output::Form;
use std::alloc::{AllocError, Global};
use std::collections::VecDeque;
use std::sync::Arc;
use std::thread::{Threads, yield_now};

/// A block that is out.
#[derive(Drop)]
pub struct Sent<'q, F: Form> {
    /// Its number in the ring.
    pub number: u64,
    /// How many bytes of an input came with its lines.
    pub bytes: usize,
    /// The block, of which a worker may have a second handle.
    pub block: Arc<Block<'q, F>, Global>,
}

/// The blocks that are out, in order: from the front their answers are taken.
#[derive(Drop)]
pub struct Queue<'r, 'q, F: Form> {
    /// Through which they go to workers.
    pub ring: &'r Ring<'q, F>,
    /// What is asked of their lines.
    pub asked: Asked<'q>,
    /// The blocks.
    pub sent: VecDeque<Sent<'q, F>>,
    /// How many bytes of an input came with their lines, for who counts them.
    pub bytes: usize,
    /// What this thread answers a block with.
    pub answerer: Answerer,
    /// The number of the next block.
    next: u64,
    /// Buffers for the lines of further blocks.
    spare: Vec<WaitingLines>,
}

impl<'r, 'q, F: Form + Drop> Queue<'r, 'q, F> {
    /// No block is out. It takes no memory.
    pub fn new(alloc: Global, ring: &'r Ring<'q, F>, asked: Asked<'q>) -> Queue<'r, 'q, F>
        ensures asked { result.asked ≡ asked.entry }
        ensures none { result.sent.items ≡ [] }
        ensures bytes { result.bytes ≡ 0 }
    {
        Queue {
            ring,
            asked,
            sent: VecDeque::new(alloc),
            bytes: 0,
            answerer: Answerer::new(alloc),
            next: 0,
            spare: Vec::new(alloc),
        }
    }

    /// Whether as many blocks are out as may be at once.
    pub fn is_full(&self) -> bool
        ensures { result ≡ true → 0 < length self.now.sent.items }
    {
        self.sent.len() >= MOST_OUT
    }

    /// A buffer for the lines of a block: one that is used again, or a new one.
    pub fn buffer(&mut self, alloc: Global) -> WaitingLines
        ensures none { result ≡ [] }
        ensures asked { self.new.asked ≡ self.old.asked }
        ensures sent { self.new.sent ≡ self.old.sent }
        ensures bytes { self.new.bytes ≡ self.old.bytes }
    {
        let mut lines = self.spare.pop().unwrap_or_else(|| WaitingLines::new(alloc));
        lines.clear();
        lines
    }

    /// Hands these lines out as a block, behind those that are out. So many bytes of an input came with them.
    ///
    /// `AllocError` if a growth was refused: then the lines are lost.
    pub fn send(
        &mut self,
        alloc: Global,
        lines: WaitingLines,
        bytes: usize,
    ) -> Result<(), AllocError>
        requires { length lines ≤ max_pieces }
        ensures sent { OnOk result (HasSent lines bytes self.old self.new) }
        ensures asked { self.new.asked ≡ self.old.asked }
        ensures bytes { self.new.bytes ≡ self.old.bytes }
    {
        let task = Task {
            asked: self.asked,
            lines,
        };
        let block = Arc::new(alloc, Block::new(task))?;
        self.ring.hand_out(self.next, Arc::try_clone(&block)?);
        let number = self.next;
        self.next = number.saturating_add(1);
        self.sent.push_back(Sent {
            number,
            bytes,
            block,
        })?;
        Ok(())
    }

    /// Whether the answer to the front block is there.
    pub fn has_front(&self) -> bool
        ensures { result ≡ true → 0 < length self.now.sent.items }
    {
        match self.sent.front() {
            Some(front) => front.block.found().is_some(),
            None => false,
        }
    }

    /// Keeps the buffer of a block that was out, unless some worker still has the block, or the buffer is
    /// large.
    pub fn let_go(&mut self, sent: Sent<'q, F>)
        ensures asked { self.new.asked ≡ self.old.asked }
        ensures sent { self.new.sent ≡ self.old.sent }
        ensures bytes { self.new.bytes ≡ self.old.bytes }
    {
        if sent.block.task.lines.total_bytes() > SPARE_BYTES {
            return;
        }
        if let Ok(block) = Arc::try_unwrap(sent.block) {
            drop(self.spare.push(block.into_lines()));
        }
    }
}

impl<'r, 'q, F: Form + Drop + Send> Queue<'r, 'q, F> {
    /// Looks for the answer to the front block, 20,000 times at most, and once more for each eight bytes of
    /// it: a large block that a worker has begun is waited for. As long as there is a block that no worker
    /// has taken this thread answers it meanwhile. No clause says whether the answer is there then.
    pub fn await_front<R: Threads + Sync, G: Gate>(&mut self, crew: &Crew<R, G>)
        ensures asked { self.new.asked ≡ self.old.asked }
        ensures sent { self.new.sent ≡ self.old.sent }
        ensures bytes { self.new.bytes ≡ self.old.bytes }
    {
        let mut helps = true;
        for _look in 0..self.front_looks() {
            if self.has_front() {
                return;
            }
            if helps {
                helps = self.help(crew);
            } else {
                yield_now();
            }
        }
    }

    /// How often it is looked for the answer to the front block.
    fn front_looks(&self) -> u32 {
        let bytes = match self.sent.front() {
            Some(front) => front.block.task.lines.total_bytes(),
            None => 0,
        };
        let more = u32::try_from(bytes / BYTES_BY_LOOK).unwrap_or(u32::MAX);
        LOOKS.saturating_add(more)
    }

    /// Answers the first block that no worker has taken, unless the answer ends at a block before it. Gives
    /// whether there was one.
    fn help<R: Threads + Sync, G: Gate>(&mut self, crew: &Crew<R, G>) -> bool
        ensures asked { self.new.asked ≡ self.old.asked }
        ensures sent { self.new.sent ≡ self.old.sent }
        ensures bytes { self.new.bytes ≡ self.old.bytes }
    {
        for sent in &self.sent {
            if sent.block.ends() {
                return false;
            }
            if self.ring.take_back(sent.number) {
                crew.gate.pass(sent.number);
                self.answerer.fill(crew, &sent.block);
                return true;
            }
        }
        false
    }
}
