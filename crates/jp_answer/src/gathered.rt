//! Answers to blocks, gathered one behind another.

ghost use Rattle.std.specs.Prelude.{◌≡◌, ◌+◌, ◌≤◌, None, IfOk, OnOk};
ghost use Rattle.jp_board.specs.Limits.{max_pieces};
ghost use Rattle.jp_answer.specs.Answer.{joined, nothing};
ghost use Rattle.jp_answer.specs.Answered.{outcome_of};
ghost use Rattle.jp_answer.specs.inner.Gathering.{gathered_of};

use crate::outcome::{DocStop, Outcome};
use jp_output::push_chunk;
use std::alloc::{AllocError, Global};

/// Answers to blocks, one behind another.
#[derive(Drop)]
pub(crate) struct Gathered {
    /// The bytes of all, in one piece.
    pub(crate) bytes: Vec<u8>,
    /// How many faulty lines they pass.
    pub(crate) faulty: u64,
    /// The faulty line that ends the last of them, if there is one.
    pub(crate) stopped: Option<DocStop>,
}

impl Gathered {
    /// No answers.
    pub(crate) fn new(alloc: Global) -> Gathered
        ensures answer { gathered_of result ≡ nothing }
        ensures passed { result.faulty ≡ 0 }
    {
        Gathered {
            bytes: Vec::new(alloc),
            faulty: 0,
            stopped: None,
        }
    }

    /// Puts the answer to further lines behind them, where they have not stopped.
    ///
    /// `AllocError` if a growth was refused.
    pub(crate) fn put(&mut self, more: &Outcome) -> Result<(), AllocError>
        requires few { (self.old.faulty ≤ max_pieces) × (more.now.faulty ≤ max_pieces) }
        requires unstopped { (gathered_of self.old).stopped ≡ None }
        ensures answer { OnOk result
            (gathered_of self.new ≡ joined (gathered_of self.old) (outcome_of more.now)) }
        ensures passed { OnOk result (self.new.faulty ≡ self.old.faulty + more.now.faulty) }
    {
        for chunk in &more.chunks {
            self.bytes.extend_from_slice(chunk.as_slice())?;
        }
        self.faulty += more.faulty;
        self.stopped = more.stopped;
        Ok(())
    }

    /// The same as an outcome, of one chunk at most. `AllocError` if its list was refused its memory.
    pub(crate) fn into_outcome(self, alloc: Global) -> Result<Outcome, AllocError>
        ensures answer { IfOk result (λ a. outcome_of a ≡ gathered_of self) }
        ensures passed { IfOk result (λ a. a.faulty ≡ self.faulty) }
    {
        let Gathered {
            bytes,
            faulty,
            stopped,
        } = self;
        let mut chunks = Vec::new(alloc);
        push_chunk(&mut chunks, bytes)?;
        Ok(Outcome {
            chunks,
            faulty,
            stopped,
        })
    }
}
