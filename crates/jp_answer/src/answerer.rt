//! What a thread answers lines with.

ghost use Rattle.std.specs.Prelude.{◌≤◌, IfOk, length, map};
ghost use Rattle.jp_buffer.specs.Buffered.{line_at};
ghost use Rattle.jp_board.specs.Limits.{max_pieces};
ghost use Rattle.jp_answer.specs.Asking.{asked_query};
ghost use Rattle.jp_answer.specs.Blocks.{IsAnswerTo, IsTaskAnswer};

use crate::answering::{Tools, answer_lines};
use crate::asked::Asked;
use crate::block::Block;
use crate::crew::Crew;
use crate::filtered::FilteredEvaluator;
use crate::outcome::Outcome;
use jp_buffer::LineRef;
use jp_flat::LineReader;
use jp_output::Form;
use std::alloc::{AllocError, Global};
use std::thread::Threads;

/// What a thread answers lines with, one block after another: a reader, whose memory is used again. It does
/// not cross from thread to thread.
#[derive(Drop)]
pub struct Answerer {
    reader: LineReader,
}

impl Answerer {
    /// It takes no memory.
    pub fn new(alloc: Global) -> Answerer {
        Answerer {
            reader: LineReader::new(alloc),
        }
    }

    /// The answer to lines, 4,294,967,296 at most, one after another on the calling thread, of which this is
    /// asked.
    ///
    /// `AllocError` if a growth was refused.
    pub fn answer_lines<R: Threads + Sync, G, F: Form + Drop + Send>(
        &mut self,
        crew: &Crew<R, G>,
        asked: &Asked<'_>,
        lines: &[LineRef<'_>],
    ) -> Result<Outcome, AllocError>
        requires { length lines.now ≤ max_pieces }
        ensures { IfOk result (IsAnswerTo (F.says asked.now.layout.now) asked.now.policy
            (asked_query asked.now) (map line_at lines.now)) }
    {
        // The evaluator is of these lines' own query: no clause says that all ask the same (README, Each
        // block has its own evaluator).
        let mut tools = Tools {
            reader: &mut self.reader,
            evaluator: FilteredEvaluator::new(crew.alloc, asked),
        };
        answer_lines::<R, G, F>(crew, asked, &mut tools, lines)
    }

    /// The answer to a block's task, which is not put into its place.
    ///
    /// `AllocError` if a growth was refused.
    pub fn answer<R: Threads + Sync, G, F: Form + Drop + Send>(
        &mut self,
        crew: &Crew<R, G>,
        block: &Block<'_, F>,
    ) -> Result<Outcome, AllocError>
        ensures { IfOk result (IsTaskAnswer F.says block.now.task) }
    {
        let lines = block.task.lines.lines(crew.alloc)?;
        self.answer_lines::<R, G, F>(crew, &block.task.asked, &lines)
    }

    /// Answers a block's task and puts the answer into its place, unless memory is wanted. No clause says
    /// whether it is there then.
    pub fn fill<R: Threads + Sync, G, F: Form + Drop + Send>(
        &mut self,
        crew: &Crew<R, G>,
        block: &Block<'_, F>,
    ) {
        if let Ok(answer) = self.answer(crew, block) {
            block.put(answer);
        }
    }
}
