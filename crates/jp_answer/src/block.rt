//! Lines that threads share, with a place for the answer to them.

ghost use Rattle.std.specs.Prelude.{◌≡◌, [], ◌∷◌, IfSome};
ghost use Rattle.std.specs.Option.{ForSome};
ghost use Rattle.jp_answer.specs.Blocks.{IsTaskAnswer};

use crate::outcome::Outcome;
use crate::task::Task;
use boxcar::slot::{OnceSlot, SlotRule, Written};
use boxcar::tag::{Names, Tag};
use jp_buffer::WaitingLines;
use jp_output::Form;
use std::marker::PhantomData;
use std::snapshot::Snapshot;

/// What shows which task a block has.
type Label<'q> = Written<Snapshot<Task<'q>>>;

/// What is asked of the task that a label shows: nothing.
struct AnyTask;

impl<'q> SlotRule<Snapshot<Task<'q>>> for AnyTask {
    ghost use Rattle.std.specs.Prelude.{◌≡◌};

    ghost holds = { λ _ shown. shown ≡ shown };
}

/// The tag of a place for the answer to the task of a label.
struct OfLabel;

impl<'q> Names<Label<'q>> for OfLabel {
    ghost use Rattle.std.specs.Prelude.{[], ◌∷◌};

    ghost numbers = { λ label. label.of ∷ [] };
}

/// An answer, and the label of the task that it answers.
#[derive(Drop)]
struct Labelled<'q> {
    label: Label<'q>,
    answer: Outcome,
}

/// What is asked of an answer in a block's place: its label is the block's, and it is the answer to the task
/// of that label, in a form.
struct IsAnswer<F> {
    form: PhantomData<F>,
}

impl<'q, F: Form> SlotRule<Labelled<'q>> for IsAnswer<F> {
    ghost use Rattle.std.specs.Prelude.{◌≡◌, [], ◌∷◌};
    ghost use Rattle.jp_answer.specs.Blocks.{IsTaskAnswer};

    ghost holds = { λ tag one. (tag ≡ one.label.of ∷ [])
        × IsTaskAnswer F.says one.label.value.value one.answer };
}

/// A task that threads share, and a place for the answer to it in a form, which takes no other, and only one.
#[derive(Drop)]
pub struct Block<'q, F: Form> {
    /// The lines, and what is asked of them.
    pub task: Task<'q>,
    /// What shows the task, if its label was to be had: else no answer can be put into the block.
    label: Option<Label<'q>>,
    place: OnceSlot<Labelled<'q>, IsAnswer<F>>,
    ghost labelled: { ForSome label (λ l. l.value.value ≡ task) },
    ghost tagged: { ForSome label (λ l. place.tag ≡ l.of ∷ []) },
}

impl<'q, F: Form> Block<'q, F> {
    /// A block of this task, which is not answered yet. It takes no memory.
    pub fn new(task: Task<'q>) -> Block<'q, F>
        ensures { result.task ≡ task.entry }
    {
        let shown: OnceSlot<Snapshot<Task<'q>>, AnyTask> = OnceSlot::new(&Tag::empty());
        // No clause says that a fresh slot takes what it is given.
        match shown.set_written(Snapshot::of(&task)) {
            Ok(label) => {
                let tag = Tag::of::<Label<'q>, OfLabel>(&label);
                Block {
                    task,
                    label: Some(label),
                    place: OnceSlot::new(&tag),
                }
            }
            Err(_) => Block {
                task,
                label: None,
                place: OnceSlot::new(&Tag::empty()),
            },
        }
    }

    /// Puts the answer into its place. It is let go where one is there, or is put there just now.
    pub(crate) fn put(&self, answer: Outcome)
        requires { IsTaskAnswer F.says self.now.task answer }
    {
        if let Some(label) = &self.label {
            let one = Labelled {
                label: label.again(),
                answer,
            };
            drop(self.place.set_written(one));
        }
    }

    /// The answer to the block's task, if it is there: whichever thread has put it there.
    pub fn found(&self) -> Option<&Outcome>
        ensures { IfSome result (λ a. IsTaskAnswer F.says self.now.task a.now) }
    {
        let label = self.label.as_ref()?;
        let one = self.place.get()?;
        // Both are labels of one slot, so they show one task.
        one.label.agrees(label);
        Some(&one.answer)
    }

    /// Whether its answer is there, and ends at a faulty line, behind which nothing is answered.
    pub(crate) fn ends(&self) -> bool {
        match self.found() {
            Some(answer) => answer.stopped.is_some(),
            None => false,
        }
    }

    /// The buffer of the lines, which are taken away. All else is let go.
    pub fn into_lines(self) -> WaitingLines
        ensures { result ≡ [] }
    {
        let Block {
            task,
            label: _,
            place: _,
        } = self;
        let mut lines = task.lines;
        lines.clear();
        lines
    }
}
