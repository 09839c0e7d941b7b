//! The evaluation of a query on the documents that a filter chooses.

ghost use Rattle.std.specs.Prelude.{◌≡◌, IfOk, OnOk};
ghost use Rattle.std.specs.List.{fold};
ghost use Rattle.jp_node.specs.Part.{part_value};
ghost use Rattle.jp_pattern.specs.Tests.{Tests, AreRight};
ghost use Rattle.jp_answer.specs.Asking.{asked_query};
ghost use Rattle.jp_answer.specs.FilteredQuery.{is_chosen, selected_nodes};

use crate::asked::Asked;
use crate::crew::Crew;
use crate::walking::Walking;
use jp_eval::{DocumentFilter, EvalFault, Evaluator, Halving, OpenFork};
use jp_node::{Part, Visit};
use std::alloc::Global;
use std::thread::Threads;

/// Evaluates a query on one document after another, where a filter is true of it, if there is one.
#[derive(Drop)]
pub(crate) struct FilteredEvaluator<'q> {
    filter: Option<DocumentFilter<'q>>,
    evaluator: Evaluator<'q>,
}

impl<'q> FilteredEvaluator<'q> {
    ghost use Rattle.jp_answer.specs.inner.Filtered.{filtered_query};

    /// Of what is asked. It takes no memory.
    pub(crate) fn new(alloc: Global, asked: &Asked<'q>) -> FilteredEvaluator<'q>
        ensures { filtered_query result ≡ asked_query asked.now }
    {
        FilteredEvaluator {
            filter: asked.filter,
            evaluator: Evaluator::new(alloc, asked.query),
        }
    }

    /// Whether the document is chosen.
    // In line, where there is no filter this is a comparison, and costs no call at each line.
    #[inline(always)]
    fn chooses(&self, root: Part<'_>) -> Result<bool, EvalFault>
        ensures { IfOk result (λ b. (t : Tests) → AreRight t
            → b ≡ is_chosen t (part_value root.entry) (filtered_query self.now).filter) }
    {
        match &self.filter {
            Some(filter) => filter.admits(root),
            None => Ok(true),
        }
    }

    /// Hands the nodes of a document to the visitor: none where it is not chosen, which is not walked then.
    pub(crate) fn visit<R: Threads + Sync, G, V: Visit + Drop + Send>(
        &mut self,
        crew: &Crew<R, G>,
        walked: (Part<'_>, Walking),
        visitor: &mut V,
    ) -> Result<(), EvalFault>
        ensures nodes { OnOk result ((t : Tests) → AreRight t
            → V.kept visitor.new ≡ fold V.put (V.kept visitor.old)
            (selected_nodes t (part_value walked.entry.0) (filtered_query self.old))) }
        ensures query { filtered_query self.new ≡ filtered_query self.old }
    {
        let (root, walk) = walked;
        if !self.chooses(root)? {
            return Ok(());
        }
        match walk {
            Walking::ByHalves(cuts) => {
                let halving = Halving {
                    cuts,
                    fork: &OpenFork,
                };
                self.evaluator.visit_split(crew.rt, root, halving, visitor)
            }
            Walking::Straight => self.evaluator.visit(root, visitor),
        }
    }
}
