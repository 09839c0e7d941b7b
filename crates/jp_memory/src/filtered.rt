//! The evaluation of a query on the documents that a filter chooses, on the calling thread.

ghost use Rattle.std.specs.Prelude.{◌≡◌, IfOk, OnOk};
ghost use Rattle.std.specs.List.{fold};
ghost use Rattle.jp_node.specs.Part.{part_value};
ghost use Rattle.jp_pattern.specs.Tests.{Tests, AreRight};
ghost use Rattle.jp_answer.specs.Asking.{asked_query};
ghost use Rattle.jp_answer.specs.FilteredQuery.{is_chosen, selected_nodes};

use jp_answer::Asked;
use jp_eval::{DocumentFilter, EvalFault, Evaluator};
use jp_node::{Part, Visit};
use std::alloc::Global;

/// Evaluates a query on one document after another, where a filter is true of it, if there is one.
#[derive(Drop)]
pub(crate) struct FilteredEvaluator<'q> {
    filter: Option<DocumentFilter<'q>>,
    evaluator: Evaluator<'q>,
}

impl<'q> FilteredEvaluator<'q> {
    ghost use Rattle.jp_memory.specs.inner.Filtered.{filtered_query};

    /// Of what is asked. It takes no memory.
    pub(crate) fn new(alloc: Global, asked: &Asked<'q>) -> FilteredEvaluator<'q>
        ensures { filtered_query result ≡ asked_query asked.now }
    {
        FilteredEvaluator {
            filter: asked.filter,
            evaluator: Evaluator::new(alloc, asked.query),
        }
    }

    /// Whether the document is chosen.
    // In line, where there is no filter this is a comparison, and costs no call at each line.
    #[inline(always)]
    fn chooses(&self, root: Part<'_>) -> Result<bool, EvalFault>
        ensures { IfOk result (λ b. (t : Tests) → AreRight t
            → b ≡ is_chosen t (part_value root.entry) (filtered_query self.now).filter) }
    {
        match &self.filter {
            Some(filter) => filter.admits(root),
            None => Ok(true),
        }
    }

    /// Hands the nodes of a document to the visitor: none where it is not chosen, which is not walked then.
    pub(crate) fn visit<V: Visit + Drop>(
        &mut self,
        root: Part<'_>,
        visitor: &mut V,
    ) -> Result<(), EvalFault>
        ensures nodes { OnOk result ((t : Tests) → AreRight t
            → V.kept visitor.new ≡ fold V.put (V.kept visitor.old)
            (selected_nodes t (part_value root.entry) (filtered_query self.old))) }
        ensures query { filtered_query self.new ≡ filtered_query self.old }
    {
        if !self.chooses(root)? {
            return Ok(());
        }
        self.evaluator.visit(root, visitor)
    }
}
