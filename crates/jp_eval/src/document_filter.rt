//! The documents of which a filter is true.

ghost use Rattle.std.specs.Prelude.{◌≡◌, IfOk, MatchOption};
ghost use Rattle.jp_compiled.specs.Compiled.{compiled_query};
ghost use Rattle.jp_compiled.specs.Filter.{filter_query};
ghost use Rattle.jp_node.specs.Part.{part_value};
ghost use Rattle.jp_pattern.specs.Tests.{Tests, AreRight};
ghost use Rattle.jp_tree.specs.Tree as tree;

use crate::fault::EvalFault;
use crate::local::{decided, is_local};
use crate::roots::answer_roots;
use crate::walk::holds;
use jp_compiled::{CompiledLogical, CompiledQuery};
use jp_found::{RootUse, asked_by};
use jp_node::{Locations, Part, PathStack};
use std::alloc::Global;

/// Asks a compiled filter of one document after another: there the document is both the current node `@` and
/// the root `$`.
#[derive(Clone, Copy, Drop)]
pub struct DocumentFilter<'p> {
    alloc: Global,
    query: &'p CompiledQuery,
    test: &'p CompiledLogical,
    asked: RootUse,
    /// Whether the value of a document decides the test, for all that is known of the test.
    is_local: bool,
}

impl<'p> DocumentFilter<'p> {
    ghost use Rattle.jp_eval.specs.Filter.{asked_filter, document_holds};

    /// Of the filter of this query, which has to be one filter and nothing else: `$[?FILTER]`. It takes no
    /// memory.
    pub fn new(alloc: Global, query: &'p CompiledQuery) -> Option<DocumentFilter<'p>>
        ensures { MatchOption result
            ((l : tree.Logical) → compiled_query query.now ≡ filter_query l → ⊥)
            (λ f. compiled_query query.now ≡ filter_query (asked_filter f)) }
    {
        let test = query.only_filter()?;
        Some(DocumentFilter {
            alloc,
            query,
            test,
            asked: asked_by(query),
            is_local: is_local(test),
        })
    }

    /// Whether the filter is true of the document, of which this is the whole value.
    ///
    /// # Errors
    ///
    /// [`EvalFault::Memory`] where a growth of memory was refused. Further documents may be asked then.
    pub fn admits(&self, root: Part<'_>) -> Result<bool, EvalFault>
        ensures { IfOk result (λ b. (tests : Tests) → AreRight tests →
            b ≡ document_holds tests (asked_filter self.now) (part_value root.entry)) }
    {
        let query = self.query;
        // No node is handed to a visitor: the type is for the walk, which takes one.
        let context = answer_roots::<Locations>(
            self.alloc,
            root,
            query.roots.as_slice(),
            self.asked,
        )?;
        if self.is_local {
            if let Some(truth) = decided(&context, self.test, root)? {
                return Ok(truth);
            }
        }
        let mut path = PathStack::new(self.alloc);
        Ok(holds::<Locations>(&context, self.test, root, &mut path)?)
    }
}
