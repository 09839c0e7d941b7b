//! Worked examples of the definitions.

ghost use Rattle.std.specs.Prelude.{◌≡◌, [], ◌∷◌, codes, IfOk};
ghost use Rattle.jp_doc.specs.Location.{name, index};
ghost use Rattle.jp_tree.specs.Tree as tree;
ghost use Rattle.jp_tree.specs.declared.tree.Start.TheVariants.{Root};
ghost use Rattle.jp_tree.specs.View as view;
ghost use Rattle.jp_check.specs.Plan.{planned_query};
ghost use Rattle.jp_path.specs.PathQuery.{path_query};

use crate::query::query_of;
use jp_check::{Plan, plan};
use jp_doc::Location;
use jp_output::write_path;
use jp_tree::{Query, QueryFault};
use std::alloc::Global;

/// The query of a path: one segment of one selector for each step.
#[tactic(auto, unfolding(crate::proofs::OnLiterals::paths_on_literals))]
fn path_queries()
    ensures two_steps { path_query (name (codes "a") ∷ index 12 ∷ [])
        ≡ tree.query_from Root (tree.child (tree.name (codes "a") ∷ []) ∷ tree.child
        (tree.index (codes "12") ∷ []) ∷ []) }
    ensures root { path_query [] ≡ tree.query_from Root [] }
{}

/// The plan of a path's text holds the tree that the path's query is, by the clauses of the calls.
fn query_and_plan(alloc: Global, location: &Location) -> Result<(Query, Plan), QueryFault>
    ensures { IfOk result (λ both. view.query_of both.0 ≡ planned_query both.1) }
{
    let query = query_of(alloc, location)?;
    let text = write_path(alloc, location)?;
    let plan = plan(alloc, text.as_str())?;
    Ok((query, plan))
}
