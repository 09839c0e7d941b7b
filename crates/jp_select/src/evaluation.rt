//! The nodes that a plan's query selects in a document.

ghost use Rattle.std.specs.Prelude.{◌≡◌, map, IfOk};
ghost use Rattle.std.specs.List.{fold};
ghost use Rattle.jp_doc.specs.Document.{document_value};
ghost use Rattle.jp_doc.specs.Location.{location_of};
ghost use Rattle.jp_pattern.specs.Tests.{Tests, AreRight};
ghost use Rattle.jp_check.specs.Plan.{planned_query};
ghost use Rattle.jp_eval.specs.Nodelist.{document_nodes};

use jp_check::Plan;
use jp_doc::{Document, Location};
use jp_eval::{Cuts, EvalFault, Evaluator, Fork, Halving};
use jp_flat::LineReader;
use jp_node::{Locations, Part, Visit};
use std::alloc::Global;
use std::thread::Threads;

/// Hands the nodes that a query selects in a document to the visitor, in the order of its nodelist (RFC 9535,
/// 2.1.2), as long as one more would change something, and gives the visitor back: a node that is selected
/// more than once comes as often.
///
/// # Errors
///
/// [`EvalFault::Memory`] where a growth of memory was refused.
pub fn visit_nodes<V: Visit + Drop>(
    alloc: Global,
    plan: &Plan,
    document: &Document,
    visitor: V,
) -> Result<V, EvalFault>
    ensures { IfOk result (λ t. (tests : Tests) → AreRight tests →
        V.kept t ≡ fold V.put (V.kept visitor)
        (document_nodes tests (planned_query plan.now) (document_value document.now))) }
{
    let mut reader = LineReader::new(alloc);
    let flat = reader.lay(document)?;
    let mut visitor = visitor;
    Evaluator::new(alloc, plan.compiled()).visit(Part::root_of(&flat), &mut visitor)?;
    Ok(visitor)
}

/// The locations of the nodes that a query selects in a document, in the order of its nodelist (RFC 9535,
/// 2.1.2): a node that is selected more than once stands there as often.
///
/// # Errors
///
/// [`EvalFault::Memory`] where a growth of memory was refused.
pub fn evaluate(alloc: Global, plan: &Plan, document: &Document) -> Result<Vec<Location>, EvalFault>
    ensures nodes { IfOk result (λ found. (t : Tests) → AreRight t →
        map location_of found.items ≡ map (λ n. n.location)
        (document_nodes t (planned_query plan.now) (document_value document.now))) }
{
    let none = Locations {
        locations: Vec::new(alloc),
    };
    let visitor = visit_nodes(alloc, plan, document, none)?;
    Ok(visitor.locations)
}

/// The same as `evaluate`, where a list of children that the query's own segments walk, and that is long
/// enough for these cuts, is cut into halves that are walked at once, and so is a half. What lies within as
/// many cuts as there may be is walked whole.
///
/// The fork is told of each half by the thread that walks it. A half whose thread can't be started is walked
/// on the other's.
///
/// # Errors
///
/// [`EvalFault::Memory`] where a growth of memory was refused.
pub fn evaluate_split<R: Threads + Sync, F: Fork + Sync>(
    rt: &R,
    alloc: Global,
    plan: &Plan,
    document: &Document,
    cuts: Cuts,
    fork: &F,
) -> Result<Vec<Location>, EvalFault>
    ensures nodes { IfOk result (λ found. (t : Tests) → AreRight t →
        map location_of found.items ≡ map (λ n. n.location)
        (document_nodes t (planned_query plan.now) (document_value document.now))) }
{
    let mut found = Locations {
        locations: Vec::new(alloc),
    };
    let mut reader = LineReader::new(alloc);
    let flat = reader.lay(document)?;
    let mut evaluator = Evaluator::new(alloc, plan.compiled());
    let halving = Halving { cuts, fork };
    evaluator.visit_split(rt, Part::root_of(&flat), halving, &mut found)?;
    Ok(found.locations)
}
