//! The query that a path is.

ghost use Rattle.std.specs.Prelude.{◌≡◌, ◌≤◌, [], ◌∷◌, Some, IfOk, IfErr, OnOk, map, decimal};
ghost use Rattle.jp_doc.specs.Json.{Json};
ghost use Rattle.jp_doc.specs.Location.{step_of, location_of, value_at, node};
ghost use Rattle.jp_tree.specs.Tree as tree;
ghost use Rattle.jp_tree.specs.View as view;
ghost use Rattle.jp_tree.specs.View.{text_of};
ghost use Rattle.jp_tree.specs.PartViews.{selector_of, selectors_of, segment_of, segments_of};
ghost use Rattle.jp_tree.specs.Spelling.{Spells};
ghost use Rattle.jp_tokens.specs.Depth.{bracket_depth, max_depth};
ghost use Rattle.jp_tree.specs.declared.tree.Start.TheVariants.{Root};
ghost use Rattle.jp_pattern.specs.Tests.{Tests};
ghost use Rattle.jp_check.specs.Verdict.{IsAccepted};
ghost use Rattle.jp_check.specs.Plan.{planned_query};
ghost use Rattle.jp_eval.specs.Nodelist.{document_nodes};
ghost use Rattle.jp_node.specs.Path.{path_text};
ghost use Rattle.jp_path.specs.PathQuery.{path_query, step_selector, step_segment, IsStep, AreSteps};

use itoa::Buffer;
use jp_check::{Plan, check};
use jp_doc::{Location, Step};
use jp_number::Numbers;
use jp_tree::{Query, QueryFault, Segment, Selector, Start};
use std::alloc::{AllocError, Global};

/// The query of a location's normalized path (RFC 9535, 2.7): from the root, one segment of one selector for
/// each step.
///
/// It is the one query that the text of the path spells, that text is accepted with it, and in each document
/// that has a value at the location it selects just that node. `AllocError` if a growth was refused.
pub fn query_of(alloc: Global, location: &Location) -> Result<Query, AllocError>
    ensures query { IfOk result (λ q. view.query_of q ≡ path_query (location_of location.now)) }
    ensures accepted { IfOk result (λ q. IsAccepted (path_text (location_of location.now))
        (view.query_of q)) }
    ensures checkable { IfOk result (λ q. ∥ ((t : tree.Text) × (bracket_depth t ≤ max_depth)
        × Spells t (view.query_of q)) ∥₁) }
    ensures only { IfOk result (λ q. (other : tree.Query)
        → IsAccepted (path_text (location_of location.now)) other → other ≡ view.query_of q) }
    ensures node { IfOk result (λ q. (tests : Tests) (root v : Json)
        → value_at (location_of location.now) root ≡ Some v
        → document_nodes tests (view.query_of q) root ≡ node (location_of location.now) v ∷ []) }
{
    Ok(root_query(path_segments(alloc, location)?))
}

/// The plan of the query of a location's normalized path, which is also the plan of the path's text.
///
/// [`QueryFault::Memory`] if a growth was refused, and no other fault.
pub fn path_plan(alloc: Global, location: &Location) -> Result<Plan, QueryFault>
    ensures query { IfOk result (λ p. planned_query p ≡ path_query (location_of location.now)) }
    ensures accepted { IfOk result (λ p. IsAccepted (path_text (location_of location.now))
        (planned_query p)) }
    ensures only { IfOk result (λ p. (other : tree.Query)
        → IsAccepted (path_text (location_of location.now)) other → other ≡ planned_query p) }
    ensures fault { IfErr result (λ f. f ≡ QueryFault.Memory) }
{
    check(alloc, query_of(alloc, location)?, Numbers::Whole)
}

/// One segment for each step. What is read of the steps shows that each is a name of scalar values or an
/// index of 32 bits.
fn path_segments(alloc: Global, location: &Location) -> Result<Vec<Segment>, AllocError>
    ensures segments { IfOk result (λ v. segments_of v.items ≡ map step_segment (location_of location.now)) }
    ensures steps { OnOk result (AreSteps (location_of location.now)) }
{
    let mut segments = Vec::new(alloc);
    for step in &location.steps {
        segments.push(child_segment(one_selector(alloc, step)?))?;
    }
    Ok(segments)
}

/// The selector of a step, alone in a list.
fn one_selector(alloc: Global, step: &Step) -> Result<Vec<Selector>, AllocError>
    ensures selector { IfOk result (λ v. selectors_of v.items ≡ step_selector (step_of step.now) ∷ []) }
    ensures step { OnOk result (IsStep (step_of step.now)) }
{
    let mut selectors = Vec::new(alloc);
    selectors.push(selector_for(alloc, step)?)?;
    Ok(selectors)
}

/// The selector of a step.
fn selector_for(alloc: Global, step: &Step) -> Result<Selector, AllocError>
    ensures selector { IfOk result (λ s. selector_of s ≡ step_selector (step_of step.now)) }
    ensures step { OnOk result (IsStep (step_of step.now)) }
{
    match step {
        Step::Name(name) => Ok(name_selector(String::from_str(alloc, name.as_str())?)),
        Step::Index(index) => Ok(index_selector(index_text(alloc, *index)?)),
    }
}

/// The decimal digits of an index.
#[tactic(auto, using(crate::proofs::SourceSteps::ascii_text))]
fn index_text(alloc: Global, index: u32) -> Result<String, AllocError>
    ensures digits { IfOk result (λ s. text_of s ≡ decimal index) }
{
    let mut buffer = Buffer::new();
    String::from_str(alloc, buffer.format(index))
}

#[tactic(auto, using(jp_tree::proofs::Views::name_made))]
fn name_selector(name: String) -> Selector
    ensures name { selector_of result ≡ tree.name (text_of name) }
{
    Selector::Name(name)
}

#[tactic(auto, using(jp_tree::proofs::Views::index_made))]
fn index_selector(number: String) -> Selector
    ensures index { selector_of result ≡ tree.index (text_of number) }
{
    Selector::Index(number)
}

#[tactic(auto, using(jp_tree::proofs::Views::segment_made))]
fn child_segment(selectors: Vec<Selector>) -> Segment
    ensures child { segment_of result ≡ tree.child (selectors_of selectors.items) }
{
    Segment {
        deep: false,
        selectors,
    }
}

#[tactic(auto, using(jp_tree::proofs::Views::query_made))]
fn root_query(segments: Vec<Segment>) -> Query
    ensures from_root { view.query_of result ≡ tree.query_from Root (segments_of segments.items) }
{
    Query {
        start: Start::Root,
        segments,
    }
}
