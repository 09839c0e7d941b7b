//! What filters ask of the document alone, answered once a document.

ghost use Rattle.std.specs.Prelude.{◌≡◌, true, IfOk};
ghost use Rattle.jp_compiled.specs.Parts.{roots_of, wanted_in, segments_in};
ghost use Rattle.jp_compiled.specs.Uniform.{are_uniform, wanted_uniform};
ghost use Rattle.jp_eval.specs.inner.Rooted.{is_answer, root_nodes};
ghost use Rattle.jp_found.specs.Aggregates.{tells};
ghost use Rattle.jp_node.specs.Part.{part_value};

use crate::context::Context;
use crate::singular::answer_of;
use crate::walk::{holds, run};
use jp_compiled::{RootPart, RootQuery, Want};
use jp_found::{Aggregate, RootAnswer, RootUse, into_aggregate, none_found, of_one};
use jp_node::{Part, PathStack, Visit};
use std::alloc::{AllocError, Global};

/// The answers to these parts of filters, each found with the answers to those before it.
pub(crate) fn answer_roots<'v, V: Visit + Drop>(
    alloc: Global,
    root: Part<'v>,
    roots: &'v [RootPart],
    asked: RootUse,
) -> Result<Context<'v>, AllocError>
    requires { are_uniform (roots_of roots.now) ≡ true }
    ensures root { IfOk result (λ g. part_value g.root ≡ part_value root.entry) }
    ensures roots { IfOk result (λ g. g.roots.now ≡ roots.now) }
{
    let mut context = Context::new(alloc, root);
    // What one asks stands before it, so that no walk of one stands inside another walk
    // (README, No walk inside a walk).
    for (slot, part) in roots.iter().enumerate() {
        let (answer, truth) = answer::<V>(&context, part, asked)?;
        context = context.with(&roots[..slot + 1], part, answer, truth)?;
    }
    Ok(context)
}

/// What is told of the nodes of a part, of `$` where it is no query, and whether it is true, where it is an
/// expression.
fn answer<'v, V: Visit + Drop>(
    context: &Context<'v>,
    part: &'v RootPart,
    asked: RootUse,
) -> Result<(RootAnswer<'v>, bool), AllocError>
    requires { wanted_uniform (wanted_in (roots_of context.now.roots.now) part.now) ≡ true }
    ensures { IfOk result (λ a. is_answer (part_value context.now.root)
        (wanted_in (roots_of context.now.roots.now) part.now) a.0.answer a.1 ≡ true) }
{
    match part {
        RootPart::Query(query) => {
            let told = nodes_told::<V>(context, query)?;
            let known = RootAnswer::new(context.alloc, told, asked)?;
            Ok((known, true))
        }
        RootPart::Test(test) => {
            let mut path = PathStack::new(context.alloc);
            let truth = holds::<V>(context, test, context.root, &mut path)?;
            let told = of_one(Want::First, context.root);
            let known = RootAnswer::new(context.alloc, told, RootUse::NOTHING)?;
            Ok((known, truth))
        }
    }
}

/// What is wanted of a `$` query.
fn nodes_told<'v, V: Visit + Drop>(
    context: &Context<'v>,
    query: &'v RootQuery,
) -> Result<Aggregate<'v>, AllocError>
    ensures { IfOk result (λ a. tells query.now.want (root_nodes (part_value context.now.root)
        (segments_in (roots_of context.now.roots.now) query.now.segments.items)) a ≡ true) }
{
    let segments = query.segments.as_slice();
    if let Some(answer) = answer_of(query.want, segments, context.root) {
        return Ok(answer);
    }
    let mut path = PathStack::new(context.alloc);
    let mut found = none_found::<'v, V>(context.alloc, query.want);
    run(context, segments, context.root, &mut path, &mut found)?;
    match into_aggregate(found) {
        Some(answer) => Ok(answer),
        None => unreachable!(),
    }
}
