//! The walk where long lists are cut into halves that are walked at once.

ghost use Rattle.std.specs.Prelude.{◌≡◌, List, [], true, IfOk, OnOk, MatchOption};
ghost use Rattle.std.specs.List.{All, flat_map};
ghost use Rattle.std.specs.Thread.{IsSync};
ghost use Rattle.jp_doc.specs.Location.{Node};
ghost use Rattle.jp_eval.specs.inner.Base.{base_of};
ghost use Rattle.jp_eval.specs.inner.Finding.{Finds};
ghost use Rattle.jp_found.specs.Kept.{kept, put_found, plus, taken, is_taken};
ghost use Rattle.jp_node.specs.ChildRanges.{range_nodes};
ghost use Rattle.jp_eval.specs.inner.Along.{done_along, done_by};
ghost use Rattle.jp_found.specs.Links.{here};
ghost use Rattle.jp_eval.specs.inner.Walk.{done};
ghost use Rattle.jp_node.specs.Links.{link_steps};

use crate::context::Context;
use crate::fork::{Cuts, Fork};
use crate::walk;
use crate::walk::{Action, go, holds, sift};
use crate::wide::is_wide;
use crate::work_items::{WorkItem, WorkItems, work_items};
use jp_found::{Found, append, fresh, is_full, visitor_of};
use jp_node::{ChildRange, Link, Part, PathStack, Visit};
use std::alloc::{AllocError, Global};
use std::thread::{Threads, join};

/// What a walk by halves is given throughout. A half is given the same, with one cut fewer left.
#[derive(Drop)]
pub(crate) struct Splitting<'a, 'v, R, F> {
    /// What starts threads.
    pub(crate) rt: &'a R,
    /// What is told of each half.
    pub(crate) fork: &'a F,
    pub(crate) context: &'a Context<'v>,
    pub(crate) cuts: Cuts,
}

/// What a half is given.
// In one struct, where all that is lent has one lifetime: of what each closure of `each_of` takes alone it is
// not known to have.
#[derive(Drop)]
pub(crate) struct HalfGiven<'s, 'a, 'c, 'l, 'v, R, F> {
    splitting: &'s Splitting<'a, 'v, R, F>,
    action: Action<'v>,
    children: ChildRange<'c, 'v>,
    at: &'l [Link<'v>],
}

/// The action at the value, where a list inside of it may be cut.
#[cycle(split)]
pub(crate) fn go_split<'v, R: Threads + Sync, F: Fork + Sync, V: Visit + Drop + Send>(
    splitting: &Splitting<'_, 'v, R, F>,
    action: Action<'v>,
    value: Part<'v>,
    path: &mut PathStack<'v>,
    found: &mut Found<'v, V>,
) -> Result<(), AllocError>
    requires taken { is_taken (kept V.kept found.old) ≡ true }
    ensures found { OnOk result (Finds V.kept V.put found.old found.new
        (done (base_of splitting.now.context.now) action.entry (here path.old value.entry))) }
    ensures path { OnOk result (path.new ≡ path.old) }
{
    let context = splitting.context;
    let cuts = splitting.cuts;
    // Without a long list inside it is the other walk's, which has no threads to start
    // (README, Threads have their own recursion).
    if cuts.left == 0 || !is_wide(value, cuts.floor) {
        return go(context, action, value, path, found);
    }
    let Some(further) = settled::<V>(context, action, value, path)? else {
        return Ok(());
    };
    match work_items(further, value) {
        Some(work_items) => each_work_item(splitting, work_items, path, found),
        None => go(context, further, value, path, found),
    }
}

/// Each of these actions along its children.
#[cycle(split)]
fn each_work_item<'v, R: Threads + Sync, F: Fork + Sync, V: Visit + Drop + Send>(
    splitting: &Splitting<'_, 'v, R, F>,
    work_items: WorkItems<'v>,
    path: &mut PathStack<'v>,
    found: &mut Found<'v, V>,
) -> Result<(), AllocError>
    requires taken { is_taken (kept V.kept found.old) ≡ true }
    ensures found { OnOk result (Finds V.kept V.put found.old found.new
        (done_by (base_of splitting.now.context.now) (link_steps path.old) work_items.entry)) }
    ensures path { OnOk result (path.new ≡ path.old) }
{
    let mut left = work_items;
    while let Some((work_item, others)) = left.next(splitting.context.alloc)? {
        along(splitting, work_item, path, found)?;
        left = others;
    }
    Ok(())
}

/// The action of a work item at each of its children, where its test is not false of all of them.
#[cycle(split)]
fn along<'v, R: Threads + Sync, F: Fork + Sync, V: Visit + Drop + Send>(
    splitting: &Splitting<'_, 'v, R, F>,
    work_item: WorkItem<'v>,
    path: &mut PathStack<'v>,
    found: &mut Found<'v, V>,
) -> Result<(), AllocError>
    requires taken { is_taken (kept V.kept found.old) ≡ true }
    ensures found { OnOk result (Finds V.kept V.put found.old found.new
        (done_along (base_of splitting.now.context.now) (link_steps path.old) work_item.entry)) }
    ensures path { OnOk result (path.new ≡ path.old) }
{
    let Some(action) = settled_along(splitting.context, work_item.action) else {
        return Ok(());
    };
    let children = ChildRange::counted(&work_item.children);
    each_of(splitting, action, children, path, found)
}

/// The action at each of these children, of which halves are walked at once where they are many.
#[cycle(split)]
fn each_of<'v, R: Threads + Sync, F: Fork + Sync, V: Visit + Drop + Send>(
    splitting: &Splitting<'_, 'v, R, F>,
    action: Action<'v>,
    children: ChildRange<'_, 'v>,
    path: &mut PathStack<'v>,
    found: &mut Found<'v, V>,
) -> Result<(), AllocError>
    requires taken { is_taken (kept V.kept found.old) ≡ true }
    ensures found { OnOk result (Finds V.kept V.put found.old found.new (flat_map
        (done (base_of splitting.now.context.now) action.entry)
        (range_nodes (link_steps path.old) children.entry))) }
    ensures path { OnOk result (path.new ≡ path.old) }
{
    let cuts = splitting.cuts;
    if cuts.left == 0 {
        return whole(splitting.context, action, children, path, found);
    }
    // `Cuts` has a floor of 2 or more, but no field says so: one child has no two smaller halves.
    if !children.has(cuts.floor.max(2)) {
        return one_by_one(splitting, action, children, path, found);
    }
    let further = Splitting {
        cuts: Cuts {
            left: cuts.left - 1,
            ..cuts
        },
        ..*splitting
    };
    let (left, right) = children.halves();
    // A path stack and a visitor for each half, and the visitors are joined in order
    // (README, Each half walks by itself).
    let mine = fresh(found, splitting.context.alloc);
    let other = fresh(found, splitting.context.alloc);
    let at = path.links();
    let one = HalfGiven {
        splitting: &further,
        action,
        children: left,
        at,
    };
    let two = HalfGiven {
        children: right,
        ..one
    };
    let (first, second) = join(
        splitting.rt,
        || -> Result<V, AllocError>
            requires { IsSync R.row × IsSync F.row }
            ensures { IfOk result (λ t. taken (V.kept t)
                ≡ plus (put_found V.put) (taken (V.kept mine))
                (flat_map (done (base_of one.entry.splitting.now.context.now) one.entry.action)
                (range_nodes (link_steps one.entry.at.now) one.entry.children))) }
        {
            one.splitting.fork.half(0);
            half(&one, mine)
        },
        || -> Result<V, AllocError>
            requires { IsSync R.row × IsSync F.row }
            ensures { IfOk result (λ t. taken (V.kept t)
                ≡ plus (put_found V.put) (taken (V.kept other))
                (flat_map (done (base_of two.entry.splitting.now.context.now) two.entry.action)
                (range_nodes (link_steps two.entry.at.now) two.entry.children))) }
        {
            two.splitting.fork.half(1);
            half(&two, other)
        },
    );
    append(found, first?)?;
    append(found, second?)
}

/// The action at each of these children, of which no list is cut any more.
fn whole<'v, V: Visit + Drop>(
    context: &Context<'v>,
    action: Action<'v>,
    children: ChildRange<'_, 'v>,
    path: &mut PathStack<'v>,
    found: &mut Found<'v, V>,
) -> Result<(), AllocError>
    ensures found { OnOk result (Finds V.kept V.put found.old found.new (flat_map
        (done (base_of context.now) action.entry) (range_nodes (link_steps path.old) children.entry))) }
    ensures path { OnOk result (path.new ≡ path.old) }
{
    match action {
        Action::Test(test, rest) => sift(context, test, rest, children, path, found),
        _ => walk::each_of(context, action, children, path, found),
    }
}

/// The action at each of the children of a half, for a visitor of its own.
#[cycle(split)]
fn half<'v, R: Threads + Sync, F: Fork + Sync, V: Visit + Drop + Send>(
    given: &HalfGiven<'_, '_, '_, '_, 'v, R, F>,
    visitor: V,
) -> Result<V, AllocError>
    ensures { IfOk result (λ t. taken (V.kept t) ≡ plus (put_found V.put) (taken (V.kept visitor))
        (flat_map (done (base_of given.now.splitting.now.context.now) given.now.action)
        (range_nodes (link_steps given.now.at.now) given.now.children))) }
{
    let mut path = path_stack_of(given.splitting.context.alloc, given.at)?;
    let mut found = Found::Visitor(visitor);
    each_of(
        given.splitting,
        given.action,
        given.children,
        &mut path,
        &mut found,
    )?;
    Ok(visitor_of(found))
}

/// The action at each of these children, one after another.
#[cycle(split)]
fn one_by_one<'v, R: Threads + Sync, F: Fork + Sync, V: Visit + Drop + Send>(
    splitting: &Splitting<'_, 'v, R, F>,
    action: Action<'v>,
    children: ChildRange<'_, 'v>,
    path: &mut PathStack<'v>,
    found: &mut Found<'v, V>,
) -> Result<(), AllocError>
    requires taken { is_taken (kept V.kept found.old) ≡ true }
    ensures found { OnOk result (Finds V.kept V.put found.old found.new (flat_map
        (done (base_of splitting.now.context.now) action.entry)
        (range_nodes (link_steps path.old) children.entry))) }
    ensures path { OnOk result (path.new ≡ path.old) }
{
    let mut rest = children;
    while let Some((child, others)) = rest.split_first() {
        if is_full(found) {
            return Ok(());
        }
        path.push(child.link)?;
        go_split(splitting, action, child.part, path, found)?;
        path.pop();
        rest = others;
    }
    Ok(())
}

/// The action where its test is decided, or nothing where it is false of the value.
fn settled<'v, V: Visit + Drop>(
    context: &Context<'v>,
    action: Action<'v>,
    value: Part<'v>,
    path: &mut PathStack<'v>,
) -> Result<Option<Action<'v>>, AllocError>
    ensures action { IfOk result (λ o. MatchOption o
        (done (base_of context.now) action.entry (here path.old value.entry) ≡ [])
        (λ t. done (base_of context.now) t (here path.old value.entry)
        ≡ done (base_of context.now) action.entry (here path.old value.entry))) }
    ensures path { OnOk result (path.new ≡ path.old) }
{
    match action {
        Action::Test(test, rest) => {
            let holds = holds::<V>(context, test, value, path)?;
            if holds {
                Ok(Some(Action::Run(rest)))
            } else {
                Ok(None)
            }
        }
        Action::Run(_) => Ok(Some(action)),
        Action::Descend(_, _) => Ok(Some(action)),
    }
}

/// The action along the children of a value, or nothing where its test is false of all of them.
fn settled_along<'v>(context: &Context<'v>, action: Action<'v>) -> Option<Action<'v>>
    ensures { (ns : List Node) → MatchOption result
        (flat_map (done (base_of context.now) action.entry) ns ≡ [])
        (λ t. flat_map (done (base_of context.now) t) ns
        ≡ flat_map (done (base_of context.now) action.entry) ns) }
{
    match action {
        Action::Test(test, rest) => match context.known_truth(test) {
            Some(true) => Some(Action::Run(rest)),
            Some(false) => None,
            None => Some(action),
        },
        Action::Run(_) => Some(action),
        Action::Descend(_, _) => Some(action),
    }
}

/// A path stack of its own, of these links.
fn path_stack_of<'v>(alloc: Global, links: &[Link<'v>]) -> Result<PathStack<'v>, AllocError>
    ensures { IfOk result (λ t. t ≡ links.now) }
{
    let mut path_stack = PathStack::new(alloc);
    for link in links {
        path_stack.push(*link)?;
    }
    Ok(path_stack)
}
