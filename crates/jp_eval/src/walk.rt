//! The walk of a query through a document, depth first, on one path.

ghost use Rattle.std.specs.Prelude.{◌≡◌, ◌<◌, [], ◌∷◌, IfOk, IfSome, IfNone, OnOk, IsTrue, true};
ghost use Rattle.std.specs.List.{flat_map, list_any, list_all};
ghost use Rattle.jp_doc.specs.Height.{height};
ghost use Rattle.jp_doc.specs.Location.{Location, node};
ghost use Rattle.jp_node.specs.Links.{link_steps};
ghost use Rattle.jp_node.specs.Part.{part_value};
ghost use Rattle.jp_value.specs.Comparison.{compared};
ghost use Rattle.jp_value.specs.Kinds.{given_value};
ghost use Rattle.jp_found.specs.Aggregates.{tells};
ghost use Rattle.jp_eval.specs.inner.Finding.{Finds};
ghost use Rattle.jp_node.specs.ChildRanges.{range_nodes, of_flat_items, flat_member_nodes};
ghost use Rattle.jp_eval.specs.inner.Opened.{AreChildren};
ghost use Rattle.jp_found.specs.Links.{here};
ghost use Rattle.jp_node.specs.ChildNodes.{child_node};
ghost use Rattle.jp_node.specs.Nodes.{children, items_at};
ghost use Rattle.jp_node.specs.Selected.{index_places};
ghost use Rattle.jp_eval.specs.inner.Base.{Base, base_of};
ghost use Rattle.jp_eval.specs.inner.Walk.{picked, picked_by, reached, is_true, value_given, nodes_given};
ghost use Rattle.jp_eval.specs.inner.Walk.{done, sifted};

use crate::context::Context;
use crate::local::{decided, is_local};
use crate::singular::answer_of;
use jp_compiled::{CompiledLogical, CompiledSegment, CompiledSelector, Giver, Nodes, Want};
use jp_flat::{FlatItems, FlatMember};
use jp_found::{
    Aggregate, Found, add, has_first, into_aggregate, is_full, none_found, of_distinct, operand,
};
use jp_node::{
    Child, ChildRange, Kind, Link, Part, PathStack, Visit, children_of, first_item, member_at,
    place_in, sliced, structured_children_of,
};
use jp_tree::Operator;
use jp_value::{
    bounds_of, compare_kinds, compare_ordered, exactly_one, length, literal, matches,
    matches_known, matches_read, searches, searches_known, searches_read, turned,
};
use std::alloc::AllocError;

/// What is done at a value.
#[derive(Clone, Copy)]
pub(crate) enum Action<'v> {
    /// The segments.
    Run(&'v [CompiledSegment]),
    /// The selectors at the value and at each descendant, and then the segments.
    Descend(&'v [CompiledSelector], &'v [CompiledSegment]),
    /// The segments, where the expression is true of the value.
    Test(&'v CompiledLogical, &'v [CompiledSegment]),
}

/// A value, with the range of all its children where they are listed already.
#[derive(Clone, Copy)]
pub(crate) struct Opened<'c, 'v> {
    value: Part<'v>,
    range: Option<ChildRange<'c, 'v>>,
}

/// Items that have a place below another, where the first has this one.
#[derive(Clone, Copy)]
pub(crate) struct ItemRange<'v> {
    rest: FlatItems<'v>,
    place: u32,
    past: u32,
}

/// The item that an index selects, if there is one.
fn item_child<'v>(index: i64, value: Part<'v>) -> Option<Child<'v>>
    ensures some { IfSome result (λ child. (at : Location)
        → items_at (node at (part_value value.entry)) (index_places index (part_value value.entry))
        ≡ child_node at child ∷ []) }
    ensures none { IfNone result ((at : Location)
        → items_at (node at (part_value value.entry)) (index_places index (part_value value.entry)) ≡ []) }
    ensures below { IfSome result (λ child. height (part_value child.part)
        < height (part_value value.entry)) }
{
    let Some(place) = place_in(index, value) else {
        return None;
    };
    let Some(part) = value.item(place) else {
        return None;
    };
    Some(Child {
        link: Link::Index(place),
        part,
    })
}

/// Whether the action finds nothing at the value, since it goes down, and nothing is inside.
#[inline(always)]
fn is_idle(action: Action<'_>, value: Part<'_>) -> bool
    ensures { IsTrue result → (base : Base) (at : Location)
        → done base action.entry (node at (part_value value.entry)) ≡ [] }
{
    match action {
        Action::Descend(_, _) => value.is_scalar(),
        Action::Run(_) => false,
        Action::Test(_, _) => false,
    }
}

/// Whether these selectors find what they select without a list of the children.
// It tells only which way is quicker: either finds the same.
#[inline(always)]
fn list_nothing(selectors: &[CompiledSelector]) -> bool {
    for selector in selectors {
        match selector {
            CompiledSelector::Name(_) => (),
            CompiledSelector::Index(_) => (),
            CompiledSelector::Slice(_) => (),
            CompiledSelector::Wild => return false,
            CompiledSelector::Filter(_) => return false,
        }
    }
    true
}

#[cycle(walk)]
pub(crate) fn go<'v, V: Visit + Drop>(
    context: &Context<'v>,
    action: Action<'v>,
    value: Part<'v>,
    path: &mut PathStack<'v>,
    found: &mut Found<'v, V>,
) -> Result<(), AllocError>
    ensures found { OnOk result (Finds V.kept V.put found.old found.new
        (done (base_of context.now) action.entry (here path.old value.entry))) }
    ensures path { OnOk result (path.new ≡ path.old) }
{
    match action {
        Action::Run(rest) => run(context, rest, value, path, found),
        Action::Descend(selectors, rest) => {
            if list_nothing(selectors) {
                let opened = Opened { value, range: None };
                apply(context, selectors, rest, opened, path, found)?;
                // What is neither an array nor an object has nothing below it.
                let children = structured_children_of(context.alloc, value)?;
                return each_of(context, action, ChildRange::all(&children), path, found);
            }
            let children = children_of(context.alloc, value)?;
            let range = ChildRange::all(&children);
            // They are listed once, for the selectors and to go down.
            let opened = Opened {
                value,
                range: Some(range),
            };
            apply(context, selectors, rest, opened, path, found)?;
            each_of(context, action, range, path, found)
        }
        Action::Test(test, rest) => {
            if holds::<V>(context, test, value, path)? {
                run(context, rest, value, path, found)?;
            }
            Ok(())
        }
    }
}

/// The segments from the value on.
// Each node passes through it, most often with no segment left.
#[inline(always)]
#[cycle(walk)]
pub(crate) fn run<'v, V: Visit + Drop>(
    context: &Context<'v>,
    segments: &'v [CompiledSegment],
    value: Part<'v>,
    path: &mut PathStack<'v>,
    found: &mut Found<'v, V>,
) -> Result<(), AllocError>
    ensures found { OnOk result (Finds V.kept V.put found.old found.new
        (reached (base_of context.now) segments.now (here path.old value.entry ∷ []))) }
    ensures path { OnOk result (path.new ≡ path.old) }
{
    match segments.split_first() {
        None => add(context.alloc, path, value, found),
        Some((segment, rest)) => {
            let selectors = segment.selectors.as_slice();
            if segment.deep {
                go(
                    context,
                    Action::Descend(selectors, rest),
                    value,
                    path,
                    found,
                )
            } else {
                let opened = Opened { value, range: None };
                apply(context, selectors, rest, opened, path, found)
            }
        }
    }
}

/// Each selector at the value, and then the segments.
#[cycle(walk)]
fn apply<'v, V: Visit + Drop>(
    context: &Context<'v>,
    selectors: &'v [CompiledSelector],
    rest: &'v [CompiledSegment],
    opened: Opened<'_, 'v>,
    path: &mut PathStack<'v>,
    found: &mut Found<'v, V>,
) -> Result<(), AllocError>
    requires opened { AreChildren opened }
    ensures found { OnOk result (Finds V.kept V.put found.old found.new
        (reached (base_of context.now) rest.now
        (picked_by (base_of context.now) selectors.now (here path.old opened.entry.value)))) }
    ensures path { OnOk result (path.new ≡ path.old) }
{
    for selector in selectors {
        if is_full(found) {
            return Ok(());
        }
        select(context, selector, rest, opened, path, found)?;
    }
    Ok(())
}

/// One selector at the value, and then the segments.
#[cycle(walk)]
fn select<'v, V: Visit + Drop>(
    context: &Context<'v>,
    selector: &'v CompiledSelector,
    rest: &'v [CompiledSegment],
    opened: Opened<'_, 'v>,
    path: &mut PathStack<'v>,
    found: &mut Found<'v, V>,
) -> Result<(), AllocError>
    requires opened { AreChildren opened }
    ensures found { OnOk result (Finds V.kept V.put found.old found.new
        (reached (base_of context.now) rest.now
        (picked (base_of context.now) selector.now (here path.old opened.entry.value)))) }
    ensures path { OnOk result (path.new ≡ path.old) }
{
    let value = opened.value;
    match selector {
        CompiledSelector::Name(name) => {
            if let Some(child) = value.member(name.as_str()) {
                path.push(Link::Name(name.as_str()))?;
                run(context, rest, child, path, found)?;
                path.pop();
            }
            Ok(())
        }
        CompiledSelector::Wild => each_child(context, Action::Run(rest), opened, path, found),
        CompiledSelector::Index(index) => match item_child(index.value, value) {
            Some(child) => at_child(context, Action::Run(rest), child, path, found),
            None => Ok(()),
        },
        CompiledSelector::Slice(slice) => {
            let bounds = bounds_of(slice, value.item_count());
            let children = sliced(context.alloc, value, bounds)?;
            let children = ChildRange::Listed(children.as_slice());
            each_of(context, Action::Run(rest), children, path, found)
        }
        // What asks nothing of the current node is as true of each child: it was answered once a document.
        CompiledSelector::Filter(test) => match context.known_truth(test) {
            Some(true) => each_child(context, Action::Run(rest), opened, path, found),
            Some(false) => Ok(()),
            None => sift_children(context, test, rest, opened, path, found),
        },
    }
}

/// The action at each child of the value.
#[cycle(walk)]
fn each_child<'v, V: Visit + Drop>(
    context: &Context<'v>,
    action: Action<'v>,
    opened: Opened<'_, 'v>,
    path: &mut PathStack<'v>,
    found: &mut Found<'v, V>,
) -> Result<(), AllocError>
    requires opened { AreChildren opened }
    ensures found { OnOk result (Finds V.kept V.put found.old found.new (flat_map
        (done (base_of context.now) action.entry) (children (here path.old opened.entry.value)))) }
    ensures path { OnOk result (path.new ≡ path.old) }
{
    if let Some(children) = opened.range {
        return each_of(context, action, children, path, found);
    }
    let children = children_of(context.alloc, opened.value)?;
    each_of(context, action, ChildRange::all(&children), path, found)
}

/// The action at each of these children, one after another.
#[cycle(walk)]
pub(crate) fn each_of<'v, V: Visit + Drop>(
    context: &Context<'v>,
    action: Action<'v>,
    children: ChildRange<'_, 'v>,
    path: &mut PathStack<'v>,
    found: &mut Found<'v, V>,
) -> Result<(), AllocError>
    ensures found { OnOk result (Finds V.kept V.put found.old found.new (flat_map
        (done (base_of context.now) action.entry) (range_nodes (link_steps path.old) children.entry))) }
    ensures path { OnOk result (path.new ≡ path.old) }
{
    // Members and items, which most are, have loops of their own: a range is many words to hand on.
    match children {
        ChildRange::Members(range) => each_member(context, action, range.members, path, found),
        ChildRange::Items(items, place, past) => {
            let rest = items.items;
            let items = ItemRange { rest, place, past };
            each_item(context, action, items, path, found)
        }
        ChildRange::Listed(_) => each_in(context, action, children, path, found),
    }
}

/// The action at each of these members.
#[cycle(walk)]
fn each_member<'v, V: Visit + Drop>(
    context: &Context<'v>,
    action: Action<'v>,
    members: &[FlatMember<'v>],
    path: &mut PathStack<'v>,
    found: &mut Found<'v, V>,
) -> Result<(), AllocError>
    ensures found { OnOk result (Finds V.kept V.put found.old found.new (flat_map
        (done (base_of context.now) action.entry)
        (flat_member_nodes (link_steps path.old) members.now))) }
    ensures path { OnOk result (path.new ≡ path.old) }
{
    let mut index = 0;
    while let Some(child) = member_at(members, index) {
        if is_full(found) {
            return Ok(());
        }
        index += 1;
        at_child(context, action, child, path, found)?;
    }
    Ok(())
}

/// The action at each of these items.
#[cycle(walk)]
fn each_item<'v, V: Visit + Drop>(
    context: &Context<'v>,
    action: Action<'v>,
    items: ItemRange<'v>,
    path: &mut PathStack<'v>,
    found: &mut Found<'v, V>,
) -> Result<(), AllocError>
    ensures found { OnOk result (Finds V.kept V.put found.old found.new (flat_map
        (done (base_of context.now) action.entry) (range_nodes (link_steps path.old)
        (of_flat_items items.entry.rest items.entry.place items.entry.past)))) }
    ensures path { OnOk result (path.new ≡ path.old) }
{
    let ItemRange {
        mut rest,
        mut place,
        past,
    } = items;
    while let Some((child, others)) = first_item(rest, place, past) {
        if is_full(found) {
            return Ok(());
        }
        rest = others;
        place += 1;
        at_child(context, action, child, path, found)?;
    }
    Ok(())
}

/// The action at each child of this range.
#[cycle(walk)]
fn each_in<'v, V: Visit + Drop>(
    context: &Context<'v>,
    action: Action<'v>,
    children: ChildRange<'_, 'v>,
    path: &mut PathStack<'v>,
    found: &mut Found<'v, V>,
) -> Result<(), AllocError>
    ensures found { OnOk result (Finds V.kept V.put found.old found.new (flat_map
        (done (base_of context.now) action.entry) (range_nodes (link_steps path.old) children.entry))) }
    ensures path { OnOk result (path.new ≡ path.old) }
{
    let mut rest = children;
    while let Some((child, others)) = rest.split_first() {
        if is_full(found) {
            return Ok(());
        }
        rest = others;
        at_child(context, action, child, path, found)?;
    }
    Ok(())
}

/// The action at a child of the value at the path.
// Each turn of a loop over children passes through it.
#[inline(always)]
#[cycle(walk)]
fn at_child<'v, V: Visit + Drop>(
    context: &Context<'v>,
    action: Action<'v>,
    child: Child<'v>,
    path: &mut PathStack<'v>,
    found: &mut Found<'v, V>,
) -> Result<(), AllocError>
    ensures found { OnOk result (Finds V.kept V.put found.old found.new
        (done (base_of context.now) action.entry (child_node (link_steps path.old) child.entry))) }
    ensures path { OnOk result (path.new ≡ path.old) }
{
    // Most nodes that a descent comes to are scalars: they cost no link and no list of children.
    if is_idle(action, child.part) {
        return Ok(());
    }
    path.push(child.link)?;
    go(context, action, child.part, path, found)?;
    path.pop();
    Ok(())
}

/// The segments at each child of the value of which the expression is true.
// It is no part of `select`, through which each selector goes.
#[cycle(walk)]
#[inline(never)]
fn sift_children<'v, V: Visit + Drop>(
    context: &Context<'v>,
    test: &'v CompiledLogical,
    rest: &'v [CompiledSegment],
    opened: Opened<'_, 'v>,
    path: &mut PathStack<'v>,
    found: &mut Found<'v, V>,
) -> Result<(), AllocError>
    requires opened { AreChildren opened }
    ensures found { OnOk result (Finds V.kept V.put found.old found.new (flat_map
        (sifted (base_of context.now) test.now rest.now) (children (here path.old opened.entry.value)))) }
    ensures path { OnOk result (path.new ≡ path.old) }
{
    if let Some(children) = opened.range {
        return sift(context, test, rest, children, path, found);
    }
    let children = children_of(context.alloc, opened.value)?;
    sift(context, test, rest, ChildRange::all(&children), path, found)
}

/// The segments at each of these children of which the expression is true.
#[cycle(walk)]
pub(crate) fn sift<'v, V: Visit + Drop>(
    context: &Context<'v>,
    test: &'v CompiledLogical,
    rest: &'v [CompiledSegment],
    children: ChildRange<'_, 'v>,
    path: &mut PathStack<'v>,
    found: &mut Found<'v, V>,
) -> Result<(), AllocError>
    ensures found { OnOk result (Finds V.kept V.put found.old found.new (flat_map
        (sifted (base_of context.now) test.now rest.now)
        (range_nodes (link_steps path.old) children.entry))) }
    ensures path { OnOk result (path.new ≡ path.old) }
{
    // It is asked once for all of them, so that no test is answered in part for each, and then anew.
    if !is_local(test) {
        return each_of(context, Action::Test(test, rest), children, path, found);
    }
    let mut left = children;
    while let Some((child, others)) = left.split_first() {
        if is_full(found) {
            return Ok(());
        }
        left = others;
        at_sifted(context, test, rest, child, path, found)?;
    }
    Ok(())
}

/// The segments at a child of the value at the path, where the expression is true of it. A child that is not
/// selected costs no link, where its value alone decides that.
#[inline(always)]
#[cycle(walk)]
fn at_sifted<'v, V: Visit + Drop>(
    context: &Context<'v>,
    test: &'v CompiledLogical,
    rest: &'v [CompiledSegment],
    child: Child<'v>,
    path: &mut PathStack<'v>,
    found: &mut Found<'v, V>,
) -> Result<(), AllocError>
    ensures found { OnOk result (Finds V.kept V.put found.old found.new
        (sifted (base_of context.now) test.now rest.now (child_node (link_steps path.old) child.entry))) }
    ensures path { OnOk result (path.new ≡ path.old) }
{
    let Some(truth) = decided(context, test, child.part)? else {
        return at_child(context, Action::Test(test, rest), child, path, found);
    };
    if truth {
        path.push(child.link)?;
        run(context, rest, child.part, path, found)?;
        path.pop();
    }
    Ok(())
}

/// Whether the expression is true, where `@` is the value at the path.
#[cycle(walk)]
pub(crate) fn holds<'v, V: Visit + Drop>(
    context: &Context<'v>,
    test: &'v CompiledLogical,
    value: Part<'v>,
    path: &mut PathStack<'v>,
) -> Result<bool, AllocError>
    ensures truth { IfOk result (λ b. b ≡ is_true (base_of context.now) test.now
        (here path.old value.entry)) }
    ensures path { OnOk result (path.new ≡ path.old) }
{
    // No visitor is at hand here: `V` is for the cycle, which takes no call at another type
    // (README, Filters share the walk).
    match test {
        CompiledLogical::Any(parts) => any::<V>(context, parts.as_slice(), value, path),
        CompiledLogical::All(parts) => all::<V>(context, parts.as_slice(), value, path),
        CompiledLogical::Not(part) => Ok(!holds::<V>(context, part, value, path)?),
        CompiledLogical::Compare(left, operator, right) => {
            compare::<V>(context, left, *operator, right, value, path)
        }
        CompiledLogical::Test(nodes) => {
            let answer = ask::<V>(context, Want::First, nodes, value, path)?;
            Ok(has_first(answer))
        }
        CompiledLogical::Match(text, pattern) => {
            if let Some(read) = context.pattern(pattern) {
                let given = give::<V>(context, text, value, path)?;
                return matches_read(context.alloc, given, read);
            }
            let (text, pattern) = give_both::<V>(context, text, pattern, value, path)?;
            matches(context.alloc, text, pattern)
        }
        CompiledLogical::MatchRead(text, known) => {
            let text = give::<V>(context, text, value, path)?;
            matches_known(context.alloc, text, known)
        }
        CompiledLogical::Search(text, pattern) => {
            if let Some(read) = context.pattern(pattern) {
                let given = give::<V>(context, text, value, path)?;
                return searches_read(context.alloc, given, read);
            }
            let (text, pattern) = give_both::<V>(context, text, pattern, value, path)?;
            searches(context.alloc, text, pattern)
        }
        CompiledLogical::SearchRead(text, known) => {
            let text = give::<V>(context, text, value, path)?;
            searches_known(context.alloc, text, known)
        }
        CompiledLogical::Xor(_, left, _, right) => {
            // Both are always asked (README, Exclusive or needs both).
            let left = holds::<V>(context, left, value, path)?;
            let right = holds::<V>(context, right, value, path)?;
            Ok(exactly_one(left, right))
        }
        CompiledLogical::Once(slot) => Ok(context.truth(*slot)),
    }
}

#[cycle(walk)]
fn any<'v, V: Visit + Drop>(
    context: &Context<'v>,
    parts: &'v [CompiledLogical],
    value: Part<'v>,
    path: &mut PathStack<'v>,
) -> Result<bool, AllocError>
    ensures truth { IfOk result (λ b. b ≡ list_any
        (λ l. is_true (base_of context.now) l (here path.old value.entry)) parts.now) }
    ensures path { OnOk result (path.new ≡ path.old) }
{
    for part in parts {
        if holds::<V>(context, part, value, path)? {
            return Ok(true);
        }
    }
    Ok(false)
}

#[cycle(walk)]
fn all<'v, V: Visit + Drop>(
    context: &Context<'v>,
    parts: &'v [CompiledLogical],
    value: Part<'v>,
    path: &mut PathStack<'v>,
) -> Result<bool, AllocError>
    ensures truth { IfOk result (λ b. b ≡ list_all
        (λ l. is_true (base_of context.now) l (here path.old value.entry)) parts.now) }
    ensures path { OnOk result (path.new ≡ path.old) }
{
    for part in parts {
        if !holds::<V>(context, part, value, path)? {
            return Ok(false);
        }
    }
    Ok(true)
}

/// Whether the comparison is true. The members of a `$` value are in order where it is kept so.
// It is no part of `holds`, whose frame is needed once a filter in a filter.
#[cycle(walk)]
#[inline(never)]
fn compare<'v, V: Visit + Drop>(
    context: &Context<'v>,
    left: &'v Giver,
    operator: Operator,
    right: &'v Giver,
    value: Part<'v>,
    path: &mut PathStack<'v>,
) -> Result<bool, AllocError>
    ensures truth { IfOk result (λ b. b ≡ compared operator
        (value_given (base_of context.now) left.now (here path.old value.entry))
        (value_given (base_of context.now) right.now (here path.old value.entry))) }
    ensures path { OnOk result (path.new ≡ path.old) }
{
    if let Some(ordered) = context.ordered(right) {
        let given = give::<V>(context, left, value, path)?;
        return compare_ordered(context.alloc, operator, given, ordered);
    }
    if let Some(ordered) = context.ordered(left) {
        let given = give::<V>(context, right, value, path)?;
        return compare_ordered(context.alloc, turned(operator), given, ordered);
    }
    let (left, right) = give_both::<V>(context, left, right, value, path)?;
    compare_kinds(context.alloc, operator, left, right)
}

/// The two values that stand there, or nothing.
#[cycle(walk)]
fn give_both<'c, 'v, V: Visit + Drop>(
    context: &'c Context<'v>,
    left: &'v Giver,
    right: &'v Giver,
    value: Part<'v>,
    path: &mut PathStack<'v>,
) -> Result<(Option<Kind<'c>>, Option<Kind<'c>>), AllocError>
    ensures left { IfOk result (λ o. given_value o.0
        ≡ value_given (base_of context.now) left.now (here path.old value.entry)) }
    ensures right { IfOk result (λ o. given_value o.1
        ≡ value_given (base_of context.now) right.now (here path.old value.entry)) }
    ensures path { OnOk result (path.new ≡ path.old) }
{
    let left = give::<V>(context, left, value, path)?;
    let right = give::<V>(context, right, value, path)?;
    Ok((left, right))
}

/// The value that stands there, or nothing. What is kept of `$` queries is not found again.
#[cycle(walk)]
fn give<'c, 'v, V: Visit + Drop>(
    context: &'c Context<'v>,
    giver: &'v Giver,
    value: Part<'v>,
    path: &mut PathStack<'v>,
) -> Result<Option<Kind<'c>>, AllocError>
    ensures value { IfOk result (λ o. given_value o
        ≡ value_given (base_of context.now) giver.now (here path.old value.entry)) }
    ensures path { OnOk result (path.new ≡ path.old) }
{
    if let Some(given) = context.given(giver) {
        return Ok(given);
    }
    match giver {
        Giver::Constant(constant) => Ok(Some(literal(constant))),
        Giver::Single(nodes) => Ok(operand(ask::<V>(context, Want::First, nodes, value, path)?)),
        Giver::Length(of) => length(context.alloc, give::<V>(context, of, value, path)?),
        Giver::Count(nodes) => Ok(operand(ask::<V>(context, Want::Count, nodes, value, path)?)),
        Giver::Only(nodes) => Ok(operand(ask::<V>(context, Want::Only, nodes, value, path)?)),
    }
}

/// What is wanted of the nodes of a query.
#[cycle(walk)]
fn ask<'v, V: Visit + Drop>(
    context: &Context<'v>,
    want: Want,
    nodes: &'v Nodes,
    value: Part<'v>,
    path: &mut PathStack<'v>,
) -> Result<Aggregate<'v>, AllocError>
    ensures answer { IfOk result (λ a. tells want
        (nodes_given (base_of context.now) nodes.now want (here path.old value.entry)) a ≡ true) }
    ensures path { OnOk result (path.new ≡ path.old) }
{
    // One function asks for each want, here and of `$` queries alike (README, Filters share the walk).
    match nodes {
        Nodes::Here(segments) => {
            let segments = segments.as_slice();
            if let Some(answer) = answer_of(want, segments, value) {
                return Ok(answer);
            }
            let mut found = none_found::<'v, V>(context.alloc, want);
            run(context, segments, value, path, &mut found)?;
            match into_aggregate(found) {
                Some(answer) => Ok(answer),
                None => unreachable!(),
            }
        }
        Nodes::Root(slot) => Ok(context.answer(*slot, want)),
        Nodes::Distinct(nodes) => {
            let answer = ask::<V>(context, want.inside(), nodes, value, path)?;
            Ok(of_distinct(want, answer))
        }
    }
}
