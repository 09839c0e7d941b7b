//! What is kept of the nodes that a walk finds: by the caller's visitor, or by what a filter wants of them.

ghost use Rattle.std.specs.Prelude.{◌≡◌, ◌+◌, ◌↔◌, List, true, false};
ghost use Rattle.std.specs.Prelude.{IsTrue, IfSome, IsNone, IfOk, OnOk};
ghost use Rattle.jp_compiled.specs.declared.query.Want.{Want};
ghost use Rattle.jp_doc.specs.Location.{Node};
ghost use Rattle.jp_found.specs.Aggregates.{tells};
ghost use Rattle.jp_found.specs.Kept.{kept, put_found, none_kept, taken, alone_of, put_alone, plus};
ghost use Rattle.jp_found.specs.Kept.{emptied_found, is_taken};
ghost use Rattle.jp_found.specs.Links.{here};
ghost use Rattle.jp_node.specs.Part.{part_value};

use crate::aggregates::Aggregate;
use crate::different::{Located, each_once, locate, none_located};
use jp_compiled::Want;
use jp_node::{Part, PathStack, Visit};
use std::alloc::{AllocError, Global};

/// What is kept of the nodes that a walk finds.
#[derive(Drop)]
pub enum Found<'v, V: Drop> {
    // One enum for the caller's visitor and for all that filters want: two visitors in one recursion can't be
    // had (README, One enum for all wants).
    /// What the caller keeps.
    Visitor(V),
    /// The value of the first.
    First(Option<Part<'v>>),
    /// How many there are.
    Count(u64),
    /// The value, as long as there is one alone.
    Only(Alone<'v>),
    /// Where they are, and the value of the first.
    Distinct(Located<'v>),
}

/// The values of nodes, as far as it matters whether there is exactly one.
#[derive(Clone, Copy)]
pub enum Alone<'v> {
    /// There is none.
    None,
    /// The value of the only one.
    One(Part<'v>),
    /// There are several.
    Several,
}

/// Whether a further node would change nothing.
// Each child is asked for.
#[inline(always)]
pub fn is_full<V: Visit + Drop>(found: &Found<'_, V>) -> bool
    ensures { IsTrue result → (n : Node) → put_found V.put (kept V.kept found.now) n ≡ kept V.kept found.now }
{
    match found {
        Found::Visitor(visitor) => visitor.is_full(),
        Found::First(first) => first.is_some(),
        Found::Count(_) => false,
        Found::Only(Alone::Several) => true,
        Found::Only(Alone::None | Alone::One(_)) => false,
        // A further node may be another one, so there is no end before the last.
        Found::Distinct(_) => false,
    }
}

/// Takes the node that the path leads to.
///
/// `AllocError` if a growth was refused, or where there are more nodes than a `u64` counts.
// Each node passes through it.
#[inline(always)]
pub fn add<'v, V: Visit + Drop>(
    alloc: Global,
    path: &mut PathStack<'v>,
    value: Part<'v>,
    found: &mut Found<'v, V>,
) -> Result<(), AllocError>
    ensures found { OnOk result (kept V.kept found.new
        ≡ put_found V.put (kept V.kept found.old) (here path.old value.entry)) }
    ensures path { OnOk result (path.new ≡ path.old) }
{
    match found {
        Found::Visitor(visitor) => visitor.node(alloc, path, value),
        Found::First(first) => {
            if first.is_none() {
                *first = Some(value);
            }
            Ok(())
        }
        Found::Count(count) => {
            *count = one_more(*count)?;
            Ok(())
        }
        Found::Only(alone) => {
            *alone = with_another(*alone, value);
            Ok(())
        }
        Found::Distinct(located) => locate(alloc, path, value, located),
    }
}

/// One node more. More than a `u64` counts are told as want of memory: no walk lives to find so many.
fn one_more(count: u64) -> Result<u64, AllocError>
    ensures { IfOk result (λ n. n ≡ count + 1) }
{
    count.checked_add(1).ok_or(AllocError)
}

/// The same with one value more.
fn with_another<'v>(alone: Alone<'v>, value: Part<'v>) -> Alone<'v>
    ensures { alone_of result ≡ put_alone (alone_of alone.entry) (part_value value.entry) }
{
    match alone {
        Alone::None => Alone::One(value),
        Alone::One(_) => Alone::Several,
        Alone::Several => Alone::Several,
    }
}

/// An empty visitor of the caller's kind, where the caller's is what is kept. It takes no memory.
pub fn fresh<V: Visit + Drop>(found: &Found<'_, V>, alloc: Global) -> V
    requires { is_taken (kept V.kept found.now) ≡ true }
    ensures empty { taken (V.kept result) ≡ emptied_found V.emptied (kept V.kept found.now) }
    ensures later { (ns : List Node)
        → emptied_found V.emptied (plus (put_found V.put) (kept V.kept found.now) ns)
        ≡ emptied_found V.emptied (kept V.kept found.now) }
{
    match found {
        Found::Visitor(visitor) => visitor.fresh(alloc),
        Found::First(_) | Found::Count(_) | Found::Only(_) | Found::Distinct(_) => unreachable!(),
    }
}

/// Takes the nodes that another visitor took, which began as an empty one, where the caller's visitor is
/// what is kept.
///
/// `AllocError` if a growth was refused.
pub fn append<'v, V: Visit + Drop>(found: &mut Found<'v, V>, other: V) -> Result<(), AllocError>
    requires { is_taken (kept V.kept found.old) ≡ true }
    ensures nodes { (ns : List Node) → taken (V.kept other)
        ≡ plus (put_found V.put) (emptied_found V.emptied (kept V.kept found.old)) ns
        → OnOk result (kept V.kept found.new ≡ plus (put_found V.put) (kept V.kept found.old) ns) }
    ensures visitor { is_taken (kept V.kept found.new) ≡ true }
{
    match found {
        Found::Visitor(visitor) => visitor.append(other),
        Found::First(_) | Found::Count(_) | Found::Only(_) | Found::Distinct(_) => unreachable!(),
    }
}

/// What the caller keeps, or nothing exactly where something else is kept.
fn into_visitor<'v, V: Visit + Drop>(found: Found<'v, V>) -> Option<V>
    ensures visitor { IfSome result (λ t. taken (V.kept t) ≡ kept V.kept found.entry) }
    ensures other { IsNone result ↔ (is_taken (kept V.kept found.entry) ≡ false) }
{
    match found {
        Found::Visitor(visitor) => Some(visitor),
        Found::First(_) => None,
        Found::Count(_) => None,
        Found::Only(_) => None,
        Found::Distinct(_) => None,
    }
}

/// What the caller keeps, where a walk began with it, and so ends with it (README, No false want of memory).
pub fn visitor_of<'v, V: Visit + Drop>(found: Found<'v, V>) -> V
    requires { is_taken (kept V.kept found) ≡ true }
    ensures { taken (V.kept result) ≡ kept V.kept found.entry }
{
    match into_visitor(found) {
        Some(visitor) => visitor,
        None => unreachable!(),
    }
}

/// Nothing found yet, where this is wanted of the nodes. It takes no memory.
pub fn none_found<'v, V: Visit + Drop>(alloc: Global, want: Want) -> Found<'v, V>
    ensures { kept V.kept result ≡ none_kept want }
{
    match want {
        Want::First => Found::First(None),
        Want::Count => Found::Count(0),
        Want::Only => Found::Only(Alone::None),
        Want::Distinct => Found::Distinct(none_located(alloc)),
    }
}

/// What is told of the nodes that were found, or nothing exactly where the caller's visitor has them.
pub fn into_aggregate<'v, V: Visit + Drop>(found: Found<'v, V>) -> Option<Aggregate<'v>>
    ensures answer { IfSome result (λ a. (want : Want) (ns : List Node) → kept V.kept found.entry
        ≡ plus (put_found V.put) (none_kept want) ns → tells want ns a ≡ true) }
    ensures other { IsNone result ↔ (is_taken (kept V.kept found.entry) ≡ true) }
{
    match found {
        Found::First(first) => Some(Aggregate::First(first)),
        Found::Count(count) => Some(Aggregate::Count(count)),
        Found::Only(alone) => Some(Aggregate::Only(alone)),
        Found::Distinct(located) => Some(Aggregate::Distinct(each_once(located))),
        Found::Visitor(_) => None,
    }
}
