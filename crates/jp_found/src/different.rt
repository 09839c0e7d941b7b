//! What a filter wants of what `distinct` leaves: how many nodes there are, and the value of the only one.

ghost use Rattle.std.specs.Prelude.{◌≡◌, ◌++◌, ◌∷◌, [], List, None, length, map, option_map, OnOk};
ghost use Rattle.jp_doc.specs.Location.{Node};
ghost use Rattle.jp_found.specs.Different.{IsDifferent};
ghost use Rattle.jp_value.specs.Functions.{first_value, only_value, distinct, first_ones, same_location};
ghost use Rattle.jp_found.specs.Kept.{put_first, alone_of, alone_value};
ghost use Rattle.jp_found.specs.Ways.{way_location};
ghost use Rattle.jp_node.specs.Part.{part_value};
ghost use Rattle.jp_node.specs.Links.{link_steps};

use crate::found::Alone;
use crate::way::{Way, way_of};
use jp_node::{Part, PathStack};
use std::alloc::{AllocError, Global};

/// Where nodes are, and the value of the first.
#[derive(Drop)]
pub struct Located<'v> {
    /// The value of the first, if there is one.
    pub first: Option<Part<'v>>,
    /// Where each of them is, in order.
    pub ways: Vec<Way<'v>>,
}

/// How many different nodes there are, and the value, if there is one alone.
#[derive(Clone, Copy)]
pub struct Different<'v> {
    /// How many different ones there are.
    pub count: u64,
    /// The value, if there is one alone.
    pub alone: Alone<'v>,
}

/// No nodes yet. It takes no memory.
pub(crate) fn none_located<'v>(alloc: Global) -> Located<'v>
    ensures first { option_map part_value result.first ≡ None }
    ensures locations { map way_location result.ways.items ≡ [] }
{
    Located {
        first: None,
        ways: Vec::new(alloc),
    }
}

/// One node more.
///
/// `AllocError` if a growth was refused.
pub(crate) fn locate<'v>(
    alloc: Global,
    path: &PathStack<'v>,
    value: Part<'v>,
    located: &mut Located<'v>,
) -> Result<(), AllocError>
    ensures first { OnOk result (option_map part_value located.new.first
        ≡ put_first (option_map part_value located.old.first) (part_value value.entry)) }
    ensures locations { OnOk result (map way_location located.new.ways.items
        ≡ map way_location located.old.ways.items ++ link_steps path.now ∷ []) }
{
    located.ways.push(way_of(alloc, path.links())?)?;
    if located.first.is_none() {
        located.first = Some(value);
    }
    Ok(())
}

/// What there is of the nodes once each location stands there once.
pub(crate) fn each_once(located: Located<'_>) -> Different<'_>
    ensures { (ns : List Node) → option_map part_value located.entry.first ≡ first_value ns
        → map way_location located.entry.ways.items ≡ map (λ n. n.location) ns → IsDifferent result ns }
{
    let Located { first, ways } = located;
    let count = count_locations(ways);
    let alone = only_of(first, count);
    Different { count, alone }
}

/// The value of the first, where there is one alone.
fn only_of(first: Option<Part<'_>>, count: u64) -> Alone<'_>
    ensures { (ns : List Node) → option_map part_value first.entry ≡ first_value ns
        → count ≡ length (distinct ns) → alone_value (alone_of result) ≡ only_value (distinct ns) }
{
    match first {
        None => Alone::None,
        Some(value) if count == 1 => Alone::One(value),
        Some(_) => Alone::Several,
    }
}

/// How many different locations there are.
fn count_locations(ways: Vec<Way<'_>>) -> u64
    ensures { result ≡ length (first_ones same_location (map way_location ways.entry.items)) }
{
    count_different(ways) as u64
}

/// How many there are, where equal ones are counted once. It takes in the order of `n log n` comparisons.
fn count_different<T: Ord + Drop>(mut items: Vec<T>) -> usize
    ensures { result ≡ length (first_ones T.PartialEq.eq items.items) }
{
    // Sorted, so that equal ones stand side by side: to look for each among the others would take `n * n`
    // steps.
    items.sort_unstable();
    items.dedup();
    items.len()
}
