//! What a filter is told of the nodes of a query, by what it wants of them.

ghost use Rattle.std.specs.Prelude.{◌≡◌, ◌∷◌, [], List, Some, is_some, length, option_map, true};
ghost use Rattle.jp_compiled.specs.Parts.{wanted_inside};
ghost use Rattle.jp_compiled.specs.declared.query.Want.TheVariants.{First, Count, Only};
ghost use Rattle.jp_doc.specs.Location.{Location, Node, node};
ghost use Rattle.jp_found.specs.Aggregates.{tells, is_of, told};
ghost use Rattle.jp_value.specs.Kinds.{given_value};
ghost use Rattle.jp_value.specs.Functions.{number_value, first_value, only_value, distinct};
ghost use Rattle.jp_found.specs.Kept.{alone_of, alone_value};
ghost use Rattle.jp_node.specs.Inside.{kind_value};
ghost use Rattle.jp_node.specs.Part.{part_value};
ghost use Rattle.jp_found.specs.declared.aggregates.Aggregate.TheVariants.{Distinct};

use crate::different::Different;
use crate::found::Alone;
use jp_compiled::Want;
use jp_node::{Kind, Part};

/// What a filter is told of the nodes of a query.
#[derive(Clone, Copy)]
pub enum Aggregate<'v> {
    /// The value of the first.
    First(Option<Part<'v>>),
    /// How many there are.
    Count(u64),
    /// The value, if there is one alone.
    Only(Alone<'v>),
    /// The same two, once each location stands there once.
    Distinct(Different<'v>),
}

/// What is told of one node alone, by its value.
pub fn of_one(want: Want, value: Part<'_>) -> Aggregate<'_>
    ensures { (at : Location) → tells want (node at (part_value value.entry) ∷ []) result ≡ true }
{
    match want {
        Want::First => Aggregate::First(Some(value)),
        Want::Count => Aggregate::Count(1),
        Want::Only => Aggregate::Only(Alone::One(value)),
        Want::Distinct => Aggregate::Distinct(Different {
            count: 1,
            alone: Alone::One(value),
        }),
    }
}

/// Whether the answer is of the kind that is wanted, be it right or wrong.
pub fn is_result_of(want: Want, answer: Aggregate<'_>) -> bool
    ensures { result ≡ is_of want answer.entry }
{
    match (want, answer) {
        (Want::First, Aggregate::First(_)) => true,
        (Want::Count, Aggregate::Count(_)) => true,
        (Want::Only, Aggregate::Only(_)) => true,
        (Want::Distinct, Aggregate::Distinct(_)) => true,
        _ => false,
    }
}

/// What is told of the nodes that `distinct` leaves, by what is told of those that it is given.
pub fn of_distinct<'v>(want: Want, answer: Aggregate<'v>) -> Aggregate<'v>
    ensures { (ns : List Node) → tells (wanted_inside want) ns answer.entry ≡ true
        → tells want (distinct ns) result ≡ true }
{
    match answer {
        Aggregate::Distinct(different) => of_different(want, different),
        Aggregate::First(_) => answer,
        Aggregate::Count(_) => answer,
        Aggregate::Only(_) => answer,
    }
}

/// The same, of how many different nodes there are, and the value of the only one.
fn of_different<'v>(want: Want, different: Different<'v>) -> Aggregate<'v>
    ensures { (ns : List Node) → tells (wanted_inside want) ns (Distinct different.entry) ≡ true
        → tells want (distinct ns) result ≡ true }
{
    match want {
        Want::Count => Aggregate::Count(different.count),
        Want::Only => Aggregate::Only(different.alone),
        Want::First => Aggregate::Distinct(different),
        Want::Distinct => Aggregate::Distinct(different),
    }
}

/// Whether there is a first node.
pub fn has_first(answer: Aggregate<'_>) -> bool
    ensures { (ns : List Node) → tells First ns answer.entry ≡ true → result ≡ is_some (first_value ns) }
{
    match answer {
        Aggregate::First(first) => first.is_some(),
        Aggregate::Count(_) => false,
        Aggregate::Only(_) => false,
        Aggregate::Distinct(_) => false,
    }
}

/// The value of the first node, the number of nodes, or the value of the only one, as it was wanted.
pub fn operand(answer: Aggregate<'_>) -> Option<Kind<'_>>
    ensures told { given_value result ≡ told answer.entry }
    ensures first { (ns : List Node) → tells First ns answer.entry ≡ true
        → option_map kind_value result ≡ first_value ns }
    ensures count { (ns : List Node) → tells Count ns answer.entry ≡ true
        → option_map kind_value result ≡ Some (number_value (length ns)) }
    ensures only { (ns : List Node) → tells Only ns answer.entry ≡ true
        → option_map kind_value result ≡ only_value ns }
{
    match answer {
        Aggregate::First(first) => first_operand(first),
        Aggregate::Count(count) => Some(Kind::Whole(count as i128)),
        Aggregate::Only(alone) => only_operand(alone),
        Aggregate::Distinct(_) => None,
    }
}

/// The value of the first, or nothing.
fn first_operand(first: Option<Part<'_>>) -> Option<Kind<'_>>
    ensures { option_map kind_value result ≡ option_map part_value first.entry }
{
    match first {
        Some(part) => Some(part.kind()),
        None => None,
    }
}

/// The value that is alone, or nothing.
fn only_operand(alone: Alone<'_>) -> Option<Kind<'_>>
    ensures { option_map kind_value result ≡ alone_value (alone_of alone.entry) }
{
    match alone {
        Alone::One(part) => Some(part.kind()),
        Alone::None => None,
        Alone::Several => None,
    }
}
