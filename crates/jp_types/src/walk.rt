//! The faults of a query, found in one walk over its tree.

ghost use Rattle.std.specs.Prelude.{◌≡◌};
ghost use Rattle.jp_tree.specs.Tree.{logicals};
ghost use Rattle.jp_tree.specs.View.{query_of};
ghost use Rattle.jp_tree.specs.PartViews as view;
ghost use Rattle.jp_types.specs.Faults.{faults_of};
ghost use Rattle.jp_types.specs.Numbers as numbers;
ghost use Rattle.jp_types.specs.Typing as typing;

use crate::faults::Faults;
use crate::functions::{FunctionType, function_named};
use crate::numbers::{literal_faults, position_faults, slice_faults};
use crate::typing::{fits_parameters, serves_as};
use jp_tree::{Argument, Call, Comparable, Comparison, Logical, Query, Segment, Selector};

/// The faults of a query.
#[cycle(walk)]
pub fn query_faults(query: &Query) -> Faults
    ensures { result ≡ faults_of (numbers.query_numbers (query_of query.now))
        (typing.query_typed (query_of query.now)) }
{
    let mut faults = Faults::NONE;
    for segment in &query.segments {
        faults = faults.with(segment_faults(segment));
    }
    faults
}

#[cycle(walk)]
fn segment_faults(segment: &Segment) -> Faults
    ensures { result ≡ faults_of (numbers.segment_numbers (view.segment_of segment.now))
        (typing.segment_typed (view.segment_of segment.now)) }
{
    let mut faults = Faults::NONE;
    for selector in &segment.selectors {
        faults = faults.with(selector_faults(selector));
    }
    faults
}

#[cycle(walk)]
fn selector_faults(selector: &Selector) -> Faults
    ensures { result ≡ faults_of (numbers.selector_numbers (view.selector_of selector.now))
        (typing.selector_typed (view.selector_of selector.now)) }
{
    match selector {
        Selector::Name(_) | Selector::Wild => Faults::NONE,
        Selector::Index(number) => position_faults(number.as_str()),
        Selector::Slice(slice) => slice_faults(slice),
        Selector::Filter(logical) => logical_faults(logical),
    }
}

#[cycle(walk)]
fn logical_faults(logical: &Logical) -> Faults
    ensures { result ≡ faults_of (numbers.logical_numbers (view.logical_of logical.now))
        (typing.logical_typed (view.logical_of logical.now)) }
{
    match logical {
        Logical::Any(parts) | Logical::All(parts) => parts_faults(parts),
        Logical::Not(part) => logical_faults(part),
        Logical::Compare(comparison) => comparison_faults(comparison),
        Logical::Test(query) => query_faults(query),
        Logical::Call(call) => {
            call_faults(call).with(Faults::of_use(serves_as(FunctionType::Logical, call)))
        }
    }
}

/// The faults of the parts of `||` or `&&`.
#[cycle(walk)]
fn parts_faults(parts: &[Logical]) -> Faults
    ensures { result ≡ faults_of (numbers.logicals_numbers (logicals (view.logicals_of parts.now)))
        (typing.logicals_typed (logicals (view.logicals_of parts.now))) }
{
    let mut faults = Faults::NONE;
    for part in parts {
        faults = faults.with(logical_faults(part));
    }
    faults
}

#[cycle(walk)]
fn comparison_faults(comparison: &Comparison) -> Faults
    ensures { result ≡ faults_of (numbers.comparison_numbers (view.comparison_of comparison.now))
        (typing.comparison_typed (view.comparison_of comparison.now)) }
{
    comparable_faults(&comparison.left).with(comparable_faults(&comparison.right))
}

#[cycle(walk)]
fn comparable_faults(side: &Comparable) -> Faults
    ensures { result ≡ faults_of (numbers.comparable_numbers (view.comparable_of side.now))
        (typing.comparable_typed (view.comparable_of side.now)) }
{
    match side {
        Comparable::Literal(literal) => literal_faults(literal),
        Comparable::Single(query) => query_faults(query),
        Comparable::Call(call) => {
            call_faults(call).with(Faults::of_use(serves_as(FunctionType::Value, call)))
        }
    }
}

#[cycle(walk)]
fn call_faults(call: &Call) -> Faults
    ensures { result ≡ faults_of (numbers.call_numbers (view.call_of call.now))
        (typing.call_typed (view.call_of call.now)) }
{
    let function = function_named(call.name.as_str());
    let fits = fits_parameters(function, call.arguments.as_slice());
    let mut faults = Faults::of_use(fits);
    for argument in &call.arguments {
        faults = faults.with(argument_faults(argument));
    }
    faults
}

#[cycle(walk)]
fn argument_faults(argument: &Argument) -> Faults
    ensures { result ≡ faults_of (numbers.argument_numbers (view.argument_of argument.now))
        (typing.argument_typed (view.argument_of argument.now)) }
{
    match argument {
        Argument::Literal(literal) => literal_faults(literal),
        Argument::Query(query) => query_faults(query),
        Argument::Logical(logical) => logical_faults(logical),
        Argument::Call(call) => call_faults(call),
    }
}
