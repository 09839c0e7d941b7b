//! Which queries are accepted.

ghost use Rattle.std.specs.Prelude.{◌≡◌, ◌≢◌, ◌<◌, ◌≤◌, ◌↔◌, Ok, Err, IfOk, IfErr, IsErrOf, OnOk, ◌&&◌};
ghost use Rattle.std.specs.Prelude.{if◌then◌else◌};
ghost use Rattle.std.specs.Str.{chars};
ghost use Rattle.jp_tree.specs.Tree.{Text};
ghost use Rattle.jp_tree.specs.View.{query_of};
ghost use Rattle.jp_tree.specs.Spelling.{Spells};
ghost use Rattle.jp_tokens.specs.Depth.{bracket_depth, max_depth};
ghost use Rattle.jp_types.specs.Numbers.{are_whole};
ghost use Rattle.jp_check.specs.Verdict.{verdict_in, IsVerdictIn, IsAcceptedIn, IsVerdict, IsAccepted};
ghost use Rattle.jp_check.specs.Plan.{planned_query, planned_numbers};

use crate::accepted::Plan;
use crate::making::make_query;
use jp_number::Numbers;
use jp_syntax::read_query;
use jp_tree::{Query, QueryFault};
use jp_types::{Faults, query_faults};
use std::alloc::Global;

/// Whether some literal has a fraction or an exponent that is refused.
fn has_refused_fraction(faults: &Faults, numbers: Numbers) -> bool
    ensures { result ≡ (are_whole numbers && faults.now.fraction) }
{
    match numbers {
        Numbers::Whole => faults.fraction,
        Numbers::Decimals => false,
    }
}

/// Whether some number is out of its range.
fn is_out_of_range(faults: &Faults, numbers: Numbers) -> bool
    ensures { result ≡ (if are_whole numbers then faults.now.out_of_range else faults.now.over_limits) }
{
    match numbers {
        Numbers::Whole => faults.out_of_range,
        Numbers::Decimals => faults.over_limits,
    }
}

/// Whether the query is accepted, and else the first fault that applies.
#[tactic(auto, using(crate::proofs::Verdicts::range_by_faults))]
fn verdict(query: &Query, numbers: Numbers) -> Result<(), QueryFault>
    ensures ok { OnOk result (verdict_in numbers (query_of query.now) ≡ Ok (query_of query.now)) }
    ensures fault { IfErr result (λ f. verdict_in numbers (query_of query.now) ≡ Err f) }
{
    let faults = query_faults(query);
    if has_refused_fraction(&faults, numbers) {
        return Err(QueryFault::Fraction);
    }
    if is_out_of_range(&faults, numbers) {
        return Err(QueryFault::Range);
    }
    if faults.ill_typed {
        return Err(QueryFault::IllTyped);
    }
    Ok(())
}

/// The plan of a query that some text within the depth limit spells (RFC 9535, 2.1), whose literals may be
/// these numbers.
///
/// # Errors
///
/// The first of these that applies:
///
/// - [`QueryFault::Fraction`] where numbers are whole and some number literal has a fraction or an exponent.
/// - [`QueryFault::Range`] where an index or a number of a slice is more than 9007199254740991 from zero, or
///   a number literal has more than 38 digits, or, with decimals, more than 1,000 digits or an exponent of
///   more than 9.
/// - [`QueryFault::IllTyped`] where a function is unknown or not used as its type allows (RFC 9535, 2.4.3).
///
/// [`QueryFault::Memory`] in the place of any answer where a growth of memory was refused.
pub fn check(alloc: Global, query: Query, numbers: Numbers) -> Result<Plan, QueryFault>
    requires spelled { ∥ ((t : Text) × (bracket_depth t ≤ max_depth) × Spells t (query_of query)) ∥₁ }
    ensures planned { IfOk result (λ p. planned_query p ≡ query_of query) }
    ensures numbers { IfOk result (λ p. planned_numbers p ≡ numbers) }
    ensures ok { IfOk result (λ p. verdict_in numbers (query_of query) ≡ Ok (query_of query)) }
    ensures fault { IfErr result (λ f. f ≢ QueryFault.Memory → verdict_in numbers (query_of query) ≡ Err f) }
{
    // First, since what compiles it has no answer for other shapes
    // (README, Only what is well-typed compiles).
    verdict(&query, numbers)?;
    let (compiled, patterns) = make_query(alloc, &query)?;
    Ok(Plan {
        query,
        patterns,
        compiled,
        numbers,
    })
}

/// The plan of the query that the text spells (RFC 9535, 2.1), whose literals may be these numbers.
///
/// # Errors
///
/// - [`QueryFault::TooDeep`] where brackets and parentheses are nested more than 64 deep. It takes no memory
///   to tell.
/// - [`QueryFault::Syntax`] where the text spells no query.
/// - Those of [`check`].
///
/// [`QueryFault::Memory`] in the place of any answer but `TooDeep` where a growth of memory was refused.
pub fn plan_in(alloc: Global, text: &str, numbers: Numbers) -> Result<Plan, QueryFault>
    ensures numbers { IfOk result (λ p. planned_numbers p ≡ numbers) }
    ensures ok { IfOk result (λ p. IsAcceptedIn numbers (chars text.now) (planned_query p)) }
    ensures fault { IfErr result (λ f. f ≢ QueryFault.Memory
        → IsVerdictIn numbers (chars text.now) (Err f)) }
    ensures too_deep { IsErrOf result QueryFault.TooDeep ↔ (max_depth < bracket_depth (chars text.now)) }
{
    check(alloc, read_query(alloc, text)?, numbers)
}

/// The same where literals are whole numbers.
///
/// # Errors
///
/// Those of [`plan_in`].
pub fn plan(alloc: Global, text: &str) -> Result<Plan, QueryFault>
    ensures numbers { IfOk result (λ p. planned_numbers p ≡ Numbers.Whole) }
    ensures ok { IfOk result (λ p. IsAccepted (chars text.now) (planned_query p)) }
    ensures fault { IfErr result (λ f. f ≢ QueryFault.Memory → IsVerdict (chars text.now) (Err f)) }
    ensures too_deep { IsErrOf result QueryFault.TooDeep ↔ (max_depth < bracket_depth (chars text.now)) }
{
    plan_in(alloc, text, Numbers::Whole)
}
