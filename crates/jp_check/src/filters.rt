//! Which filters are accepted by themselves.

ghost use Rattle.std.specs.Prelude.{◌≡◌, ◌≢◌, Ok, Err, IfOk, IfErr};
ghost use Rattle.std.specs.Str.{chars};
ghost use Rattle.jp_tree.specs.View.{text_of};
ghost use Rattle.jp_check.specs.Filter.{IsFilterVerdictIn, filter_text};
ghost use Rattle.jp_check.specs.PlannedFilter.{planned_filter, filter_numbers};

use crate::checking::plan_in;
use crate::filter_plan::FilterPlan;
use jp_number::Numbers;
use jp_tree::QueryFault;
use std::alloc::{AllocError, Global};

/// The query text with this filter: `$[?FILTER]`.
///
/// # Errors
///
/// `AllocError` where a growth of memory was refused.
pub fn filter_query_text(alloc: Global, filter: &str) -> Result<String, AllocError>
    ensures { IfOk result (λ s. text_of s ≡ filter_text (chars filter.now)) }
{
    let mut text = String::from_str(alloc, "$[?")?;
    text.push_str(filter)?;
    text.push_str("]")?;
    Ok(text)
}

/// The plan of the filter that the text spells by itself, behind `?` in `$[?FILTER]` (RFC 9535, 2.3.5), whose
/// literals may be these numbers.
///
/// # Errors
///
/// - [`QueryFault::Syntax`] where the query text with it has another selector or another segment than one
///   filter.
/// - Those of [`plan_in`] of the query text with it, whose brackets count.
///
/// [`QueryFault::Memory`] in the place of any answer where a growth of memory was refused.
pub fn filter_in(alloc: Global, text: &str, numbers: Numbers) -> Result<FilterPlan, QueryFault>
    ensures numbers { IfOk result (λ p. filter_numbers p ≡ numbers) }
    ensures ok { IfOk result (λ p. IsFilterVerdictIn numbers (chars text.now) (Ok (planned_filter p))) }
    ensures fault { IfErr result (λ f. f ≢ QueryFault.Memory
        → IsFilterVerdictIn numbers (chars text.now) (Err f)) }
{
    let query = filter_query_text(alloc, text)?;
    let plan = plan_in(alloc, query.as_str(), numbers)?;
    if plan.compiled().only_filter().is_none() {
        return Err(QueryFault::Syntax);
    }
    Ok(FilterPlan { plan })
}
