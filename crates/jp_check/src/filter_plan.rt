//! Plans of filters: expressions that were accepted by themselves.

ghost use Rattle.std.specs.Prelude.{◌≡◌};
ghost use Rattle.jp_check.specs.Filter.{IsOneFilter};
ghost use Rattle.jp_check.specs.Plan.{planned_query};
ghost use Rattle.jp_check.specs.inner.OneFilter.{one_filter_prop};
ghost use Rattle.jp_compiled.specs.Filter.{filter_query};

use crate::accepted::Plan;
use jp_compiled::CompiledQuery;
use jp_number::Numbers;

/// A filter by itself that is well-formed, valid and well-typed: what may stand behind `?` in `$[?FILTER]`
/// (RFC 9535, 2.3.5).
#[derive(Drop)]
pub struct FilterPlan {
    /// Of the query that has this filter alone.
    pub(crate) plan: Plan,
    ghost alone: { IsOneFilter (planned_query plan) } by { one_filter_prop (planned_query plan) },
}

impl FilterPlan {
    ghost use Rattle.jp_check.specs.PlannedFilter.{planned_filter, filter_numbers};
    ghost use Rattle.jp_check.specs.Plan.{planned_numbers};
    ghost use Rattle.jp_compiled.specs.Compiled.{compiled_query};

    /// The numbers that its literals may be.
    pub fn numbers(&self) -> Numbers
        ensures { result ≡ filter_numbers self.now }
    {
        self.plan.numbers()
    }

    /// The plan of the query that has this filter alone. It takes no memory.
    pub fn plan(&self) -> &Plan
        ensures query { planned_query result.now ≡ filter_query (planned_filter self.now) }
        ensures numbers { planned_numbers result.now ≡ filter_numbers self.now }
    {
        &self.plan
    }

    /// The query that has this filter alone, compiled. It takes no memory.
    pub fn compiled(&self) -> &CompiledQuery
        ensures { compiled_query result.now ≡ filter_query (planned_filter self.now) }
    {
        self.plan.compiled()
    }
}
