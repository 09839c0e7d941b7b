//! What a run is given throughout.

ghost use Rattle.std.specs.Prelude.{◌≡◌};
ghost use Rattle.jp_run.specs.Answered.{layout_of};

use crate::settings::Settings;
use jp_answer::{Asked, Crew};
use jp_compiled::CompiledQuery;
use jp_eval::DocumentFilter;
use jp_output::Layout;

/// What a run is given throughout: what its workers are given, the query, the filter that chooses documents,
/// how the run is cut up, and what stands around what is written.
#[derive(Drop)]
pub(crate) struct Job<'a, R, G> {
    pub(crate) crew: Crew<'a, R, G>,
    pub(crate) query: &'a CompiledQuery,
    pub(crate) filter: Option<DocumentFilter<'a>>,
    pub(crate) settings: Settings<'a>,
    /// The name of the settings and a tab, and their ending.
    pub(crate) layout: &'a Layout,
    pub(crate) ghost laid: { layout.now ≡ layout_of settings },
}

impl<'a, R, G> Job<'a, R, G> {
    ghost use Rattle.jp_answer.specs.Asking.{asked_query};
    ghost use Rattle.jp_answer.specs.Policy.{policy};
    ghost use Rattle.jp_run.specs.inner.Jobs.{job_query};

    /// What is asked of all lines of the run.
    pub(crate) fn asked(&self) -> Asked<'a>
        ensures query { asked_query result ≡ job_query self.now }
        ensures layout { result.layout.now ≡ layout_of self.now.settings }
        ensures policy { result.policy
            ≡ policy self.now.settings.numbers self.now.settings.on_fault }
    {
        Asked {
            query: self.query,
            filter: self.filter,
            layout: self.layout,
            policy: self.settings.policy(),
            workers: self.settings.workers,
        }
    }
}
