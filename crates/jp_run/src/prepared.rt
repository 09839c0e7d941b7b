//! What is asked, read and compiled before a run.

ghost use Rattle.std.specs.Prelude.{◌≡◌, ◌<◌, ◌≤◌, ◌^◌, ◌⊎◌, ◌↔◌, false, Err, IfOk, IfErr, IsErrOf};
ghost use Rattle.std.specs.Prelude.{option_map};
ghost use Rattle.std.specs.Str.{chars};
ghost use Rattle.jp_tree.specs.declared.fault.QueryFault.{QueryFault as Refusal};
ghost use Rattle.jp_tokens.specs.Depth.{bracket_depth, max_depth};
ghost use Rattle.jp_check.specs.Plan.{planned_query};
ghost use Rattle.jp_check.specs.PlannedFilter.{planned_filter};
ghost use Rattle.jp_check.specs.Verdict.{IsAcceptedIn, IsVerdictIn};
ghost use Rattle.jp_eval.specs.Filter.{asked_filter};
ghost use Rattle.jp_run.specs.AskedTexts.{AreAcceptedIn, AreRefusedIn, IsFilterOf, IsFilterRefused, texts};

use crate::buffers::Buffers;
use crate::ends::{Sink, Source};
use crate::fault::RunFault;
use crate::job::Job;
use crate::running::{Totals, answer_in_form};
use crate::settings::Settings;
use jp_answer::{Crew, Gate};
use jp_check::{FilterPlan, Plan, filter_in, plan_in};
use jp_eval::DocumentFilter;
use jp_number::Numbers;
use jp_tree::QueryFault;
use std::alloc::Global;
use std::thread::Threads;

/// A query, and perhaps a filter of the documents that are answered, which are accepted: what is asked of one
/// input after another is read and compiled once.
#[derive(Drop)]
pub struct Prepared {
    plan: Plan,
    filter: Option<FilterPlan>,
}

impl Prepared {
    ghost use Rattle.jp_run.specs.AskedTexts.{AskedTexts};
    ghost use Rattle.jp_run.specs.Prepared.{prepared_query};
    ghost use Rattle.jp_run.specs.Ran.{IsRunOf};

    /// What these texts spell, whose literals may be these numbers.
    ///
    /// # Errors
    ///
    /// [`RunFault::Query`] where the query is refused, else [`RunFault::Filter`] where the filter is, and
    /// [`RunFault::Memory`] where a growth of memory was refused.
    pub fn new(
        alloc: Global,
        query: &str,
        filter: Option<&str>,
        numbers: Numbers,
    ) -> Result<Prepared, RunFault>
        ensures ok { IfOk result (λ p. AreAcceptedIn numbers (texts query.now filter.entry)
            (prepared_query p)) }
        ensures fault { IfErr result (λ fault. (fault ≡ RunFault.Memory)
            ⊎ AreRefusedIn numbers (texts query.now filter.entry) fault) }
        ensures too_deep { IsErrOf result (RunFault.Query QueryFault.TooDeep)
            ↔ (max_depth < bracket_depth (chars query.now)) }
    {
        let plan = plan_of(alloc, query, numbers)?;
        let filter = filter_plan_of(alloc, filter, numbers)?;
        Ok(Prepared { plan, filter })
    }

    /// The plan of the query. It takes no memory.
    pub fn plan(&self) -> &Plan
        ensures { planned_query result.now ≡ (prepared_query self.now).query }
    {
        &self.plan
    }

    /// The plan of the filter, if there is one. It takes no memory.
    pub fn filter(&self) -> Option<&FilterPlan>
        ensures { option_map (λ filter. planned_filter filter.now) result ≡ (prepared_query self.now).filter }
    {
        self.filter.as_ref()
    }

    /// Runs what is prepared over all documents of the source, as [`run`](crate::run) does where the texts
    /// are those that it was prepared of: by these settings, but for their filter. It reads into what the
    /// buffers keep, and leaves them what the next run reads into. Neither end has failed before, and the
    /// counts of the source are at most 2^62.
    ///
    /// # Errors
    ///
    /// Those of [`run`](crate::run), but that nothing is refused.
    pub fn run<R: Threads + Sync, S: Source<K>, K: Sink, G: Gate + Sync>(
        &self,
        crew: &Crew<R, G>,
        settings: &Settings<'_>,
        buffers: &mut Buffers,
        source: &mut S,
        sink: &mut K,
    ) -> Result<Totals, RunFault>
        requires working { (S.failed source.old ≡ false) × (K.failed sink.old ≡ false) }
        requires few { (S.reads source.old ≤ 2 ^ 62) × (S.given source.old ≤ 2 ^ 62) }
        ensures ran { (asked : AskedTexts)
            → AreAcceptedIn settings.now.numbers asked (prepared_query self.now)
            → IsRunOf asked settings.now S.Supply K.Sink source.old source.new sink.old sink.new result }
    {
        let layout = settings.layout(crew.alloc)?;
        let job = Job {
            crew: Crew {
                rt: crew.rt,
                alloc: crew.alloc,
                gate: crew.gate,
            },
            query: self.plan.compiled(),
            filter: self.document_filter(crew.alloc),
            settings: *settings,
            layout: &layout,
        };
        answer_in_form(&job, buffers, source, sink)
    }

    /// What asks the filter, if there is one, of documents. It takes no memory.
    fn document_filter(&self, alloc: Global) -> Option<DocumentFilter<'_>>
        ensures { option_map asked_filter result ≡ (prepared_query self.now).filter }
    {
        match &self.filter {
            Some(plan) => DocumentFilter::new(alloc, plan.compiled()),
            None => None,
        }
    }
}

/// The plan of a query's text, whose literals may be these numbers.
fn plan_of(alloc: Global, query: &str, numbers: Numbers) -> Result<Plan, RunFault>
    ensures ok { IfOk result (λ p. IsAcceptedIn numbers (chars query.now) (planned_query p)) }
    ensures fault { IfErr result (λ fault. (fault ≡ RunFault.Memory)
        ⊎ ((f : Refusal) × (fault ≡ RunFault.Query f) × IsVerdictIn numbers (chars query.now) (Err f))) }
    ensures too_deep { IsErrOf result (RunFault.Query QueryFault.TooDeep)
        ↔ (max_depth < bracket_depth (chars query.now)) }
{
    match plan_in(alloc, query, numbers) {
        Ok(plan) => Ok(plan),
        Err(QueryFault::Memory) => Err(RunFault::Memory),
        Err(fault) => Err(RunFault::Query(fault)),
    }
}

/// The plan of a filter's text, if there is one, whose literals may be these numbers.
fn filter_plan_of(
    alloc: Global,
    filter: Option<&str>,
    numbers: Numbers,
) -> Result<Option<FilterPlan>, RunFault>
    ensures ok { IfOk result (λ p. IsFilterOf numbers (option_map (λ f. chars f.now) filter.entry)
        (option_map planned_filter p)) }
    ensures fault { IfErr result (λ fault. (fault ≡ RunFault.Memory) ⊎ ((f : Refusal)
        × (fault ≡ RunFault.Filter f)
        × IsFilterRefused numbers (option_map (λ f. chars f.now) filter.entry) f)) }
{
    let Some(text) = filter else {
        return Ok(None);
    };
    match filter_in(alloc, text, numbers) {
        Ok(plan) => Ok(Some(plan)),
        Err(QueryFault::Memory) => Err(RunFault::Memory),
        Err(fault) => Err(RunFault::Filter(fault)),
    }
}
