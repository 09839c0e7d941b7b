//! A run over a collection.

ghost use Rattle.std.specs.Prelude.{◌≡◌, ◌+◌, ◌^◌, ◌<◌, ◌≤◌, ◌⊎◌, ◌↔◌, ℕ, List, length, false, true, Some};
ghost use Rattle.std.specs.Prelude.{None, Err, IfOk, IfErr, OnOk, OnErr, IfSome, IsErrOf};
ghost use Rattle.std.specs.Io.KnownBytes.{Appends, Consumes, IsAtEnd};
ghost use Rattle.std.specs.Str.{chars};
ghost use Rattle.jp_doc.specs.declared.fault.DocFault.{DocFault as Fault};
ghost use Rattle.jp_tree.specs.declared.fault.QueryFault.{QueryFault as Refusal};
ghost use Rattle.jp_tokens.specs.Depth.{bracket_depth, max_depth};
ghost use Rattle.jp_check.specs.Verdict.{IsVerdictIn};
ghost use Rattle.jp_answer.specs.Answer.{Answer};
ghost use Rattle.jp_answer.specs.FilteredQuery.{FilteredQuery};
ghost use Rattle.jp_answer.specs.declared.on_fault.OnFault.TheVariants.{Stop, KeepGoing};
ghost use Rattle.jp_run.specs.Answered.{IsAnswerBy, manner_in, manner_of, numbering_of, passed_in};
ghost use Rattle.jp_run.specs.AskedTexts.{AreAcceptedIn, AreRefusedIn, IsFilterRefused, asked_by};
ghost use Rattle.jp_run.specs.Begun.{AllSince};
ghost use Rattle.jp_run.specs.Counts.{counted};
ghost use Rattle.jp_run.specs.Cutting.{documents, documents_in, last_number, part_count};
ghost use Rattle.jp_run.specs.inner.Running.{HasRun};
ghost use Rattle.jp_run.specs.Handed.{IsHandedBy};
ghost use Rattle.jp_run.specs.Limits.{max_reads, max_lines, window};
ghost use Rattle.jp_run.specs.Prompt.{IsNear, IsPrompt};
ghost use Rattle.jp_run.specs.Written.{AppendsFront, IsPassedOn};

use crate::buffers::Buffers;
use crate::ends::{Sink, Source};
use crate::fault::RunFault;
use crate::gathering::Came;
use crate::job::Job;
use crate::limits::MAX_READS;
use crate::output::Output;
use crate::prepared::Prepared;
use crate::settings::Settings;
use crate::settling::{answer_before_failure, answer_rest};
use crate::stream::Stream;
use crate::turns::turn;
use crate::writing::pass_on;
use jp_answer::{Crew, Gate};
use jp_output::{Form, InputLines, NodeLines, RawLines, RowLines, TextLines, ValueLines};
use jp_tree::QueryFault;
use std::alloc::Global;
use std::thread::Threads;

/// What a finished run has seen.
#[derive(Clone, Copy, Debug, PartialEq, Eq)]
pub struct Totals {
    /// The number of lines of the input, blank ones too.
    pub lines: u64,
    /// The number of lines that aren't blank, each of which held a document or is a faulty one.
    pub documents: u64,
    /// The number of faulty lines: 0 where the answer doesn't keep going.
    pub faulty: u64,
    /// The number of bytes of the answer, which stops at 18446744073709551615. It is 0 exactly where nothing
    /// is selected and no faulty line was told.
    pub wrote: u64,
}

impl Totals {
    /// The status that a program ends with: 3 where lines are faulty, else 0.
    pub fn status(&self) -> u8
        ensures faulty { 0 < self.now.faulty → result ≡ 3 }
        ensures fine { self.now.faulty ≡ 0 → result ≡ 0 }
    {
        if self.faulty > 0 { 3 } else { 0 }
    }
}

/// Runs a query over all documents of the source, one on a line, and writes what it selects, in the form of
/// the settings.
///
/// The first line, or document over lines, has the number behind the settings' `before`. So are all numbered:
/// in the answer, as a gate is told of them, and in [`RunFault::Document`]. The totals count those of the
/// input alone.
///
/// Where the settings have a name, each line of nodes and each fault line stands behind it and a tab.
///
/// The query is read first, and the filter of the settings, if there is one: then the documents alone are
/// answered of which it is true. Then the source is read to its end, at most 65,536 bytes a call. Before each
/// read that may wait, as the source says, all lines whose end has come are answered and written, and the
/// sink is flushed; while reads do not wait, so are those that have come once there are `batch` of them, or 4
/// MB at most: no more than `batch` are answered and written at once. The rest is at the end. While reads do
/// not wait and much has come the workers answer, of whom the calling thread is one; else it answers alone.
/// The run stops at the first faulty line, unless the settings are to keep going: then the totals count it,
/// and it gives what the form has for it, which for nodes is its fault line and else nothing. Neither end has
/// failed before, and the counts of the source are at most 2^62.
///
/// What is flushed when: what the sink holds back as the run begins, and each batch's lines as soon as they
/// are written, also those before a faulty line and those at the end of the input. So a sink that gathers
/// bytes has nothing of the run's while it waits for input, and nothing after it, unless one of its calls has
/// failed.
///
/// # Errors
///
/// - [`RunFault::Query`] where the query is refused: nothing was read and nothing was written.
/// - [`RunFault::Filter`] where the query is not, and the filter is refused: nothing was read and nothing was
/// written.
/// - [`RunFault::Document`] with the first faulty line: exactly the lines of the documents before it were
/// written, and no read that may wait began after its end had come.
/// - [`RunFault::Read`] only where the source failed: exactly the lines of the documents whose line's end was
/// read were written.
/// - [`RunFault::Write`] only where the sink failed: a front of the answer was written.
/// - [`RunFault::Limit`] only after 2^40 calls of `read`, or past line 4,294,967,295: a front of the answer
/// was written.
/// - [`RunFault::Memory`] where a growth of memory was refused: a front of the answer was written.
pub fn run<R: Threads + Sync, S: Source<K>, K: Sink, G: Gate + Sync>(
    rt: &R,
    alloc: Global,
    source: &mut S,
    sink: &mut K,
    query: &str,
    settings: &Settings<'_>,
    gate: &G,
) -> Result<Totals, RunFault>
    requires working { (S.failed source.old ≡ false) × (K.failed sink.old ≡ false) }
    requires few { (S.reads source.old ≤ 2 ^ 62) × (S.given source.old ≤ 2 ^ 62) }
    // A finished run has read the whole input and written the answer to it, which has no faulty line; neither
    // end has failed.
    ensures accepted { OnOk result ((q : FilteredQuery) × AreAcceptedIn settings.now.numbers
        (asked_by query.now settings.now) q) }
    ensures answer { OnOk result (IfSome (S.remaining source.old) (λ input. (a : Answer)
        × IsAnswerBy (manner_of settings.now) (asked_by query.now settings.now) input a
        × (a.stopped ≡ None) × Appends (K.contents sink.old) (K.contents sink.new) a.bytes)) }
    ensures counts { IfOk result (λ totals. IfSome (S.remaining source.old)
        (λ input. (totals.lines ≡ part_count settings.now.cutting input)
        × (totals.documents ≡ length (documents (numbering_of settings.now) input)))) }
    // The faulty lines that the answer passed: none where it doesn't keep going.
    ensures faulty { IfOk result (λ totals. IfSome (S.remaining source.old)
        (λ input. totals.faulty ≡ passed_in settings.now (documents (numbering_of settings.now) input))) }
    // None, whatever the source tells of its bytes.
    ensures none_passed { settings.now.on_fault ≡ Stop → IfOk result (λ totals. totals.faulty ≡ 0) }
    // How many bytes the answer has.
    ensures wrote { IfOk result (λ totals. IfSome (S.remaining source.old) (λ input. (a : Answer)
        × IsAnswerBy (manner_of settings.now) (asked_by query.now settings.now) input a
        × (totals.wrote ≡ counted 0 (length a.bytes)))) }
    ensures few_lines { IfOk result (λ totals. totals.lines ≤ max_lines) }
    ensures end { OnOk result (IsAtEnd (S.remaining source.new)) }
    ensures flushed { OnOk result (K.flushed sink.new ≡ true) }
    ensures still_working { OnOk result ((S.failed source.new ≡ false) × (K.failed sink.new ≡ false)) }
    // However the run ends, also in the midst of reading: the sink holds nothing back that the run has handed
    // to it.
    ensures passed_on { K.flushed sink.old ≡ true → IsPassedOn (K.flushed sink.new) (K.failed sink.new) }
    // The query's fault is the text's verdict, and nothing was read or written.
    ensures query { (f : Refusal) → IsErrOf result (RunFault.Query f)
        → IsVerdictIn settings.now.numbers (chars query.now) (Err f)
        × (source.new ≡ source.old) × (sink.new ≡ sink.old) }
    // A text is too deep exactly where its bracket depth is over 64: want of memory is not told in its place.
    ensures too_deep { IsErrOf result (RunFault.Query QueryFault.TooDeep)
        ↔ (max_depth < bracket_depth (chars query.now)) }
    // A text that is refused ends in its fault, or in want of memory, and nothing was read or written.
    ensures refused { (f : Refusal) → IsVerdictIn settings.now.numbers (chars query.now) (Err f)
        → (IsErrOf result (RunFault.Query f) ⊎ IsErrOf result RunFault.Memory)
        × (source.new ≡ source.old) × (sink.new ≡ sink.old) }
    // The filter's fault is its text's verdict, and nothing was read or written.
    ensures filter { (f : Refusal) → IsErrOf result (RunFault.Filter f)
        → AreRefusedIn settings.now.numbers (asked_by query.now settings.now)
        (RunFault.Filter f) × (source.new ≡ source.old) × (sink.new ≡ sink.old) }
    // A filter that is refused ends in its fault, or in that of the query, or in want of memory, and nothing
    // was read or written.
    ensures filter_refused { (f : Refusal) → IsFilterRefused settings.now.numbers
        (asked_by query.now settings.now).filter f
        → (IsErrOf result (RunFault.Filter f) ⊎ IsErrOf result RunFault.Memory
        ⊎ ((g : Refusal) × IsErrOf result (RunFault.Query g)))
        × (source.new ≡ source.old) × (sink.new ≡ sink.old) }
    // The first faulty line and its fault are told, and all before it was written.
    ensures document { (line : ℕ) (fault : Fault) → IsErrOf result (RunFault.Document line fault)
        → IfSome (S.remaining source.old) (λ input. (a : Answer)
        × IsAnswerBy (manner_of settings.now) (asked_by query.now settings.now) input a
        × (a.stopped ≡ Some (line, fault)) × Appends (K.contents sink.old) (K.contents sink.new) a.bytes) }
    // An answer that keeps going tells no faulty line so.
    ensures goes_on { settings.now.on_fault ≡ KeepGoing → (line : ℕ) (fault : Fault)
        → IsErrOf result (RunFault.Document line fault) → ⊥ }
    // However the run ends: each read that may wait began when the answer to all lines whose end had come
    // stood in the sink, and was passed on.
    ensures prompt { AllSince (S.begun source.old) (S.begun source.new) (IsPrompt (manner_of settings.now)
        (asked_by query.now settings.now) (S.remaining source.old) (K.contents sink.old)) }
    // Each read, whether it may wait or not: what was not answered lies in the last 4 MB.
    ensures window { AllSince (S.begun source.old) (S.begun source.new) (IsNear window (manner_of
        settings.now) (asked_by query.now settings.now) (S.remaining source.old) (K.contents sink.old)) }
    // The lines of all documents whose line's end was read are written, and no more.
    ensures read { IsErrOf result RunFault.Read → (S.failed source.new ≡ true) × (bytes : List ℕ)
        × Consumes (S.remaining source.old) (S.remaining source.new) bytes
        × IsHandedBy (manner_of settings.now) (asked_by query.now settings.now)
        (documents_in (numbering_of settings.now) bytes) None (K.contents sink.old) (K.contents sink.new) }
    ensures write { IsErrOf result RunFault.Write → K.failed sink.new ≡ true }
    ensures limit { IsErrOf result RunFault.Limit → (S.reads source.new ≡ S.reads source.old + max_reads)
        ⊎ ((input : List ℕ) × Consumes (S.remaining source.old) (S.remaining source.new) input
        × (max_lines < last_number (numbering_of settings.now) input)) }
    // Settings are never out of range here.
    ensures settings { IsErrOf result RunFault.Settings → ⊥ }
    // Whatever the fault, a front of the answer was written.
    ensures front { OnErr result (IfSome (S.remaining source.old) (λ input. (a : Answer)
        → IsAnswerBy (manner_of settings.now) (asked_by query.now settings.now) input a
        → AppendsFront (K.contents sink.old) (K.contents sink.new) a.bytes)) }
    ensures few { S.reads source.new ≤ S.reads source.old + max_reads }
{
    let prepared = Prepared::new(alloc, query, settings.filter, settings.numbers)?;
    let crew = Crew { rt, alloc, gate };
    let mut buffers = Buffers::new(alloc);
    prepared.run(&crew, settings, &mut buffers, source, sink)
}

/// Reads a source to its end, and answers what comes, in the form that is wanted.
pub(crate) fn answer_in_form<R: Threads + Sync, S: Source<K>, K: Sink, G: Gate + Sync>(
    job: &Job<R, G>,
    buffers: &mut Buffers,
    source: &mut S,
    sink: &mut K,
) -> Result<Totals, RunFault>
    requires working { (S.failed source.old ≡ false) × (K.failed sink.old ≡ false) }
    requires few { S.reads source.old ≤ 2 ^ 62 }
    ensures ran { HasRun (manner_of job.now.settings) S.Supply K.Sink job.now source.old source.new
        sink.old sink.new result }
{
    match job.settings.output {
        Output::Nodes => answer_stream::<R, S, K, G, NodeLines>(job, buffers, source, sink),
        Output::Values => answer_stream::<R, S, K, G, ValueLines>(job, buffers, source, sink),
        Output::Texts => answer_stream::<R, S, K, G, TextLines>(job, buffers, source, sink),
        Output::Raw => answer_stream::<R, S, K, G, RawLines>(job, buffers, source, sink),
        Output::Rows => answer_stream::<R, S, K, G, RowLines>(job, buffers, source, sink),
        Output::Lines => answer_stream::<R, S, K, G, InputLines>(job, buffers, source, sink),
    }
}

/// Reads a source to its end, and answers what comes, in some form.
fn answer_stream<R: Threads + Sync, S: Source<K>, K: Sink, G: Gate + Sync, F: Form + Drop + Send>(
    job: &Job<R, G>,
    buffers: &mut Buffers,
    source: &mut S,
    sink: &mut K,
) -> Result<Totals, RunFault>
    requires working { (S.failed source.old ≡ false) × (K.failed sink.old ≡ false) }
    requires few { S.reads source.old ≤ 2 ^ 62 }
    ensures ran { HasRun (manner_in F.says job.now.settings) S.Supply K.Sink job.now source.old source.new
        sink.old sink.new result }
{
    let mut stream = Stream::new(
        job.crew.alloc,
        buffers,
        job.settings.cutting,
        job.settings.before,
        MAX_READS,
    )?;
    // The sink may come with bytes that it holds back.
    pass_on(sink)?;
    while stream.left > 0 {
        match turn::<R, S, K, G, F>(job, source, sink, &mut stream)? {
            Came::More => {}
            Came::End => {
                let ended = answer_rest::<R, K, G, F>(job, sink, &mut stream);
                stream.end(buffers);
                return ended;
            }
            Came::Failure => {
                return Err(answer_before_failure::<R, K, G, F>(job, sink, &mut stream));
            }
        }
    }
    // 2^40 calls are never reached in a lifetime: what waits is not answered for that.
    Err(RunFault::Limit)
}
