//! The answers to files, one after another.

ghost use Rattle.std.specs.Prelude.{◌≡◌, ◌<◌, ◌≤◌, ◌^◌, ◌⊎◌, ℕ, true, false, None, map, length, IfOk, IfErr};
ghost use Rattle.std.specs.Prelude.{OnOk, IsErrOf, ◌||◌};
ghost use Rattle.std.specs.Io.KnownBytes.{IsAtEnd};
ghost use Rattle.jp_doc.specs.declared.fault.DocFault.{DocFault as Fault};
ghost use Rattle.jp_answer.specs.declared.on_fault.OnFault.TheVariants.{Stop, KeepGoing};
ghost use Rattle.jp_run.specs.Counts.{counted};
ghost use Rattle.jp_program.specs.inner.Invocation.{IsPrepared, wanted_of};
ghost use Rattle.jp_program.specs.inner.Ended.{FilesEnded, RunEnded};
ghost use Rattle.jp_program.specs.Inputs.{EachInTurn, counted_if, named};
ghost use Rattle.jp_program.specs.Outcome.{ArePassed, IsAnswered, IsCut, IsWhole, Passes};
ghost use Rattle.jp_program.specs.Outcome.{AreEmptyAnswers, AreKnownEmptyAnswers};
ghost use Rattle.jp_program.specs.Outcome.{IsEmptyAnswer, IsKnownEmptyAnswer};

use crate::command::{NOTHING_SEEN, tell_faulty};
use crate::file_notes::tell_failed_file;
use crate::inputs::Inputs;
use crate::turn::{Search, run_named};
use jp_answer::OnFault;
use jp_run::{Buffers, Cutting, Nowhere, RunFault, Sink, Source, Totals};
use std::alloc::{AllocGlobal, Global};
use std::thread::Threads;

/// What was seen of files.
#[derive(Drop)]
struct Seen {
    totals: Totals,
    /// Whether one of them could not be opened or read, and was passed.
    has_failed: bool,
}

/// Answers the files that are named in turn, up to the first that ends in a fault. Where the answer keeps
/// going a file that cannot be opened or read is told and passed, and the fault comes behind the last one.
/// Gives what was seen of all.
pub(crate) fn answer_files<
    R: Threads + AllocGlobal + Sync,
    S: Source<K> + Source<Nowhere>,
    I: Inputs<S>,
    K: Sink,
    N: Sink,
>(
    search: &Search<'_, '_, '_, '_, R>,
    buffers: &mut Buffers,
    inputs: &mut I,
    source: &mut S,
    sink: &mut K,
    notes: &mut N,
) -> Result<Totals, RunFault>
    requires working { (S.failed source.old ≡ false) × (K.failed sink.old ≡ false) }
    requires taken { IsPrepared search.now.wanted.now search.now.prepared.now }
    requires some { 0 < length search.now.wanted.now.files.items }
    requires few { I.opens inputs.old ≤ 2 ^ 62 }
    ensures finished { IfOk result (λ totals. totals.faulty ≡ 0
        → EachInTurn (IsAnswered (wanted_of search.now.wanted.now) None)
        (map (named (I.holds inputs.old)) (wanted_of search.now.wanted.now).files) (K.contents sink.old)
        (K.contents sink.new)) }
    ensures past { IfOk result (λ totals. 0 < totals.faulty
        → ((wanted_of search.now.wanted.now).on_fault ≡ KeepGoing)
        × ArePassed (wanted_of search.now.wanted.now)
        (map (named (I.holds inputs.old)) (wanted_of search.now.wanted.now).files) (K.contents sink.old)
        (K.contents sink.new)) }
    ensures nothing { IfOk result (λ totals. totals.wrote ≡ 0
        → AreEmptyAnswers (wanted_of search.now.wanted.now)
        (map (named (I.holds inputs.old)) (wanted_of search.now.wanted.now).files)) }
    ensures something { IfOk result (λ totals. 0 < totals.wrote
        → AreKnownEmptyAnswers (wanted_of search.now.wanted.now)
        (map (named (I.holds inputs.old)) (wanted_of search.now.wanted.now).files) → ⊥) }
    ensures end { OnOk result (IsAtEnd (S.remaining source.new)) }
    ensures flushed { OnOk result (K.flushed sink.new ≡ true) }
    ensures still_working { OnOk result ((S.failed source.new ≡ false) × (K.failed sink.new ≡ false)) }
    ensures opens { OnOk result (I.opens inputs.new
        ≡ counted (I.opens inputs.old) (length search.now.wanted.now.files.items)) }
    ensures broken { OnOk result (I.broken inputs.new ≡ I.broken inputs.old) }
    ensures unbroken { (wanted_of search.now.wanted.now).on_fault ≡ Stop
        → I.broken inputs.new ≡ I.broken inputs.old }
    ensures goes_on { (wanted_of search.now.wanted.now).on_fault ≡ KeepGoing → (line : ℕ) (fault : Fault)
        → IsErrOf result (RunFault.Document line fault) → ⊥ }
    ensures fault { IfErr result (FilesEnded (wanted_of search.now.wanted.now) (record {
      rest = S.remaining source.new;
      reads = 0;
      reads_new = S.reads source.new;
      source_failed = S.failed source.new;
      sink_failed = K.failed sink.new;
    }) (map (named (I.holds inputs.old)) (wanted_of search.now.wanted.now).files) (record {
      opens = I.opens inputs.old;
      opens_new = I.opens inputs.new;
      broken = I.broken inputs.old;
      broken_new = I.broken inputs.new;
      contents = K.contents sink.old;
      contents_new = K.contents sink.new;
    })) }
{
    let mut seen = Seen {
        totals: NOTHING_SEEN,
        has_failed: false,
    };
    let names = search.wanted.files.as_slice();
    for name in names {
        let next = answer_next(
            search,
            name,
            seen.has_failed,
            buffers,
            inputs,
            source,
            sink,
            notes,
        )?;
        seen = both(&seen, &next);
    }
    if !seen.has_failed {
        return Ok(seen.totals);
    }
    let cutting = search.wanted.settings.cutting;
    tell_passed(search.rt.alloc(), notes, seen.totals.faulty, cutting);
    Err(RunFault::Read)
}

/// What was seen of two collections.
fn both(one: &Seen, other: &Seen) -> Seen
    ensures faulty { result.totals.faulty ≡ counted one.now.totals.faulty other.now.totals.faulty }
    ensures wrote { result.totals.wrote ≡ counted one.now.totals.wrote other.now.totals.wrote }
    ensures failed { result.has_failed ≡ one.now.has_failed || other.now.has_failed }
{
    Seen {
        totals: Totals {
            lines: one.totals.lines.saturating_add(other.totals.lines),
            documents: one.totals.documents.saturating_add(other.totals.documents),
            faulty: one.totals.faulty.saturating_add(other.totals.faulty),
            wrote: one.totals.wrote.saturating_add(other.totals.wrote),
        },
        has_failed: one.has_failed || other.has_failed,
    }
}

/// Tells how many faulty lines, or documents, were passed, if any were.
fn tell_passed<N: Sink>(alloc: Global, notes: &mut N, faulty: u64, cutting: Cutting) {
    if faulty > 0 {
        tell_faulty(alloc, notes, faulty, cutting);
    }
}

/// Whether a file that ends in this fault is passed.
fn is_passed(fault: &RunFault, on_fault: OnFault) -> bool
    ensures passed { result ≡ true → (fault.now ≡ RunFault.Read) × (on_fault ≡ KeepGoing) }
    ensures left { result ≡ false → on_fault ≡ KeepGoing → fault.now ≡ RunFault.Read → ⊥ }
{
    match (fault, on_fault) {
        (RunFault::Read, OnFault::KeepGoing) => true,
        _ => false,
    }
}

/// Opens the file of this name, and answers it. Where the answer keeps going, and the sink takes on, a file
/// that cannot be opened or read is told and passed: the fault with the first one alone.
fn answer_next<
    R: Threads + AllocGlobal + Sync,
    S: Source<K> + Source<Nowhere>,
    I: Inputs<S>,
    K: Sink,
    N: Sink,
>(
    search: &Search<'_, '_, '_, '_, R>,
    name: &str,
    has_failed: bool,
    buffers: &mut Buffers,
    inputs: &mut I,
    source: &mut S,
    sink: &mut K,
    notes: &mut N,
) -> Result<Seen, RunFault>
    requires working { K.failed sink.old ≡ false }
    requires taken { IsPrepared search.now.wanted.now search.now.prepared.now }
    ensures whole { IfOk result (λ seen. seen.has_failed ≡ false → IsWhole (wanted_of search.now.wanted.now)
        (named (I.holds inputs.old) name.now) (K.contents sink.old) (K.contents sink.new)) }
    ensures cut { IfOk result (λ seen. seen.has_failed ≡ true
        → ((wanted_of search.now.wanted.now).on_fault ≡ KeepGoing) × IsCut (wanted_of search.now.wanted.now)
        (named (I.holds inputs.old) name.now) (K.contents sink.old) (K.contents sink.new)) }
    ensures failed { IfOk result (λ seen. S.failed source.new ≡ seen.has_failed) }
    ensures finished { IfOk result (λ seen. seen.has_failed ≡ false → seen.totals.faulty ≡ 0
        → IsAnswered (wanted_of search.now.wanted.now) None
        (named (I.holds inputs.old) name.now) (K.contents sink.old) (K.contents sink.new)) }
    ensures passes { (wanted_of search.now.wanted.now).on_fault ≡ KeepGoing → IfOk result (λ seen.
        seen.has_failed ≡ false → (n : ℕ)
        → Passes (wanted_of search.now.wanted.now) (named (I.holds inputs.old) name.now)
        (K.contents sink.old, n) (K.contents sink.new, counted n seen.totals.faulty)) }
    ensures none_passed { (wanted_of search.now.wanted.now).on_fault ≡ Stop
        → IfOk result (λ seen. seen.totals.faulty ≡ 0) }
    ensures nothing { IfOk result (λ seen. seen.has_failed ≡ false → seen.totals.wrote ≡ 0
        → IsEmptyAnswer (wanted_of search.now.wanted.now) (named (I.holds inputs.old) name.now)) }
    ensures something { IfOk result (λ seen. seen.has_failed ≡ false → 0 < seen.totals.wrote
        → IsKnownEmptyAnswer (wanted_of search.now.wanted.now) (named (I.holds inputs.old) name.now) → ⊥) }
    ensures end { IfOk result (λ seen. seen.has_failed ≡ false → IsAtEnd (S.remaining source.new)) }
    ensures flushed { IfOk result (λ seen. seen.has_failed ≡ false → K.flushed sink.new ≡ true) }
    ensures still_working { OnOk result (K.failed sink.new ≡ false) }
    ensures opens { I.opens inputs.new ≡ counted (I.opens inputs.old) 1 }
    ensures broken { I.broken inputs.new ≡ counted_if (S.failed source.old) (I.broken inputs.old) }
    ensures same { I.holds inputs.new ≡ I.holds inputs.old }
    ensures goes_on { (wanted_of search.now.wanted.now).on_fault ≡ KeepGoing → (line : ℕ) (fault : Fault)
        → IsErrOf result (RunFault.Document line fault) → ⊥ }
    ensures goes_past { IfErr result (λ fault. (wanted_of search.now.wanted.now).on_fault ≡ KeepGoing
        → fault ≡ RunFault.Read → ⊥) }
    ensures fault { IfErr result (λ fault. RunEnded (wanted_of search.now.wanted.now) (record {
      rest = S.remaining source.new;
      reads = 0;
      reads_new = S.reads source.new;
      source_failed = S.failed source.new;
      sink_failed = K.failed sink.new;
    }) fault (named (I.holds inputs.old) name.now) (K.contents sink.old) (K.contents sink.new)) }
{
    match answer_file(search, name, buffers, inputs, source, sink) {
        Ok(totals) => Ok(Seen {
            totals,
            has_failed: false,
        }),
        Err(fault) => {
            if !is_passed(&fault, search.wanted.settings.on_fault) {
                return Err(fault);
            }
            if sink.failed() {
                return Err(RunFault::Write);
            }
            let alloc = search.rt.alloc();
            let reason = inputs.reason(alloc, source).unwrap_or_default();
            tell_failed_file(alloc, notes, name, &reason, !has_failed);
            Ok(Seen {
                totals: NOTHING_SEEN,
                has_failed: true,
            })
        }
    }
}

/// Opens the file of this name, and answers it.
fn answer_file<
    R: Threads + AllocGlobal + Sync,
    S: Source<K> + Source<Nowhere>,
    I: Inputs<S>,
    K: Sink,
>(
    search: &Search<'_, '_, '_, '_, R>,
    name: &str,
    buffers: &mut Buffers,
    inputs: &mut I,
    source: &mut S,
    sink: &mut K,
) -> Result<Totals, RunFault>
    requires working { K.failed sink.old ≡ false }
    requires taken { IsPrepared search.now.wanted.now search.now.prepared.now }
    ensures whole { OnOk result (IsWhole (wanted_of search.now.wanted.now)
        (named (I.holds inputs.old) name.now) (K.contents sink.old) (K.contents sink.new)) }
    ensures finished { IfOk result (λ totals. totals.faulty ≡ 0
        → IsAnswered (wanted_of search.now.wanted.now) None
        (named (I.holds inputs.old) name.now) (K.contents sink.old) (K.contents sink.new)) }
    ensures passes { (wanted_of search.now.wanted.now).on_fault ≡ KeepGoing → IfOk result (λ totals. (n : ℕ)
        → Passes (wanted_of search.now.wanted.now) (named (I.holds inputs.old) name.now)
        (K.contents sink.old, n) (K.contents sink.new, counted n totals.faulty)) }
    ensures none_passed { (wanted_of search.now.wanted.now).on_fault ≡ Stop
        → IfOk result (λ totals. totals.faulty ≡ 0) }
    ensures nothing { IfOk result (λ totals. totals.wrote ≡ 0
        → IsEmptyAnswer (wanted_of search.now.wanted.now) (named (I.holds inputs.old) name.now)) }
    ensures something { IfOk result (λ totals. 0 < totals.wrote
        → IsKnownEmptyAnswer (wanted_of search.now.wanted.now) (named (I.holds inputs.old) name.now) → ⊥) }
    ensures end { OnOk result (IsAtEnd (S.remaining source.new)) }
    ensures flushed { OnOk result (K.flushed sink.new ≡ true) }
    ensures still_working { OnOk result ((S.failed source.new ≡ false) × (K.failed sink.new ≡ false)) }
    ensures opens { I.opens inputs.new ≡ counted (I.opens inputs.old) 1 }
    ensures broken { I.broken inputs.new ≡ counted_if (S.failed source.old) (I.broken inputs.old) }
    ensures same { I.holds inputs.new ≡ I.holds inputs.old }
    ensures goes_on { (wanted_of search.now.wanted.now).on_fault ≡ KeepGoing → (line : ℕ) (fault : Fault)
        → IsErrOf result (RunFault.Document line fault) → ⊥ }
    ensures fault { IfErr result (λ fault. RunEnded (wanted_of search.now.wanted.now) (record {
      rest = S.remaining source.new;
      reads = 0;
      reads_new = S.reads source.new;
      source_failed = S.failed source.new;
      sink_failed = K.failed sink.new;
    }) fault (named (I.holds inputs.old) name.now) (K.contents sink.old) (K.contents sink.new)) }
{
    if inputs.open(name, source).is_err() {
        return Err(RunFault::Read);
    }
    run_named(search, name, buffers, source, sink)
}
