//! What the command does.

ghost use Rattle.std.specs.Prelude.{◌≡◌, ◌^◌, ◌<◌, ◌≤◌, ◌⊎◌, ℕ, List, true, false, Some, None, Err, IfOk};
ghost use Rattle.std.specs.Prelude.{IfErr, IsErrOf, OnOk, []};
ghost use Rattle.std.specs.Io.KnownBytes.{Appends, IsAtEnd, Keeps};
ghost use Rattle.clap.specs.Walk.{Text, texts};
ghost use Rattle.jp_doc.specs.declared.fault.DocFault.{DocFault as Fault};
ghost use Rattle.jp_answer.specs.declared.on_fault.OnFault.TheVariants.{Stop, KeepGoing};
ghost use Rattle.jp_run.specs.declared.fault.RunFault.{RunFault as End};
ghost use Rattle.jp_run.specs.Status.{status_of};
ghost use Rattle.jp_run.specs.Written.{IsPassedOn};
ghost use Rattle.jp_program.specs.CommandLine.{AsksToQuote, AsksToShow, to_quote};
ghost use Rattle.jp_program.specs.Inputs.{EachInTurn, EndsIn, inputs_of};
ghost use Rattle.jp_program.specs.Outcome.{IsStatus, IsTaken, IsAnswered, ArePassed, IsWholeOrCut, IsFront};
ghost use Rattle.jp_program.specs.Outcome.{IsRefusedWish};
ghost use Rattle.jp_program.specs.Outcome.{AreEmptyAnswers, AreKnownEmptyAnswers, AreFailed, AreOpened};
ghost use Rattle.jp_program.specs.Outcome.{ArePrompt, AreNear};
ghost use Rattle.jp_program.specs.inner.Ended.{HasEnded};
ghost use Rattle.jp_program.specs.Printed.{IsPrinted};
ghost use Rattle.jp_program.specs.Told.{IsTold};
ghost use Rattle.jp_program.specs.Wanted.{Wanted as Wish, Wants, WantsCheck, WantsRun, IsWrong};

use crate::advice::tell_of_words;
use crate::command_line::{Invocation, read_words};
use crate::each::answer_files;
use crate::file_notes::RunEnd;
use crate::inputs::Inputs;
use crate::pattern_notes::tell_prepared;
use crate::quoting::{print_literal, value_to_quote};
use crate::turn::{Search, run_named};
use crate::witness::Witness;
use jp_answer::OnFault;
use jp_run::{Buffers, Cutting, Nowhere, Prepared, RunFault, Sink, Source, Totals, write_all};
use std::alloc::{AllocError, AllocGlobal, Global};
use std::thread::Threads;

/// What no run has seen: the totals of a check, and of the help.
pub(crate) const NOTHING_SEEN: Totals = Totals {
    lines: 0,
    documents: 0,
    faulty: 0,
    wrote: 0,
};

/// Does what the words ask for, and gives the status to end with. The first word is the program's name.
///
/// A run reads the source, where no file is named, and else each file in turn, which is opened in its place.
/// Neither end has failed before, and the counts of the source and of the inputs are at most 2^62. A fault is
/// told on `notes`, in one line, and in further ones that help: of a query where it went wrong, of a line
/// what to do, and where it went wrong if the words ask for that, of a file that cannot be read why. Of a
/// sink whose reader has gone nothing is told. Before anything is read they are told of literal patterns that
/// may not match what was meant. A failure to write them, or the help, is passed over.
///
/// The status is 0 where the run finished, or a literal, the help, the version or a check was asked for; 1
/// where the run finished, selected nothing, and the words ask for that to be told so; 2 where the query, or
/// the filter, is refused; 3 where a line is faulty, also where the answer has gone on past it; 4 where
/// reading or writing failed, also where the answer has gone on past a file, or a limit was passed; 5 where a
/// growth of memory was refused; 64 where the command line is refused.
pub fn program<
    R: Threads + AllocGlobal + Sync,
    S: Source<K> + Source<Nowhere>,
    I: Inputs<S>,
    K: Sink,
    N: Sink,
>(rt: &R, words: &[&str], inputs: &mut I, source: &mut S, sink: &mut K, notes: &mut N) -> u8
    requires working { (S.failed source.old ≡ false) × (K.failed sink.old ≡ false) }
    requires few { (S.reads source.old ≤ 2 ^ 62) × (S.given source.old ≤ 2 ^ 62)
        × (I.opens inputs.old ≤ 2 ^ 62) }
    // There is no other status.
    ensures statuses { IsStatus result }
    // 0 or 1: a literal was asked for, of which the next clause speaks; or the help or the version was, and
    // nothing was opened or read; or a check of a query that is accepted, and nothing was opened, read or
    // written; or a run, whose query is accepted and has no faulty line before it: its answer to each whole
    // input in turn was written and passed on, each file was opened once, and no end has failed.
    ensures finished { (result ≡ 0) ⊎ (result ≡ 1)
        → AsksToQuote (texts words.now)
        ⊎ (AsksToShow (texts words.now) × (inputs.new ≡ inputs.old) × (source.new ≡ source.old))
        ⊎ ((w : Wish) × WantsCheck (texts words.now) w × IsTaken w
        × (inputs.new ≡ inputs.old) × (source.new ≡ source.old) × (sink.new ≡ sink.old))
        ⊎ ((w : Wish) × WantsRun (texts words.now) w × IsTaken w
        × EachInTurn (IsAnswered w None) (inputs_of w.files (I.holds inputs.old) (S.remaining source.old))
        (K.contents sink.old) (K.contents sink.new)
        × AreOpened w (I.opens inputs.old) (I.opens inputs.new) (I.broken inputs.old) (I.broken inputs.new)
        × IsAtEnd (S.remaining source.new) × (K.flushed sink.new ≡ true)
        × (S.failed source.new ≡ false) × (K.failed sink.new ≡ false)) }
    // Where a literal is asked for: it was printed, with 0; or the sink has failed, with 4; or memory was
    // wanted, with 5. Nothing was opened or read.
    ensures quoted { (value : Text) → to_quote (texts words.now) ≡ Some value
        → IsPrinted value result (K.contents sink.old) (K.contents sink.new) (K.flushed sink.new)
        (K.failed sink.new) × (inputs.new ≡ inputs.old) × (source.new ≡ source.old) }
    // 1: this status is asked for where nothing is selected, and nothing is, in any input.
    ensures nothing { result ≡ 1 → (w : Wish) × WantsRun (texts words.now) w × (w.exit_status ≡ true)
        × AreEmptyAnswers w (inputs_of w.files (I.holds inputs.old) (S.remaining source.old)) }
    // 0, although it is asked for: something is selected.
    ensures something { (w : Wish) → result ≡ 0 → WantsRun (texts words.now) w → w.exit_status ≡ true
        → AreKnownEmptyAnswers w (inputs_of w.files (I.holds inputs.old) (S.remaining source.old)) → ⊥ }
    // 2: the wanted query is refused, or the filter is, and nothing was opened, read or written.
    ensures query { result ≡ 2 → (f : End) × (w : Wish) × Wants (texts words.now) w
        × IsRefusedWish w f
        × (inputs.new ≡ inputs.old) × (source.new ≡ source.old) × (sink.new ≡ sink.old) }
    // And the notes have the line of that refusal, and behind it those that show where it went wrong, and the
    // question for the query's quotes, where the shell seems to have split it; or that memory was wanted for
    // them; or the notes have failed.
    ensures told { (f : End) (w : Wish) → result ≡ 2 → Wants (texts words.now) w → IsRefusedWish w f
        → IsTold w f (N.failed notes.new) (N.contents notes.old) (N.contents notes.new) }
    // 3: the answer to each input before some one was written, and of that one the answer before its first
    // faulty line; or to keep going was asked for, and the answer that does was written and passed on, it has
    // passed faulty lines, and no end has failed.
    ensures document { result ≡ 3 → ((line : ℕ) × (fault : Fault) × (w : Wish)
        × WantsRun (texts words.now) w × (w.on_fault ≡ Stop)
        × EndsIn (IsWholeOrCut w) (IsAnswered w (Some (line, fault))) w.files (I.holds inputs.old)
        (S.remaining source.old) (record {
          opens = I.opens inputs.old;
          opens_new = I.opens inputs.new;
          broken = I.broken inputs.old;
          broken_new = I.broken inputs.new;
          contents = K.contents sink.old;
          contents_new = K.contents sink.new;
        }))
        ⊎ ((w : Wish) × WantsRun (texts words.now) w × (w.on_fault ≡ KeepGoing)
        × ArePassed w (inputs_of w.files (I.holds inputs.old) (S.remaining source.old))
        (K.contents sink.old) (K.contents sink.new)
        × AreOpened w (I.opens inputs.old) (I.opens inputs.new) (I.broken inputs.old) (I.broken inputs.new)
        × IsAtEnd (S.remaining source.new) × (K.flushed sink.new ≡ true)
        × (S.failed source.new ≡ false) × (K.failed sink.new ≡ false)) }
    // 4: a literal was asked for; or the answer to each input before some one was written, and of that one a
    // front of the wanted answer; it has failed, or the sink has, or a limit was passed, and no file behind
    // it was opened. Or to keep going was asked for, and each file was opened once; of each the answer was
    // written, or it was cut short by a failure of its own, and that to all documents whose line's end was
    // read; at least one has failed.
    ensures failed { result ≡ 4 → AsksToQuote (texts words.now) ⊎ ((w : Wish) × WantsRun (texts words.now) w
        × AreFailed w (record {
          rest = S.remaining source.new;
          reads = S.reads source.old;
          reads_new = S.reads source.new;
          source_failed = S.failed source.new;
          sink_failed = K.failed sink.new;
        }) (I.holds inputs.old) (S.remaining source.old) (record {
          opens = I.opens inputs.old;
          opens_new = I.opens inputs.new;
          broken = I.broken inputs.old;
          broken_new = I.broken inputs.new;
          contents = K.contents sink.old;
          contents_new = K.contents sink.new;
        })) }
    // 5: nothing was opened, read or written, or the answer to each input before some one was written, and of
    // that one a front of the wanted answer.
    ensures memory { result ≡ 5
        → ((inputs.new ≡ inputs.old) × (source.new ≡ source.old)
        × Keeps (K.contents sink.old) (K.contents sink.new))
        ⊎ ((w : Wish) × WantsRun (texts words.now) w
        × EndsIn (IsWholeOrCut w) (IsFront w) w.files (I.holds inputs.old) (S.remaining source.old)
        (record {
          opens = I.opens inputs.old;
          opens_new = I.opens inputs.new;
          broken = I.broken inputs.old;
          broken_new = I.broken inputs.new;
          contents = K.contents sink.old;
          contents_new = K.contents sink.new;
        })) }
    // 64: the words are wrong, or a number is out of its range, or there is no such form, or U+0000 is to end
    // what is no value, or a name is none, and nothing was opened, read or written.
    ensures command_line { result ≡ 64 → IsWrong (texts words.now)
        × (inputs.new ≡ inputs.old) × (source.new ≡ source.old) × (sink.new ≡ sink.old) }
    // A query or a filter that is refused ends with 2, or with 5 for want of memory, and nothing was opened,
    // read or written.
    ensures refused { (f : End) (w : Wish) → Wants (texts words.now) w → IsRefusedWish w f
        → ((result ≡ 2) ⊎ (result ≡ 5)) × (inputs.new ≡ inputs.old) × (source.new ≡ source.old)
        × Keeps (K.contents sink.old) (K.contents sink.new) }
    // A check opens, reads and writes nothing, whatever its status.
    ensures check { (w : Wish) → WantsCheck (texts words.now) w
        → (inputs.new ≡ inputs.old) × (source.new ≡ source.old)
        × Keeps (K.contents sink.old) (K.contents sink.new) }
    // However a run ends that does not keep going: no input that had failed was left for another one.
    ensures unbroken { (w : Wish) → WantsRun (texts words.now) w → w.on_fault ≡ Stop
        → I.broken inputs.new ≡ I.broken inputs.old }
    // After a fault the sink holds nothing back: it was flushed, or one of its calls has failed.
    ensures passed_on { (result ≡ 3) ⊎ (result ≡ 4) ⊎ (result ≡ 5)
        → IsPassedOn (K.flushed sink.new) (K.failed sink.new) }
    // Where no file is named each read that may wait began when the answer to all lines whose end had come
    // was written and passed on, however the command ends.
    ensures prompt { (w : Wish) → WantsRun (texts words.now) w → w.files ≡ [] → ArePrompt w (S.begun
        source.old) (S.begun source.new) (S.remaining source.old) (K.contents sink.old) }
    // Each read there, whether it may wait or not: what was not answered lies in the last 4 MB.
    ensures window { (w : Wish) → WantsRun (texts words.now) w → w.files ≡ [] → AreNear w (S.begun source.old)
        (S.begun source.new) (S.remaining source.old) (K.contents sink.old) }
{
    if let Some(value) = value_to_quote(words) {
        return print_literal(rt.alloc(), sink, notes, value);
    }
    let opened = inputs.opens();
    let mut witness = Witness::new(rt.alloc());
    match done(rt, words, inputs, source, sink, notes, &mut witness) {
        Ok(totals) => {
            if totals.faulty > 0 {
                tell_faulty(rt.alloc(), notes, totals.faulty, witness.cutting);
                witness.tell(notes);
                return totals.status();
            }
            if witness.is_asked && totals.wrote == 0 {
                tell_nothing_selected(rt.alloc(), notes, totals.documents);
            }
            if witness.tells_nothing && totals.wrote == 0 {
                return 1;
            }
            0
        }
        Err(fault) => {
            pass_on_after(sink, &fault);
            let end = RunEnd {
                cutting: witness.cutting,
                lost_reader: sink.lost_reader(),
                opened: inputs.opens().saturating_sub(opened),
                reason: inputs.reason(rt.alloc(), source).unwrap_or_default(),
                write_reason: sink.reason(rt.alloc()).unwrap_or_default(),
                passes_files: witness.passes_files,
            };
            tell_of_words(rt.alloc(), notes, words, &fault, &end);
            witness.tell_behind(notes, &fault);
            fault.status()
        }
    }
}

/// Does what the words ask for. Gives what a run has seen: nothing where none was asked for. The witness
/// keeps the first faulty lines, where the words ask to explain them.
fn done<
    R: Threads + AllocGlobal + Sync,
    S: Source<K> + Source<Nowhere>,
    I: Inputs<S>,
    K: Sink,
    N: Sink,
>(
    rt: &R,
    words: &[&str],
    inputs: &mut I,
    source: &mut S,
    sink: &mut K,
    notes: &mut N,
    witness: &mut Witness,
) -> Result<Totals, RunFault>
    requires working { (S.failed source.old ≡ false) × (K.failed sink.old ≡ false) }
    requires few { (S.reads source.old ≤ 2 ^ 62) × (S.given source.old ≤ 2 ^ 62)
        × (I.opens inputs.old ≤ 2 ^ 62) }
    requires quiet { witness.old.tells_nothing ≡ false }
    ensures finished { IfOk result (λ totals. totals.faulty ≡ 0
        → (AsksToShow (texts words.now) × (inputs.new ≡ inputs.old) × (source.new ≡ source.old))
        ⊎ ((w : Wish) × WantsCheck (texts words.now) w × IsTaken w
        × (inputs.new ≡ inputs.old) × (source.new ≡ source.old) × (sink.new ≡ sink.old))
        ⊎ ((w : Wish) × WantsRun (texts words.now) w × IsTaken w
        × EachInTurn (IsAnswered w None) (inputs_of w.files (I.holds inputs.old) (S.remaining source.old))
        (K.contents sink.old) (K.contents sink.new)
        × AreOpened w (I.opens inputs.old) (I.opens inputs.new) (I.broken inputs.old) (I.broken inputs.new)
        × IsAtEnd (S.remaining source.new) × (K.flushed sink.new ≡ true)
        × (S.failed source.new ≡ false) × (K.failed sink.new ≡ false))) }
    ensures past { IfOk result (λ totals. 0 < totals.faulty → (w : Wish)
        × WantsRun (texts words.now) w × (w.on_fault ≡ KeepGoing)
        × ArePassed w (inputs_of w.files (I.holds inputs.old) (S.remaining source.old))
        (K.contents sink.old) (K.contents sink.new)
        × AreOpened w (I.opens inputs.old) (I.opens inputs.new) (I.broken inputs.old) (I.broken inputs.new)
        × IsAtEnd (S.remaining source.new) × (K.flushed sink.new ≡ true)
        × (S.failed source.new ≡ false) × (K.failed sink.new ≡ false)) }
    // Whether status 1 is asked for, and whether it is to be given.
    ensures asked { (w : Wish) → WantsRun (texts words.now) w
        → OnOk result (witness.new.tells_nothing ≡ w.exit_status) }
    ensures asks { witness.new.tells_nothing ≡ true → OnOk result ((w : Wish)
        × WantsRun (texts words.now) w × (w.exit_status ≡ true)) }
    ensures nothing { (w : Wish) → WantsRun (texts words.now) w → IfOk result (λ totals. totals.wrote ≡ 0
        → AreEmptyAnswers w (inputs_of w.files (I.holds inputs.old) (S.remaining source.old))) }
    ensures something { (w : Wish) → WantsRun (texts words.now) w → IfOk result (λ totals. 0 < totals.wrote
        → AreKnownEmptyAnswers w (inputs_of w.files (I.holds inputs.old) (S.remaining source.old)) → ⊥) }
    ensures unbroken { (w : Wish) → WantsRun (texts words.now) w → w.on_fault ≡ Stop
        → I.broken inputs.new ≡ I.broken inputs.old }
    ensures passed_on { IfOk result (λ totals. 0 < totals.faulty → K.flushed sink.new ≡ true) }
    ensures refused { (f : End) (w : Wish) → Wants (texts words.now) w → IsRefusedWish w f
        → (IsErrOf result f ⊎ IsErrOf result RunFault.Memory)
        × (inputs.new ≡ inputs.old) × (source.new ≡ source.old) × (sink.new ≡ sink.old) }
    ensures check { (w : Wish) → WantsCheck (texts words.now) w
        → (inputs.new ≡ inputs.old) × (source.new ≡ source.old) × (sink.new ≡ sink.old) }
    ensures query { (f : End) → IsErrOf result f → status_of f ≡ 2 → (w : Wish) × Wants (texts words.now) w
        × IsRefusedWish w f × (inputs.new ≡ inputs.old) × (source.new ≡ source.old) × (sink.new ≡ sink.old) }
    ensures settings { IsErrOf result RunFault.Settings → IsWrong (texts words.now)
        × (inputs.new ≡ inputs.old) × (source.new ≡ source.old) × (sink.new ≡ sink.old) }
    // Any other fault: nothing was opened, read or written, or a run ended so.
    ensures fault { IfErr result (HasEnded (texts words.now) (I.holds inputs.old) (S.remaining source.old)
        (record {
          opens = I.opens inputs.old;
          opens_new = I.opens inputs.new;
          broken = I.broken inputs.old;
          broken_new = I.broken inputs.new;
          contents = K.contents sink.old;
          contents_new = K.contents sink.new;
        }) (record {
          rest = S.remaining source.new;
          reads = S.reads source.old;
          reads_new = S.reads source.new;
          source_failed = S.failed source.new;
          sink_failed = K.failed sink.new;
        }) ((inputs.new ≡ inputs.old) × (source.new ≡ source.old) × (sink.new ≡ sink.old))) }
    ensures prompt { (w : Wish) → WantsRun (texts words.now) w → w.files ≡ [] → ArePrompt w (S.begun
        source.old) (S.begun source.new) (S.remaining source.old) (K.contents sink.old) }
    ensures window { (w : Wish) → WantsRun (texts words.now) w → w.files ≡ [] → AreNear w (S.begun source.old)
        (S.begun source.new) (S.remaining source.old) (K.contents sink.old) }
    ensures unnoted { (f : End) (w : Wish) → Wants (texts words.now) w → IsRefusedWish w f
        → notes.new ≡ notes.old }
{
    match read_words(rt.alloc(), words)? {
        Invocation::Show(text) => {
            show(sink, text.as_str());
            Ok(NOTHING_SEEN)
        }
        Invocation::Query(wanted) => {
            // Before anything is told, and any file is opened.
            let numbers = wanted.settings.numbers;
            let filter = wanted.settings.filter;
            let prepared = Prepared::new(rt.alloc(), wanted.query, filter, numbers)?;
            tell_prepared(rt.alloc(), notes, &prepared, wanted.query, filter);
            if wanted.check {
                return Ok(NOTHING_SEEN);
            }
            witness.is_asked = wanted.explain;
            witness.on_fault = wanted.settings.on_fault;
            witness.numbers = wanted.settings.numbers;
            witness.cutting = wanted.settings.cutting;
            witness.tells_nothing = wanted.exit_status;
            let is_alone = wanted.files.is_empty();
            witness.passes_files = wanted.settings.on_fault == OnFault::KeepGoing && !is_alone;
            let search = Search {
                rt,
                witness: &*witness,
                wanted: &wanted,
                prepared: &prepared,
            };
            let mut buffers = Buffers::new(rt.alloc());
            if is_alone {
                return run_named(&search, "-", &mut buffers, source, sink);
            }
            answer_files(&search, &mut buffers, inputs, source, sink, notes)
        }
    }
}

/// Writes a text, and passes over a failure of that.
fn show<K: Sink>(sink: &mut K, text: &str)
    requires { K.failed sink.old ≡ false }
{
    if write_all(sink, text.as_bytes()).is_ok() {
        let _ = sink.flush();
    }
}

/// After a fault of a run, passes on what stands before it; where that can't be, the fault still tells.
/// After a refused query or command line there is nothing.
pub(crate) fn pass_on_after<K: Sink>(sink: &mut K, fault: &RunFault)
    ensures kept { Keeps (K.contents sink.old) (K.contents sink.new) }
    ensures passed_on { (status_of fault.now ≡ 3) ⊎ (status_of fault.now ≡ 4) ⊎ (status_of fault.now ≡ 5)
        → IsPassedOn (K.flushed sink.new) (K.failed sink.new) }
    ensures untouched { (status_of fault.now ≡ 2) ⊎ (status_of fault.now ≡ 64) → sink.new ≡ sink.old }
    ensures failed { K.failed sink.old ≡ true → K.failed sink.new ≡ true }
{
    match fault {
        RunFault::Query(_) | RunFault::Filter(_) | RunFault::Settings => {}
        _ => {
            // A failure of this is passed over: it is the run's fault that is told (README, One more flush
            // after a fault).
            let _ = sink.flush();
        }
    }
}

/// Tells a fault in one line, and passes over a failure of that. Notes that have failed before are left.
pub fn tell<N: Sink>(alloc: Global, notes: &mut N, fault: &RunFault)
    ensures untouched { N.failed notes.old ≡ true → notes.new ≡ notes.old }
{
    note(notes, format!(in alloc; "jp: {fault}\n"));
}

/// Tells that a word of the command line is no UTF-8, in two lines, and gives the status to end with.
pub fn refuse_words<N: Sink>(alloc: Global, notes: &mut N) -> u8
    ensures status { result ≡ 64 }
    ensures untouched { N.failed notes.old ≡ true → notes.new ≡ notes.old }
{
    let fault = RunFault::Settings;
    tell(alloc, notes, &fault);
    note_text(notes, "jp: a word is no UTF-8; try jp --help\n");
    fault.status()
}

/// Tells how many faulty lines, or documents, were passed, in one line, and passes over a failure of that.
pub(crate) fn tell_faulty<N: Sink>(alloc: Global, notes: &mut N, faulty: u64, cutting: Cutting)
    ensures untouched { N.failed notes.old ≡ true → notes.new ≡ notes.old }
{
    let line = match cutting {
        Cutting::Lines => format!(in alloc; "jp: faulty lines: {faulty}\n"),
        Cutting::Documents => format!(in alloc; "jp: faulty documents: {faulty}\n"),
    };
    note(notes, line);
}

/// Tells that nothing is selected in so many documents, in one line, and passes over a failure of that.
fn tell_nothing_selected<N: Sink>(alloc: Global, notes: &mut N, documents: u64)
    ensures untouched { N.failed notes.old ≡ true → notes.new ≡ notes.old }
{
    note(
        notes,
        format!(in alloc; "jp: 0 nodes in {documents} documents\n"),
    );
}

/// Writes a line, or that memory was wanted for it, where the notes have not failed before.
pub(crate) fn note<N: Sink>(notes: &mut N, line: Result<String, AllocError>)
    ensures untouched { N.failed notes.old ≡ true → notes.new ≡ notes.old }
{
    match line {
        Ok(line) => note_text(notes, line.as_str()),
        Err(_) => note_text(notes, "jp: memory\n"),
    }
}

/// Writes a text where the notes have not failed before, and passes over a failure of that.
pub(crate) fn note_text<N: Sink>(notes: &mut N, text: &str)
    ensures untouched { N.failed notes.old ≡ true → notes.new ≡ notes.old }
    ensures told { (N.failed notes.new ≡ true)
        ⊎ Appends (N.contents notes.old) (N.contents notes.new) text.now }
{
    if !notes.failed() {
        let _ = write_all(notes, text.as_bytes());
    }
}
