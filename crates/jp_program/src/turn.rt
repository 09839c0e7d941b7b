//! The run over one input, by its name.

ghost use Rattle.std.specs.Prelude.{◌≡◌, ◌<◌, ◌≤◌, ◌^◌, ◌⊎◌, true, false, IsNone, IsSomeAnd, length};
ghost use Rattle.std.specs.Prelude.{option_map, IfErr, OnOk};
ghost use Rattle.std.specs.Io.KnownBytes.{Appends};
ghost use Rattle.jp_run.specs.Answered.{head_behind, manner_of};
ghost use Rattle.jp_run.specs.Begun.{AllSince};
ghost use Rattle.jp_run.specs.Limits.{window};
ghost use Rattle.jp_run.specs.Prompt.{IsPrompt, IsNear};
ghost use Rattle.jp_run.specs.Written.{AppendsFront};
ghost use Rattle.jp_program.specs.inner.Invocation.{IsPrepared, wanted_of};
ghost use Rattle.jp_program.specs.inner.Turn.{HasTurned, IsRunFor};
ghost use Rattle.jp_program.specs.Outcome.{asked_in, count_line, head_of, manner_for};

use crate::command_line::Wanted;
use crate::counting::count_line;
use crate::line::write_line;
use crate::witness::{NamedWitness, Witness};
use jp_answer::Crew;
use jp_run::{Buffers, Nowhere, Output, Prepared, RunFault, Settings, Sink, Source, Totals};
use std::alloc::AllocGlobal;
use std::thread::Threads;

/// What is asked of each input.
#[derive(Drop)]
pub(crate) struct Search<'r, 'g, 'w, 'q, R> {
    pub(crate) rt: &'r R,
    /// What sees faulty lines.
    pub(crate) witness: &'g Witness,
    pub(crate) wanted: &'w Wanted<'q>,
    /// What its texts spell.
    pub(crate) prepared: &'w Prepared,
}

/// The settings of a run over the input of this name, which stands before its lines where that is wanted.
fn settings_for<'n>(wanted: &'n Wanted<'n>, name: &'n str) -> Settings<'n>
    ensures manner { manner_of result ≡ manner_for (wanted_of wanted.now) name.entry.now
        (wanted_of wanted.now).on_fault }
    ensures on_fault { result.on_fault ≡ wanted.now.settings.on_fault }
    ensures numbers { result.numbers ≡ wanted.now.settings.numbers }
{
    if wanted.counts {
        // For each node a line feed alone.
        return wanted.settings.with_output(Output::Rows).with_fields(&[]);
    }
    let settings = wanted.settings.with_fields(wanted.fields.as_slice());
    settings.with_name(head_name(wanted, name))
}

/// The name of an input, where that is to stand before its lines.
fn head_name<'n>(wanted: &Wanted<'_>, name: &'n str) -> Option<&'n str>
    ensures { head_behind (option_map (λ n. n.now) result) ≡ head_of (wanted_of wanted.now) name.entry.now }
{
    if wanted.names { Some(name) } else { None }
}

/// The name of a file with which its faulty lines are explained, where it is one of several.
fn told_name<'n>(wanted: &Wanted<'_>, name: &'n str) -> Option<&'n str>
    ensures several { 1 < length wanted.now.files.items
        → IsSomeAnd result (λ given. given.now ≡ name.entry.now) }
    ensures alone { length wanted.now.files.items ≤ 1 → IsNone result }
{
    if wanted.files.len() > 1 {
        Some(name)
    } else {
        None
    }
}

/// Answers the wanted query over the input of this name, which is read into what the buffers keep, or counts
/// the nodes that it selects there.
pub(crate) fn run_named<R: Threads + AllocGlobal + Sync, S: Source<K> + Source<Nowhere>, K: Sink>(
    search: &Search<'_, '_, '_, '_, R>,
    name: &str,
    buffers: &mut Buffers,
    source: &mut S,
    sink: &mut K,
) -> Result<Totals, RunFault>
    requires working { (S.failed source.old ≡ false) × (K.failed sink.old ≡ false) }
    requires taken { IsPrepared search.now.wanted.now search.now.prepared.now }
    requires few { (S.reads source.old ≤ 2 ^ 62) × (S.given source.old ≤ 2 ^ 62) }
    ensures turned { HasTurned (wanted_of search.now.wanted.now) (record {
      rest = S.remaining source.new;
      reads = S.reads source.old;
      reads_new = S.reads source.new;
      source_failed = S.failed source.new;
      sink_failed = K.failed sink.new;
    }) (name.now, S.remaining source.old) (K.contents sink.old) (K.contents sink.new) (K.flushed sink.new)
        result }
    ensures prompt { (wanted_of search.now.wanted.now).counts ≡ false
        → AllSince (S.begun source.old) (S.begun source.new) (IsPrompt (manner_for
        (wanted_of search.now.wanted.now) name.now (wanted_of search.now.wanted.now).on_fault)
        (asked_in (wanted_of search.now.wanted.now)) (S.remaining source.old) (K.contents sink.old)) }
    ensures window { (wanted_of search.now.wanted.now).counts ≡ false
        → AllSince (S.begun source.old) (S.begun source.new) (IsNear window (manner_for
        (wanted_of search.now.wanted.now) name.now (wanted_of search.now.wanted.now).on_fault)
        (asked_in (wanted_of search.now.wanted.now)) (S.remaining source.old) (K.contents sink.old)) }
{
    if !search.wanted.counts {
        return run_over(search, name, buffers, source, sink);
    }
    let totals = run_over(search, name, buffers, source, &mut Nowhere::new())?;
    write_count(search, name, sink, totals.wrote)?;
    Ok(totals)
}

/// Writes the count of an input of this name on a line, and passes it on.
fn write_count<R: AllocGlobal, K: Sink>(
    search: &Search<'_, '_, '_, '_, R>,
    name: &str,
    sink: &mut K,
    count: u64,
) -> Result<(), RunFault>
    requires working { K.failed sink.old ≡ false }
    ensures ok { OnOk result (Appends (K.contents sink.old) (K.contents sink.new)
        (count_line (head_of (wanted_of search.now.wanted.now) name.now) count)) }
    ensures flushed { OnOk result (K.flushed sink.new ≡ true) }
    ensures still_working { OnOk result (K.failed sink.new ≡ false) }
    ensures fault { IfErr result (λ fault. ((fault ≡ RunFault.Memory) × (sink.new ≡ sink.old))
        ⊎ ((fault ≡ RunFault.Write) × (K.failed sink.new ≡ true)
        × AppendsFront (K.contents sink.old) (K.contents sink.new)
        (count_line (head_of (wanted_of search.now.wanted.now) name.now) count))) }
{
    let line = count_line(search.rt.alloc(), head_name(search.wanted, name), count)?;
    write_line(sink, line.as_str())
}

/// Runs what is prepared over the input of this name, as it is wanted, into some sink.
fn run_over<R: Threads + AllocGlobal + Sync, S: Source<K>, K: Sink>(
    search: &Search<'_, '_, '_, '_, R>,
    name: &str,
    buffers: &mut Buffers,
    source: &mut S,
    sink: &mut K,
) -> Result<Totals, RunFault>
    requires working { (S.failed source.old ≡ false) × (K.failed sink.old ≡ false) }
    requires taken { IsPrepared search.now.wanted.now search.now.prepared.now }
    requires few { (S.reads source.old ≤ 2 ^ 62) × (S.given source.old ≤ 2 ^ 62) }
    ensures ran { IsRunFor (wanted_of search.now.wanted.now) name.now S.Supply K.Sink source.old source.new
        sink.old sink.new result }
{
    let wanted = search.wanted;
    let settings = settings_for(wanted, name);
    let gate = NamedWitness {
        witness: search.witness,
        name: told_name(wanted, name),
    };
    let crew = Crew {
        rt: search.rt,
        alloc: search.rt.alloc(),
        gate: &gate,
    };
    search.prepared.run(&crew, &settings, buffers, source, sink)
}
