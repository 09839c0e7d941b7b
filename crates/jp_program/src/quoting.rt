//! A text that is printed as a literal of a query, for a query that a shell puts together.

ghost use Rattle.std.specs.Prelude.{◌≡◌, ◌⊎◌, true, false, option_map, string_bytes, IfOk, IfErr, OnOk};
ghost use Rattle.std.specs.Io.KnownBytes.{Appends, Keeps};
ghost use Rattle.clap.specs.Walk.{texts};
ghost use Rattle.jp_run.specs.Written.{AppendsFront, IsPassedOn};
ghost use Rattle.jp_program.specs.CommandLine.{to_quote};
ghost use Rattle.jp_program.specs.Printed.{IsPrinted, literal_line};

use crate::command::{note, pass_on_after, tell};
use crate::line::write_line;
use jp_quote::quote;
use jp_run::{RunFault, Sink};
use std::alloc::{AllocError, Global};

/// The text that the words ask to be quoted: `--quote` and the text are all that stands behind the name.
///
/// `clap` is not asked, which takes a word that begins with `-` for an option (README, A text to be quoted).
pub(crate) fn value_to_quote<'a>(words: &[&'a str]) -> Option<&'a str>
    ensures { option_map (λ s. s.now) result ≡ to_quote (texts words.now) }
{
    match words {
        [_, option, value] if *option == "--quote" => Some(*value),
        _ => None,
    }
}

/// Prints the text as a literal of a query, with a line feed behind it, and gives the status to end with.
pub(crate) fn print_literal<K: Sink, N: Sink>(
    alloc: Global,
    sink: &mut K,
    notes: &mut N,
    value: &str,
) -> u8
    requires { K.failed sink.old ≡ false }
    ensures printed { IsPrinted value.now result (K.contents sink.old) (K.contents sink.new)
        (K.flushed sink.new) (K.failed sink.new) }
    ensures status { (result ≡ 0) ⊎ (result ≡ 4) ⊎ (result ≡ 5) }
    ensures passed_on { (result ≡ 3) ⊎ (result ≡ 4) ⊎ (result ≡ 5)
        → IsPassedOn (K.flushed sink.new) (K.failed sink.new) }
{
    match write_literal(alloc, sink, value) {
        Ok(()) => 0,
        Err(fault) => {
            pass_on_after(sink, &fault);
            tell_unwritten(alloc, sink, notes, &fault);
            fault.status()
        }
    }
}

/// Writes the literal and a line feed, and passes them on.
fn write_literal<K: Sink>(alloc: Global, sink: &mut K, value: &str) -> Result<(), RunFault>
    requires { K.failed sink.old ≡ false }
    ensures ok { OnOk result (Appends (K.contents sink.old) (K.contents sink.new) (literal_line value.now)) }
    ensures flushed { OnOk result (K.flushed sink.new ≡ true) }
    ensures working { OnOk result (K.failed sink.new ≡ false) }
    ensures fault { IfErr result (λ fault. ((fault ≡ RunFault.Memory)
        × Keeps (K.contents sink.old) (K.contents sink.new))
        ⊎ ((fault ≡ RunFault.Write) × (K.failed sink.new ≡ true)
        × AppendsFront (K.contents sink.old) (K.contents sink.new) (literal_line value.now))) }
{
    let line = literal_line(alloc, value)?;
    write_line(sink, line.as_str())
}

/// The literal whose value is the text, and a line feed.
fn literal_line(alloc: Global, value: &str) -> Result<String, AllocError>
    ensures { IfOk result (λ line. string_bytes line ≡ literal_line value.now) }
{
    let mut line = quote(alloc, value)?;
    line.push('\n')?;
    Ok(line)
}

/// Tells why the literal is not written, unless nobody reads any more what is.
fn tell_unwritten<K: Sink, N: Sink>(alloc: Global, sink: &K, notes: &mut N, fault: &RunFault) {
    if sink.lost_reader() {
        return;
    }
    tell(alloc, notes, fault);
    if let Ok(Some(reason)) = sink.reason(alloc) {
        note(notes, format!(in alloc; "jp: standard output: {reason}\n"));
    }
}
