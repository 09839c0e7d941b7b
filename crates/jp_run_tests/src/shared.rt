//! What these tests share.

ghost use Rattle.std.specs.Prelude.{◌≡◌, ◌^◌, ◌≤◌, false};

use jp_answer::Gate;
use jp_doc::{Line, Lines};
use jp_run::{RunFault, Settings, Sink, Source, Supply, Totals};
use std::alloc::{AllocError, Global};
use std::thread::Threads;

/// A run. It promises nothing here: tests look at what it does, and are proved sooner.
pub(crate) fn run<R: Threads + Sync, S: Source<K>, K: Sink, G: Gate + Sync>(
    rt: &R,
    alloc: Global,
    source: &mut S,
    sink: &mut K,
    query: &str,
    settings: &Settings<'_>,
    gate: &G,
) -> Result<Totals, RunFault>
    requires working { (S.failed source.old ≡ false) × (K.failed sink.old ≡ false) }
    requires few { (S.reads source.old ≤ 2 ^ 62) × (S.given source.old ≤ 2 ^ 62) }
{
    jp_run::run(rt, alloc, source, sink, query, settings, gate)
}

/// The lines of a text.
pub(crate) fn lines_of(alloc: Global, text: &[u8]) -> Result<Vec<Line>, AllocError> {
    let mut lines = Vec::new(alloc);
    Lines::new(alloc).feed(text, &mut lines)?;
    Ok(lines)
}

/// A document on a line with so many blanks behind it.
pub(crate) fn push_long(document: &str, blanks: usize, out: &mut String) -> Result<(), AllocError> {
    out.push_str(document)?;
    for _blank in 0..blanks {
        out.push(' ')?;
    }
    out.push('\n')?;
    Ok(())
}
