ghost use Rattle.std.specs.Prelude.{◌≡◌, ◌≤◌, ◌^◌, false};

use jp_program::{Inputs, program};
use jp_run::{Nowhere, Sink, Source};
use std::alloc::AllocGlobal;
use std::thread::Threads;

/// Does what `jp --workers 2 '$.a'` does, and gives the status.
fn members_named_a<
    R: Threads + AllocGlobal + Sync,
    S: Source<K> + Source<Nowhere>,
    I: Inputs<S>,
    K: Sink,
    N: Sink,
>(rt: &R, inputs: &mut I, source: &mut S, sink: &mut K, notes: &mut N) -> u8
    requires working { (S.failed source.old ≡ false) × (K.failed sink.old ≡ false) }
    requires few { (S.reads source.old ≤ 2 ^ 62) × (S.given source.old ≤ 2 ^ 62)
        × (I.opens inputs.old ≤ 2 ^ 62) }
{
    program(
        rt,
        &["jp", "--workers", "2", "$.a"],
        inputs,
        source,
        sink,
        notes,
    )
}
