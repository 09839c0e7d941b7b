//! A batch of two documents, by two workers at once.

use crate::gates::{Entered, Pair};
use crate::shared::{push_long, run};
use jp_answer::Gate;
use jp_run::{FromReader, FromWriter, RunFault, Settings};
use std::alloc::Global;
use std::test::Fail;
use std::thread::Threads;

/// More bytes than are answered without workers: more than four reads.
const WORTH_A_BLOCK: usize = 300_000;

/// Whether a run of two documents by two workers, in such pieces, writes both.
fn is_run_by_two<R: Threads + Sync, G: Gate + Sync>(
    rt: &R,
    alloc: Global,
    piece: u64,
    gate: &G,
) -> Result<bool, RunFault> {
    let settings = Settings::new(2, piece, 2)?;
    let mut text = String::new(alloc);
    push_long("[]", WORTH_A_BLOCK, &mut text)?;
    push_long("{}", WORTH_A_BLOCK, &mut text)?;
    let mut source = FromReader::never_waits(text.as_bytes());
    let mut bytes = Vec::new(alloc);
    let mut sink = FromWriter::new(&mut bytes);
    let end = run(rt, alloc, &mut source, &mut sink, "$", &settings, gate);
    Ok(end.is_ok() && bytes.as_slice() == b"1\t$\t[]\n2\t$\t{}\n".as_slice())
}

/// Two long documents are two blocks, however large a piece may be.
#[test]
fn two_workers_at_once_in_a_batch(rt: HostRuntime) -> Result<(), Fail> {
    for piece in &[1u64, 64] {
        let gate = Pair(Entered::new());
        assert!(rt; is_run_by_two(&rt, rt.alloc(), *piece, &gate)?);
        assert_eq!(rt; gate.0.failures(), 0);
        assert_eq!(rt; gate.0.seen(), [true, true, false]);
    }
    Ok(())
}
