//! A run over more bytes than a few blocks hold, whose reads do not wait: a worker answers beside the reads.

use crate::gates::{Entered, Pair};
use crate::shared::{push_long, run};
use jp_run::{FromReader, FromWriter, Settings};
use std::alloc::{AllocError, Global};
use std::test::Fail;

/// How many lines there are, each of some 400 bytes: a megabyte and a half, which are 23 reads.
const LINES: u64 = 4_000;

const BLANKS: usize = 400;

/// The lines, each with its number in an array, and blanks behind it.
fn lines(alloc: Global) -> Result<String, AllocError> {
    let mut text = String::new(alloc);
    for number in 1..=LINES {
        let document = format!(in alloc; "[{number}]")?;
        push_long(&document, BLANKS, &mut text)?;
    }
    Ok(text)
}

/// The first two blocks wait for each other: so the calling thread answers one, and a worker the other.
#[test]
fn a_worker_answers(rt: HostRuntime) -> Result<(), Fail> {
    let text = lines(rt.alloc())?;
    let settings = Settings::new(2, 64, 4_096)?;
    let gate = Pair(Entered::new());
    let mut source = FromReader::never_waits(text.as_bytes());
    let mut bytes = Vec::new(rt.alloc());
    let mut sink = FromWriter::new(&mut bytes);
    let end = run(
        &rt,
        rt.alloc(),
        &mut source,
        &mut sink,
        "$[0]",
        &settings,
        &gate,
    );
    assert!(rt; end.is_ok());
    assert_eq!(rt; gate.0.failures(), 0);
    assert_eq!(rt; gate.0.seen(), [true, true, true]);
    Ok(())
}
