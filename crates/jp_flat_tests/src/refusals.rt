//! Calls whose growths of memory a sweep refuses, one after another, each in a run of its own; and counts.

use jp_flat::LineReader;
use jp_number::Numbers;
use std::alloc::{AllocError, Global};
use std::test::Fail;

/// Whether lines are read flat in turn, so many in all, where one reading may be refused memory.
fn reads_in_turn(
    reader: &mut LineReader,
    numbers: Numbers,
    lines: [&[u8]; 2],
    times: usize,
) -> bool {
    let mut was_refused = false;
    for time in 0..times {
        match reader.read(numbers, lines[time % 2]) {
            Ok(Ok(_)) => {}
            Err(_) if !was_refused => was_refused = true,
            _ => return false,
        }
    }
    true
}

/// `scripts/sweep` says how often memory may grow here: for the first of each line alone. The second line has
/// no room where the nodes of the first lay.
#[test]
fn many_lines(rt: HostRuntime) {
    let mut reader = LineReader::new(rt.alloc());
    let line = b"{\"id\":1234567890123456789,\"name\":\"x\\ty\",\"tags\":[\"p\",{\"q\":null}]}";
    assert!(rt; reads_in_turn(&mut reader, Numbers::Whole, [b"[1]", line], 2_000));
}

/// As `many_lines`, where numbers need not be whole.
#[test]
fn many_decimal_lines(rt: HostRuntime) {
    let mut reader = LineReader::new(rt.alloc());
    let line = b"{\"id\":1234567890.123456789,\"name\":\"x\\ty\",\"tags\":[\"p\",{\"q\":-1e-7}]}";
    assert!(rt; reads_in_turn(&mut reader, Numbers::Decimals, [b"[1.5]", line], 2_000));
}

/// A line of over 1,000,000 bytes, which has a text with an escape.
fn long_line(alloc: Global) -> Result<Vec<u8>, AllocError> {
    let mut line = Vec::new(alloc);
    line.resize(1_000_000, b' ')?;
    line.extend_from_slice(b"\"x\\ty\"")?;
    Ok(line)
}

/// A long line's memory is let go once the next line is read, so each takes its memory anew: `scripts/sweep`
/// says how often memory has to grow here at least.
#[test]
fn long_lines(rt: HostRuntime) -> Result<(), Fail> {
    // One growth is refused at most, so one of two is made.
    let long = long_line(rt.alloc()).or_else(|_| long_line(rt.alloc()))?;
    let mut reader = LineReader::new(rt.alloc());
    assert!(rt; reads_in_turn(&mut reader, Numbers::Whole, [&long, b"[1]"], 20));
    Ok(())
}
