//! Pieces that are drawn: `{"drawn":{"from":0,"to":199}}` answers for how many starts of these the buffer of
//! lines and the lines with their own bytes have the same lines behind each piece.

use crate::buffers::Fed;
use jp_buffer::LineRef;
use jp_probe_parts::Row;
use std::alloc::{AllocError, Global};

/// What the bytes of the pieces are drawn from: lines of few bytes, and some blank ones.
const BYTES: &[u8; 8] = b"\n\n \r\tab7";

/// The answer: of the starts from one to another, both too, for how many the lines are the same.
pub fn answer_drawn(alloc: Global, row: Row<'_>) -> anyhow::Result<String> {
    row.has_only(&["from", "to"])?;
    let mut alike = 0u64;
    for start in row.number("from")?..=row.number("to")? {
        if go_alike(alloc, start)? {
            alike = alike.wrapping_add(1);
        }
    }
    Ok(serde_json::to_string(alloc, &alike)?)
}

/// The next number drawn.
fn drawn(state: u64) -> u64 {
    state
        .wrapping_mul(6_364_136_223_846_793_005)
        .wrapping_add(1_442_695_040_888_963_407)
}

/// A piece of so many bytes, and the numbers after it.
fn drawn_piece(alloc: Global, state: u64, len: u64) -> Result<(Vec<u8>, u64), AllocError> {
    let mut piece = Vec::new(alloc);
    let mut next = state;
    for _ in 0..len {
        next = drawn(next);
        piece.push(BYTES[(next >> 61) as usize])?;
    }
    Ok((piece, next))
}

/// Whether two lists have the same lines.
fn are_alike(left: &[LineRef<'_>], right: &[LineRef<'_>]) -> bool {
    left.len() == right.len()
        && left.iter().zip(right).all(|(line, other)| line.number == other.number
            && line.bytes == other.bytes)
}

/// Whether the same lines wait in both.
fn wait_alike(alloc: Global, buffer: &Fed, own: &Fed) -> Result<bool, AllocError> {
    let alike = are_alike(&buffer.lines_in(alloc)?, &own.lines_in(alloc)?);
    Ok(alike && buffer.ended() == own.ended() && buffer.waiting() == own.waiting())
}

/// Whether both have the same lines of pieces that are drawn, where some lines are taken away each time.
fn go_alike(alloc: Global, start: u64) -> anyhow::Result<bool> {
    let mut buffer = Fed::named(alloc, "buffer")?;
    let mut own = Fed::named(alloc, "lines")?;
    let mut state = drawn(start);
    for _ in 0..40 {
        let (piece, next) = drawn_piece(alloc, state, state >> 59)?;
        state = drawn(next);
        buffer.put(&piece)?;
        own.put(&piece)?;
        buffer.take((state >> 62) as usize);
        own.take((state >> 62) as usize);
        if !wait_alike(alloc, &buffer, &own)? {
            return Ok(false);
        }
    }
    buffer.end()?;
    own.end()?;
    Ok(wait_alike(alloc, &buffer, &own)?)
}
