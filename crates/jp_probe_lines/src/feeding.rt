//! Pieces that are fed: `{"pieces":{"of":"buffer","turns":[{"feed":"[1]\n["},{"feed":"2]","finish":true}]}}`
//! answers what waits behind each turn, and `{"cuts":{"of":"documents","text":"[1][2]","sizes":3}}` what a
//! text gives in one piece, and whether it gives the same in pieces of each size.

use crate::buffers::Fed;
use jp_buffer::{LineRef, WaitingLines};
use jp_probe_parts::{Row, bytes_of, items_in, number_in, text_in, text_of};
use serde::Serialize;
use serde_json::Value;
use std::alloc::{AllocError, Global};

/// What waits.
#[derive(Drop, PartialEq, Serialize)]
struct State {
    /// How many lines have ended.
    ended: u64,
    /// How many bytes wait.
    bytes: usize,
    /// The lines that wait, each behind its number and a space.
    lines: Vec<String>,
    /// How many bytes are held of the line that is open, where that is told.
    held: Option<u64>,
    /// The lines that were handed out, and how many bytes they have.
    part: Vec<String>,
    part_bytes: usize,
}

/// What the turns gave.
#[derive(Drop, Serialize)]
struct PiecesAnswer {
    turns: Vec<State>,
    /// Whether nothing had changed where a turn was refused.
    is_kept: bool,
    /// Whether copies of the lines are equal to them.
    is_copied: bool,
    /// The last line that waits.
    shown: Option<String>,
}

/// The answer to turns: what waits behind each.
pub fn answer_pieces(alloc: Global, row: Row<'_>) -> anyhow::Result<String> {
    row.has_only(&["of", "turns", "again", "shown"])?;
    let mut fed = Fed::named(alloc, row.text("of")?)?;
    let mut part = WaitingLines::new(alloc);
    let mut turns = Vec::new(alloc);
    let mut is_kept = true;
    // Whether what was refused is done again.
    let again = row.flag("again")?;
    for turn in row.items("turns")? {
        is_kept &= take_turn(alloc, Row::of(turn), again, &mut fed, &mut part)?;
        turns.push(state_of(alloc, &fed, &part)?)?;
    }
    // Whether the last line that waits is shown.
    let shown = if row.flag("shown")? {
        shown_last(alloc, &fed.lines_in(alloc)?)?
    } else {
        None
    };
    let answer = PiecesAnswer {
        turns,
        is_kept,
        is_copied: fed.is_copied()?,
        shown,
    };
    Ok(serde_json::to_string(alloc, &answer)?)
}

/// Does what a turn has, in this order. Says whether nothing had changed where it was refused.
fn take_turn(
    alloc: Global,
    turn: Row<'_>,
    again: bool,
    fed: &mut Fed,
    part: &mut WaitingLines,
) -> anyhow::Result<bool> {
    turn.has_only(&["feed", "size", "finish", "take", "hand", "clear"])?;
    let is_kept = if again {
        feed_again(alloc, turn, fed, part)?
    } else {
        feed_turn(alloc, turn, fed)?;
        true
    };
    // Takes so many lines away.
    fed.take(turn.number("take")? as usize);
    // Hands out the lines that wait, in exchange for those that were handed out before.
    if turn.flag("hand")? {
        fed.hand(part);
    }
    // Lets those that were handed out go.
    if turn.flag("clear")? {
        part.clear();
    }
    Ok(is_kept)
}

/// The last of these lines, as it is shown.
fn shown_last(alloc: Global, lines: &[LineRef<'_>]) -> Result<Option<String>, AllocError> {
    match lines.last() {
        Some(line) => Ok(Some(format!(in alloc; "{line:?}")?)),
        None => Ok(None),
    }
}

/// Feeds what a turn has, in pieces of its size if that is not 0, and ends the lines if it does.
fn feed_turn(alloc: Global, turn: Row<'_>, fed: &mut Fed) -> anyhow::Result<()> {
    if let Some(text) = turn.text_if_any("feed")? {
        let bytes = bytes_of(alloc, text)?;
        feed_in_pieces(fed, &bytes, turn.number("size")? as usize)?;
    }
    if turn.flag("finish")? {
        fed.end()?;
    }
    Ok(())
}

/// Feeds what a turn has in one piece, and again where that was refused, and so ends the lines. Says whether
/// nothing had changed then.
fn feed_again(
    alloc: Global,
    turn: Row<'_>,
    fed: &mut Fed,
    part: &WaitingLines,
) -> anyhow::Result<bool> {
    let before = state_of(alloc, fed, part)?;
    let mut is_kept = true;
    if let Some(text) = turn.text_if_any("feed")? {
        let bytes = bytes_of(alloc, text)?;
        if fed.put(&bytes).is_err() {
            is_kept = state_of(alloc, fed, part)? == before;
            fed.put(&bytes)?;
        }
    }
    let between = state_of(alloc, fed, part)?;
    if turn.flag("finish")? && fed.end().is_err() {
        is_kept &= state_of(alloc, fed, part)? == between;
        fed.end()?;
    }
    Ok(is_kept)
}

/// Feeds bytes in pieces of this size, or in one where it is 0.
fn feed_in_pieces(fed: &mut Fed, bytes: &[u8], size: usize) -> Result<(), AllocError> {
    if size == 0 {
        return fed.put(bytes);
    }
    let mut rest = bytes;
    for _ in 0..bytes.len() {
        if rest.is_empty() {
            return Ok(());
        }
        let (piece, after) = rest.split_at(size.min(rest.len()));
        fed.put(piece)?;
        rest = after;
    }
    Ok(())
}

/// What waits.
fn state_of(alloc: Global, fed: &Fed, part: &WaitingLines) -> Result<State, AllocError> {
    let lines = fed.lines_in(alloc)?;
    let handed = part.lines(alloc)?;
    Ok(State {
        ended: fed.ended(),
        bytes: fed.bytes(),
        lines: texts_of(alloc, &lines)?,
        held: fed.held(),
        part: texts_of(alloc, &handed)?,
        part_bytes: part.total_bytes(),
    })
}

/// Lines, each behind its number and a space.
fn texts_of(alloc: Global, lines: &[LineRef<'_>]) -> Result<Vec<String>, AllocError> {
    let mut texts = Vec::new(alloc);
    for line in lines {
        let text = text_of(alloc, line.bytes)?;
        texts.push(format!(in alloc; "{} {text}", line.number)?)?;
    }
    Ok(texts)
}

/// What the text gave.
#[derive(Drop, PartialEq, Serialize)]
struct CutsAnswer {
    /// How many lines had ended before the end, and behind it.
    before: u64,
    ended: u64,
    /// The lines, each behind its number and a space.
    lines: Vec<String>,
    /// How often the text was fed otherwise, and gave something else.
    unlike: u64,
}

/// The answer to a text that is fed in one piece, and in pieces of each size from 1 to a greatest one.
pub fn answer_cuts(alloc: Global, row: Row<'_>) -> anyhow::Result<String> {
    row.has_only(&["of", "text", "sizes", "in_two"])?;
    let of = row.text("of")?;
    let bytes = bytes_of(alloc, row.text("text")?)?;
    let sizes = row.number("sizes")? as usize;
    let mut answer = given(alloc, of, &[], &bytes, 0)?;
    let in_sizes = unlike_in_sizes(alloc, of, &bytes, sizes, &answer)?;
    // Whether it is fed in two pieces as well, cut at each byte.
    let in_two = if row.flag("in_two")? {
        unlike_in_two(alloc, of, &bytes, &answer)?
    } else {
        0
    };
    answer.unlike = in_sizes.wrapping_add(in_two);
    Ok(serde_json::to_string(alloc, &answer)?)
}

/// In how many sizes of pieces the text gives something else.
fn unlike_in_sizes(
    alloc: Global,
    of: &str,
    bytes: &[u8],
    sizes: usize,
    answer: &CutsAnswer,
) -> anyhow::Result<u64> {
    let mut unlike = 0u64;
    for size in 1..=sizes {
        if given(alloc, of, &[], bytes, size)? != *answer {
            unlike = unlike.wrapping_add(1);
        }
    }
    Ok(unlike)
}

/// At how many bytes it is cut and gives something else.
fn unlike_in_two(
    alloc: Global,
    of: &str,
    bytes: &[u8],
    answer: &CutsAnswer,
) -> anyhow::Result<u64> {
    let mut unlike = 0u64;
    for at in 0..=bytes.len() {
        let (first, second) = bytes.split_at(at);
        if given(alloc, of, first, second, 0)? != *answer {
            unlike = unlike.wrapping_add(1);
        }
    }
    Ok(unlike)
}

/// What is given for bytes in front, and others behind them in pieces of this size.
fn given(
    alloc: Global,
    of: &str,
    front: &[u8],
    bytes: &[u8],
    size: usize,
) -> anyhow::Result<CutsAnswer> {
    let mut fed = Fed::named(alloc, of)?;
    fed.put(front)?;
    feed_in_pieces(&mut fed, bytes, size)?;
    let before = fed.ended();
    fed.end()?;
    let lines = texts_of(alloc, &fed.lines_in(alloc)?)?;
    Ok(CutsAnswer {
        before,
        ended: fed.ended(),
        lines,
        unlike: 0,
    })
}

/// The answer to lines that are added as they are: those that wait, each behind its number and a space, how
/// many they are, and how many bytes they have.
pub fn answer_waiting(alloc: Global, row: Row<'_>) -> anyhow::Result<String> {
    row.has_only(&["pushed", "extended"])?;
    let mut part = WaitingLines::new(alloc);
    for value in row.items("pushed")? {
        push_line(&mut part, items_in(value)?)?;
    }
    let mut more = Vec::new(alloc);
    for value in row.items("extended")? {
        more.push(line_of(items_in(value)?)?)?;
    }
    part.extend(&more)?;
    part.extend(&[])?;
    let lines = texts_of(alloc, &part.lines(alloc)?)?;
    let answer = (lines, part.len() as u64, part.total_bytes() as u64);
    Ok(serde_json::to_string(alloc, &answer)?)
}

/// Adds a line by its number, its front and its back.
fn push_line(part: &mut WaitingLines, items: &[Value]) -> anyhow::Result<()> {
    let [number, front, back] = items else {
        return Err(anyhow::anyhow!("a line in a row is not three items"));
    };
    part.push(
        number_in(number)?,
        text_in(front)?.as_bytes(),
        text_in(back)?.as_bytes(),
    )?;
    Ok(())
}

/// The line that is added behind those, by its number and its bytes.
fn line_of(items: &[Value]) -> anyhow::Result<LineRef<'_>> {
    let [number, text] = items else {
        return Err(anyhow::anyhow!("a line in a row is not two items"));
    };
    Ok(LineRef {
        number: number_in(number)?,
        bytes: text_in(text)?.as_bytes(),
    })
}
