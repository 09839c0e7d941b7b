//! Lines that wait for their answer, in one buffer.

ghost use Rattle.std.specs.Prelude.{◌≡◌, ◌+◌, ◌<◌, ◌≤◌, ◌^◌, [], ◌∷◌, ◌++◌, map, take, drop, length};
ghost use Rattle.std.specs.Prelude.{IfOk, OnOk, OnErr, vec_len};
ghost use Rattle.jp_doc.specs.Feeding.{numbered};
ghost use Rattle.jp_buffer.specs.Buffered.{line_at, total_bytes};
ghost use Rattle.jp_buffer.specs.inner.Waiting.{Begins, bytes_of, lines_in};

use crate::line_ref::LineRef;
use jp_doc::{LONG_LINE, is_blank_line};
use std::alloc::{AllocError, Global};
use std::marker::Model;
use std::mem;

/// A line of the buffer, which begins where the one before it ends.
#[derive(Clone, Copy)]
struct Span {
    number: u64,
    len: usize,
}

/// Lines that wait for their answer, whose bytes stand in one buffer.
///
/// A line takes no allocation of its own: its bytes go behind those of the lines before it, into memory that
/// is used again once lines are taken away; after lines of over 1,000,000 bytes it is let go.
#[derive(Drop)]
pub struct WaitingLines {
    /// The bytes of the lines, one behind another, and no others.
    bytes: Vec<u8>,
    spans: Vec<Span>,
}

impl Model for WaitingLines {
    ghost use Rattle.std.specs.Prelude.{◌≡◌, List, length};
    ghost use Rattle.jp_doc.specs.Lines.{Line};
    ghost use Rattle.jp_buffer.specs.inner.Waiting.{bytes_of, lines_in};

    ghost Value = { List Line };

    ghost view = { λ w. lines_in w.bytes.items w.spans.items };

    ghost invariant = { λ w. length w.bytes.items ≡ bytes_of w.spans.items };
}

impl WaitingLines {
    /// No lines. It takes no memory.
    pub fn new(alloc: Global) -> WaitingLines
        ensures { result ≡ [] }
    {
        WaitingLines {
            bytes: Vec::new(alloc),
            spans: Vec::new(alloc),
        }
    }

    /// How many lines there are.
    pub fn len(&self) -> usize
        ensures { result ≡ length self.now }
    {
        self.spans.len()
    }

    /// How many bytes the lines have together, without their line feeds.
    pub fn total_bytes(&self) -> usize
        ensures { result ≡ total_bytes self.now }
    {
        self.bytes.len()
    }

    /// Adds a line that is given in two parts, unless it is blank.
    ///
    /// `AllocError` if a growth was refused: then nothing has changed.
    pub fn push(&mut self, number: u64, front: &[u8], back: &[u8]) -> Result<(), AllocError>
        ensures lines { OnOk result
            (self.new ≡ self.old ++ numbered number ((front.now ++ back.now) ∷ [])) }
        ensures same { OnErr result (self.new ≡ self.old) }
    {
        if is_blank_line(front) && is_blank_line(back) {
            return Ok(());
        }
        self.append(number, front, back)
    }

    /// Adds a line that is given in two parts, as `push` does. Where no line waits, and the first part is long,
    /// its memory becomes that of the lines: so it is not copied, and others stand in its place.
    ///
    /// `AllocError` if a growth was refused: then nothing has changed.
    pub fn push_taking(
        &mut self,
        number: u64,
        front: &mut Vec<u8>,
        back: &[u8],
    ) -> Result<(), AllocError>
        ensures lines { OnOk result
            (self.new ≡ self.old ++ numbered number ((front.old.items ++ back.now) ∷ [])) }
        ensures same { OnErr result (self.new ≡ self.old) }
        ensures same_front { OnErr result (front.new.items ≡ front.old.items) }
    {
        if !self.spans.is_empty() || front.len() < LONG_LINE || is_blank_line(front) {
            return self.push(number, front, back);
        }
        self.take(number, front, back)
    }

    /// Adds lines as they are, blank ones too.
    ///
    /// `AllocError` if a growth was refused: then some of them may have been added.
    pub fn extend(&mut self, lines: &[LineRef<'_>]) -> Result<(), AllocError>
        ensures { OnOk result (self.new ≡ self.old ++ map line_at lines.now) }
    {
        for line in lines {
            self.append(line.number, line.bytes, &[])?;
        }
        Ok(())
    }

    /// Adds a line that is given in two parts.
    fn append(&mut self, number: u64, front: &[u8], back: &[u8]) -> Result<(), AllocError>
        ensures lines { OnOk result (self.new ≡ self.old ++ (number, front.now ++ back.now) ∷ []) }
        ensures same { OnErr result (self.new ≡ self.old) }
    {
        let before = self.bytes.len();
        match append_parts(number, front, back, &mut self.bytes, &mut self.spans) {
            Ok(()) => Ok(()),
            Err(error) => {
                self.bytes.truncate(before);
                Err(error)
            }
        }
    }

    /// Has one line, given in two parts, whose first one's memory it takes, where none waits.
    fn take(&mut self, number: u64, front: &mut Vec<u8>, back: &[u8]) -> Result<(), AllocError>
        requires none { self.old ≡ [] }
        ensures lines { OnOk result (self.new ≡ (number, front.old.items ++ back.now) ∷ []) }
        ensures same { OnErr result (self.new ≡ self.old) }
        ensures same_front { OnErr result (front.new.items ≡ front.old.items) }
    {
        let before = front.len();
        front.extend_from_slice(back)?;
        let len = front.len();
        match self.spans.push(Span { number, len }) {
            Ok(()) => {
                mem::swap(&mut self.bytes, front);
                Ok(())
            }
            Err(_) => {
                front.truncate(before);
                Err(AllocError)
            }
        }
    }

    /// The lines, in order. `AllocError` if the list was refused its memory.
    pub fn lines(&self, alloc: Global) -> Result<Vec<LineRef<'_>>, AllocError>
        ensures { IfOk result (λ lines. map line_at lines.items ≡ self.now) }
    {
        // Their number is known, so the list takes one allocation.
        let mut lines = Vec::with_capacity(alloc, self.spans.len())?;
        let mut rest = self.bytes.as_slice();
        for span in &self.spans {
            let (bytes, after) = rest.split_at(span.len);
            let number = span.number;
            lines.push(LineRef { number, bytes })?;
            rest = after;
        }
        Ok(lines)
    }

    /// Keeps so many lines at the front.
    pub fn truncate(&mut self, count: usize)
        requires { count ≤ length self.old }
        ensures { self.new ≡ take count self.old }
    {
        let (kept, _) = self.spans.split_at(count);
        let end = total_len(kept);
        self.bytes.truncate(end);
        self.spans.truncate(count);
    }

    /// Takes all lines away. Their memory is used again, but for that of long lines.
    pub fn clear(&mut self)
        ensures { self.new ≡ [] }
    {
        self.take_away(self.len());
    }

    /// Takes so many lines away from the front, and lets their memory go where they are long.
    pub fn take_away(&mut self, count: usize)
        requires { count ≤ length self.old }
        ensures { self.new ≡ drop count self.old }
    {
        let (taken, _) = self.spans.split_at(count);
        let end = total_len(taken);
        take_front(&mut self.bytes, end);
        take_front(&mut self.spans, count);
        let_go(&mut self.bytes, end, count);
    }
}

/// Appends a line that is given in two parts. An `Err` may leave more behind the bytes.
fn append_parts(
    number: u64,
    front: &[u8],
    back: &[u8],
    bytes: &mut Vec<u8>,
    spans: &mut Vec<Span>,
) -> Result<(), AllocError>
    ensures bytes { OnOk result (bytes.new.items ≡ bytes.old.items ++ (front.now ++ back.now)) }
    ensures spans { OnOk result (spans.new.items
        ≡ spans.old.items ++ record { number = number; len = length (front.now ++ back.now) } ∷ []) }
    ensures more_bytes { OnErr result (Begins bytes.old.items bytes.new.items) }
    ensures same_spans { OnErr result (spans.new.items ≡ spans.old.items) }
{
    bytes.extend_from_slice(front)?;
    bytes.extend_from_slice(back)?;
    let len = front.len() + back.len();
    spans.push(Span { number, len })?;
    Ok(())
}

/// How many bytes lines have together.
fn total_len(spans: &[Span]) -> usize
    requires { bytes_of spans.now < 2 ^ 64 }
    ensures { result ≡ bytes_of spans.now }
{
    let mut total = 0;
    for span in spans {
        total += span.len;
    }
    total
}

/// Takes so many items away from the front. Only those behind them are moved, and none if none is taken.
fn take_front<T: Copy>(items: &mut Vec<T>, count: usize)
    requires { count ≤ vec_len items.old }
    ensures { items.new.items ≡ drop count items.old.items }
{
    // Most reads take nothing away: what waits is not moved for that.
    if count == 0 {
        return;
    }
    let left = items.len() - count;
    items.copy_within(count.., 0);
    items.truncate(left);
}

/// Lets the spare memory of the bytes go, but for 1 MB, where the lines that were taken away are long.
fn let_go(bytes: &mut Vec<u8>, taken: usize, count: usize)
    ensures { bytes.new.items ≡ bytes.old.items }
{
    // By their mean length, so that many short lines keep the memory that they share.
    if taken / LONG_LINE > count {
        bytes.shrink_to(LONG_LINE);
    }
}
