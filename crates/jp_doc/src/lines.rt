//! Lines of bytes that come in pieces (JSON Lines).

ghost use Rattle.std.specs.Prelude.{◌≡◌, ◌+◌, ◌≤◌, [], ◌∷◌, ◌++◌, false, length, map, IfOk, OnOk, OnErr};
ghost use Rattle.jp_doc.specs.inner.Added.{Adds, Begins, after_line};
ghost use Rattle.jp_doc.specs.Feeding.{cut, has_line_feed, numbered, nothing_fed, fed, fed_lines, finished};
ghost use Rattle.jp_doc.specs.Feeding.{finished_lines, max_lines};
ghost use Rattle.jp_doc.specs.Lines.{line_of};

use crate::cutting::{first_line, is_blank_line};
use crate::line::Line;
use std::alloc::{AllocError, Global};
use std::marker::Model;
use std::mem;

/// Numbers the lines of bytes that come in pieces, and keeps the line that is not yet ended.
#[derive(Drop)]
pub struct Lines {
    alloc: Global,
    count: u64,
    open_line: Vec<u8>,
}

impl Model for Lines {
    ghost use Rattle.std.specs.Prelude.{◌≡◌, false};
    ghost use Rattle.jp_doc.specs.Feeding.{Progress, has_line_feed};

    ghost Value = { Progress };

    ghost view = { λ l. record { count = l.count; open_line = l.open_line.items } };

    ghost invariant = { λ l. has_line_feed l.open_line.items ≡ false };
}

impl Lines {
    /// No lines yet.
    pub fn new(alloc: Global) -> Lines
        ensures { result ≡ nothing_fed }
    {
        Lines {
            alloc,
            count: 0,
            open_line: Vec::new(alloc),
        }
    }

    /// How many lines have ended, blank ones too.
    pub fn count(&self) -> u64
        ensures { result ≡ self.now.count }
    {
        self.count
    }

    /// How many bytes of the next line are held: those fed since the last line feed, or since the last
    /// `finish`, by calls that succeeded. It takes no memory.
    pub fn held(&self) -> u64
        ensures { result ≡ length self.now.open_line }
    {
        self.open_line.len() as u64
    }

    /// Adds the lines that the piece completes to `out`, without those that are blank.
    ///
    /// `AllocError` if a growth was refused: then nothing has changed, and the piece can be fed again.
    pub fn feed(&mut self, piece: &[u8], out: &mut Vec<Line>) -> Result<(), AllocError>
        requires { self.old.count ≤ max_lines }
        ensures lines { OnOk result (map line_of out.new.items
            ≡ map line_of out.old.items ++ fed_lines self.old piece.now) }
        ensures progress { OnOk result (self.new ≡ fed self.old piece.now) }
        ensures same_lines { OnErr result (out.new.items ≡ out.old.items) }
        ensures same_progress { OnErr result (self.new ≡ self.old) }
    {
        let before = out.len();
        let held = self.open_line.len();
        let fed = self.feed_piece(piece, out);
        if fed.is_err() {
            out.truncate(before);
            self.open_line.truncate(held);
        }
        fed
    }

    /// Ends the line that is open, if there is one, and adds it to `out` unless it is blank. The next piece
    /// begins a new line.
    ///
    /// `AllocError` if a growth was refused: then nothing has changed.
    pub fn finish(&mut self, out: &mut Vec<Line>) -> Result<(), AllocError>
        requires { self.old.count ≤ max_lines }
        ensures lines { OnOk result (map line_of out.new.items
            ≡ map line_of out.old.items ++ finished_lines self.old) }
        ensures progress { OnOk result (self.new ≡ finished self.old) }
        ensures same_lines { OnErr result (out.new.items ≡ out.old.items) }
        ensures same_progress { OnErr result (self.new ≡ self.old) }
    {
        if self.open_line.is_empty() {
            return Ok(());
        }
        let before = out.len();
        let ended = self.end_line(&[], out);
        if ended.is_err() {
            out.truncate(before);
        }
        ended
    }

    /// As `feed`, but an `Err` may leave more behind the lines of `out` and behind the open line.
    fn feed_piece(&mut self, piece: &[u8], out: &mut Vec<Line>) -> Result<(), AllocError>
        requires { self.old.count ≤ max_lines }
        ensures lines { OnOk result (Adds out.old.items out.new.items (fed_lines self.old piece.now)) }
        ensures progress { OnOk result (self.new ≡ fed self.old piece.now) }
        ensures more_lines { OnErr result (Begins out.old.items out.new.items) }
        ensures more_bytes { OnErr result (Begins self.old.open_line self.new.open_line) }
        ensures same_count { OnErr result (self.new.count ≡ self.old.count) }
    {
        let Some((line, after)) = first_line(piece) else {
            self.open_line.extend_from_slice(piece)?;
            return Ok(());
        };
        self.open_line.extend_from_slice(line)?;
        self.end_line(after, out)
    }

    /// Ends the open line, and adds it and the lines that end in the bytes after it. An `Err` may leave more
    /// behind the lines of `out`.
    fn end_line(&mut self, after: &[u8], out: &mut Vec<Line>) -> Result<(), AllocError>
        requires { self.old.count ≤ max_lines }
        ensures lines { OnOk result (Adds out.old.items out.new.items
            (numbered (self.old.count + 1) (self.old.open_line ∷ (cut after.now).ended))) }
        ensures progress { OnOk result (self.new ≡ after_line self.old (cut after.now)) }
        ensures more_lines { OnErr result (Begins out.old.items out.new.items) }
        ensures same_progress { OnErr result (self.new ≡ self.old) }
    {
        let (at, number) = (out.len(), self.count + 1);
        let is_blank = is_blank_line(&self.open_line);
        if !is_blank {
            // Its place is taken now, and the open line moves there once no growth can be refused any more.
            let bytes = Vec::new(self.alloc);
            out.push(Line { number, bytes })?;
        }
        let (count, rest) = push_lines(self.alloc, number, after, out)?;
        let open_line = Vec::from_slice(self.alloc, rest)?;
        let bytes = mem::replace(&mut self.open_line, open_line);
        if !is_blank {
            out[at] = Line { number, bytes };
        }
        self.count = count;
        Ok(())
    }
}

/// Adds the lines that end in the bytes, numbered on from `before`. Gives how many lines have ended then,
/// and the bytes of the next. An `Err` may leave more behind the lines of `out`.
fn push_lines<'b>(
    alloc: Global,
    before: u64,
    bytes: &'b [u8],
    out: &mut Vec<Line>,
) -> Result<(u64, &'b [u8]), AllocError>
    requires { before ≤ max_lines + 1 }
    ensures lines { OnOk result
        (Adds out.old.items out.new.items (numbered (before + 1) (cut bytes.now).ended)) }
    ensures count { IfOk result (λ r. r.0 ≡ before + length (cut bytes.now).ended) }
    ensures rest { IfOk result (λ r. r.1.now ≡ (cut bytes.now).open_line) }
    ensures open_line { IfOk result (λ r. has_line_feed r.1.now ≡ false) }
    ensures more_lines { OnErr result (Begins out.old.items out.new.items) }
{
    let mut count = before;
    let mut rest = bytes;
    while let Some((line, after)) = first_line(rest) {
        count += 1;
        push_line(alloc, count, line, out)?;
        rest = after;
    }
    Ok((count, rest))
}

/// Adds a line, unless it is blank.
fn push_line(alloc: Global, number: u64, line: &[u8], out: &mut Vec<Line>) -> Result<(), AllocError>
    ensures lines { OnOk result (Adds out.old.items out.new.items (numbered number (line.now ∷ []))) }
    ensures same_lines { OnErr result (out.new.items ≡ out.old.items) }
{
    if is_blank_line(line) {
        return Ok(());
    }
    let bytes = Vec::from_slice(alloc, line)?;
    out.push(Line { number, bytes })?;
    Ok(())
}
