//! The lines of a stream that wait for their answer, and the line that is not ended yet.

ghost use Rattle.std.specs.Prelude.{◌≡◌, ◌+◌, ◌≤◌, [], ◌∷◌, ◌++◌, map, take, drop, length};
ghost use Rattle.std.specs.Prelude.{IfOk, OnOk, OnErr};
ghost use Rattle.jp_doc.specs.Feeding.{fed, fed_lines, finished, finished_lines, numbered, max_lines};
ghost use Rattle.jp_buffer.specs.Buffered.{line_at, nothing_buffered, nothing_buffered_behind, total_bytes};
ghost use Rattle.jp_buffer.specs.Buffered.{nothing_fed_behind};
ghost use Rattle.jp_buffer.specs.inner.Waiting.{Begins};

use crate::cutting::push_lines;
use crate::line_ref::LineRef;
use crate::waiting::WaitingLines;
use jp_doc::{LONG_LINE, first_line};
use std::alloc::{AllocError, Global};
use std::marker::Model;
use std::mem;

/// The lines of a stream that wait for their answer, and the line that is not ended yet.
///
/// A line takes no allocation of its own: its bytes go behind those of the lines before it, into memory that
/// is used again once lines are taken away; after lines of over 1,000,000 bytes it is let go. Blank lines are
/// counted, and take no memory.
#[derive(Drop)]
pub struct LineBuffer {
    waiting: WaitingLines,
    /// The bytes of the line that is not ended yet.
    open_line: Vec<u8>,
    /// How many lines have ended, blank ones and those before the first piece too.
    count: u64,
}

impl Model for LineBuffer {
    ghost use Rattle.std.specs.Prelude.{◌≡◌, false};
    ghost use Rattle.jp_doc.specs.Feeding.{has_line_feed};
    ghost use Rattle.jp_buffer.specs.Buffered.{Buffered};

    ghost Value = { Buffered };

    ghost view = { λ b. record {
      progress = record { count = b.count; open_line = b.open_line.items };
      lines = b.waiting;
    } };

    ghost invariant = { λ b. has_line_feed b.open_line.items ≡ false };
}

impl LineBuffer {
    /// No lines yet. It takes no memory.
    pub fn new(alloc: Global) -> LineBuffer
        ensures { result ≡ nothing_buffered }
    {
        LineBuffer::behind(alloc, 0)
    }

    /// No lines yet, where so many have ended before: the first one has the next number. It takes no memory.
    pub fn behind(alloc: Global, count: u64) -> LineBuffer
        ensures { result ≡ nothing_buffered_behind count }
    {
        LineBuffer {
            waiting: WaitingLines::new(alloc),
            open_line: Vec::new(alloc),
            count,
        }
    }

    /// How many lines have ended: blank ones, those that were taken away and those before the first piece
    /// too.
    pub fn count(&self) -> u64
        ensures { result ≡ self.now.progress.count }
    {
        self.count
    }

    /// How many lines wait.
    pub fn len(&self) -> usize
        ensures { result ≡ length self.now.lines }
    {
        self.waiting.len()
    }

    /// How many bytes the lines that wait have together, without their line feeds.
    pub fn total_bytes(&self) -> usize
        ensures { result ≡ total_bytes self.now.lines }
    {
        self.waiting.total_bytes()
    }

    /// Hands out the lines that wait, and has these wait in their place.
    ///
    /// So the lines of one part of a stream can be answered while the next ones come in, and two buffers are
    /// used in turn.
    pub fn exchange(&mut self, lines: &mut WaitingLines)
        ensures out { lines.new ≡ self.old.lines }
        ensures within { self.new.lines ≡ lines.old }
        ensures progress { self.new.progress ≡ self.old.progress }
    {
        mem::swap(&mut self.waiting, lines);
    }

    /// Adds the lines that the piece completes, without those that are blank.
    ///
    /// `AllocError` if a growth was refused: then nothing has changed, and the piece can be fed again.
    pub fn feed(&mut self, piece: &[u8]) -> Result<(), AllocError>
        requires { self.old.progress.count ≤ max_lines }
        ensures lines { OnOk result (self.new.lines
            ≡ self.old.lines ++ fed_lines self.old.progress piece.now) }
        ensures progress { OnOk result (self.new.progress ≡ fed self.old.progress piece.now) }
        ensures same { OnErr result (self.new ≡ self.old) }
    {
        let before = self.waiting.len();
        let fed = self.feed_piece(piece);
        if fed.is_err() {
            self.waiting.truncate(before);
        }
        fed
    }

    /// Ends the line that is open, if there is one, and adds it unless it is blank. The next piece begins a
    /// new line.
    ///
    /// `AllocError` if a growth was refused: then nothing has changed.
    pub fn finish(&mut self) -> Result<(), AllocError>
        requires { self.old.progress.count ≤ max_lines }
        ensures lines { OnOk result (self.new.lines
            ≡ self.old.lines ++ finished_lines self.old.progress) }
        ensures progress { OnOk result (self.new.progress ≡ finished self.old.progress) }
        ensures same { OnErr result (self.new ≡ self.old) }
    {
        if self.open_line.is_empty() {
            return Ok(());
        }
        self.end_line(&[])
    }

    /// The lines that wait, in order. `AllocError` if the list was refused its memory.
    pub fn lines(&self, alloc: Global) -> Result<Vec<LineRef<'_>>, AllocError>
        ensures { IfOk result (λ lines. map line_at lines.items ≡ self.now.lines) }
    {
        self.waiting.lines(alloc)
    }

    /// Takes so many lines away from the front. Their memory is used again, but for that of long lines.
    pub fn take_away(&mut self, count: usize)
        requires { count ≤ length self.old.lines }
        ensures lines { self.new.lines ≡ drop count self.old.lines }
        ensures progress { self.new.progress ≡ self.old.progress }
    {
        self.waiting.take_away(count);
    }

    /// As `feed`, but an `Err` may leave more behind the lines that wait.
    fn feed_piece(&mut self, piece: &[u8]) -> Result<(), AllocError>
        requires { self.old.progress.count ≤ max_lines }
        ensures lines { OnOk result (self.new.lines
            ≡ self.old.lines ++ fed_lines self.old.progress piece.now) }
        ensures progress { OnOk result (self.new.progress ≡ fed self.old.progress piece.now) }
        ensures more_lines { OnErr result (Begins self.old.lines self.new.lines) }
        ensures same_progress { OnErr result (self.new.progress ≡ self.old.progress) }
    {
        let Some((line, after)) = first_line(piece) else {
            self.open_line.extend_from_slice(piece)?;
            return Ok(());
        };
        if after.is_empty() {
            self.end_line(line)?;
            return Ok(());
        }
        let number = self.count + 1;
        self.waiting.push(number, &self.open_line, line)?;
        let (count, rest) = push_lines(number, after, &mut self.waiting)?;
        // Last: a refusal before this leaves the open line, and `feed` takes back what was put behind those
        // that wait.
        put_instead(&mut self.open_line, rest)?;
        self.count = count;
        Ok(())
    }

    /// Ends the line that is open by these bytes, behind which nothing has come, and adds it unless it is
    /// blank.
    ///
    /// `AllocError` if a growth was refused: then nothing has changed.
    fn end_line(&mut self, back: &[u8]) -> Result<(), AllocError>
        requires { self.old.progress.count ≤ max_lines }
        ensures lines { OnOk result (self.new.lines ≡ self.old.lines ++ numbered
            (self.old.progress.count + 1) ((self.old.progress.open_line ++ back.now) ∷ [])) }
        ensures progress { OnOk result (self.new.progress ≡ nothing_fed_behind (self.old.progress.count + 1)) }
        ensures same { OnErr result (self.new ≡ self.old) }
    {
        let number = self.count + 1;
        self.waiting.push_taking(number, &mut self.open_line, back)?;
        self.open_line.clear();
        // So that one long line does not hold its memory for the rest of the stream.
        self.open_line.shrink_to(LONG_LINE);
        self.count = number;
        Ok(())
    }
}

/// Puts bytes in the place of those of a vector, whose memory is let go where they were many. `AllocError` if
/// a growth was refused: then they are the bytes that they were.
pub fn put_instead(place: &mut Vec<u8>, bytes: &[u8]) -> Result<(), AllocError>
    ensures ok { OnOk result (place.new.items ≡ bytes.now) }
    ensures same { OnErr result (place.new.items ≡ place.old.items) }
{
    // Before anything is let go, so that a refusal leaves the bytes as they were.
    place.reserve(bytes.len())?;
    place.clear();
    place.shrink_to(bytes.len().max(LONG_LINE));
    place.extend_from_slice(bytes)
}
