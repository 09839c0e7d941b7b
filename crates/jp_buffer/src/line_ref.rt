//! Numbered lines whose bytes stand elsewhere.

ghost use Rattle.std.specs.Prelude.{◌≡◌, map, IfOk};
ghost use Rattle.jp_doc.specs.Lines.{line_of};
ghost use Rattle.jp_buffer.specs.Buffered.{line_at};

use jp_doc::Line;
use std::alloc::{AllocError, Global};

/// A line that isn't blank, whose bytes stand elsewhere.
#[derive(Clone, Copy, Debug)]
pub struct LineRef<'b> {
    /// The line's number, from 1.
    pub number: u64,
    /// Its bytes, without the line feed.
    pub bytes: &'b [u8],
}

impl<'b> LineRef<'b> {
    /// A line that has its own bytes.
    pub fn of(line: &'b Line) -> LineRef<'b>
        ensures { line_at result ≡ line_of line.now }
    {
        LineRef {
            number: line.number,
            bytes: &line.bytes,
        }
    }
}

/// Lines that have their own bytes, in their order. `AllocError` if the list was refused its memory.
pub fn refs_of<'b>(alloc: Global, lines: &'b [Line]) -> Result<Vec<LineRef<'b>>, AllocError>
    ensures { IfOk result (λ refs. map line_at refs.items ≡ map line_of lines.now) }
{
    // Their number is known, so the list takes one allocation.
    let mut refs = Vec::with_capacity(alloc, lines.len())?;
    for line in lines {
        refs.push(LineRef::of(line))?;
    }
    Ok(refs)
}
