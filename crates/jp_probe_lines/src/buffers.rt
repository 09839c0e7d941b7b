//! What pieces are fed to: lines with their own bytes, a buffer of lines, and one of documents.

use jp_buffer::{LineBuffer, LineRef, WaitingLines, refs_of};
use jp_doc::{Line, Lines};
use jp_documents::DocumentBuffer;
use std::alloc::{AllocError, Global};

/// The greatest number of lines that is gone by.
const MOST_LINES: u64 = 1_000_000;

/// What pieces are fed to.
#[derive(Drop)]
pub enum Fed {
    /// Lines with their own bytes, of which so many were taken away.
    Lines {
        lines: Lines,
        out: Vec<Line>,
        taken: usize,
    },
    /// A buffer of lines.
    Buffer(LineBuffer),
    /// A buffer of documents.
    Documents(DocumentBuffer),
}

impl Fed {
    /// What has this name in rows, before it is fed.
    pub fn named(alloc: Global, name: &str) -> anyhow::Result<Fed> {
        Ok(match name {
            "lines" => Fed::Lines {
                lines: Lines::new(alloc),
                out: Vec::new(alloc),
                taken: 0,
            },
            "buffer" => Fed::Buffer(LineBuffer::new(alloc)),
            "documents" => Fed::Documents(DocumentBuffer::new(alloc)),
            _ => return Err(anyhow::anyhow!(
                "nothing that is fed has the name that stands in a row"
            )),
        })
    }

    /// Feeds a piece, where few lines have ended.
    pub fn put(&mut self, piece: &[u8]) -> Result<(), AllocError> {
        match self {
            Fed::Lines { lines, out, .. } if lines.count() <= MOST_LINES => lines.feed(piece, out),
            Fed::Buffer(buffer) if buffer.count() <= MOST_LINES => buffer.feed(piece),
            Fed::Documents(buffer) if buffer.count() <= MOST_LINES => buffer.feed(piece),
            _ => Err(AllocError),
        }
    }

    /// Ends the lines, where few have ended.
    pub fn end(&mut self) -> Result<(), AllocError> {
        match self {
            Fed::Lines { lines, out, .. } if lines.count() <= MOST_LINES => lines.finish(out),
            Fed::Buffer(buffer) if buffer.count() <= MOST_LINES => buffer.finish(),
            Fed::Documents(buffer) if buffer.count() <= MOST_LINES => buffer.finish(),
            _ => Err(AllocError),
        }
    }

    /// Takes lines away, as many as wait at most.
    pub fn take(&mut self, count: usize) {
        match self {
            Fed::Lines { out, taken, .. } => *taken = taken.saturating_add(count).min(out.len()),
            Fed::Buffer(buffer) => buffer.take_away(count.min(buffer.len())),
            Fed::Documents(buffer) => buffer.take_away(count.min(buffer.len())),
        }
    }

    /// Hands out the lines that wait, and has these wait in their place. Lines with their own bytes stay.
    pub fn hand(&mut self, part: &mut WaitingLines) {
        match self {
            Fed::Lines { .. } => {}
            Fed::Buffer(buffer) => buffer.exchange(part),
            Fed::Documents(buffer) => buffer.exchange(part),
        }
    }

    /// How many lines have ended.
    pub fn ended(&self) -> u64 {
        match self {
            Fed::Lines { lines, .. } => lines.count(),
            Fed::Buffer(buffer) => buffer.count(),
            Fed::Documents(buffer) => buffer.count(),
        }
    }

    /// How many bytes wait.
    pub fn bytes(&self) -> usize {
        match self {
            Fed::Lines { out, taken, .. } => bytes_in(behind(out, *taken)),
            Fed::Buffer(buffer) => buffer.total_bytes(),
            Fed::Documents(buffer) => buffer.total_bytes(),
        }
    }

    /// How many lines wait.
    pub fn waiting(&self) -> usize {
        match self {
            Fed::Lines { out, taken, .. } => behind(out, *taken).len(),
            Fed::Buffer(buffer) => buffer.len(),
            Fed::Documents(buffer) => buffer.len(),
        }
    }

    /// How many bytes are held of the line that is open, where that is told.
    pub fn held(&self) -> Option<u64> {
        match self {
            Fed::Lines { lines, .. } => Some(lines.held()),
            _ => None,
        }
    }

    /// The lines that wait.
    pub fn lines_in(&self, alloc: Global) -> Result<Vec<LineRef<'_>>, AllocError> {
        match self {
            Fed::Lines { out, taken, .. } => refs_of(alloc, behind(out, *taken)),
            Fed::Buffer(buffer) => buffer.lines(alloc),
            Fed::Documents(buffer) => buffer.lines(alloc),
        }
    }

    /// Whether copies of the lines are equal to them.
    pub fn is_copied(&self) -> Result<bool, AllocError> {
        match self {
            Fed::Lines { out, .. } => Ok(out.clone()? == *out),
            _ => Ok(true),
        }
    }
}

/// The lines behind so many.
fn behind(lines: &[Line], count: usize) -> &[Line] {
    lines.get(count..).unwrap_or(&[])
}

/// How many bytes these lines have.
fn bytes_in(lines: &[Line]) -> usize {
    let mut bytes: usize = 0;
    for line in lines {
        bytes = bytes.saturating_add(line.bytes.len());
    }
    bytes
}
