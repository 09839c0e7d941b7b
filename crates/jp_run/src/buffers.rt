//! What runs use one after another.

ghost use Rattle.std.specs.Prelude.{◌≡◌, [], IfOk, vec_len};

use crate::input::InputBuffer;
use crate::limits::READ_SIZE;
use jp_buffer::WaitingLines;
use std::alloc::{AllocError, Global};
use std::mem;

/// The memory that a run reads into and keeps waiting lines in, kept for the next one: so it is made once for
/// several inputs.
///
/// A source finds in what it is given what earlier reads have left there, also those of another run.
#[derive(Drop)]
pub struct Buffers {
    /// What a source was read into: nothing before the first run, and where it was not given back.
    scratch: Vec<u8>,
    /// Where lines have waited.
    waiting: WaitingLines,
}

impl Buffers {
    /// Nothing yet: the first run makes what it needs. It takes no memory.
    pub fn new(alloc: Global) -> Buffers {
        Buffers {
            scratch: Vec::new(alloc),
            waiting: WaitingLines::new(alloc),
        }
    }

    /// Hands out what a source is read into, as wide as it was at first, and keeps nothing.
    ///
    /// `AllocError` if it was refused its memory.
    pub(crate) fn take(&mut self, alloc: Global) -> Result<Vec<u8>, AllocError>
        ensures { IfOk result (λ scratch. vec_len scratch ≡ 65536) }
    {
        let mut scratch = mem::replace(&mut self.scratch, Vec::new(alloc));
        // A run may have narrowed it, for its own lines.
        scratch.resize(READ_SIZE, 0)?;
        Ok(scratch)
    }

    /// Hands out where lines wait, of which there are none, and keeps nothing. It takes no memory.
    pub(crate) fn take_waiting(&mut self, alloc: Global) -> WaitingLines
        ensures { result ≡ [] }
    {
        let mut waiting = mem::replace(&mut self.waiting, WaitingLines::new(alloc));
        // A run that ends before its input leaves lines there.
        waiting.clear();
        waiting
    }

    /// Keeps what a source was read into, and where the lines of the buffer wait, for the next run.
    pub(crate) fn give(&mut self, scratch: Vec<u8>, buffer: &mut InputBuffer)
        ensures scratch { self.new.scratch ≡ scratch }
        ensures waiting { self.new.waiting ≡ buffer.old.lines }
    {
        self.scratch = scratch;
        buffer.exchange(&mut self.waiting);
    }
}
