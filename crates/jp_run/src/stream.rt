//! The lines of a run between the source and the sink.

ghost use Rattle.std.specs.Prelude.{◌≡◌, ◌<◌, IfOk, vec_len, false};
ghost use Rattle.jp_run.specs.inner.Input.{nothing_come};

use crate::buffers::Buffers;
use crate::cutting::Cutting;
use crate::input::InputBuffer;
use std::alloc::{AllocError, Global};

/// The lines of a run between the source and the sink, and how far the answer has come.
#[derive(Drop)]
pub(crate) struct Stream {
    /// What a source is read into.
    pub(crate) scratch: Vec<u8>,
    /// How many calls of `read` are left.
    pub(crate) left: u64,
    /// The lines that have come and wait for their answer.
    pub(crate) buffer: InputBuffer,
    /// How many bytes have come since no line waited.
    pub(crate) come: usize,
    pub(crate) answered: Answered,
    ghost not_empty: { 0 < vec_len scratch },
}

/// What has been answered and written.
#[derive(Clone, Copy, Drop)]
pub(crate) struct Answered {
    /// How many lines, but for blank ones.
    pub(crate) lines: u64,
    /// How many faulty lines the answer has passed.
    pub(crate) faulty: u64,
    /// How many bytes were written, which stops at 18446744073709551615.
    pub(crate) wrote: u64,
}

/// What some lines, which are answered, add to that.
#[derive(Clone, Copy, Drop)]
pub(crate) struct Passed {
    /// How many faulty lines their answer passes.
    pub(crate) faulty: u64,
    /// How many bytes it has, which stops at 18446744073709551615.
    pub(crate) wrote: u64,
}

impl Stream {
    /// No lines, cut so, behind so many, and so many calls of `read` left. What it reads into, and where its
    /// lines wait, is taken from the buffers.
    pub(crate) fn new(
        alloc: Global,
        buffers: &mut Buffers,
        cutting: Cutting,
        before: u64,
        left: u64,
    ) -> Result<Stream, AllocError>
        ensures left { IfOk result (λ s. s.left ≡ left) }
        ensures buffer { IfOk result (λ s. s.buffer
            ≡ nothing_come (record { cutting = cutting; before = before })) }
        ensures come { IfOk result (λ s. s.come ≡ 0) }
        ensures answered { IfOk result (λ s. s.answered ≡ record { lines = 0; faulty = 0; wrote = 0 }) }
    {
        // A source may write anything into what it is given, also where it fails: so that is no line's
        // memory.
        let scratch = buffers.take(alloc)?;
        let mut buffer = InputBuffer::new(alloc, cutting, before);
        buffer.exchange(&mut buffers.take_waiting(alloc));
        Ok(Stream {
            scratch,
            left,
            buffer,
            come: 0,
            answered: Answered {
                lines: 0,
                faulty: 0,
                wrote: 0,
            },
        })
    }

    /// Gives what was read into, and where lines have waited, back to the buffers.
    pub(crate) fn end(self, buffers: &mut Buffers)
        ensures scratch { buffers.new.scratch ≡ self.scratch }
        ensures waiting { buffers.new.waiting ≡ self.buffer.lines }
    {
        let Stream {
            scratch,
            mut buffer,
            ..
        } = self;
        buffers.give(scratch, &mut buffer);
    }
}
