//! What a form of the answer has written, kept in chunks.

ghost use Rattle.std.specs.Prelude.{◌≡◌, ◌++◌, [], IfOk, OnOk};
ghost use Rattle.jp_output.specs.Chunks.{bytes_in};
ghost use Rattle.jp_output.specs.inner.Buffered.{buffered};

use crate::chunks::{COPIED, append_chunks, push_chunk};
use std::alloc::{AllocError, Global};
use std::mem;

/// Bytes that are written one after another. Those of a buffer that is appended stay where they are.
#[derive(Drop)]
pub(crate) struct OutputBuffer {
    /// The bytes before those of `out`.
    pub(crate) before: Vec<Vec<u8>>,
    /// The bytes at the end, where more are appended.
    pub(crate) out: Vec<u8>,
}

impl OutputBuffer {
    /// No bytes. It takes no memory.
    pub(crate) fn new(alloc: Global) -> OutputBuffer
        ensures { buffered result ≡ [] }
    {
        OutputBuffer {
            before: Vec::new(alloc),
            out: Vec::new(alloc),
        }
    }

    /// Appends the bytes of another buffer. A few are copied, and more stay where they are.
    ///
    /// `AllocError` if a growth was refused: then some of all bytes may be lost.
    pub(crate) fn append(&mut self, other: OutputBuffer) -> Result<(), AllocError>
        ensures { OnOk result (buffered self.new ≡ buffered self.old ++ buffered other) }
    {
        if other.before.is_empty() && other.out.len() <= COPIED {
            return self.out.extend_from_slice(other.out.as_slice());
        }
        push_chunk(&mut self.before, mem::replace(&mut self.out, other.out))?;
        append_chunks(&mut self.before, other.before)
    }

    /// The bytes, in chunks as they were written. `AllocError` if a growth was refused.
    pub(crate) fn into_chunks(self) -> Result<Vec<Vec<u8>>, AllocError>
        ensures { IfOk result (λ chunks. bytes_in chunks.items ≡ buffered self) }
    {
        let mut chunks = self.before;
        push_chunk(&mut chunks, self.out)?;
        Ok(chunks)
    }
}
