//! The documents of an input that wait for their answer.

ghost use Rattle.std.specs.Prelude.{◌≡◌, ◌≤◌, ◌++◌, [], map, IfOk, OnOk};
ghost use Rattle.jp_buffer.specs.Buffered.{line_at};
ghost use Rattle.jp_doc.specs.Feeding.{finished, finished_lines, max_lines};
ghost use Rattle.jp_run.specs.Cutting.{fed, fed_lines};
ghost use Rattle.jp_memory.specs.inner.Input.{nothing_come};

use jp_buffer::{LineBuffer, LineRef};
use jp_documents::DocumentBuffer;
use jp_run::Cutting;
use std::alloc::{AllocError, Global};
use std::marker::Model;

/// The documents of an input that wait for their answer, and the bytes of the one that is open, whichever way
/// the input is cut.
#[derive(Drop)]
pub(crate) struct InputBuffer {
    parts: Parts,
}

/// A buffer that cuts so.
#[derive(Drop)]
enum Parts {
    Lines(LineBuffer),
    Documents(DocumentBuffer),
}

impl Model for InputBuffer {
    ghost use Rattle.jp_memory.specs.inner.Input.{Input, input_of};

    ghost Value = { Input };

    ghost view = { λ b. input_of b.parts };
}

impl InputBuffer {
    /// Nothing has come yet, behind so many parts. It takes no memory.
    pub(crate) fn new(alloc: Global, cutting: Cutting, before: u64) -> InputBuffer
        ensures { result ≡ nothing_come (record { cutting = cutting; before = before }) }
    {
        let parts = match cutting {
            Cutting::Lines => Parts::Lines(LineBuffer::behind(alloc, before)),
            Cutting::Documents => Parts::Documents(DocumentBuffer::behind(alloc, before)),
        };
        InputBuffer { parts }
    }

    /// How many parts have ended, with those before the input, those that were taken away and blank lines.
    pub(crate) fn count(&self) -> u64
        ensures { result ≡ self.now.progress.count }
    {
        match &self.parts {
            Parts::Lines(buffer) => buffer.count(),
            Parts::Documents(buffer) => buffer.count(),
        }
    }

    /// Adds the documents that the piece completes. `AllocError` if a growth was refused.
    pub(crate) fn feed(&mut self, piece: &[u8]) -> Result<(), AllocError>
        requires { self.old.progress.count ≤ max_lines }
        ensures lines { OnOk result (self.new.lines
            ≡ self.old.lines ++ fed_lines self.old.cutting self.old.progress piece.now) }
        ensures progress { OnOk result (self.new.progress
            ≡ fed self.old.cutting self.old.progress piece.now) }
        ensures cutting { self.new.cutting ≡ self.old.cutting }
    {
        match &mut self.parts {
            Parts::Lines(buffer) => buffer.feed(piece),
            Parts::Documents(buffer) => buffer.feed(piece),
        }
    }

    /// Ends what is open, and adds it unless it is a blank line. `AllocError` if a growth was refused.
    pub(crate) fn finish(&mut self) -> Result<(), AllocError>
        requires { self.old.progress.count ≤ max_lines }
        ensures lines { OnOk result (self.new.lines
            ≡ self.old.lines ++ finished_lines self.old.progress) }
        ensures progress { OnOk result (self.new.progress ≡ finished self.old.progress) }
        ensures cutting { self.new.cutting ≡ self.old.cutting }
    {
        match &mut self.parts {
            Parts::Lines(buffer) => buffer.finish(),
            Parts::Documents(buffer) => buffer.finish(),
        }
    }

    /// The documents that wait, in order. `AllocError` if the list was refused its memory.
    pub(crate) fn lines(&self, alloc: Global) -> Result<Vec<LineRef<'_>>, AllocError>
        ensures { IfOk result (λ lines. map line_at lines.items ≡ self.now.lines) }
    {
        match &self.parts {
            Parts::Lines(buffer) => buffer.lines(alloc),
            Parts::Documents(buffer) => buffer.lines(alloc),
        }
    }

    /// Takes all documents that wait away.
    pub(crate) fn take_all_away(&mut self)
        ensures none { self.new.lines ≡ [] }
        ensures progress { self.new.progress ≡ self.old.progress }
        ensures cutting { self.new.cutting ≡ self.old.cutting }
    {
        match &mut self.parts {
            Parts::Lines(buffer) => buffer.take_away(buffer.len()),
            Parts::Documents(buffer) => buffer.take_away(buffer.len()),
        }
    }
}
