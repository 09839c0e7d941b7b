//! The form of input lines: each line that has a node which is selected, as it came.

ghost use Rattle.std.specs.Prelude.{◌≡◌, false, []};

use crate::form::Form;
use crate::layout::Layout;
use crate::output_buffer::OutputBuffer;
use jp_doc::DocFault;
use jp_node::{Part, PathStack, Visit};
use std::alloc::{AllocError, Global};
use std::marker::Model;

/// Takes the first node of a document, and appends its line, byte for byte as it came, with a line feed, once
/// it has ended.
///
/// Its meaning is whether the line that has begun has such a node, and the lines before it. It keeps no path
/// and no value, and is full after the first node. The line is copied once.
#[derive(Drop)]
pub struct InputLines {
    selected: bool,
    lines: OutputBuffer,
}

impl Model for InputLines {
    ghost use Rattle.std.specs.Prelude.{ℕ, Bool, List};
    ghost use Rattle.jp_output.specs.inner.Buffered.{buffered};

    ghost Value = { Bool × List ℕ };

    ghost view = { λ t. (t.selected, buffered t.lines) };
}

impl InputLines {
    /// Nothing is written, and no node is selected.
    fn empty(alloc: Global) -> InputLines
        ensures { result ≡ (false, []) }
    {
        InputLines {
            selected: false,
            lines: OutputBuffer::new(alloc),
        }
    }
}

impl Visit for InputLines {
    ghost use Rattle.std.specs.Prelude.{ℕ, Bool, false, List, [], refl};
    ghost use Rattle.jp_output.specs.InputLine.{put_selected};

    ghost Kept = { Bool × List ℕ };

    ghost kept = { λ lines. lines };

    ghost put = { put_selected };

    ghost emptied = { λ _. (false, []) };

    ghost emptied_stays = { λ _ _. refl };

    fn node(
        &mut self,
        _alloc: Global,
        _path_stack: &mut PathStack<'_>,
        _value: Part<'_>,
    ) -> Result<(), AllocError> {
        self.selected = true;
        Ok(())
    }

    fn is_full(&self) -> bool {
        self.selected
    }

    fn fresh(&self, alloc: Global) -> Self {
        InputLines::empty(alloc)
    }

    fn append(&mut self, other: Self) -> Result<(), AllocError> {
        self.selected |= other.selected;
        Ok(())
    }
}

impl Form for InputLines {
    ghost use Rattle.std.specs.Prelude.{◌≡◌, false, refl};
    ghost use Rattle.jp_output.specs.InputLine.{end_line};
    ghost use Rattle.jp_output.specs.OutputForm.{input_lines};
    ghost use Rattle.jp_output.specs.inner.Taken.{selected_written};

    ghost says = { λ _. input_lines };

    ghost form = { λ _. input_lines };

    ghost written = { λ lines. lines.1 };

    ghost HasBegun = { λ lines _ before. lines ≡ (false, before) };

    ghost ended = { end_line };

    fn new(alloc: Global, _layout: &Layout) -> Self {
        InputLines::empty(alloc)
    }

    fn begin(&mut self, _number: u64) {
        self.selected = false;
    }

    fn end(&mut self, line: &[u8]) -> Result<(), AllocError> {
        if self.selected {
            self.lines.out.extend_from_slice(line)?;
            self.lines.out.push(b'\n')?;
        }
        Ok(())
    }

    fn push_fault(
        &mut self,
        _alloc: Global,
        _number: u64,
        _fault: &DocFault,
    ) -> Result<(), AllocError> {
        // A faulty line has no document, and so no node.
        Ok(())
    }

    fn into_chunks(self) -> Result<Vec<Vec<u8>>, AllocError> {
        self.lines.into_chunks()
    }

    ghost writes = { λ begun visited _ before line ns. selected_written begun visited before line ns };

    ghost form_stays = { λ _ _ _ _. refl };
}
