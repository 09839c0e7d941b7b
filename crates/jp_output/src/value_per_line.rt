//! The forms of values: the text of each, on a line of its own, or with another ending.

ghost use Rattle.std.specs.Prelude.{◌≡◌, ◌∷◌, [], ◌++◌, OnOk};
ghost use Rattle.jp_node.specs.Part.{part_value};

use crate::form::Form;
use crate::layout::Layout;
use crate::output_buffer::OutputBuffer;
use crate::value_form::{Compact, Raw, Unquoted, ValueForm};
use jp_doc::DocFault;
use jp_node::{Part, PathStack, Visit};
use std::alloc::{AllocError, Global};
use std::marker::{Model, PhantomData};

/// The compact text of each value (RFC 8259), on a line of its own.
pub type ValueLines = ValuePerLine<Compact>;

/// The same, but a text stands without its two quotes, and with `"` in place of `\"`. So each is one line,
/// and different texts have different lines.
pub type TextLines = ValuePerLine<Unquoted>;

/// The same, but a text stands as it is, line feeds and all: so a text may be no line or several.
pub type RawLines = ValuePerLine<Raw>;

/// Takes nodes as the texts of their values, each with a line feed or another ending, behind those before.
///
/// Its meaning is the ending and the bytes so far. A node takes no allocation but the growth of what is
/// written, since the scratch buffer that its text is made in is used again, and a list of members for each
/// object. No path's text is made.
#[derive(Drop)]
pub struct ValuePerLine<T: ValueForm> {
    scratch: Vec<u8>,
    /// The byte behind each text.
    ending: u8,
    lines: OutputBuffer,
    text: PhantomData<T>,
}

impl<T: ValueForm> Model for ValuePerLine<T> {
    ghost use Rattle.std.specs.Prelude.{ℕ, List};
    ghost use Rattle.jp_output.specs.inner.Buffered.{buffered};

    ghost Value = { ℕ × List ℕ };

    ghost view = { λ t. (t.ending, buffered t.lines) };
}

impl<T: ValueForm> ValuePerLine<T> {
    /// Nothing is written, and this byte ends each text.
    fn empty(alloc: Global, ending: u8) -> ValuePerLine<T>
        ensures { result ≡ (ending, []) }
    {
        ValuePerLine {
            scratch: Vec::new(alloc),
            ending,
            lines: OutputBuffer::new(alloc),
            text: PhantomData,
        }
    }
}

impl<T: ValueForm> Visit for ValuePerLine<T> {
    ghost use Rattle.std.specs.Prelude.{ℕ, List, [], refl};
    ghost use Rattle.jp_output.specs.OutputLine.{put_ended};

    ghost Kept = { ℕ × List ℕ };

    ghost kept = { λ lines. lines };

    ghost put = { put_ended T.text };

    ghost emptied = { λ lines. (lines.0, []) };

    ghost emptied_stays = { λ _ _. refl };

    fn node(
        &mut self,
        alloc: Global,
        _path_stack: &mut PathStack<'_>,
        value: Part<'_>,
    ) -> Result<(), AllocError> {
        let out = &mut self.lines.out;
        append_ended::<T>(alloc, value, self.ending, &mut self.scratch, out)
    }

    fn is_full(&self) -> bool {
        false
    }

    fn fresh(&self, alloc: Global) -> Self {
        ValuePerLine::empty(alloc, self.ending)
    }

    fn append(&mut self, other: Self) -> Result<(), AllocError> {
        self.lines.append(other.lines)
    }
}

impl<T: ValueForm> Form for ValuePerLine<T> {
    ghost use Rattle.std.specs.Prelude.{◌≡◌};
    ghost use Rattle.jp_output.specs.Layouts.{ending_byte};
    ghost use Rattle.jp_output.specs.OutputForm.{values_ended_by};
    ghost use Rattle.jp_output.specs.inner.Taken.{ending_stays, values_written};

    ghost says = { λ layout. values_ended_by (ending_byte layout.ending) T.text };

    ghost form = { λ lines. values_ended_by lines.0 T.text };

    ghost written = { λ lines. lines.1 };

    ghost HasBegun = { λ lines _ before. lines.1 ≡ before };

    ghost ended = { λ lines _. lines.1 };

    fn new(alloc: Global, layout: &Layout) -> Self {
        ValuePerLine::empty(alloc, layout.ending.byte())
    }

    fn begin(&mut self, _number: u64) {}

    fn end(&mut self, _line: &[u8]) -> Result<(), AllocError> {
        Ok(())
    }

    fn push_fault(
        &mut self,
        _alloc: Global,
        _number: u64,
        _fault: &DocFault,
    ) -> Result<(), AllocError> {
        Ok(())
    }

    fn into_chunks(self) -> Result<Vec<Vec<u8>>, AllocError> {
        self.lines.into_chunks()
    }

    ghost writes = { λ begun visited _ before _ ns. values_written T.text begun visited before ns };

    ghost form_stays = { ending_stays T.text };
}

/// Appends the text of a value and this byte, with a scratch buffer for pieces of it.
fn append_ended<T: ValueForm>(
    alloc: Global,
    value: Part<'_>,
    ending: u8,
    scratch: &mut Vec<u8>,
    out: &mut Vec<u8>,
) -> Result<(), AllocError>
    ensures { OnOk result (out.new.items
        ≡ out.old.items ++ (T.text (part_value value.entry) ++ ending ∷ [])) }
{
    T::append(alloc, value, scratch, out)?;
    out.push(ending)?;
    Ok(())
}
