//! The form of rows: the fields of each node, side by side.

ghost use Rattle.std.specs.Prelude.{◌≡◌, ◌++◌, [], map, OnOk};
ghost use Rattle.jp_node.specs.Part.{part_value};
ghost use Rattle.jp_output.specs.Rows.{behind_tabs, field_at, field_of, row};

use crate::field::{Field, FieldList};
use crate::form::Form;
use crate::layout::Layout;
use crate::output_buffer::OutputBuffer;
use crate::unquoted_text::append_unquoted;
use jp_doc::DocFault;
use jp_node::{Part, PathStack, Visit};
use std::alloc::{AllocError, Global};
use std::marker::Model;

/// Takes nodes as rows of their fields, behind the rows before.
///
/// Its meaning is the fields and the bytes so far. A node takes no allocation but the growth of what is
/// written, since the scratch buffer that a text is made in is used again, and a list of members for each
/// object. No path's text is made.
#[derive(Drop)]
pub struct RowLines {
    fields: FieldList,
    scratch: Vec<u8>,
    lines: OutputBuffer,
}

impl Model for RowLines {
    ghost use Rattle.std.specs.Prelude.{ℕ, List};
    ghost use Rattle.jp_output.specs.Rows.{Path};
    ghost use Rattle.jp_output.specs.inner.Buffered.{buffered};

    ghost Value = { List Path × List ℕ };

    ghost view = { λ t. (t.fields, buffered t.lines) };
}

impl RowLines {
    /// Nothing is written, and each row is to have these fields. It takes no memory.
    fn empty(alloc: Global, fields: &FieldList) -> RowLines
        ensures { result ≡ (fields.now, []) }
    {
        RowLines {
            fields: fields.again(),
            scratch: Vec::new(alloc),
            lines: OutputBuffer::new(alloc),
        }
    }
}

impl Visit for RowLines {
    ghost use Rattle.std.specs.Prelude.{ℕ, List, [], refl};
    ghost use Rattle.jp_output.specs.Rows.{put_row};
    ghost use Rattle.jp_output.specs.Rows.{Path};

    ghost Kept = { List Path × List ℕ };

    ghost kept = { λ rows. rows };

    ghost put = { put_row };

    ghost emptied = { λ rows. (rows.0, []) };

    ghost emptied_stays = { λ _ _. refl };

    fn node(
        &mut self,
        alloc: Global,
        _path_stack: &mut PathStack<'_>,
        value: Part<'_>,
    ) -> Result<(), AllocError> {
        let fields = self.fields.list()?;
        append_row(alloc, fields, value, &mut self.scratch, &mut self.lines.out)
    }

    fn is_full(&self) -> bool {
        false
    }

    fn fresh(&self, alloc: Global) -> Self {
        RowLines::empty(alloc, &self.fields)
    }

    fn append(&mut self, other: Self) -> Result<(), AllocError> {
        self.lines.append(other.lines)
    }
}

impl Form for RowLines {
    ghost use Rattle.std.specs.Prelude.{◌≡◌};
    ghost use Rattle.jp_output.specs.OutputForm.{row_lines};
    ghost use Rattle.jp_output.specs.inner.Taken.{fields_stay, rows_written};

    ghost says = { λ layout. row_lines layout.fields };

    ghost form = { λ rows. row_lines rows.0 };

    ghost written = { λ rows. rows.1 };

    ghost HasBegun = { λ rows _ before. rows.1 ≡ before };

    ghost ended = { λ rows _. rows.1 };

    fn new(alloc: Global, layout: &Layout) -> Self {
        RowLines::empty(alloc, &layout.fields)
    }

    fn begin(&mut self, _number: u64) {}

    fn end(&mut self, _line: &[u8]) -> Result<(), AllocError> {
        Ok(())
    }

    fn push_fault(
        &mut self,
        _alloc: Global,
        _number: u64,
        _fault: &DocFault,
    ) -> Result<(), AllocError> {
        Ok(())
    }

    fn into_chunks(self) -> Result<Vec<Vec<u8>>, AllocError> {
        self.lines.into_chunks()
    }

    ghost writes = { λ begun visited _ before _ ns. rows_written begun visited before ns };

    ghost form_stays = { fields_stay };
}

/// Appends the fields of a value with tabs between, and a line feed, with a scratch buffer for pieces of it.
fn append_row(
    alloc: Global,
    fields: &[Field],
    value: Part<'_>,
    scratch: &mut Vec<u8>,
    out: &mut Vec<u8>,
) -> Result<(), AllocError>
    ensures { OnOk result (out.new.items
        ≡ out.old.items ++ row (map field_of fields.now) (part_value value.entry)) }
{
    let Some((first, others)) = fields.split_first() else {
        out.push(b'\n')?;
        return Ok(());
    };
    append_field(alloc, first, value, scratch, out)?;
    append_others(alloc, others, value, scratch, out)?;
    out.push(b'\n')?;
    Ok(())
}

/// Appends fields of a value, each behind a tab.
fn append_others(
    alloc: Global,
    fields: &[Field],
    value: Part<'_>,
    scratch: &mut Vec<u8>,
    out: &mut Vec<u8>,
) -> Result<(), AllocError>
    ensures { OnOk result (out.new.items
        ≡ out.old.items ++ behind_tabs (map field_of fields.now) (part_value value.entry)) }
{
    for field in fields {
        out.push(b'\t')?;
        append_field(alloc, field, value, scratch, out)?;
    }
    Ok(())
}

/// Appends what is written of a field of a value: nothing where there is no such value.
fn append_field(
    alloc: Global,
    field: &Field,
    value: Part<'_>,
    scratch: &mut Vec<u8>,
    out: &mut Vec<u8>,
) -> Result<(), AllocError>
    ensures { OnOk result (out.new.items
        ≡ out.old.items ++ field_at (part_value value.entry) (field_of field.now)) }
{
    match field.value_in(value) {
        Some(found) => append_unquoted(alloc, found, scratch, out),
        None => Ok(()),
    }
}
