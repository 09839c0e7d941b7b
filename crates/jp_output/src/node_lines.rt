//! The visitor that writes the output line of each node.

ghost use Rattle.std.specs.Prelude.{◌≡◌, ◌++◌, []};
ghost use Rattle.std.specs.Prelude.{IfOk, OnOk, OnErr};
ghost use Rattle.jp_node.specs.Part.{part_value};
ghost use Rattle.jp_node.specs.Appended.{Extends};
ghost use Rattle.jp_node.specs.Links.{link_steps};
ghost use Rattle.jp_output.specs.Chunks.{bytes_in};
ghost use Rattle.jp_output.specs.OutputLine.{line_text};

use crate::chunks::join_chunks;
use crate::fault_line::write_fault_behind;
use crate::form::Form;
use crate::head::Head;
use crate::layout::Layout;
use crate::line_front::LineFront;
use crate::output_buffer::OutputBuffer;
use crate::value_text::append_value;
use jp_doc::DocFault;
use jp_node::{Part, PathStack, Visit};
use std::alloc::{AllocError, Global};
use std::marker::Model;

/// Takes nodes as the output lines of a document with a number, behind those of the documents before it. Each
/// line, and each fault line, has a head.
///
/// Its meaning is the head, that number and the bytes of all lines so far. A node takes no allocation but the
/// growth of what is written, since the scratch buffer that its value's text is made in is used again, and a
/// list of members for each object. The lines of a visitor that is appended stay where
/// they are.
#[derive(Drop)]
pub struct NodeLines {
    writer: NodeWriter,
    lines: OutputBuffer,
}

/// What each line begins with, and a buffer in which the texts of values are made.
#[derive(Drop)]
struct NodeWriter {
    front: LineFront,
    scratch: Vec<u8>,
}

impl Model for NodeLines {
    ghost use Rattle.std.specs.Prelude.{ℕ, List};
    ghost use Rattle.jp_output.specs.inner.Buffered.{buffered};

    ghost Value = { List ℕ × ℕ × List ℕ };

    ghost view = { λ t. (t.writer.front.0, t.writer.front.1, buffered t.lines) };
}

impl NodeLines {
    ghost use Rattle.std.specs.Prelude.{◌≢◌};
    ghost use Rattle.jp_doc.specs.declared.fault.DocFault.TheVariants.{Memory};
    ghost use Rattle.jp_output.specs.FaultLine.{fault_line};

    /// No lines, of a document with the number 0, with nothing before each. It takes no memory.
    pub fn new(alloc: Global) -> NodeLines
        ensures { result ≡ ([], 0, []) }
    {
        NodeLines::behind(alloc, &Head::none())
    }

    /// The same, but each line stands behind this head. It takes no memory.
    pub fn behind(alloc: Global, head: &Head) -> NodeLines
        ensures { result ≡ (head.now, 0, []) }
    {
        NodeLines {
            writer: NodeWriter::new(alloc, head, 0),
            lines: OutputBuffer::new(alloc),
        }
    }

    /// Begins the lines of a document with this number.
    pub fn begin(&mut self, number: u64)
        ensures { self.new ≡ (self.old.0, number, self.old.2) }
    {
        self.writer.front.begin(number);
    }

    /// Appends the fault line of the line with this number. Condition: the fault is not `Memory`.
    ///
    /// After an `AllocError`, which says that a growth was refused, the lines are as before.
    pub fn push_fault(
        &mut self,
        // Not used: no memory is taken but the growth of the lines (README, A fault line only grows its
        // output).
        _alloc: Global,
        fault: &DocFault,
    ) -> Result<(), AllocError>
        requires { fault.now ≢ Memory }
        ensures ok { OnOk result (self.new ≡ (
          self.old.0,
          self.old.1,
          self.old.2 ++ (self.old.0 ++ fault_line self.old.1 fault.now),
        )) }
        ensures err { OnErr result (self.new ≡ self.old) }
    {
        write_fault_behind(
            self.writer.front.head(),
            self.writer.front.number(),
            fault,
            &mut self.lines.out,
        )
    }

    /// The bytes of all lines, in chunks as they were written. `AllocError` if a growth was refused.
    pub fn into_chunks(self) -> Result<Vec<Vec<u8>>, AllocError>
        ensures { IfOk result (λ chunks. bytes_in chunks.items ≡ self.2) }
    {
        self.lines.into_chunks()
    }

    /// The bytes of all lines. `AllocError` if a growth was refused.
    pub fn into_bytes(self, alloc: Global) -> Result<Vec<u8>, AllocError>
        ensures { IfOk result (λ v. v.items ≡ self.2) }
    {
        join_chunks(alloc, self.into_chunks()?)
    }
}

impl Visit for NodeLines {
    ghost use Rattle.std.specs.Prelude.{ℕ, List, [], refl};
    ghost use Rattle.jp_output.specs.OutputLine.{put_line};

    ghost Kept = { List ℕ × ℕ × List ℕ };

    ghost kept = { λ t. t };

    ghost put = { put_line };

    ghost emptied = { λ lines. (lines.0, lines.1, []) };

    ghost emptied_stays = { λ _ _. refl };

    fn node(
        &mut self,
        alloc: Global,
        path_stack: &mut PathStack<'_>,
        value: Part<'_>,
    ) -> Result<(), AllocError> {
        self.writer
            .write_node(alloc, path_stack, value, &mut self.lines.out)
    }

    fn is_full(&self) -> bool {
        false
    }

    fn fresh(&self, alloc: Global) -> Self {
        let front = &self.writer.front;
        NodeLines {
            writer: NodeWriter::new(alloc, front.head(), front.number()),
            lines: OutputBuffer::new(alloc),
        }
    }

    fn append(&mut self, other: Self) -> Result<(), AllocError> {
        self.lines.append(other.lines)
    }
}

impl Form for NodeLines {
    ghost use Rattle.std.specs.Prelude.{◌≡◌};
    ghost use Rattle.jp_output.specs.OutputForm.{node_lines_behind};
    ghost use Rattle.jp_output.specs.inner.Taken.{head_stays, lines_written};

    ghost says = { λ layout. node_lines_behind layout.head };

    ghost form = { λ lines. node_lines_behind lines.0 };

    ghost written = { λ lines. lines.2 };

    ghost HasBegun = { λ lines number before. (lines.1 ≡ number) × (lines.2 ≡ before) };

    ghost ended = { λ lines line. lines.2 };

    fn new(alloc: Global, layout: &Layout) -> Self {
        NodeLines::behind(alloc, &layout.head)
    }

    fn begin(&mut self, number: u64) {
        self.begin(number);
    }

    fn end(&mut self, _line: &[u8]) -> Result<(), AllocError> {
        Ok(())
    }

    fn push_fault(
        &mut self,
        alloc: Global,
        number: u64,
        fault: &DocFault,
    ) -> Result<(), AllocError> {
        self.begin(number);
        self.push_fault(alloc, fault)
    }

    fn into_chunks(self) -> Result<Vec<Vec<u8>>, AllocError> {
        self.into_chunks()
    }

    ghost writes = { lines_written };

    ghost form_stays = { head_stays };
}

impl NodeWriter {
    /// Of a document with this number, where lines stand behind this head. It takes no memory.
    fn new(alloc: Global, head: &Head, number: u64) -> NodeWriter
        ensures { result.front ≡ (head.now, number) }
    {
        NodeWriter {
            front: LineFront::new(alloc, head, number),
            scratch: Vec::new(alloc),
        }
    }

    /// Appends the output line of the node at the path stack.
    ///
    /// After an `AllocError`, which says that a growth was refused, `out` is as before.
    fn write_node(
        &mut self,
        alloc: Global,
        path_stack: &mut PathStack<'_>,
        value: Part<'_>,
        out: &mut Vec<u8>,
    ) -> Result<(), AllocError>
        ensures same { path_stack.new ≡ path_stack.old }
        ensures front { self.new.front ≡ self.old.front }
        ensures ok { OnOk result (out.new.items ≡ out.old.items ++ (self.old.front.0
            ++ line_text self.old.front.1 (link_steps path_stack.old) (part_value value.entry))) }
        ensures err { OnErr result (out.new.items ≡ out.old.items) }
    {
        // Written straight to the output, and cut off again where memory is refused (README, Lines are
        // written straight out).
        let before = out.len();
        match self.append_parts(alloc, path_stack, value, out) {
            Ok(()) => Ok(()),
            Err(error) => {
                out.truncate(before);
                Err(error)
            }
        }
    }

    /// Appends the parts of a line, and on an error some of them.
    fn append_parts(
        &mut self,
        alloc: Global,
        path_stack: &mut PathStack<'_>,
        value: Part<'_>,
        out: &mut Vec<u8>,
    ) -> Result<(), AllocError>
        ensures same { path_stack.new ≡ path_stack.old }
        ensures front { self.new.front ≡ self.old.front }
        ensures ok { OnOk result (out.new.items ≡ out.old.items ++ (self.old.front.0
            ++ line_text self.old.front.1 (link_steps path_stack.old) (part_value value.entry))) }
        ensures kept { Extends out.old.items out.new.items }
    {
        self.front.append_to(out)?;
        path_stack.append_path(out)?;
        out.push(b'\t')?;
        append_value(alloc, value.value, &mut self.scratch, out)?;
        out.push(b'\n')?;
        Ok(())
    }
}
