//! A form of the answer, and what writes it.

ghost use Rattle.std.specs.Prelude.{◌≡◌, ◌≢◌, ◌++◌, ℕ, List, [], IfOk, OnOk};
ghost use Rattle.std.specs.List.{fold};
ghost use Rattle.jp_doc.specs.Location.{Node};
ghost use Rattle.jp_doc.specs.declared.fault.DocFault.TheVariants.{Memory};
ghost use Rattle.jp_output.specs.Chunks.{bytes_in};
ghost use Rattle.jp_output.specs.OutputForm.{OutputForm};
ghost use Rattle.jp_output.specs.declared.layout.Layout.{Layout};

use crate::layout::Layout;
use jp_doc::DocFault;
use jp_node::Visit;
use std::alloc::{AllocError, Global};

/// Writes an answer in some form, line after line: a visitor of the nodes of each document.
///
/// A line is begun, then its document's nodes are visited, then it is ended; or its fault is told.
pub trait Form: Visit {
    /// What the form says of a line, in this layout.
    ghost says: { Layout → OutputForm };

    /// What this one says of a line.
    ghost form: { Self → OutputForm };

    /// The bytes that are written so far.
    ghost written: { Self → List ℕ };

    /// The line with this number has begun, behind these bytes.
    ghost HasBegun: { Self → ℕ → List ℕ → Type 0 };

    /// The bytes once the line, which is these, has ended.
    ghost ended: { Self → List ℕ → List ℕ };

    /// Nothing is written yet. The form has what it can have of this layout. It takes no memory.
    fn new(alloc: Global, layout: &Layout) -> Self
        ensures written { written result ≡ [] }
        ensures form { form result ≡ says layout.now };

    /// Begins the line with this number.
    fn begin(&mut self, number: u64)
        ensures begun { HasBegun self.new number (written self.old) }
        ensures form { form self.new ≡ form self.old };

    /// Ends the line of these bytes. `AllocError` if a growth was refused.
    fn end(&mut self, line: &[u8]) -> Result<(), AllocError>
        ensures ended { OnOk result (written self.new ≡ ended self.old line.now) }
        ensures form { form self.new ≡ form self.old };

    /// Tells that the line with this number is faulty. Condition: the fault is not `Memory`.
    ///
    /// `AllocError` if a growth was refused.
    fn push_fault(&mut self, alloc: Global, number: u64, fault: &DocFault) -> Result<(), AllocError>
        requires { fault.now ≢ Memory }
        ensures written { OnOk result
            (written self.new ≡ written self.old ++ (form self.old).of_fault number fault.now) }
        ensures form { form self.new ≡ form self.old };

    /// The bytes, in chunks as they were written. `AllocError` if a growth was refused.
    fn into_chunks(self) -> Result<Vec<Vec<u8>>, AllocError>
        ensures { IfOk result (λ chunks. bytes_in chunks.items ≡ written self) };

    /// A line that was begun, visited and ended has written what the form says of its document.
    ghost writes: { (begun visited : Self) (number : ℕ) (before line : List ℕ) (ns : List Node)
        → HasBegun begun number before
        → Self.Visit.kept visited ≡ fold Self.Visit.put (Self.Visit.kept begun) ns
        → ended visited line ≡ before ++ (form begun).of_document (number, line) ns };

    /// Nodes do not change what the form says.
    ghost form_stays: { (begun visited : Self) (ns : List Node)
        → Self.Visit.kept visited ≡ fold Self.Visit.put (Self.Visit.kept begun) ns
        → form visited ≡ form begun };
}
