//! What each line of a document's nodes begins with.

ghost use Rattle.std.specs.Prelude.{◌≡◌, ◌++◌, ◌∷◌, [], decimal, OnOk};
ghost use Rattle.jp_node.specs.Appended.{Extends};

use crate::head::Head;
use crate::output_line::append_number;
use std::alloc::{AllocError, Global};
use std::marker::Model;

/// Whether the bytes are laid.
#[derive(Clone, Copy)]
enum Laid {
    /// No line of the document asked for them.
    Unasked,
    /// One line did.
    Once,
    /// They are: from the second line on they are copied.
    Yes,
}

/// What each line of a document's nodes begins with: a head, the document's number and a tab. It means the
/// head and the number.
#[derive(Drop)]
pub(crate) struct LineFront {
    head: Head,
    number: u64,
    laid: Laid,
    /// The bytes, where they are laid. Memory for them is used again for each document.
    bytes: Vec<u8>,
}

impl Model for LineFront {
    ghost use Rattle.std.specs.Prelude.{ℕ, List};
    ghost use Rattle.jp_output.specs.inner.Fronts.{IsLaid};

    ghost Value = { List ℕ × ℕ };

    ghost view = { λ t. (t.head, t.number) };

    ghost invariant = { λ t. IsLaid t.laid t.bytes.items t.head t.number };
}

impl LineFront {
    /// Of a document with this number, where lines stand behind this head. It takes no memory.
    pub(crate) fn new(alloc: Global, head: &Head, number: u64) -> LineFront
        ensures { result ≡ (head.now, number) }
    {
        LineFront {
            head: head.again(),
            number,
            laid: Laid::Unasked,
            bytes: Vec::new(alloc),
        }
    }

    /// Of a document with this number.
    pub(crate) fn begin(&mut self, number: u64)
        ensures { self.new ≡ (self.old.0, number) }
    {
        self.number = number;
        self.laid = Laid::Unasked;
    }

    /// The head.
    pub(crate) fn head(&self) -> &Head
        ensures { result.now ≡ self.now.0 }
    {
        &self.head
    }

    /// The document's number.
    pub(crate) fn number(&self) -> u64
        ensures { result ≡ self.now.1 }
    {
        self.number
    }

    /// Appends its bytes. `AllocError` if a growth was refused.
    pub(crate) fn append_to(&mut self, out: &mut Vec<u8>) -> Result<(), AllocError>
        ensures same { self.new ≡ self.old }
        ensures ok { OnOk result (out.new.items
            ≡ out.old.items ++ (self.old.0 ++ (decimal self.old.1 ++ 9 ∷ []))) }
        ensures kept { Extends out.old.items out.new.items }
    {
        match self.laid {
            Laid::Unasked => {
                self.laid = Laid::Once;
                return append_front(&self.head, self.number, out);
            }
            Laid::Once => {
                lay(&self.head, self.number, &mut self.bytes)?;
                self.laid = Laid::Yes;
            }
            Laid::Yes => {}
        }
        out.extend_from_slice(self.bytes.as_slice())
    }
}

/// Fills `bytes` with a head, a document's number and a tab. `AllocError` if a growth was refused.
fn lay(head: &Head, number: u64, bytes: &mut Vec<u8>) -> Result<(), AllocError>
    ensures { OnOk result (bytes.new.items ≡ head.now ++ (decimal number ++ 9 ∷ [])) }
{
    bytes.clear();
    append_front(head, number, bytes)
}

/// Appends a head, a document's number and a tab, and on an error some of them.
fn append_front(head: &Head, number: u64, out: &mut Vec<u8>) -> Result<(), AllocError>
    ensures ok { OnOk result (out.new.items ≡ out.old.items ++ (head.now ++ (decimal number ++ 9 ∷ []))) }
    ensures kept { Extends out.old.items out.new.items }
{
    head.append_to(out)?;
    append_number(number, out)
}
