//! Documents: JSON values, each read from a line.

ghost use Rattle.std.specs.Prelude.{◌≡◌, ◌≢◌, ◌<◌, ◌≤◌, false, IsTrue, length, map, option_map, IfSome, IfOk};
ghost use Rattle.std.specs.Prelude.{IfErr, Some, None};
ghost use Rattle.serde_json.specs.Data.{depth};
ghost use Rattle.serde_json.specs.Errors.{IsMemory};
ghost use Rattle.serde_json.specs.Find.{is_float};
ghost use Rattle.serde_json.specs.View.{view, number_view};
ghost use Rattle.serde_json.specs.Written.{has_float};
ghost use Rattle.jp_doc.specs.DocumentValue.{IsDocumentValue, whole_in};
ghost use Rattle.jp_doc.specs.Json as json;
ghost use Rattle.jp_doc.specs.Json.{value_of};
ghost use Rattle.jp_doc.specs.Location as location;
ghost use Rattle.jp_doc.specs.Reading.{max_line, document_from, reading};
ghost use Rattle.jp_doc.specs.Rising.{IsRising};

use crate::fault::DocFault;
use crate::limits::{MAX_ITEMS, MAX_LINE, fault_within};
use crate::location::Step;
use serde_json::{Category, Error, Number, Value};
use std::alloc::Global;

/// A JSON value that was read from a line.
///
/// Its numbers are whole, and each of its arrays has at most 16,777,216 items.
#[derive(Drop)]
pub struct Document {
    root: Value,
    ghost is_document: { ∥ IsDocumentValue root ∥₁ },
}

impl Document {
    ghost use Rattle.jp_doc.specs.Document.{answer_of, document_value};

    /// The document that a line holds (RFC 8259).
    ///
    /// `LongLine` if the line has more than 268,435,456 bytes, which takes no memory to tell. Then
    /// `Unreadable` if it holds no JSON text, `NotWhole` if some number is no whole number of 64 bits,
    /// `LongArray` if some array has more than 16,777,216 items, and `Memory` in the place of any answer
    /// but `LongLine` if a growth was refused.
    pub fn read(alloc: Global, line: &[u8]) -> Result<Document, DocFault>
        ensures ok { IfOk result (λ d. reading line.now ≡ Ok (document_value d)) }
        ensures rising { IfOk result (λ d. IsRising (document_value d)) }
        ensures fault { IfErr result (λ f. f ≢ DocFault.Memory → reading line.now ≡ Err f) }
        ensures long_line { max_line < length line.now → result ≡ Err DocFault.LongLine }
    {
        if line.len() > MAX_LINE {
            return Err(DocFault::LongLine);
        }
        match Value::from_slice(alloc, line) {
            Ok(root) => Document::of_value(root),
            Err(error) => Err(fault_of(&error)),
        }
    }

    /// The document that has this value, or what is wrong with the value. It takes no memory.
    fn of_value(root: Value) -> Result<Document, DocFault>
        requires nesting { depth (view root) ≤ 127 }
        requires rising { IsRising (value_of root) }
        ensures answer { answer_of result ≡ document_from (Some (view root)) }
    {
        match fault_within(&root, MAX_ITEMS) {
            Some(fault) => Err(fault),
            None => Ok(Document { root }),
        }
    }

    /// The whole value.
    pub fn root(&self) -> &Value
        ensures value { value_of result.now ≡ document_value self.now }
        ensures kept { IsDocumentValue result.now }
    {
        &self.root
    }

    /// The value at a location (RFC 9535, 1.1), or `None` where it leads nowhere.
    pub fn at(&self, steps: &[Step]) -> Option<&Value>
        ensures value { option_map (λ v. value_of v.now) result
            ≡ location.value_at (map location.step_of steps.now) (document_value self.now) }
        ensures kept { IfSome result (λ v. IsDocumentValue v.now) }
    {
        let mut value = &self.root;
        for step in steps {
            value = child_at(value, step)?;
        }
        Some(value)
    }
}

/// What an error of the JSON crate says of a line.
fn fault_of(error: &Error) -> DocFault
    ensures memory { IsMemory error.now → result ≡ DocFault.Memory }
    ensures other { ¬ IsMemory error.now → result ≡ DocFault.Unreadable }
{
    if error.classify() == Category::Memory {
        DocFault::Memory
    } else {
        DocFault::Unreadable
    }
}

/// The child that a step leads to.
fn child_at<'v>(value: &'v Value, step: &Step) -> Option<&'v Value>
    ensures value { option_map (λ v. value_of v.now) result
        ≡ location.child_at (location.step_of step.now) (value_of value.now) }
    ensures kept { IsDocumentValue value.now → IfSome result (λ v. IsDocumentValue v.now) }
{
    match step {
        Step::Name(name) => value.get(name.as_str()),
        Step::Index(index) => value.get(*index as usize),
    }
}

/// The whole number that a number of the JSON crate is, of which it is known that it is whole.
pub fn whole_of(number: &Number) -> i128
    requires { is_float (number_view number.now) ≡ false }
    ensures { result ≡ json.whole_of (number_view number.now) }
{
    // Its condition says that it is whole, so there is always one.
    number.as_i128().unwrap_or(0)
}

/// The whole number that a value is, or `None` where it is none.
pub fn whole_number(value: &Value) -> Option<i128>
    ensures whole { has_float (view value.now) ≡ false → result ≡ whole_in (value_of value.now) }
    ensures not_whole { IsTrue (has_float (view value.now)) → result ≡ None }
{
    value.as_number().and_then(|number| number.as_i128())
}
