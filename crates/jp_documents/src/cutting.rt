//! Bytes that are cut into documents, behind those that wait.

ghost use Rattle.std.specs.Prelude.{◌≡◌, ◌+◌, ◌≤◌, ◌++◌, length, IfOk, OnOk, OnErr};
ghost use Rattle.jp_doc.specs.Feeding.{numbered, max_lines};
ghost use Rattle.jp_documents.specs.Documents.{cut_between};
ghost use Rattle.jp_documents.specs.inner.Finding.{Begins};

use crate::first::{First, first_document};
use crate::place::Place;
use jp_buffer::WaitingLines;
use std::alloc::AllocError;

/// What is left of bytes whose documents were added.
#[derive(Drop)]
pub(crate) struct Left<'b> {
    /// How many documents have ended.
    pub(crate) count: u64,
    /// The bytes of the next.
    pub(crate) open_document: &'b [u8],
    /// Where the byte behind them stands.
    pub(crate) place: Place,
}

/// Adds the documents that end in the bytes, numbered on from `before`, and gives what is left. An `Err` may
/// leave more behind the documents that wait.
pub(crate) fn push_documents<'b>(
    before: u64,
    bytes: &'b [u8],
    waiting: &mut WaitingLines,
) -> Result<Left<'b>, AllocError>
    requires { before ≤ max_lines + 1 }
    ensures documents { OnOk result
        (waiting.new ≡ waiting.old ++ numbered (before + 1) (cut_between bytes.now).ended) }
    ensures count { IfOk result (λ l. l.count ≡ before + length (cut_between bytes.now).ended) }
    ensures rest { IfOk result (λ l. l.open_document.now ≡ (cut_between bytes.now).open_document) }
    ensures place { IfOk result (λ l. l.place ≡ (cut_between bytes.now).place) }
    ensures more_documents { OnErr result (Begins waiting.old waiting.new) }
{
    let mut count = before;
    let mut rest = bytes;
    'documents: loop {
        match first_document(Place::Between, rest) {
            First::Ended(document, after) => {
                count += 1;
                waiting.push(count, &[], document)?;
                rest = after;
            }
            First::Open(open_document, place) => {
                return Ok(Left {
                    count,
                    open_document,
                    place,
                });
            }
        }
    }
}
