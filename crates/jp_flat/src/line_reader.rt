//! Lines that are read by the numbers that they may have, and documents that are laid.

ghost use Rattle.std.specs.Prelude.{◌≡◌, ◌≢◌, Ok, Err, IfOk, IfErr, MatchResult};
ghost use Rattle.jp_doc.specs.Document as tree;
ghost use Rattle.jp_doc.specs.Json.{Json};
ghost use Rattle.jp_doc.specs.Reading.{reading};
ghost use Rattle.jp_doc.specs.ReadingIn.{reading_in};
ghost use Rattle.jp_flat.specs.Document.{document_answer, document_value};
ghost use Rattle.jp_flat.specs.inner.Filled.{room_source};
ghost use Rattle.jp_flat.specs.inner.FlatAnswers.{IsFlatAnswer};
ghost use Rattle.jp_flat.specs.inner.Held.{IsReadAs};

use crate::document::FlatDocument;
use crate::lines::{FlatAnswer, Room, Texts, fill, fill_decimal, lay_document, lend};
use crate::long_arrays::has_long_array;
use jp_doc::{DocFault, Document};
use jp_number::Numbers;
use std::alloc::{AllocError, Global};

/// Reads lines by the numbers that they may have, in buffers that are kept from line to line: where no line
/// before was as long, they grow, and else a line takes no memory. After a line of over 1,000,000 bytes they
/// are let go once the next line is read.
#[derive(Drop)]
pub struct LineReader {
    alloc: Global,
    room: Room,
}

impl LineReader {
    /// A reader that holds no memory yet.
    pub fn new(alloc: Global) -> LineReader {
        LineReader {
            alloc,
            room: Room::new(alloc),
        }
    }

    /// The document that a line holds (RFC 8259), where documents may have these numbers, or its fault: the
    /// first of `DocFault` that applies, and never `Memory`.
    ///
    /// It is read as a tree first, and then laid, only where a later member covers a number that is not whole
    /// or, with decimals, one over the limits.
    ///
    /// `AllocError` if a growth was refused. Then the next line may be read as if there had been none.
    pub fn read<'d>(
        &'d mut self,
        numbers: Numbers,
        line: &'d [u8],
    ) -> Result<Result<FlatDocument<'d>, DocFault>, AllocError>
        ensures answer { IfOk result (λ r. document_answer r ≡ reading_in numbers line.now) }
        ensures memory { IfOk result (λ r. IfErr r (λ f. f ≢ DocFault.Memory)) }
    {
        match flat_answer(numbers, line, &mut self.room)? {
            FlatAnswer::Filled(texts) => {
                let document = lend(line, &self.room, texts);
                if has_long_array(self.alloc, document.root())? {
                    return Ok(Err(DocFault::LongArray));
                }
                Ok(Ok(document))
            }
            FlatAnswer::Faulty(fault) => Ok(Err(fault)),
            FlatAnswer::Open(fault) => match fill_by_tree(self.alloc, line, &mut self.room)? {
                Ok(()) => Ok(Ok(lend(line, &self.room, Texts::InRoom))),
                Err(of_tree) => Ok(Err(fault.unwrap_or(of_tree))),
            },
        }
    }

    /// Lays a document that was read as a tree.
    ///
    /// `AllocError` if a growth was refused, or where the compact text of the document is longer than any
    /// line: no document that was read from a line is.
    pub fn lay<'d>(&'d mut self, document: &Document) -> Result<FlatDocument<'d>, AllocError>
        ensures { IfOk result (λ d. document_value d ≡ tree.document_value document.now) }
    {
        lay_document(document, &mut self.room)?;
        Ok(lend(&[], &self.room, Texts::InRoom))
    }
}

/// What the flat reading of a line says of it, by the numbers that documents may have.
///
/// `AllocError` if a growth was refused.
// Each line is read so.
#[inline(always)]
fn flat_answer(numbers: Numbers, line: &[u8], room: &mut Room) -> Result<FlatAnswer, AllocError>
    ensures { IfOk result (λ a. IsFlatAnswer a numbers line.now room.new) }
{
    match numbers {
        Numbers::Whole => fill(line, room),
        Numbers::Decimals => fill_decimal(line, room),
    }
}

/// Fills the room with the nodes of a line that is read as a tree, or tells its fault.
///
/// `AllocError` if a growth was refused.
fn fill_by_tree(
    alloc: Global,
    line: &[u8],
    room: &mut Room,
) -> Result<Result<(), DocFault>, AllocError>
    ensures { IfOk result (λ r. MatchResult r
        (λ _. (v : Json) × (reading line.now ≡ Ok v)
        × IsReadAs (Ok v) (room_source room.new) room.new.flat.nodes.items)
        (λ f. (reading line.now ≡ Err f) × (f ≢ DocFault.Memory))) }
{
    // So the tree does not stand beside what was read of the line.
    room.release();
    match Document::read(alloc, line) {
        Ok(document) => {
            lay_document(&document, room)?;
            Ok(Ok(()))
        }
        Err(DocFault::Memory) => Err(AllocError),
        Err(fault) => Ok(Err(fault)),
    }
}
