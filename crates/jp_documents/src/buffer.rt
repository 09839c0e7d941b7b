//! The documents of a stream that wait for their answer, and the document that is open.

ghost use Rattle.std.specs.Prelude.{◌≡◌, ◌+◌, ◌<◌, ◌≤◌, ◌^◌, [], ◌∷◌, ◌++◌, map, take, drop, length};
ghost use Rattle.std.specs.Prelude.{IfOk, OnOk, OnErr, IsTrue};
ghost use Rattle.jp_doc.specs.Feeding.{finished, finished_lines, numbered, max_lines};
ghost use Rattle.jp_buffer.specs.Buffered.{line_at, nothing_buffered, nothing_buffered_behind, total_bytes};
ghost use Rattle.jp_buffer.specs.Buffered.{nothing_fed_behind};
ghost use Rattle.jp_documents.specs.Documents.{cut_between};
ghost use Rattle.jp_documents.specs.declared.place.Place.TheVariants.{Between};
ghost use Rattle.jp_documents.specs.Feeding.{fed, fed_documents};
ghost use Rattle.jp_documents.specs.inner.Finding.{Begins};

use crate::cutting::push_documents;
use crate::first::{First, first_document};
use crate::place::Place;
use jp_buffer::{LineRef, WaitingLines, put_instead};
use jp_doc::LONG_LINE;
use std::alloc::{AllocError, Global};
use std::marker::Model;
use std::mem;

/// The documents of a stream that wait for their answer, and the document that is open.
///
/// It is used as `jp_buffer::LineBuffer` is, with a document in the place of a line: its number counts
/// documents from 1, its bytes have no blanks at their front. A document takes no allocation of its own: its
/// bytes go behind those of the documents before it, into memory that is used again once documents are taken
/// away; after documents of over 1,000,000 bytes it is let go.
#[derive(Drop)]
pub struct DocumentBuffer {
    waiting: WaitingLines,
    /// The bytes of the document that is open.
    open_document: Vec<u8>,
    /// Where the next byte stands.
    place: Place,
    /// How many documents have ended, those before the first piece too.
    count: u64,
}

impl Model for DocumentBuffer {
    ghost use Rattle.std.specs.Prelude.{◌≡◌, []};
    ghost use Rattle.jp_documents.specs.Documents.{cut_between};
    ghost use Rattle.jp_buffer.specs.Buffered.{Buffered};

    ghost Value = { Buffered };

    ghost view = { λ b. record {
      progress = record { count = b.count; open_line = b.open_document.items };
      lines = b.waiting;
    } };

    ghost invariant = { λ b. cut_between b.open_document.items
        ≡ record { ended = []; open_document = b.open_document.items; place = b.place } };
}

impl DocumentBuffer {
    /// No documents yet. It takes no memory.
    pub fn new(alloc: Global) -> DocumentBuffer
        ensures { result ≡ nothing_buffered }
    {
        DocumentBuffer::behind(alloc, 0)
    }

    /// No documents yet, where so many have ended before: the first one has the next number. It takes no
    /// memory.
    pub fn behind(alloc: Global, count: u64) -> DocumentBuffer
        ensures { result ≡ nothing_buffered_behind count }
    {
        DocumentBuffer {
            waiting: WaitingLines::new(alloc),
            open_document: Vec::new(alloc),
            place: Place::Between,
            count,
        }
    }

    /// How many documents have ended, those that were taken away, and those before the first piece, too.
    pub fn count(&self) -> u64
        ensures { result ≡ self.now.progress.count }
    {
        self.count
    }

    /// How many documents wait.
    pub fn len(&self) -> usize
        ensures { result ≡ length self.now.lines }
    {
        self.waiting.len()
    }

    /// How many bytes the documents that wait have together.
    pub fn total_bytes(&self) -> usize
        ensures { result ≡ total_bytes self.now.lines }
    {
        self.waiting.total_bytes()
    }

    /// Hands out the documents that wait, and has these wait in their place.
    ///
    /// So the documents of one part of a stream can be answered while the next ones come in, and two buffers
    /// are used in turn.
    pub fn exchange(&mut self, documents: &mut WaitingLines)
        ensures out { documents.new ≡ self.old.lines }
        ensures within { self.new.lines ≡ documents.old }
        ensures progress { self.new.progress ≡ self.old.progress }
    {
        mem::swap(&mut self.waiting, documents);
    }

    /// Adds the documents that the piece completes.
    ///
    /// `AllocError` if a growth was refused: then nothing has changed, and the piece can be fed again.
    pub fn feed(&mut self, piece: &[u8]) -> Result<(), AllocError>
        requires { self.old.progress.count ≤ max_lines }
        ensures documents { OnOk result (self.new.lines
            ≡ self.old.lines ++ fed_documents self.old.progress piece.now) }
        ensures progress { OnOk result (self.new.progress ≡ fed self.old.progress piece.now) }
        ensures same { OnErr result (self.new ≡ self.old) }
    {
        let before = self.waiting.len();
        let fed = self.feed_piece(piece);
        if fed.is_err() {
            self.waiting.truncate(before);
        }
        fed
    }

    /// Ends the document that is open, if there is one, and adds it. The next piece begins a new one.
    ///
    /// `AllocError` if a growth was refused: then nothing has changed.
    pub fn finish(&mut self) -> Result<(), AllocError>
        requires { self.old.progress.count ≤ max_lines }
        ensures documents { OnOk result (self.new.lines
            ≡ self.old.lines ++ finished_lines self.old.progress) }
        ensures progress { OnOk result (self.new.progress ≡ finished self.old.progress) }
        ensures same { OnErr result (self.new ≡ self.old) }
    {
        if self.open_document.is_empty() {
            return Ok(());
        }
        self.end_document(&[])
    }

    /// The documents that wait, in order. `AllocError` if the list was refused its memory.
    pub fn lines(&self, alloc: Global) -> Result<Vec<LineRef<'_>>, AllocError>
        ensures { IfOk result (λ documents. map line_at documents.items ≡ self.now.lines) }
    {
        self.waiting.lines(alloc)
    }

    /// Takes so many documents away from the front. Their memory is used again, but for that of long ones.
    pub fn take_away(&mut self, count: usize)
        requires { count ≤ length self.old.lines }
        ensures documents { self.new.lines ≡ drop count self.old.lines }
        ensures progress { self.new.progress ≡ self.old.progress }
    {
        self.waiting.take_away(count);
    }

    /// As `feed`, but an `Err` may leave more behind the documents that wait.
    fn feed_piece(&mut self, piece: &[u8]) -> Result<(), AllocError>
        requires { self.old.progress.count ≤ max_lines }
        ensures documents { OnOk result (self.new.lines
            ≡ self.old.lines ++ fed_documents self.old.progress piece.now) }
        ensures progress { OnOk result (self.new.progress ≡ fed self.old.progress piece.now) }
        ensures more_documents { OnErr result (Begins self.old.lines self.new.lines) }
        ensures same_progress { OnErr result (self.new.progress ≡ self.old.progress) }
    {
        match first_document(self.place, piece) {
            First::Open(more, place) => {
                self.open_document.extend_from_slice(more)?;
                self.place = place;
            }
            First::Ended(document, after) => {
                if self.open_document.len() >= LONG_LINE && has_nothing(after) {
                    self.end_document(document)?;
                    return Ok(());
                }
                let number = self.count + 1;
                self.waiting.push(number, &self.open_document, document)?;
                let left = push_documents(number, after, &mut self.waiting)?;
                // Last: a refusal before this leaves the open document, and `feed` takes back what was put
                // behind those that wait.
                put_instead(&mut self.open_document, left.open_document)?;
                self.place = left.place;
                self.count = left.count;
            }
        }
        Ok(())
    }

    /// Ends the document that is open by these bytes, behind which no other has begun, and adds it.
    ///
    /// `AllocError` if a growth was refused: then nothing has changed.
    fn end_document(&mut self, back: &[u8]) -> Result<(), AllocError>
        requires { self.old.progress.count ≤ max_lines }
        ensures documents { OnOk result (self.new.lines ≡ self.old.lines ++ numbered
            (self.old.progress.count + 1) ((self.old.progress.open_line ++ back.now) ∷ [])) }
        ensures progress { OnOk result (self.new.progress ≡ nothing_fed_behind (self.old.progress.count + 1)) }
        ensures same { OnErr result (self.new ≡ self.old) }
    {
        let number = self.count + 1;
        self.waiting
            .push_taking(number, &mut self.open_document, back)?;
        self.open_document.clear();
        // So that one long document does not hold its memory for the rest of the stream.
        self.open_document.shrink_to(LONG_LINE);
        self.place = Place::Between;
        self.count = number;
        Ok(())
    }
}

/// Whether no document has begun in the bytes, which stand behind one.
fn has_nothing(bytes: &[u8]) -> bool
    requires { length bytes.now + 1 < 2 ^ 64 }
    ensures { IsTrue result → cut_between bytes.now
        ≡ record { ended = []; open_document = []; place = Between } }
{
    match first_document(Place::Between, bytes) {
        First::Open(open_document, Place::Between) => open_document.is_empty(),
        First::Open(_, _) => false,
        First::Ended(_, _) => false,
    }
}
