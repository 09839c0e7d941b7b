//! The flat reading of a line.

ghost use Rattle.std.specs.Prelude.{◌≡◌, ◌≤◌, Ok, IfOk, OnOk, length, map};
ghost use Rattle.json.specs.Tape.{node_token};
ghost use Rattle.jp_doc.specs.Document as tree;
ghost use Rattle.jp_doc.specs.Json.{Json};
ghost use Rattle.jp_doc.specs.Reading.{max_line};
ghost use Rattle.jp_flat.specs.Document.{document_value};
ghost use Rattle.jp_flat.specs.inner.Decimals.{whole_fault};
ghost use Rattle.jp_flat.specs.inner.Filled.{room_source, texts_at, filled_value};
ghost use Rattle.jp_flat.specs.inner.FlatAnswers.{IsFlatAnswer, told, told_over};
ghost use Rattle.jp_flat.specs.inner.Held.{IsHeld, IsReadAs};
ghost use Rattle.jp_flat.specs.inner.Printed.{IsPrinted};
ghost use Rattle.jp_number.specs.declared.numbers.Numbers.TheVariants.{Whole, Decimals};

use crate::decimals::has_decimal;
use crate::document::FlatDocument;
use crate::nodes::{are_plain, are_readable, fault_in};
use bumpalo::Bump;
use jp_doc::{DocFault, Document, LONG_LINE, MAX_LINE};
use jp_flat_nodes::{FlatNodes, lay, read_decimal_line, read_line};
use json::{Error, Node, Scratch, Tape};
use std::alloc::{AllocError, Global};

/// The buffers of a reader, which are kept from line to line.
#[derive(Drop)]
pub(crate) struct Room {
    alloc: Global,
    /// Whether the last line had over 1,000,000 bytes.
    was_long: bool,
    /// The nodes of a line, and their texts that it writes with escapes.
    flat: FlatNodes,
    /// What the kit's reader takes for such a line.
    scratch: Scratch,
    /// Where its nodes lie.
    arena: Bump,
}

impl Room {
    /// Buffers that hold no memory yet.
    pub(crate) fn new(alloc: Global) -> Room {
        Room {
            alloc,
            was_long: false,
            flat: FlatNodes::new(alloc),
            scratch: Scratch::new(alloc),
            arena: Bump::new(alloc),
        }
    }

    /// Lets go of the nodes of the last line, and of all memory after a long one.
    pub(crate) fn release(&mut self) {
        if self.was_long {
            *self = Room::new(self.alloc);
        } else {
            // An error says that nodes of an earlier line are still kept, which stays so.
            let _ = self.arena.reset();
        }
    }

    /// Lets go of the last line, for one of so many bytes.
    fn begin(&mut self, bytes: usize) {
        self.release();
        self.was_long = bytes > LONG_LINE;
    }
}

/// Where the texts of a line's nodes stand that are told by their place in the line.
#[derive(Clone, Copy, Drop)]
pub(crate) enum Texts {
    /// There.
    InLine,
    /// In the room, as the others.
    InRoom,
}

/// What the flat reading of a line says of it.
#[derive(Clone, Copy, Drop)]
pub(crate) enum FlatAnswer {
    /// It holds a document, unless some array of it is too long. Its nodes fill the room, with their texts
    /// there.
    Filled(Texts),
    /// It has this fault.
    Faulty(DocFault),
    /// It has the value that the tree has. Where that has none its fault is this, or else the tree's.
    Open(Option<DocFault>),
}

/// What the nodes of a line that are not plain say of it, where numbers have to be whole: `Unreadable` if the
/// JSON crate does not read them, then `NotWhole` if it reads a number that is not whole, and else nothing.
///
/// `AllocError` if a growth was refused.
fn whole_answer(alloc: Global, nodes: &[Node<'_>]) -> Result<FlatAnswer, AllocError>
    ensures { IfOk result (λ a. a ≡ told (whole_fault (map node_token nodes.now))) }
{
    if !are_readable(nodes) {
        return Ok(FlatAnswer::Faulty(DocFault::Unreadable));
    }
    if has_decimal(alloc, nodes)? {
        return Ok(FlatAnswer::Faulty(DocFault::NotWhole));
    }
    Ok(FlatAnswer::Open(None))
}

/// Reads a line by the kit's reader, and lays its nodes where they are plain, or else tells what they say.
///
/// `AllocError` if a growth was refused.
fn lay_plain(text: &str, room: &mut Room) -> Result<FlatAnswer, AllocError>
    requires { length text.now ≤ max_line }
    ensures { IfOk result (λ a. IsFlatAnswer a Whole text.now room.new) }
{
    match Tape::parse(text, &mut room.scratch, Vec::new(&room.arena)) {
        Ok(tape) => {
            if !are_plain(tape.nodes()) {
                return whole_answer(room.alloc, tape.nodes());
            }
            // Without their escapes, texts take no more than the line.
            room.flat.texts.clear();
            room.flat.texts.reserve(text.len())?;
            lay(tape.nodes(), &mut room.flat)?;
            Ok(FlatAnswer::Filled(Texts::InRoom))
        }
        Err(Error::OutOfMemory) => Err(AllocError),
        // A line of that length is not too long for the tape.
        Err(_) => Ok(FlatAnswer::Faulty(DocFault::Unreadable)),
    }
}

/// What the nodes of a line say of it, where numbers need not be whole, and one of them is over the limits:
/// the tree of whole numbers may have a value still, where a later member covers the number.
///
/// `AllocError` if a growth was refused.
fn over_answer(alloc: Global, nodes: &[Node<'_>]) -> Result<FlatAnswer, AllocError>
    ensures { IfOk result (λ a. a ≡ told_over (whole_fault (map node_token nodes.now))) }
{
    match whole_answer(alloc, nodes)? {
        FlatAnswer::Faulty(_) => Ok(FlatAnswer::Faulty(DocFault::LongNumber)),
        _ => Ok(FlatAnswer::Open(Some(DocFault::LongNumber))),
    }
}

/// Reads a line by the kit's reader, where numbers need not be whole, and lays its nodes where they have no
/// fault, or else tells what they say.
///
/// `AllocError` if a growth was refused.
fn lay_decimal(text: &str, room: &mut Room) -> Result<FlatAnswer, AllocError>
    requires { length text.now ≤ max_line }
    ensures { IfOk result (λ a. IsFlatAnswer a Decimals text.now room.new) }
{
    match Tape::parse(text, &mut room.scratch, Vec::new(&room.arena)) {
        Ok(tape) => {
            match fault_in(tape.nodes()) {
                Some(DocFault::LongNumber) => return over_answer(room.alloc, tape.nodes()),
                Some(fault) => return Ok(FlatAnswer::Faulty(fault)),
                None => {}
            }
            room.flat.texts.clear();
            room.flat.texts.reserve(text.len())?;
            lay(tape.nodes(), &mut room.flat)?;
            Ok(FlatAnswer::Filled(Texts::InRoom))
        }
        Err(Error::OutOfMemory) => Err(AllocError),
        // A line of that length is not too long for the tape.
        Err(_) => Ok(FlatAnswer::Faulty(DocFault::Unreadable)),
    }
}

/// Fills the room with the nodes of a document that is a tree, by way of its compact text.
///
/// `AllocError` if a growth was refused, or where that text is longer than any line.
pub(crate) fn lay_document(document: &Document, room: &mut Room) -> Result<(), AllocError>
    ensures { OnOk result (IsReadAs (Ok (tree.document_value document.now))
        (room_source room.new) room.new.flat.nodes.items) }
{
    let text = document.root().to_string(room.alloc)?;
    if text.len() > MAX_LINE {
        return Err(AllocError);
    }
    lay_printed(&text, room)
}

/// Fills the room with the nodes of the compact text of a document.
///
/// `AllocError` if a growth was refused.
fn lay_printed(text: &str, room: &mut Room) -> Result<(), AllocError>
    requires printed { (v : Json) × IsPrinted text.now v }
    ensures { (v : Json) → IsPrinted text.now v → OnOk result
        (IsReadAs (Ok v) (room_source room.new) room.new.flat.nodes.items) }
{
    room.begin(text.len());
    match Tape::parse(text, &mut room.scratch, Vec::new(&room.arena)) {
        Ok(tape) => {
            room.flat.texts.clear();
            room.flat.texts.reserve(text.len())?;
            lay(tape.nodes(), &mut room.flat)
        }
        Err(Error::OutOfMemory) => Err(AllocError),
        // The kit reads what it writes.
        Err(_) => unreachable!(),
    }
}

/// What the flat reading of a line says of it, where numbers have to be whole. The nodes of one that is read
/// so fill the room.
///
/// `AllocError` if a growth was refused.
pub(crate) fn fill(line: &[u8], room: &mut Room) -> Result<FlatAnswer, AllocError>
    ensures { IfOk result (λ a. IsFlatAnswer a Whole line.now room.new) }
{
    room.begin(line.len());
    if line.len() > MAX_LINE {
        return Ok(FlatAnswer::Faulty(DocFault::LongLine));
    }
    // `basic` tells no place of a fault, for which nobody asks.
    let Ok(text) = simdutf8::basic::from_utf8(line) else {
        return Ok(FlatAnswer::Faulty(DocFault::Unreadable));
    };
    if read_line(line, &mut room.flat) {
        return Ok(FlatAnswer::Filled(Texts::InLine));
    }
    lay_plain(text, room)
}

/// The same, where numbers need not be whole.
///
/// `AllocError` if a growth was refused.
pub(crate) fn fill_decimal(line: &[u8], room: &mut Room) -> Result<FlatAnswer, AllocError>
    ensures { IfOk result (λ a. IsFlatAnswer a Decimals line.now room.new) }
{
    room.begin(line.len());
    if line.len() > MAX_LINE {
        return Ok(FlatAnswer::Faulty(DocFault::LongLine));
    }
    let Ok(text) = simdutf8::basic::from_utf8(line) else {
        return Ok(FlatAnswer::Faulty(DocFault::Unreadable));
    };
    if read_decimal_line(line, &mut room.flat) {
        return Ok(FlatAnswer::Filled(Texts::InLine));
    }
    lay_decimal(text, room)
}

/// The document that fills the room, of a line and where the texts of its nodes stand.
// Each line is handed out so.
#[inline(always)]
pub(crate) fn lend<'a>(line: &'a [u8], room: &'a Room, texts: Texts) -> FlatDocument<'a>
    requires few { length room.now.flat.nodes.items ≤ 268435456 }
    requires held { IsHeld (texts_at texts line.now room.now) room.now.flat.nodes.items }
    ensures { document_value result ≡ filled_value texts line.now room.now }
{
    match texts {
        Texts::InLine => FlatDocument::new(line, &room.flat.texts, &room.flat.nodes),
        Texts::InRoom => FlatDocument::new(&room.flat.texts, &room.flat.texts, &room.flat.nodes),
    }
}
