//! The nodes of the reader of one pass, beside those that are laid of the kit's.

use bumpalo::Bump;
use jp_flat_nodes::{FlatNode, FlatNodes, MAX_NODES, lay, read_decimal_line, read_line};
use json::{Scratch, Tape};
use std::alloc::{AllocError, Global};

/// So many bytes of a text from a place on.
fn piece(text: &[u8], from: u32, count: u32) -> Option<&[u8]> {
    let from = from as usize;
    text.get(from..from.saturating_add(count as usize))
}

/// The bytes that a node is told by, of a line and of the texts beside it.
fn bytes_of<'t>(node: FlatNode, line: &'t [u8], texts: &'t [u8]) -> Option<&'t [u8]> {
    match node {
        FlatNode::Key(from, count) | FlatNode::Text(from, count) | FlatNode::Number(from, count) =>
            { piece(line, from, count) }
        FlatNode::EscapedKey(from, count) | FlatNode::Escaped(from, count) => {
            piece(texts, from, count)
        }
        _ => None,
    }
}

/// Whether a plain node has its text between quotes in the line.
fn is_between_quotes(node: FlatNode, line: &[u8]) -> bool {
    match node {
        FlatNode::Key(from, count) | FlatNode::Text(from, count) => {
            let quotes = (
                piece(line, from.wrapping_sub(1), 1),
                piece(line, from.wrapping_add(count), 1),
            );
            quotes == (Some(b"\"".as_slice()), Some(b"\"".as_slice()))
        }
        _ => true,
    }
}

/// Whether a node of the line is the same as one that is laid.
fn are_alike(own: FlatNode, line: &[u8], texts: &[u8], laid: FlatNode, laid_texts: &[u8]) -> bool {
    match (own, laid) {
        (FlatNode::Key(..) | FlatNode::EscapedKey(..), FlatNode::EscapedKey(..))
        | (FlatNode::Text(..) | FlatNode::Escaped(..), FlatNode::Escaped(..))
        | (FlatNode::Number(..), FlatNode::Number(..)) => {
            let here = bytes_of(own, line, texts);
            here.is_some()
                && here == bytes_of(laid, laid_texts, laid_texts)
                && is_between_quotes(own, line)
        }
        _ => own == laid,
    }
}

/// Whether the nodes of one pass are those that are laid, or nothing where the line is not read so.
pub fn is_as_laid(alloc: Global, line: &str) -> Result<Option<bool>, AllocError> {
    let mut read = FlatNodes::new(alloc);
    if line.len() > 1_000_000 || !read_line(line.as_bytes(), &mut read) {
        return Ok(None);
    }
    are_laid(alloc, line, &read)
}

/// The same where numbers may have a fraction and an exponent.
pub fn is_as_laid_decimal(alloc: Global, line: &str) -> Result<Option<bool>, AllocError> {
    let mut read = FlatNodes::new(alloc);
    if line.len() > 1_000_000 || !read_decimal_line(line.as_bytes(), &mut read) {
        return Ok(None);
    }
    are_laid(alloc, line, &read)
}

/// Whether these are the nodes that are laid of the kit's.
fn are_laid(alloc: Global, line: &str, read: &FlatNodes) -> Result<Option<bool>, AllocError> {
    let (mut scratch, arena) = (Scratch::new(alloc), Bump::new(alloc));
    let Ok(tape) = Tape::parse(line, &mut scratch, Vec::new(&arena)) else {
        return Ok(Some(false));
    };
    if tape.len() > MAX_NODES {
        return Ok(Some(false));
    }
    let mut laid = FlatNodes::new(alloc);
    lay(tape.nodes(), &mut laid)?;
    let same = read.nodes.iter().zip(laid.nodes.iter()).all(|(own, other)| are_alike(
        *own,
        line.as_bytes(),
        &read.texts,
        *other,
        &laid.texts,
    ));
    Ok(Some(same && read.nodes.len() == laid.nodes.len()))
}
