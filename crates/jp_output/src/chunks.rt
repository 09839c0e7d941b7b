//! Bytes in chunks, one after another.

ghost use Rattle.std.specs.Prelude.{◌≡◌, ◌++◌, IfOk, OnOk};
ghost use Rattle.jp_output.specs.Chunks.{bytes_in};

use std::alloc::{AllocError, Global};

/// How many bytes at most are copied, where they could stand in a chunk of their own: so that there are few
/// calls of `write` (README, Only short chunks are copied).
pub(crate) const COPIED: usize = 4096;

/// Appends a chunk, unless it is empty. The bytes of a short one go to the last chunk, if there is one.
///
/// `AllocError` if a growth was refused: then the last chunk and this one may be lost.
pub fn push_chunk(chunks: &mut Vec<Vec<u8>>, chunk: Vec<u8>) -> Result<(), AllocError>
    ensures { OnOk result (bytes_in chunks.new.items ≡ bytes_in chunks.old.items ++ chunk.items) }
{
    if chunk.is_empty() {
        return Ok(());
    }
    if chunk.len() <= COPIED {
        if let Some(last) = chunks.pop() {
            let mut longer = last;
            longer.extend_from_slice(chunk.as_slice())?;
            chunks.push(longer)?;
            return Ok(());
        }
    }
    chunks.push(chunk)?;
    Ok(())
}

/// Appends chunks, each as `push_chunk` does.
///
/// `AllocError` if a growth was refused: then some of all chunks may be lost.
pub fn append_chunks(chunks: &mut Vec<Vec<u8>>, more: Vec<Vec<u8>>) -> Result<(), AllocError>
    ensures { OnOk result (bytes_in chunks.new.items ≡ bytes_in chunks.old.items ++ bytes_in more.items) }
{
    for chunk in more {
        push_chunk(chunks, chunk)?;
    }
    Ok(())
}

/// The bytes of all chunks. They are copied once; those of one that is alone are not.
///
/// `AllocError` if a growth was refused.
pub fn join_chunks(alloc: Global, chunks: Vec<Vec<u8>>) -> Result<Vec<u8>, AllocError>
    ensures { IfOk result (λ v. v.items ≡ bytes_in chunks.items) }
{
    let all = count_bytes(&chunks);
    let mut rest = chunks.into_iter();
    let Some(first) = rest.next() else {
        return Ok(Vec::new(alloc));
    };
    let mut bytes = first;
    // Once, and for no more: nothing is appended behind.
    bytes.reserve_exact(all.saturating_sub(bytes.len()))?;
    for chunk in rest {
        bytes.extend_from_slice(chunk.as_slice())?;
    }
    Ok(bytes)
}

/// How many bytes there are in all.
fn count_bytes(chunks: &[Vec<u8>]) -> usize {
    let mut all: usize = 0;
    for chunk in chunks {
        all = all.saturating_add(chunk.len());
    }
    all
}
