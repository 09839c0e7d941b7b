use jp_documents::DocumentBuffer;
use std::alloc::{AllocError, Global};

// How many documents a text holds, whatever lines they take; none where they are too many to be counted.
fn count_documents(alloc: Global, text: &[u8]) -> Result<Option<u64>, AllocError> {
    let mut buffer = DocumentBuffer::new(alloc);
    buffer.feed(text)?;
    if buffer.count() > 4_294_967_295 {
        return Ok(None);
    }
    buffer.finish()?;
    Ok(Some(buffer.count()))
}
