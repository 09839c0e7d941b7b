use jp_buffer::LineBuffer;
use std::alloc::{AllocError, Global};

// The number of the last line of a piece that isn't blank, if there is one. Its lines are taken away then.
fn last_number(alloc: Global, piece: &[u8]) -> Result<Option<u64>, AllocError> {
    let mut buffer = LineBuffer::new(alloc);
    buffer.feed(piece)?;
    let number = buffer.lines(alloc)?.last().map(|line| line.number);
    buffer.take_away(buffer.len());
    Ok(number)
}
