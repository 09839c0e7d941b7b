use jp_flat::LineReader;
use jp_number::Numbers;
use std::alloc::AllocError;

// The whole number at `$.id` of a line: `None` where there is none, or where the line has a fault.
fn id_of(reader: &mut LineReader, line: &[u8]) -> Result<Option<i128>, AllocError> {
    let Ok(document) = reader.read(Numbers::Whole, line)? else {
        return Ok(None);
    };
    let id = document.root().member("id").and_then(|value| value.whole());
    Ok(id)
}
