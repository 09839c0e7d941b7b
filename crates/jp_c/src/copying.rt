//! Bytes that are copied into a buffer of C.

ghost use Rattle.jp_c.specs.Buffers.{IsFilledBy};

/// Copies the bytes into the front of the buffer, as many as there is room for.
pub(crate) fn copy_front(bytes: &[u8], buffer: &mut [u8])
    ensures { IsFilledBy bytes.now buffer.old buffer.new }
{
    let count = bytes.len().min(buffer.len());
    buffer[..count].copy_from_slice(&bytes[..count]);
}
