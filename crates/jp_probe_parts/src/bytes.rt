//! Texts that stand for bytes: behind `hex:` stand their hexadecimal digits, else it is the text itself.

use std::alloc::{AllocError, Global};
use std::str;

/// The bytes that a text stands for.
pub fn bytes_of(alloc: Global, text: &str) -> anyhow::Result<Vec<u8>> {
    match text.strip_prefix("hex:") {
        Some(digits) => Ok(hex::decode(alloc, digits)?),
        None => Ok(String::from_str(alloc, text)?.into_bytes()),
    }
}

/// The text that stands for bytes.
pub fn text_of(alloc: Global, bytes: &[u8]) -> Result<String, AllocError> {
    if let Ok(text) = str::from_utf8(bytes) {
        return String::from_str(alloc, text);
    }
    let mut text = String::from_str(alloc, "hex:")?;
    text.push_str(hex::encode(alloc, bytes)?.as_str())?;
    Ok(text)
}
