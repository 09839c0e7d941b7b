//! Texts put together of some characters.

use std::alloc::{AllocError, Global};

/// The text so many times over.
pub fn repeated(alloc: Global, text: &str, times: u64) -> Result<String, AllocError> {
    let mut all = String::new(alloc);
    for _ in 0..times {
        all.push_str(text)?;
    }
    Ok(all)
}

/// Each of the texts with each of the characters behind it, in this order.
fn longer(alloc: Global, texts: &[String], characters: &str) -> Result<Vec<String>, AllocError> {
    let mut all = Vec::new(alloc);
    for front in texts {
        push_longer(&mut all, front, characters)?;
    }
    Ok(all)
}

/// Adds the text with each of the characters behind it.
fn push_longer(all: &mut Vec<String>, front: &String, characters: &str) -> Result<(), AllocError> {
    for c in characters.chars() {
        let mut text = front.clone()?;
        text.push(c)?;
        all.push(text)?;
    }
    Ok(())
}

/// All texts of so many of the characters, in the order of the characters.
pub fn texts_of(alloc: Global, characters: &str, length: u64) -> Result<Vec<String>, AllocError> {
    let mut texts = vec![in alloc; String::new(alloc)]?;
    for _ in 0..length {
        texts = longer(alloc, texts.as_slice(), characters)?;
    }
    Ok(texts)
}
