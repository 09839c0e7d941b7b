//! What an unreadable line is in the place of a document, by its first bytes.

/// What makes a document of an unreadable line, where its bytes show what it is: one behind a byte order
/// mark, compressed, in UTF-16, a comment, or a document behind other text. Nothing of another line.
pub(crate) fn cause_of(line: &[u8]) -> Option<&'static str> {
    encoded(line).or_else(|| written(line))
}

/// The same of bytes that are no text of JSON (RFC 8259, 8.1).
fn encoded(line: &[u8]) -> Option<&'static str> {
    match line {
        [0xEF, 0xBB, 0xBF, ..] => {
            Some("a byte order mark in front: sed '1s/^\\xEF\\xBB\\xBF//' takes it away")
        }
        [0x1F, 0x8B, ..] => Some("gzip: zcat FILE | jp QUERY"),
        [0xFD, b'7', b'z', b'X', b'Z', ..] => Some("xz: xzcat FILE | jp QUERY"),
        [0x28, 0xB5, 0x2F, 0xFD, ..] => Some("zstd: zstdcat FILE | jp QUERY"),
        [b'B', b'Z', b'h', ..] => Some("bzip2: bzcat FILE | jp QUERY"),
        [0xFF, 0xFE, ..] | [0xFE, 0xFF, ..] | [0, _, ..] | [_, 0, ..] => {
            Some("UTF-16: iconv -f UTF-16 -t UTF-8 FILE | jp QUERY")
        }
        _ => None,
    }
}

/// The same of text.
fn written(line: &[u8]) -> Option<&'static str> {
    let first = line.iter().position(|byte| !byte.is_ascii_whitespace())?;
    match line.get(first..).unwrap_or(&[]) {
        [b'#', ..] | [b'/', b'/', ..] | [b'/', b'*', ..] => Some("JSON has no comments"),
        [b'{' | b'[' | b'"', ..] => None,
        rest if rest.contains(&b'{') && is_plain(line) => {
            Some("text before the document: sed 's/^[^{]*//' takes it away")
        }
        _ => None,
    }
}

/// Whether a line is a text of characters that are shown, and blanks: what is compressed is none.
fn is_plain(line: &[u8]) -> bool {
    match std::str::from_utf8(line) {
        Ok(text) => text
            .chars()
            .all(|c| c.is_ascii_whitespace() || !c.is_control()),
        Err(_) => false,
    }
}
