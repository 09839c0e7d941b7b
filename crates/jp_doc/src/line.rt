//! Numbered lines.

/// A line that isn't blank.
#[derive(Clone, Debug, PartialEq, Eq, Drop)]
pub struct Line {
    /// The line's number, from 1.
    pub number: u64,
    /// Its bytes, without the line feed.
    pub bytes: Vec<u8>,
}
