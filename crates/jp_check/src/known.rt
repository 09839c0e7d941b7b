//! What is known of a text as a pattern.

use jp_regexp::Pattern;

/// What a plan knows of a text as a pattern.
#[derive(Clone, Copy)]
pub enum Known<'a> {
    /// The text is a literal pattern of the query, and is this pattern.
    Read(&'a Pattern),
    /// The text is a literal pattern of the query, and is no I-Regexp within the limits (RFC 9485).
    NoPattern,
    /// The text is no literal pattern of the query.
    Unknown,
}
