//! What a pattern is asked.

/// What a text is asked of a pattern, which is another DFA for each.
#[derive(Clone, Copy, Debug, PartialEq, Eq)]
pub enum Question {
    /// Whether the whole text is in its language, as `match` asks (RFC 9535, 2.4.6).
    Whole,
    /// Whether some part of the text is, as `search` asks (RFC 9535, 2.4.7).
    Part,
}
