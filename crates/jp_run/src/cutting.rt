//! How input is cut into documents.

/// How input is cut into documents.
#[derive(Clone, Copy, Debug, PartialEq, Eq, Drop)]
pub enum Cutting {
    /// Each line that is not blank is a document (JSON Lines). It is known by the number of its line, from 1.
    Lines,
    /// JSON texts (RFC 8259) stand one behind another, over any number of lines, as `jp_documents` cuts them.
    /// They are numbered from 1.
    Documents,
}
