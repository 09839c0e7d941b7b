//! Where a value is in a document.

/// A step from a value to one of its children (RFC 9535, 1.1).
#[derive(Clone, Debug, PartialEq, Eq, PartialOrd, Ord, Drop)]
pub enum Step {
    /// To the member of this name.
    Name(String),
    /// To the item at this index.
    Index(u32),
}

/// The steps that lead from the root of a document to one of its values.
#[derive(Clone, Debug, PartialEq, Eq, PartialOrd, Ord, Drop)]
pub struct Location {
    /// The steps, from the root on.
    pub steps: Vec<Step>,
}
