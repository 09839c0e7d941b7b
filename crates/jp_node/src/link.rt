//! A link: a step whose name is borrowed.

/// A step whose name is borrowed, from the document or from the query.
#[derive(Clone, Copy)]
pub enum Link<'a> {
    /// To the member of this name.
    Name(&'a str),
    /// To the item at this index.
    Index(u32),
}

/// What unused room of a path stack holds.
impl Default for Link<'_> {
    fn default() -> Self {
        Link::Index(0)
    }
}
