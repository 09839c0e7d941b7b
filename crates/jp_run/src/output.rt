//! Which form an answer has.

/// What is written of a document and of the nodes that are selected in it.
#[derive(Clone, Copy, Debug, PartialEq, Eq, Drop)]
pub enum Output {
    /// A line for each node: the document's number, a tab, the node's normalized path (RFC 9535, 2.7), a tab,
    /// and its value's compact text. A faulty line has its fault line.
    Nodes,
    /// A line for each node: its value's compact text (RFC 8259). A faulty line has none.
    Values,
    /// The same, but a text stands without its two quotes, and with `"` in place of `\"`.
    Texts,
    /// The same, but a text stands as it is, line feeds and all.
    Raw,
    /// A line for each node: the fields of the settings with tabs between, each as by `Texts`, and nothing
    /// where a field has no value. A faulty line has none.
    Rows,
    /// The document's line as it came, where at least one node is selected. A faulty line has none.
    Lines,
}
