//! The tree that a query text spells (RFC 9535, 2.1 to 2.5).

/// Where a query starts.
#[derive(Clone, Copy, Debug, PartialEq, Eq)]
pub enum Start {
    /// `$`, the root of the document.
    Root,
    /// `@`, the node that a filter tests.
    Current,
}

// The types that hold each other have no `Debug`, which a check keeps much of
// (README, Nothing prints a tree), and no `Clone` (README, Nothing copies a tree).
/// A query: where it starts, and its segments in order.
#[cycle(tree)]
#[derive(PartialEq, Eq, Drop)]
pub struct Query {
    /// The identifier that the query begins with.
    pub start: Start,
    /// The segments, in the order of the text.
    pub segments: Vec<Segment>,
}

/// A segment (RFC 9535, 2.5).
#[cycle(tree)]
#[derive(PartialEq, Eq, Drop)]
pub struct Segment {
    /// Whether it is a descendant segment, which is written with `..`.
    pub deep: bool,
    /// Its selectors, one or more.
    pub selectors: Vec<Selector>,
}

/// A selector (RFC 9535, 2.3).
#[cycle(tree)]
#[derive(PartialEq, Eq, Drop)]
pub enum Selector {
    /// The member of this name.
    Name(String),
    /// All children: `*`.
    Wild,
    /// The item at this index, as it is written.
    Index(String),
    /// The items of a slice.
    Slice(Slice),
    /// The children for which the expression is true: `?` and the expression.
    Filter(Logical),
}

/// The numbers of a slice, `first:past:step`, as they are written.
#[derive(PartialEq, Eq, Drop)]
pub struct Slice {
    /// Where it starts.
    pub first: Option<String>,
    /// Where it ends; this index itself is left out.
    pub past: Option<String>,
    /// The distance between two items.
    pub step: Option<String>,
}

/// A logical expression (RFC 9535, 2.3.5). Parentheses leave no mark.
#[cycle(tree)]
#[derive(PartialEq, Eq, Drop)]
pub enum Logical {
    /// Two parts or more, joined by `||`.
    Any(Vec<Logical>),
    /// Two parts or more, joined by `&&`.
    All(Vec<Logical>),
    /// `!` and a part.
    Not(Box<Logical>),
    /// Two sides and an operator between them.
    Compare(Comparison),
    /// A query, which is true where it selects some node.
    Test(Query),
    /// A call of a function.
    Call(Call),
}

/// A comparison (RFC 9535, 2.3.5.2.2).
#[cycle(tree)]
#[derive(PartialEq, Eq, Drop)]
pub struct Comparison {
    /// What stands before the operator.
    pub left: Comparable,
    /// The operator.
    pub op: Operator,
    /// What stands after the operator.
    pub right: Comparable,
}

/// A comparison's operator.
#[derive(Clone, Copy, Debug, PartialEq, Eq)]
pub enum Operator {
    /// `==`
    Eq,
    /// `!=`
    Ne,
    /// `<=`
    Le,
    /// `>=`
    Ge,
    /// `<`
    Lt,
    /// `>`
    Gt,
}

/// A side of a comparison.
#[cycle(tree)]
#[derive(PartialEq, Eq, Drop)]
pub enum Comparable {
    /// A literal.
    Literal(Literal),
    /// A singular query, which selects one node at most.
    Single(Query),
    /// A call of a function.
    Call(Call),
}

/// A call of a function (RFC 9535, 2.4).
#[cycle(tree)]
#[derive(PartialEq, Eq, Drop)]
pub struct Call {
    /// The function's name.
    pub name: String,
    /// The arguments, in the order of the text.
    pub arguments: Vec<Argument>,
}

/// An argument of a call.
#[cycle(tree)]
#[derive(PartialEq, Eq, Drop)]
pub enum Argument {
    /// A literal.
    Literal(Literal),
    /// A query by itself.
    Query(Query),
    /// Any other logical expression but a call by itself.
    Logical(Logical),
    /// A call by itself.
    Call(Call),
}

/// A literal.
#[derive(PartialEq, Eq, Drop)]
pub enum Literal {
    /// A number, as it is written.
    Number(String),
    /// A string's value.
    Text(String),
    /// `true` or `false`.
    Truth(bool),
    /// `null`
    Null,
}
