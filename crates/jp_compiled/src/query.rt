//! The tree of a compiled query.

ghost use Rattle.std.specs.Prelude.{◌≡◌, ◌≤ℤ◌, neg_ℤ, pos, true, false};
ghost use Rattle.std.specs.String.{string_bytes};
ghost use Rattle.std.proofs.Props.{props};
ghost use Rattle.jp_tree.specs.View.{text_of};
ghost use Rattle.jp_number.specs.Number.{IsShort, written};
ghost use Rattle.jp_types.specs.Numbers.{whole_number, max_index, is_whole};

use crate::known::KnownPattern;
use jp_number::NumberText;
use jp_tree::Operator;

/// A part of a filter that is the same at every node, and so is answered once a document.
#[derive(Drop)]
pub enum RootPart {
    /// A `$` query.
    Query(RootQuery),
    /// An expression that asks nothing of the current node.
    Test(CompiledLogical),
}

/// A `$` query inside a filter.
#[derive(Drop)]
pub struct RootQuery {
    /// What the filter wants of its nodes.
    pub want: Want,
    /// Its segments.
    pub segments: Vec<CompiledSegment>,
}

/// What a filter wants of the nodes of a query.
#[derive(Clone, Copy, Debug, PartialEq, Eq)]
pub enum Want {
    /// The value of the first, if there is one.
    First,
    /// How many there are.
    Count,
    /// The value of the only one, if there is exactly one.
    Only,
    /// How many locations they have, and the value of the first, if they have one alone.
    Distinct,
}

impl Want {
    ghost use Rattle.jp_compiled.specs.Parts.{wanted_inside};

    /// What is wanted of the nodes that `distinct` is given, where this is wanted of those that it leaves.
    pub fn inside(self) -> Want
        ensures { result ≡ wanted_inside self }
    {
        match self {
            Want::First => Want::First,
            Want::Count | Want::Only | Want::Distinct => Want::Distinct,
        }
    }
}

/// A segment (RFC 9535, 2.5).
#[cycle(query)]
#[derive(Drop)]
pub struct CompiledSegment {
    /// Whether it is a descendant segment.
    pub deep: bool,
    /// Its selectors.
    pub selectors: Vec<CompiledSelector>,
}

/// A selector (RFC 9535, 2.3).
#[cycle(query)]
#[derive(Drop)]
pub enum CompiledSelector {
    /// The member of this name.
    Name(String),
    /// All children.
    Wild,
    /// The item at this index.
    Index(Position),
    /// The items of a slice.
    Slice(CompiledSlice),
    /// The children for which the expression is true.
    Filter(CompiledLogical),
}

/// An index or a number of a slice, at most 9007199254740991 from zero.
#[derive(Drop)]
pub struct Position {
    /// As it is written.
    pub text: String,
    /// The number.
    pub value: i64,
    pub ghost read: { value ≡ whole_number (text_of text) },
    pub ghost least: { neg_ℤ (pos max_index) ≤ℤ value } by { Prim.hlevel props },
    pub ghost greatest: { value ≤ℤ pos max_index } by { Prim.hlevel props },
}

/// The numbers of a slice.
#[derive(Drop)]
pub struct CompiledSlice {
    /// Where it starts.
    pub first: Option<Position>,
    /// Where it ends; this index itself is left out.
    pub past: Option<Position>,
    /// The distance between two items.
    pub step: Option<Position>,
}

/// A logical expression (RFC 9535, 2.3.5).
#[cycle(query)]
#[derive(Drop)]
pub enum CompiledLogical {
    /// Parts joined by `||`.
    Any(Vec<CompiledLogical>),
    /// Parts joined by `&&`.
    All(Vec<CompiledLogical>),
    /// `!` and a part.
    Not(Box<CompiledLogical>),
    /// A comparison.
    Compare(Giver, Operator, Giver),
    /// A query, which is true where it selects some node.
    Test(Nodes),
    /// `match` of a text and a pattern's text.
    Match(Giver, Giver),
    /// `match` of a text and a literal pattern.
    MatchRead(Giver, KnownPattern),
    /// `search` of a text and a pattern's text.
    Search(Giver, Giver),
    /// `search` of a text and a literal pattern.
    SearchRead(Giver, KnownPattern),
    /// `xor` of two arguments, each with how it is written.
    Xor(ArgumentForm, Box<CompiledLogical>, ArgumentForm, Box<CompiledLogical>),
    /// The expression at this place of the list, which is answered once a document.
    Once(usize),
}

// `@.a` and `(@.a)` are two spellings with two trees (README, Each spelling has its tree).
/// How an argument that is true or false is written.
#[derive(Clone, Copy, Debug, PartialEq, Eq)]
pub enum ArgumentForm {
    /// As a query or a call by itself.
    Bare,
    /// As a logical expression, which may be a query or a call in parentheses.
    Expression,
}

/// What gives a value, or nothing: a side of a comparison, or an argument.
#[cycle(query)]
#[derive(Drop)]
pub enum Giver {
    /// A literal.
    Constant(Constant),
    /// The value of the only node of a singular query.
    Single(Nodes),
    /// `length` of a value.
    Length(Box<Giver>),
    /// `count` of the nodes of a query.
    Count(Nodes),
    /// `value` of the nodes of a query.
    Only(Nodes),
}

/// A query inside a filter.
#[cycle(query)]
#[derive(Drop)]
pub enum Nodes {
    /// The segments from the current node on.
    Here(Vec<CompiledSegment>),
    /// The `$` query at this place of the list.
    Root(usize),
    /// `distinct` of the nodes of a query.
    Distinct(Box<Nodes>),
}

/// A literal.
#[derive(Drop)]
pub enum Constant {
    /// A whole number of at most 38 digits.
    Whole(WholeNumber),
    /// Any other number.
    Written(WrittenNumber),
    /// A string's value.
    Text(String),
    /// `true` or `false`.
    Truth(bool),
    /// `null`
    Null,
}

/// A number literal that is a whole number of at most 38 digits.
#[derive(Drop)]
pub struct WholeNumber {
    /// As it is written.
    pub text: String,
    /// The number.
    pub value: i128,
    pub ghost read: { value ≡ whole_number (text_of text) },
    pub ghost whole: { is_whole (text_of text) ≡ true },
}

/// A number literal that has a fraction, an exponent or more than 38 digits.
#[derive(Drop)]
pub struct WrittenNumber {
    /// As it is written.
    pub text: String,
    pub ghost short: { IsShort (written (string_bytes text)) },
    pub ghost other: { is_whole (text_of text) ≡ false },
}

impl WrittenNumber {
    /// The text of the number.
    pub fn number(&self) -> NumberText<'_>
        ensures { result.text.now ≡ string_bytes self.now.text }
    {
        NumberText::within(self.text.as_str())
    }
}
