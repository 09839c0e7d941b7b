//! The tree of a pattern, as it is read.

use unicode::properties::GeneralCategory;

/// What stands in a class between the brackets (RFC 9485, 3: CCE1).
#[derive(Drop)]
pub enum Element {
    /// One character, as it stands or escaped.
    One(char),
    /// All characters from the first to the second.
    Range(char, char),
    /// `\p{..}`, or `\P{..}` where it is negated.
    Category {
        negated: bool,
        categories: Vec<GeneralCategory>,
    },
}

/// What stands for one character (RFC 9485, 3: atom).
#[derive(Drop)]
pub enum CharSet {
    /// One character, as it stands or escaped.
    Only(char),
    /// `.`, each character but line feed and carriage return.
    Dot,
    /// `\p{..}`, or `\P{..}` where it is negated.
    Category {
        negated: bool,
        categories: Vec<GeneralCategory>,
    },
    /// `[..]`, or `[^..]` where it is negated.
    Class {
        negated: bool,
        elements: Vec<Element>,
    },
}

/// A pattern or a part of one (RFC 9485, 3). It is as deep as its parentheses, however long its branches are.
#[derive(Drop)]
pub enum Node {
    /// An atom of one character.
    Set(CharSet),
    /// What stands in parentheses.
    Group(Box<Node>),
    /// The pieces of a branch.
    Pieces(Vec<Node>),
    /// The branches before the last one, and the last one.
    Branches {
        before: Vec<Node>,
        last: Box<Node>,
    },
    /// Every quantity but `+`; without a most there is no end.
    Repeat {
        least: u32,
        most: Option<u32>,
        atom: Box<Node>,
    },
    /// `+`, which is one copy of its atom.
    Plus(Box<Node>),
}

/// What stands behind an atom.
#[derive(Clone, Copy)]
pub enum Quantity {
    Once,
    Plus,
    Repeat(u32, Option<u32>),
}

/// What comes next in a pattern.
#[derive(Drop)]
pub enum NextPart {
    End,
    Bar,
    Piece(Node),
}
