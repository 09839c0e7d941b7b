//! The tree of a pattern with the unrolled size of each expression, by which a walk over it passes the
//! expressions that it need not enter.

ghost use Rattle.std.specs.Prelude.{◌≡◌, ◌&&◌, ◌∷◌, [], ◌++◌, if◌then◌else◌, map, min, IfOk, IsTrue, OnOk};
ghost use Rattle.jp_automaton.specs.Expressions.{all_sized, meaning, patterns_in};
ghost use Rattle.jp_automaton.specs.Expressions.{pattern_in};
ghost use Rattle.jp_automaton.specs.Expressions.{sizes};
ghost use Rattle.jp_automaton.specs.inner.Simpler.{StandBefore, StandInTurn, StandsFor};
ghost use Rattle.jp_pattern.specs.Profile.{copies, size};
ghost use Rattle.jp_pattern.specs.Tree.{node_of};

use crate::classes::letters;
use crate::exit::either;
use crate::letters::Letters;
use jp_pattern::Node;
use std::alloc::{AllocError, Global};

/// A pattern or an expression of one. A size is the greatest number where it is more.
#[derive(Drop)]
pub enum Expression {
    Set(Letters),
    Group {
        size: u32,
        sub: Box<Expression>,
    },
    /// The pieces of a branch.
    Pieces {
        size: u32,
        pieces: Vec<Expression>,
    },
    /// The branches before the last one, and the last one.
    Branches {
        size: u32,
        before: Vec<Expression>,
        last: Box<Expression>,
    },
    /// Every quantity but `+`; without a most there is no end.
    Repeat {
        size: u32,
        least: u32,
        most: Option<u32>,
        atom: Box<Expression>,
    },
    Plus {
        size: u32,
        atom: Box<Expression>,
    },
}

impl Expression {
    /// The unrolled size, or the greatest number where it is more (RFC 9485, 8).
    pub(crate) fn size(&self) -> u32
        requires { IsTrue (meaning self.now).is_sized }
        ensures { result ≡ min (size (pattern_in self.now)) u32.MAX }
    {
        match self {
            Expression::Set(_) => 1,
            Expression::Group { size, .. } => *size,
            Expression::Pieces { size, .. } => *size,
            Expression::Branches { size, .. } => *size,
            Expression::Repeat { size, .. } => *size,
            Expression::Plus { size, .. } => *size,
        }
    }
}

/// The sizes of the expressions together, at most `u32::MAX`.
fn size_of_all(expressions: &[Expression]) -> u32
    requires { IsTrue (all_sized (map meaning expressions.now)) }
    ensures { result ≡ min (sizes (map meaning expressions.now)) u32.MAX }
{
    let mut total = 0u32;
    for expression in expressions {
        total = total.saturating_add(expression.size());
    }
    total
}

/// How many copies of its atom a repetition unrolls to, at most `u32::MAX`.
fn copies(least: u32, most: Option<u32>) -> u32
    ensures { result ≡ min (copies least most) u32.MAX }
{
    match most {
        None => least.saturating_add(1),
        Some(most) => most,
    }
}

/// `&&` that looks at both.
fn both(a: bool, b: bool) -> bool
    ensures { result ≡ (a && b) }
{
    a && b
}

/// Puts the expression behind the others, unless it is left out.
fn push_unless(
    is_left_out: bool,
    expressions: &mut Vec<Expression>,
    expression: Expression,
) -> Result<(), AllocError>
    ensures { OnOk result (expressions.new.items ≡ (if is_left_out then expressions.old.items else
        expressions.old.items ++ (expression ∷ []))) }
{
    if is_left_out {
        return Ok(());
    }
    expressions.push(expression)?;
    Ok(())
}

/// The tree with its sizes, without the parts that no text tells from nothing: pieces of size 0, and, of the
/// branches of size 0, all but one. So it has no more parts than its size, where each pair of parentheses
/// inside another counts once more.
#[cycle(expression_of)]
pub(crate) fn expression_of(alloc: Global, node: Node) -> Result<Expression, AllocError>
    ensures same { IfOk result (λ expression. StandsFor (node_of node) (pattern_in expression)) }
    ensures sized { IfOk result (λ expression. IsTrue (meaning expression).is_sized) }
{
    match node {
        Node::Set(set) => Ok(Expression::Set(letters(alloc, set)?)),
        Node::Group(sub) => {
            let sub = expression_of(alloc, Box::into_inner(sub))?;
            let size = sub.size();
            Ok(Expression::Group {
                size,
                sub: Box::new(alloc, sub)?,
            })
        }
        Node::Pieces(pieces) => {
            let pieces = pieces_of(alloc, pieces)?;
            let size = size_of_all(&pieces);
            Ok(Expression::Pieces { size, pieces })
        }
        Node::Branches { before, last } => {
            let last = expression_of(alloc, Box::into_inner(last))?;
            let before = branches_of(alloc, before, last.size() == 0)?;
            let size = size_of_all(&before).saturating_add(last.size());
            Ok(Expression::Branches {
                size,
                before,
                last: Box::new(alloc, last)?,
            })
        }
        Node::Repeat { least, most, atom } => {
            let atom = expression_of(alloc, Box::into_inner(atom))?;
            let size = copies(least, most).saturating_mul(atom.size());
            Ok(Expression::Repeat {
                size,
                least,
                most,
                atom: Box::new(alloc, atom)?,
            })
        }
        Node::Plus(atom) => {
            let atom = expression_of(alloc, Box::into_inner(atom))?;
            let size = atom.size();
            Ok(Expression::Plus {
                size,
                atom: Box::new(alloc, atom)?,
            })
        }
    }
}

/// The pieces of a branch, without those of size 0.
#[cycle(expression_of)]
fn pieces_of(alloc: Global, nodes: Vec<Node>) -> Result<Vec<Expression>, AllocError>
    ensures same { IfOk result (λ pieces. StandInTurn (map node_of nodes.items) (patterns_in pieces.items)) }
    ensures sized { IfOk result (λ pieces. IsTrue (all_sized (map meaning pieces.items))) }
{
    let mut pieces = Vec::new(alloc);
    for node in nodes {
        let piece = expression_of(alloc, node)?;
        let is_empty = piece.size() == 0;
        push_unless(is_empty, &mut pieces, piece)?;
    }
    Ok(pieces)
}

/// The branches before the last one; of those of size 0 the first, or none where the last is one.
#[cycle(expression_of)]
fn branches_of(
    alloc: Global,
    nodes: Vec<Node>,
    is_last_empty: bool,
) -> Result<Vec<Expression>, AllocError>
    ensures same { IfOk result (λ branches. StandBefore is_last_empty (map node_of nodes.items)
        (patterns_in branches.items)) }
    ensures sized { IfOk result (λ branches. IsTrue (all_sized (map meaning branches.items))) }
{
    let mut branches = Vec::new(alloc);
    let mut has_empty = is_last_empty;
    for node in nodes {
        let branch = expression_of(alloc, node)?;
        let is_empty = branch.size() == 0;
        push_unless(both(has_empty, is_empty), &mut branches, branch)?;
        has_empty = either(has_empty, is_empty);
    }
    Ok(branches)
}
