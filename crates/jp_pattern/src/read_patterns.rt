//! Reading patterns. Only parentheses go deeper, and no more of them than are left.

ghost use Rattle.std.specs.Prelude.{◌≡◌, ◌∷◌, [], map, IfOk};
ghost use Rattle.jp_pattern.specs.inner.Gives.{Gives};
ghost use Rattle.jp_pattern.specs.inner.Reading as reading;
ghost use Rattle.jp_pattern.specs.Pattern.{group};
ghost use Rattle.jp_pattern.specs.Tree.{before_last, in_turn, node_of};
ghost use Rattle.jp_pattern.specs.TreeRead.{IsTreeOf};

use crate::fault::PatternFault;
use crate::limits::MAX_DEPTH;
use crate::read_counts::quantity_at;
use crate::read_sets::set_at;
use crate::tree::{NextPart, Node, Quantity};
use std::alloc::{AllocError, Global};

/// The atom with its quantity.
fn quantified(alloc: Global, atom: Node, quantity: Quantity) -> Result<Node, AllocError>
    ensures { IfOk result (λ n. node_of n ≡ reading.with_quantity_of quantity (node_of atom)) }
{
    Ok(match quantity {
        Quantity::Once => atom,
        Quantity::Plus => Node::Plus(Box::new(alloc, atom)?),
        Quantity::Repeat(least, most) => {
            let atom = Box::new(alloc, atom)?;
            Node::Repeat { least, most, atom }
        }
    })
}

/// What stands in parentheses.
fn group(alloc: Global, inside: Node) -> Result<Node, AllocError>
    ensures { IfOk result (λ n. node_of n ≡ group (node_of inside)) }
{
    Ok(Node::Group(Box::new(alloc, inside)?))
}

/// Branches, of which the pieces are the last.
fn branches(alloc: Global, before: Vec<Node>, pieces: Vec<Node>) -> Result<Node, AllocError>
    ensures { IfOk result (λ n. node_of n ≡ before_last (map node_of before.items) (in_turn (map node_of
        pieces.items))) }
{
    let last = Box::new(alloc, Node::Pieces(pieces))?;
    Ok(Node::Branches { before, last })
}

/// Behind `(`, with so many parentheses left (RFC 9485, 3: atom).
#[cycle(read_patterns)]
#[tactic(auto, unfolding(crate::specs::inner::Reading::group_within))]
fn group_at(
    alloc: Global,
    left: u32,
    turns: usize,
    text: &[char],
) -> Result<(Node, &[char]), PatternFault>
    ensures { Gives (λ x. (node_of x.0, x.1.now)) result (reading.group_within (λ l. reading.pattern_within l
        turns) left text.now) }
{
    if left == 0 {
        return Err(PatternFault::NoPattern);
    }
    let (inside, rest) = pattern_at(alloc, left - 1, turns, text)?;
    match rest {
        [')', after @ ..] => Ok((group(alloc, inside)?, after)),
        _ => Err(PatternFault::NoPattern),
    }
}

/// An atom (RFC 9485, 3: atom).
#[cycle(read_patterns)]
#[tactic(auto, unfolding(crate::specs::inner::Reading::atom_within))]
fn atom_at(
    alloc: Global,
    left: u32,
    turns: usize,
    text: &[char],
) -> Result<(Node, &[char]), PatternFault>
    ensures { Gives (λ x. (node_of x.0, x.1.now)) result (reading.atom_within (λ l. reading.pattern_within l
        turns) left text.now) }
{
    match text {
        ['(', more @ ..] => group_at(alloc, left, turns, more),
        _ => {
            let (set, rest) = set_at(alloc, text)?;
            Ok((Node::Set(set), rest))
        }
    }
}

/// An atom and its quantity (RFC 9485, 3: piece).
#[cycle(read_patterns)]
#[tactic(auto, unfolding(crate::specs::inner::Reading::piece_within))]
fn piece_at(
    alloc: Global,
    left: u32,
    turns: usize,
    text: &[char],
) -> Result<(Node, &[char]), PatternFault>
    ensures { Gives (λ x. (node_of x.0, x.1.now)) result (reading.piece_within (λ l. reading.pattern_within l
        turns) left text.now) }
{
    let (atom, rest) = atom_at(alloc, left, turns, text)?;
    let (quantity, rest) = quantity_at(rest)?;
    Ok((quantified(alloc, atom, quantity)?, rest))
}

/// The next piece, or a bar, or the end.
#[cycle(read_patterns)]
#[tactic(auto, unfolding(crate::specs::inner::Reading::next_part))]
fn next_part(
    alloc: Global,
    left: u32,
    turns: usize,
    text: &[char],
) -> Result<(NextPart, &[char]), PatternFault>
    ensures { Gives (λ x. (reading.next_part_of x.0, x.1.now)) result (reading.next_part (λ l.
        reading.pattern_within l
        turns) left text.now) }
{
    match text {
        [] => Ok((NextPart::End, text)),
        [')', ..] => Ok((NextPart::End, text)),
        ['|', rest @ ..] => Ok((NextPart::Bar, rest)),
        [_, ..] => {
            let (piece, rest) = piece_at(alloc, left, turns, text)?;
            Ok((NextPart::Piece(piece), rest))
        }
    }
}

/// Up to the end or a closing parenthesis, with so many parentheses left; the second number bounds the turns.
#[cycle(read_patterns)]
fn pattern_at(
    alloc: Global,
    left: u32,
    turns: usize,
    text: &[char],
) -> Result<(Node, &[char]), PatternFault>
    ensures { Gives (λ x. (node_of x.0, x.1.now)) result (reading.pattern_within left turns text.now) }
{
    let mut before: Vec<Node> = Vec::new(alloc);
    let mut pieces: Vec<Node> = Vec::new(alloc);
    let mut rest = text;
    for turn in 0..turns {
        let (next, after) = next_part(alloc, left, turns - turn - 1, rest)?;
        rest = after;
        match next {
            NextPart::End => return Ok((branches(alloc, before, pieces)?, rest)),
            NextPart::Bar => {
                before.push(Node::Pieces(pieces))?;
                pieces = Vec::new(alloc);
            }
            NextPart::Piece(piece) => pieces.push(piece)?,
        }
    }
    Err(PatternFault::NoPattern)
}

/// The tree of the whole text, within the counts and the depth (RFC 9485, 3).
#[tactic(auto, unfolding(crate::specs::inner::Reading::read_within))]
fn read_whole(alloc: Global, text: &[char]) -> Result<Node, PatternFault>
    ensures { Gives node_of result (reading.read_within text.now) }
{
    let (root, rest) = pattern_at(alloc, MAX_DEPTH, text.len() + 1, text)?;
    if rest.is_empty() {
        Ok(root)
    } else {
        Err(PatternFault::NoPattern)
    }
}

/// The tree that the text spells, where each count is at most 1,000 and at most 64 parentheses stand inside
/// each other (RFC 9485, 3 and 8). How large it is once its repetitions are written out is not asked.
///
/// # Errors
///
/// The text is no I-Regexp within the limits of this implementation, or memory ran out.
pub fn read_tree(alloc: Global, text: &[char]) -> Result<Node, PatternFault>
    ensures { IsTreeOf text.now result }
{
    read_whole(alloc, text)
}
