//! A pass over the nodes of a line: nesting no deeper than is read, and numbers that are taken.

ghost use Rattle.std.specs.Prelude.{◌≡◌, ◌≤◌, ◌&&◌, List, ◌∷◌, map, false, MatchOption, IfSome};
ghost use Rattle.json.specs.Tape.{node_token};
ghost use Rattle.json.specs.Token.{Token};
ghost use Rattle.jp_flat.specs.inner.Decimals.{are_readable};
ghost use Rattle.jp_flat.specs.inner.Nesting.{nests_from};
ghost use Rattle.jp_flat.specs.inner.Plain.{is_plain_from};
ghost use Rattle.jp_flat.specs.inner.Rows.{are_within, pass_fault};

use crate::digits::{is_readable, is_whole_text, is_within};
use crate::limits::MAX_LEVEL;
use jp_doc::DocFault;
use json::Node;

/// A text, which is in UTF-8 by its type.
// The same text, with a clause: a call for it would be one more at each text of a line.
#[inline(always)]
fn known_text(text: &str) -> &str
    ensures { result.now ≡ text.now }
{
    text
}

/// How many brackets are open behind the node, where so many are open before it, or `None` where the node is
/// not plain.
// Each node of each line passes through it.
#[inline(always)]
fn level_after(node: &Node<'_>, level: u32) -> Option<u32>
    requires { level ≤ 127 }
    ensures plain { (ts : List Token) → MatchOption result
        (is_plain_from level (node_token node.now ∷ ts) ≡ false)
        (λ l. is_plain_from level (node_token node.now ∷ ts) ≡ is_plain_from l ts) }
    ensures level { IfSome result (λ l. l ≤ 127) }
{
    match node {
        Node::Object(_) | Node::Array(_) => {
            if level < MAX_LEVEL {
                Some(level + 1)
            } else {
                None
            }
        }
        Node::EndObject | Node::EndArray => Some(level.saturating_sub(1)),
        Node::Number(text) => {
            if is_whole_text(text) {
                Some(level)
            } else {
                None
            }
        }
        Node::Key(text) | Node::String(text) => {
            let _text = known_text(text);
            Some(level)
        }
        Node::Bool(_) | Node::Null => Some(level),
    }
}

/// Whether the nodes hold such numbers alone, and open at most 127 brackets at once.
pub(crate) fn are_plain(nodes: &[Node<'_>]) -> bool
    ensures { result ≡ is_plain_from 0 (map node_token nodes.now) }
{
    let mut level = 0;
    for node in nodes {
        match level_after(node, level) {
            Some(next) => level = next,
            None => return false,
        }
    }
    true
}

/// How many brackets are open behind the node, where so many are open before it, or `None` where those are
/// too many.
fn nested_after(node: &Node<'_>, level: u32) -> Option<u32>
    requires { level ≤ 127 }
    ensures nests { (ts : List Token) → MatchOption result
        (nests_from level (node_token node.now ∷ ts) ≡ false)
        (λ l. nests_from level (node_token node.now ∷ ts) ≡ nests_from l ts) }
    ensures level { IfSome result (λ l. l ≤ 127) }
{
    match node {
        Node::Object(_) | Node::Array(_) => {
            if level < MAX_LEVEL {
                Some(level + 1)
            } else {
                None
            }
        }
        Node::EndObject | Node::EndArray => Some(level.saturating_sub(1)),
        Node::Number(_) | Node::Key(_) | Node::String(_) => Some(level),
        Node::Bool(_) | Node::Null => Some(level),
    }
}

/// Whether the node is no number over the limits.
fn is_node_within(node: &Node<'_>) -> bool
    ensures { (ts : List Token) → are_within (node_token node.now ∷ ts) ≡ (result && are_within ts) }
{
    match node {
        Node::Number(text) => is_within(text),
        _ => true,
    }
}

/// The first fault of the nodes, where numbers need not be whole.
pub(crate) fn fault_in(nodes: &[Node<'_>]) -> Option<DocFault>
    ensures { result ≡ pass_fault (map node_token nodes.now) }
{
    let mut level = 0;
    let mut within = true;
    for node in nodes {
        within = within && is_node_within(node);
        match nested_after(node, level) {
            Some(next) => level = next,
            None => return Some(DocFault::Unreadable),
        }
    }
    if within {
        None
    } else {
        Some(DocFault::LongNumber)
    }
}

/// Whether the node is no number that the JSON crate refuses.
fn is_node_readable(node: &Node<'_>) -> bool
    ensures { (ts : List Token) → are_readable (node_token node.now ∷ ts) ≡ (result && are_readable ts) }
{
    match node {
        Node::Number(text) => is_readable(text),
        _ => true,
    }
}

/// Whether the JSON crate reads what the nodes write: it refuses numbers that are too large, and more than
/// 127 brackets that are open at once.
pub(crate) fn are_readable(nodes: &[Node<'_>]) -> bool
    ensures { result ≡ (nests_from 0 (map node_token nodes.now) && are_readable (map node_token nodes.now)) }
{
    let mut level = 0;
    for node in nodes {
        if !is_node_readable(node) {
            return false;
        }
        match nested_after(node, level) {
            Some(next) => level = next,
            None => return false,
        }
    }
    true
}
