//! A document as a flat list of nodes.

ghost use Rattle.std.specs.Prelude.{◌≡◌, ℕ, ◌+◌, ◌<◌, ◌≤◌, List, ◌∷◌, drop, length, Some};
ghost use Rattle.json.specs.Json.{Json, value};
ghost use Rattle.json.specs.Print.{quoted, token_text};
ghost use Rattle.json.specs.Token.{Token};
ghost use Rattle.jp_flat.specs.inner.Held.{HasPiece, IsHeld, IsPiece};
ghost use Rattle.jp_flat_nodes.specs.Nodes.{IsPlain, IsPlainName, piece, source, token_at, tokens_at};

use crate::value::FlatValue;
use jp_flat_nodes::FlatNode;
use std::str;

/// A document as a flat list of nodes, which lie in the buffers of a reader. Their texts stand in the line,
/// or in a buffer of the reader where the line writes them with escapes.
#[derive(Drop)]
pub struct FlatDocument<'a> {
    line: &'a [u8],
    texts: &'a [u8],
    nodes: &'a [FlatNode],
    ghost few: { length nodes.now ≤ 268435456 },
    ghost held: { ∥ IsHeld (source line.now texts.now) nodes.now ∥₁ },
}

impl<'a> FlatDocument<'a> {
    ghost use Rattle.std.specs.Prelude.{MatchOption};
    ghost use Rattle.json.specs.Token.{key};
    ghost use Rattle.jp_flat.specs.Document.{document_source, document_tokens, document_value};
    ghost use Rattle.jp_flat.specs.inner.Held.{IsNoKey};
    ghost use Rattle.jp_flat.specs.Value.{flat_value};

    /// The document of these nodes.
    pub(crate) fn new(line: &'a [u8], texts: &'a [u8], nodes: &'a [FlatNode]) -> FlatDocument<'a>
        requires few { length nodes.now ≤ 268435456 }
        requires held { IsHeld (source line.now texts.now) nodes.now }
        ensures { document_tokens result ≡ tokens_at (source line.now texts.now) nodes.now }
    {
        FlatDocument { line, texts, nodes }
    }

    /// The node at this place.
    // Each step of a cursor looks at a node so.
    #[inline(always)]
    pub(crate) fn node(&self, at: u32) -> FlatNode
        requires { at < length self.now.nodes.now }
        ensures token { drop at (document_tokens self.now)
            ≡ token_at (document_source self.now) result
            ∷ drop (at + 1) (document_tokens self.now) }
        ensures piece { HasPiece (document_source self.now) result }
    {
        self.nodes[at as usize]
    }

    /// The place behind the value that begins at this one.
    // Each step of a cursor passes a value so.
    #[inline(always)]
    pub(crate) fn after(&self, at: u32) -> u32
        requires { at < length self.now.nodes.now }
        ensures value { (depth : ℕ) (j : Json) (rest : List Token)
            → value depth (drop at (document_tokens self.now)) ≡ Some (j, rest)
            → rest ≡ drop result (document_tokens self.now) }
        ensures later { at < result }
    {
        let node = self.nodes[at as usize];
        match node {
            FlatNode::Object(end) | FlatNode::Array(end) => end,
            _ => at + 1,
        }
    }

    /// So many bytes of the line from a place on.
    // Each text that is looked at is handed out so.
    #[inline(always)]
    pub(crate) fn piece(&self, from: u32, count: u32) -> &'a str
        requires { IsPiece self.now.line.now from count }
        ensures { result.now ≡ piece self.now.line.now from count }
    {
        piece_of(self.line, from, count)
    }

    /// A text that the line writes with escapes, without them.
    pub(crate) fn unescaped(&self, from: u32, count: u32) -> &'a str
        requires { IsPiece self.now.texts.now from count }
        ensures { result.now ≡ piece self.now.texts.now from count }
    {
        piece_of(self.texts, from, count)
    }

    /// So many bytes of the line from a place on, which are plain, between their quotes.
    #[inline(always)]
    pub(crate) fn quoted(&self, from: u32, count: u32) -> &'a [u8]
        requires { IsPlain self.now.line.now from count }
        ensures { result.now ≡ quoted (piece self.now.line.now from count) }
    {
        let (from, count) = (from as usize, count as usize);
        &self.line[from - 1..from + count + 1]
    }

    /// A name that stands so, with its colon.
    #[inline(always)]
    pub(crate) fn quoted_name(&self, from: u32, count: u32) -> &'a [u8]
        requires { IsPlainName self.now.line.now from count }
        ensures { result.now ≡ token_text (key (piece self.now.line.now from count)) }
    {
        let (from, count) = (from as usize, count as usize);
        &self.line[from - 1..from + count + 2]
    }

    /// The name that a node is, if it is one.
    // As a step of a cursor.
    #[inline(always)]
    pub(crate) fn name(&self, node: FlatNode) -> Option<&'a str>
        requires { HasPiece (document_source self.now) node }
        ensures { MatchOption result (IsNoKey (token_at (document_source self.now) node))
            (λ s. token_at (document_source self.now) node ≡ key s.now) }
    {
        match node {
            FlatNode::Key(from, count) => Some(self.piece(from, count)),
            FlatNode::EscapedKey(from, count) => Some(self.unescaped(from, count)),
            _ => None,
        }
    }

    /// The whole value.
    pub fn root(&self) -> FlatValue<'_>
        ensures { flat_value result ≡ document_value self.now }
    {
        FlatValue::first(self)
    }
}

/// So many bytes of a text from a place on.
#[inline(always)]
fn piece_of(text: &[u8], from: u32, count: u32) -> &str
    requires { IsPiece text.now from count }
    ensures { result.now ≡ piece text.now from count }
{
    let (from, count) = (from as usize, count as usize);
    // They are UTF-8, as is proved: a test would cost more than the text.
    unsafe { str::from_utf8_unchecked(&text[from..from + count]) }
}
