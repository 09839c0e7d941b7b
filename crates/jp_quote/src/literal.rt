//! A text between single quotes.

ghost use Rattle.std.specs.Prelude.{◌≡◌, ◌≤◌, ◌++◌, IfOk, OnOk};
ghost use Rattle.std.specs.List.{AllByRecursion};
ghost use Rattle.std.specs.Str.{chars};
ghost use Rattle.jp_tree.specs.Tree as tree;
ghost use Rattle.jp_tree.specs.Spelling.{LiteralIs};
ghost use Rattle.jp_tree.specs.View.{text_of};
ghost use Rattle.jp_node.specs.Path.{escaped};
ghost use Rattle.jp_quote.specs.Quoted.{quoted_text};

use crate::growth::{push_character, push_control, push_escape};
use std::alloc::{AllocError, Global};

/// The text as a string literal of a query (RFC 9535, 2.3.1.1), in single quotes and with the escapes that
/// names have in normalized paths (2.7).
///
/// # Errors
///
/// `AllocError` where a growth of memory was refused.
pub fn quote(alloc: Global, text: &str) -> Result<String, AllocError>
    ensures written { IfOk result (λ s. text_of s ≡ quoted_text (chars text.now)) }
    // It is a literal, whose value is just the text, and has no other.
    ensures literal { IfOk result (λ s. LiteralIs (text_of s) (tree.text (chars text.now))) }
    ensures only { IfOk result (λ s. (x : tree.Literal) → LiteralIs (text_of s) x
        → x ≡ tree.text (chars text.now)) }
    // Whatever stands behind it in a query: no other literal stands there in front, so it ends where it ends.
    ensures alone { IfOk result (λ s. (behind front rest : tree.Text) (x : tree.Literal)
        → LiteralIs front x → text_of s ++ behind ≡ front ++ rest → front ≡ text_of s) }
    // It has no control character below the space, so it is one line.
    ensures line { IfOk result (λ s. AllByRecursion (λ c. 32 ≤ c) (text_of s)) }
{
    let mut literal = String::new(alloc);
    push_character(&mut literal, '\'')?;
    for c in text.chars() {
        push_escaped(&mut literal, c)?;
    }
    push_character(&mut literal, '\'')?;
    Ok(literal)
}

/// The character, or its escape.
fn push_escaped(literal: &mut String, c: char) -> Result<(), AllocError>
    ensures { OnOk result (text_of literal.new ≡ text_of literal.old ++ escaped c) }
{
    match c {
        '\'' | '\\' => push_escape(literal, c),
        '\u{8}' => push_escape(literal, 'b'),
        '\t' => push_escape(literal, 't'),
        '\n' => push_escape(literal, 'n'),
        '\u{c}' => push_escape(literal, 'f'),
        '\r' => push_escape(literal, 'r'),
        '\0'..='\u{1f}' => push_control(literal, c),
        _ => push_character(literal, c),
    }
}
