//! Laws of the definitions, each the contract of a function that does nothing.

ghost use Rattle.std.specs.Prelude.{◌≡◌, ◌++◌, [], ◌∷◌, codes};
ghost use Rattle.jp_doc.specs.Location.{name};
ghost use Rattle.jp_tree.specs.Tree.{Text};
ghost use Rattle.jp_tree.specs.Characters.{is_scalar};
ghost use Rattle.jp_tree.specs.Parts.{Each};
ghost use Rattle.jp_tree.specs.Strings.{IsString};
ghost use Rattle.jp_node.specs.Path.{step_text};
ghost use Rattle.jp_quote.specs.Quoted.{quoted_text};

/// Between quotes so, a text of Unicode scalar values is a string literal whose value is the text; and so the
/// text has it between the brackets of a name in a normalized path (RFC 9535, 2.7).
pub fn quoted_texts()
    ensures literal { (t : Text) → Each is_scalar t → IsString (quoted_text t) t }
    ensures in_paths { (t : Text) → step_text (name t) ≡ codes "[" ++ (quoted_text t ++ codes "]") }
{}
