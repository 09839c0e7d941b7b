//! Normalized paths.

ghost use Rattle.std.specs.Prelude.{◌≡◌, [], ◌∷◌, ◌++◌, codes};
ghost use Rattle.jp_doc.specs.Location.{name, index};
ghost use Rattle.jp_node.specs.Path.{path_text};

/// Paths, with each escape.
#[tactic(auto, unfolding(crate::proofs::OnLiterals::paths_on_literals))]
fn paths()
    ensures root { path_text [] ≡ codes "$" }
    ensures member { path_text (name (codes "a") ∷ []) ≡ codes "$['a']" }
    ensures member_and_items { path_text (name (codes "b") ∷ index 1 ∷ name (codes "c") ∷ [])
        ≡ codes "$['b'][1]['c']" }
    ensures empty_name { path_text (name [] ∷ []) ≡ codes "$['']" }
    ensures double_quote { path_text (name (codes "a\"b") ∷ []) ≡ codes "$['a\"b']" }
    ensures vertical_tab { path_text (name (11 ∷ []) ∷ []) ≡ codes "$['\\u000b']" }
    ensures unit_separator { path_text (name (31 ∷ []) ∷ []) ≡ codes "$['\\u001f']" }
    ensures delete { path_text (name (127 ∷ []) ∷ []) ≡ codes "$['" ++ 127 ∷ codes "']" }
    ensures backslash { path_text (name (92 ∷ []) ∷ []) ≡ codes "$['\\\\']" }
    ensures greatest_index { path_text (index 4294967295 ∷ []) ≡ codes "$[4294967295]" }
    ensures quote_null_and_tab { path_text (name (codes "it's" ++ 0 ∷ 9 ∷ []) ∷ [])
        ≡ codes "$['it\\'s\\u0000\\t']" }
    ensures short_escapes { path_text (name (8 ∷ 9 ∷ 10 ∷ 12 ∷ 13 ∷ []) ∷ []) ≡ codes "$['\\b\\t\\n\\f\\r']" }
    ensures every_other_control { path_text (name (0 ∷ 7 ∷ 14 ∷ 15 ∷ 16 ∷ 25 ∷ 26 ∷ []) ∷ [])
        ≡ codes "$['\\u0000\\u0007\\u000e\\u000f\\u0010\\u0019\\u001a']" }
    ensures bare { path_text (name (codes " \"/[]~") ∷ []) ≡ codes "$[' \"/[]~']" }
    ensures index_zero { path_text (index 0 ∷ index 10 ∷ []) ≡ codes "$[0][10]" }
    ensures beyond_ascii { path_text (name (128512 ∷ []) ∷ []) ≡ codes "$['" ++ 128512 ∷ codes "']" }
{}
