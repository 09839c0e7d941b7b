//! Worked examples of the definitions, which the prover computes.

ghost use Rattle.std.specs.Prelude.{◌≡◌, codes, ◌∷◌, []};
ghost use Rattle.jp_quote.specs.Quoted.{quoted_text};

/// Texts that nothing is escaped in, and texts that a quote or a backslash is escaped in.
fn quotes()
    ensures empty { quoted_text [] ≡ codes "''" }
    ensures plain { quoted_text (codes "a $[?@.b]") ≡ codes "'a $[?@.b]'" }
    ensures double { quoted_text (codes "say \"x\"") ≡ codes "'say \"x\"'" }
    ensures single { quoted_text (codes "it's") ≡ codes "'it\\'s'" }
    ensures backslash { quoted_text (codes "a\\n") ≡ codes "'a\\\\n'" }
    ensures like_a_literal { quoted_text (codes "'a'") ≡ codes "'\\'a\\''" }
{}

/// Control characters, and the first one beyond them.
fn controls()
    ensures letters { quoted_text (8 ∷ 9 ∷ 10 ∷ 12 ∷ 13 ∷ []) ≡ codes "'\\b\\t\\n\\f\\r'" }
    ensures first { quoted_text (0 ∷ []) ≡ codes "'\\u0000'" }
    ensures second { quoted_text (1 ∷ []) ≡ codes "'\\u0001'" }
    ensures last { quoted_text (31 ∷ []) ≡ codes "'\\u001f'" }
    ensures delete { quoted_text (127 ∷ []) ≡ 39 ∷ 127 ∷ 39 ∷ [] }
{}

/// Characters beyond ASCII stand as they are: `é` and a face.
fn beyond()
    ensures accent { quoted_text (233 ∷ []) ≡ 39 ∷ 233 ∷ 39 ∷ [] }
    ensures face { quoted_text (0x1f600 ∷ []) ≡ 39 ∷ 0x1f600 ∷ 39 ∷ [] }
{}
