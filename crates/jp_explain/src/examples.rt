//! Worked examples of the definitions, which the prover computes.

ghost use Rattle.std.specs.Prelude.{◌≡◌, true, false, codes, ◌∷◌, []};
ghost use Rattle.jp_explain.specs.Picture.{is_escaped, is_shown};

/// Controls at each end of their ranges, and a letter between and beyond them.
#[tactic(auto, unfolding(crate::proofs::OnLiterals::characters_on_literals))]
fn controls()
    ensures escape { is_escaped 0x1b ≡ true }
    ensures last_of_ascii { is_escaped 0x7f ≡ true }
    ensures last { is_escaped 0x9f ≡ true }
    ensures space { is_escaped 0x20 ≡ false }
    ensures tilde { is_escaped 0x7e ≡ false }
    ensures no_break_space { is_escaped 0xa0 ≡ false }
{}

/// What shows nothing or turns the direction of others, and a letter beside each.
#[tactic(auto, unfolding(crate::proofs::OnLiterals::characters_on_literals))]
fn others()
    ensures soft_hyphen { is_escaped 0xad ≡ true }
    ensures arabic_letter_mark { is_escaped 0x61c ≡ true }
    ensures arabic_letter { is_escaped 0x627 ≡ false }
    ensures right_to_left_override { is_escaped 0x202e ≡ true }
    ensures line_separator { is_escaped 0x2028 ≡ true }
    ensures paragraph_separator { is_escaped 0x2029 ≡ true }
    ensures bullet { is_escaped 0x2022 ≡ false }
    ensures variation_selector { is_escaped 0xfe0f ≡ true }
    ensures tag { is_escaped 0xe0041 ≡ true }
    ensures face { is_escaped 0x1f600 ≡ false }
{}

#[tactic(auto, unfolding(crate::proofs::OnLiterals::characters_on_literals))]
fn texts()
    ensures shown { is_shown (codes "a[1]") ≡ true }
    ensures with_line_feed { is_shown (97 ∷ 10 ∷ []) ≡ false }
    ensures empty { is_shown [] ≡ true }
{}
