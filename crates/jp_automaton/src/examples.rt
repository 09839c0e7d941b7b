//! Worked examples of positions, and of patterns of the same language.

ghost use Rattle.std.specs.Prelude.{[], ◌∷◌, codes};
ghost use Rattle.jp_automaton.specs.SameLanguage.{SameLanguage};
ghost use Rattle.jp_pattern.specs.Pattern.{Pattern, Text};
ghost use Rattle.jp_pattern.specs.Samples.{a_or_ab, branch, letter_a, letter_b, some_ab};
ghost use Rattle.jp_pattern.specs.Unrolled.{PositionHas, SomePositionHas};

// What is left at the positions of `a|ab`, and of `(ab)+`.
fn positions()
    ensures start { PositionHas a_or_ab 0 (codes "ab") }
    ensures behind_first { PositionHas a_or_ab 1 [] }
    ensures nothing_behind_first { PositionHas a_or_ab 1 (codes "b") → ⊥ }
    ensures behind_second { PositionHas a_or_ab 2 (codes "b") }
    ensures not_complete { PositionHas a_or_ab 2 [] → ⊥ }
    ensures behind_third { PositionHas a_or_ab 3 [] }
    ensures no_fourth { (t : Text) → PositionHas a_or_ab 4 t → ⊥ }
    ensures repeated { PositionHas some_ab 2 (codes "ab") }
    ensures complete { PositionHas some_ab 2 [] }
    ensures begun { PositionHas some_ab 1 (codes "bab") }
    ensures left { SomePositionHas a_or_ab (1 ∷ 2 ∷ []) (codes "b") }
    ensures not_left { SomePositionHas a_or_ab (1 ∷ 3 ∷ []) (codes "b") → ⊥ }
{}

// `()a` is as good as `a`; `a|a` has another size, and `b` another text.
fn same_languages()
    ensures without_nothing { SameLanguage (branch (Pattern.group (branch []) ∷ letter_a ∷ []))
        (branch (letter_a ∷ [])) }
    ensures other_size { SameLanguage (Pattern.either letter_a letter_a) letter_a → ⊥ }
    ensures other_text { SameLanguage letter_b letter_a → ⊥ }
{}
