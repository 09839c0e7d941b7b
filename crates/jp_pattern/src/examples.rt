//! Worked examples.

ghost use Rattle.std.specs.Prelude.{◌≡◌, ◌++◌, Some, None, true, false, [], ◌∷◌, codes};
ghost use Rattle.unicode.specs.declared.properties.GeneralCategory.TheVariants.{UppercaseLetter};
ghost use Rattle.unicode.specs.declared.properties.GeneralCategory.TheVariants.{LowercaseLetter};
ghost use Rattle.unicode.specs.declared.properties.GeneralCategory.TheVariants.{TitlecaseLetter};
ghost use Rattle.unicode.specs.declared.properties.GeneralCategory.TheVariants.{ModifierLetter, OtherLetter};
ghost use Rattle.unicode.specs.declared.properties.GeneralCategory.TheVariants.{DecimalNumber};
ghost use Rattle.jp_pattern.specs.Pattern.{Text, empty, letter, group, seq, either, repeat, plus, dot};
ghost use Rattle.jp_pattern.specs.Pattern.{category};
ghost use Rattle.jp_pattern.specs.Pattern.{class, one, only, range, of_category};
ghost use Rattle.std.specs.List.{AllByRecursion};
ghost use Rattle.jp_pattern.specs.CategoryNames.{IsCategoryName};
ghost use Rattle.jp_pattern.specs.CharSets.{in_set};
ghost use Rattle.jp_pattern.specs.Language.{Found, HasPart, Matches};
ghost use Rattle.jp_pattern.specs.Profile.{InProfile};
ghost use Rattle.jp_pattern.specs.Samples.{in_groups, HasOnly};
ghost use Rattle.jp_pattern.specs.Samples.{sign, letter_a, letter_b, branch, in_parentheses, HasSize};
ghost use Rattle.jp_pattern.specs.Samples.{IsNoPattern};
ghost use Rattle.jp_pattern.specs.Samples.{once_a, written_either};
ghost use Rattle.jp_pattern.specs.Shape.{Shapes};
ghost use Rattle.jp_pattern.specs.Unrolled.{maybe, nothing, plus as once_or_more, seq as then, unrolled};

// Which tree a text spells.
fn shapes()
    ensures nothing { Shapes (codes "") empty }
    ensures branch_or_nothing { Shapes (codes "a|") (either (branch (letter_a ∷ [])) empty) }
    ensures hyphens { Shapes (codes "[--]") (branch (letter (class false (one 45 ∷ one 45 ∷ [])) ∷ [])) }
    ensures letters_and_hyphens { Shapes (codes "[a-]+") (branch (plus (letter (class false (one 97 ∷ one
        45 ∷ []))) ∷ [])) }
    ensures capitals { Shapes (codes "\\p{Lu}+") (branch (plus (letter (category false (UppercaseLetter ∷
        []))) ∷ [])) }
    ensures not_line_feed { Shapes (codes "[^\\n]") (branch (letter (class true (one 10 ∷ [])) ∷ [])) }
    ensures any_character { Shapes (codes ".") (branch (letter dot ∷ [])) }
    ensures two { Shapes (codes "a{02}") (branch (repeat 2 (Some 2) letter_a ∷ [])) }
    ensures two_or_more { Shapes (codes "a{2,}") (branch (repeat 2 None letter_a ∷ [])) }
    ensures nested { Shapes (codes "(a*)*b{0,2}") (branch (repeat 0 None (group (branch (repeat 0 None
        letter_a ∷ []))) ∷
        repeat 0 (Some 2) letter_b ∷ [])) }
    ensures signs { Shapes (codes "^a$") (branch (sign 94 ∷ letter_a ∷ sign 36 ∷ [])) }
    ensures any_between { Shapes (codes "a.c") (branch (letter_a ∷ letter dot ∷ sign 99 ∷ [])) }
    ensures neither { Shapes (codes "[^a-z\\p{Nd}]") (branch (letter (class true (range 97 122 ∷
        of_category false
        (DecimalNumber ∷ []) ∷ [])) ∷ [])) }
    ensures no_letter { Shapes (codes "\\P{L}") (branch (letter (category true (LowercaseLetter ∷
        ModifierLetter ∷
        OtherLetter ∷ TitlecaseLetter ∷ UppercaseLetter ∷ [])) ∷ [])) }
    ensures some_letters { Shapes (codes "a+") (branch (plus letter_a ∷ [])) }
    ensures caret_later { Shapes (codes "[a^.]") (branch (letter (class false (one 97 ∷ one 94 ∷ one 46 ∷
        [])) ∷ [])) }
    ensures escaped_caret { Shapes (codes "[\\^]") (branch (letter (class false (one 94 ∷ [])) ∷ [])) }
    ensures two_carets { Shapes (codes "[^^]") (branch (letter (class true (one 94 ∷ [])) ∷ [])) }
    ensures hyphen_first { Shapes (codes "[-a]?") (branch (repeat 0 (Some 1) (letter (class false (one 45
        ∷ one 97 ∷ []))) ∷
        [])) }
    ensures branches { Shapes (codes "a|b|") (either (branch (letter_a ∷ [])) (either (branch (letter_b ∷
        [])) empty)) }
    ensures escapes { Shapes (codes "\\.\\-") (branch (sign 46 ∷ sign 45 ∷ [])) }
    ensures three_to_five { Shapes (codes "[\\--\\]]{003,5}") (branch (repeat 3 (Some 5) (letter (class
        false (range 45 93 ∷
        []))) ∷ [])) }
{}

// The unrolled sizes.
fn sizes()
    ensures thousand { HasSize (codes "a{1000}") 1_000 }
    ensures ten_thousand { HasSize (codes "(a{1000}){10}") 10_000 }
    ensures no_copies { HasSize (codes "(){1000}") 0 }
    ensures mixed { HasSize (codes "(a|b)*a(a|b){3}") 9 }
    ensures two_or_more { HasSize (codes "a{2,}") 3 }
    ensures maybes { HasSize (codes "(a?){1000}a{1000}") 2_000 }
    ensures nothing_in_depth { HasSize (codes "((((){1000}){1000}){1000}){1000}") 0 }
    ensures never { HasSize (codes "(((a{1000}){1000}){1000}){0}") 0 }
    ensures nothing { HasSize (codes "") 0 }
    ensures some_letters { HasSize (codes "a+") 1 }
    ensures one_or_more { HasSize (codes "a{1,}") 2 }
    ensures up_to_five { HasSize (codes "a{3,5}") 5 }
    ensures sixty_four_parentheses { HasSize (in_parentheses 64 (codes "a")) 1 }
{}

// Texts that are no patterns, for their form or for a limit.
fn refused()
    ensures class_of_nothing { IsNoPattern (codes "[^]") }
    ensures empty_class { IsNoPattern (codes "[]") }
    ensures range_that_falls { IsNoPattern (codes "[b-a]") }
    ensures unknown_escape { IsNoPattern (codes "\\d") }
    ensures two_quantities { IsNoPattern (codes "a**") }
    ensures no_least { IsNoPattern (codes "a{,2}") }
    ensures open_parenthesis { IsNoPattern (codes "(") }
    ensures close_parenthesis { IsNoPattern (codes ")") }
    ensures close_bracket { IsNoPattern (codes "]") }
    ensures hyphen_in_the_middle { IsNoPattern (codes "[a-b-c]") }
    ensures hyphen_behind_category { IsNoPattern (codes "[\\p{L}-z]") }
    ensures bracket_in_class { IsNoPattern (codes "[[]") }
    ensures quantity_first { IsNoPattern (codes "*") }
    ensures open_brace { IsNoPattern (codes "a{") }
    ensures close_brace { IsNoPattern (codes "}") }
    ensures open_count { IsNoPattern (codes "a{1") }
    ensures backslash_at_the_end { IsNoPattern (codes "\\") }
    ensures surrogates { IsNoPattern (codes "\\p{Cs}") }
    ensures unknown_category { IsNoPattern (codes "\\p{Lx}") }
    ensures category_without_braces { IsNoPattern (codes "\\pL") }
    ensures group_with_flags { IsNoPattern (codes "(?:a)") }
    ensures eleven_thousand { IsNoPattern (codes "(a{1000}){11}") }
    ensures count_too_great { IsNoPattern (codes "a{1001}") }
    ensures least_too_great { IsNoPattern (codes "a{1001,}") }
    ensures bounds_that_fall { IsNoPattern (codes "a{2,1}") }
    ensures sixty_five_parentheses { IsNoPattern (in_parentheses 65 (codes "a")) }
{}

// Texts that match.
fn matched()
    ensures empty_text { Matches (codes "") (codes "") }
    ensures first_branch { Matches (codes "a") (codes "a|") }
    ensures empty_branch { Matches (codes "") (codes "a|") }
    ensures hyphen { Matches (codes "-") (codes "[--]") }
    ensures letters_and_hyphens { Matches (codes "a-a") (codes "[a-]+") }
    ensures capitals { Matches (codes "AB") (codes "\\p{Lu}+") }
    ensures carriage_return { Matches (13 ∷ []) (codes "[^\\n]") }
    ensures last_character { Matches (1114111 ∷ []) (codes ".") }
    ensures no_copies { Matches (codes "") (codes "(){1000}") }
    ensures two { Matches (codes "aa") (codes "a{02}") }
    ensures two_of_two_or_more { Matches (codes "aa") (codes "a{2,}") }
    ensures three_of_two_or_more { Matches (codes "aaa") (codes "a{2,}") }
    ensures nested_empty { Matches (codes "") (codes "(a*)*b{0,2}") }
    ensures nested_letters { Matches (codes "aab") (codes "(a*)*b{0,2}") }
    ensures signs { Matches (codes "^a$") (codes "^a$") }
    ensures any_between { Matches (codes "abc") (codes "a.c") }
    ensures neither { Matches (codes "A") (codes "[^a-z\\p{Nd}]") }
    ensures no_letter { Matches (codes "1") (codes "\\P{L}") }
{}

// Texts that do not match.
fn not_matched()
    ensures nothing_else { Matches (codes "a") (codes "") → ⊥ }
    ensures other_branch { Matches (codes "b") (codes "a|") → ⊥ }
    ensures two_hyphens { Matches (codes "--") (codes "[--]") → ⊥ }
    ensures letter_for_hyphen { Matches (codes "a") (codes "[--]") → ⊥ }
    ensures other_letter { Matches (codes "b") (codes "[a-]+") → ⊥ }
    ensures small_letter { Matches (codes "Ab") (codes "\\p{Lu}+") → ⊥ }
    ensures line_feed { Matches (10 ∷ []) (codes "[^\\n]") → ⊥ }
    ensures line_feed_for_dot { Matches (10 ∷ []) (codes ".") → ⊥ }
    ensures carriage_return_for_dot { Matches (13 ∷ []) (codes ".") → ⊥ }
    ensures surrogate_for_dot { Matches (55296 ∷ []) (codes ".") → ⊥ }
    ensures one_of_two { Matches (codes "a") (codes "a{02}") → ⊥ }
    ensures three_of_two { Matches (codes "aaa") (codes "a{02}") → ⊥ }
    ensures one_of_two_or_more { Matches (codes "a") (codes "a{2,}") → ⊥ }
    ensures three_of_at_most_two { Matches (codes "bbb") (codes "(a*)*b{0,2}") → ⊥ }
    ensures letter_without_signs { Matches (codes "a") (codes "^a$") → ⊥ }
    ensures small_letter_of_neither { Matches (codes "a") (codes "[^a-z\\p{Nd}]") → ⊥ }
    ensures digit_of_neither { Matches (codes "5") (codes "[^a-z\\p{Nd}]") → ⊥ }
    ensures letter_for_no_letter { Matches (codes "a") (codes "\\P{L}") → ⊥ }
    ensures something_without_copies { Matches (codes "a") (codes "(){1000}") → ⊥ }
{}

// Where a part of the text matches.
fn found()
    ensures empty_everywhere { (text : Text) → Found text (codes "") }
    ensures a_part { Found (codes "Ab") (codes "\\p{Lu}+") }
    ensures nowhere { Found (codes "bb") (codes "a+") → ⊥ }
{}

// How patterns are written out.
fn written_out()
    ensures star { unrolled (repeat 0 None letter_a) ≡ maybe (once_or_more once_a) }
    ensures some_letters { unrolled (plus letter_a) ≡ once_or_more once_a }
    ensures one_or_more { unrolled (repeat 1 None letter_a) ≡ then once_a (maybe (once_or_more once_a)) }
    ensures question { unrolled (repeat 0 (Some 1) letter_a) ≡ maybe (then once_a nothing) }
    ensures no_copies { unrolled (repeat 0 (Some 0) letter_a) ≡ nothing }
    ensures two { unrolled (repeat 2 (Some 2) letter_a) ≡ then once_a (then once_a nothing) }
    ensures one_to_three { unrolled (repeat 1 (Some 3) letter_a) ≡ then once_a (maybe (then once_a (maybe
        (then once_a nothing)))) }
    ensures branches { unrolled (either letter_a empty) ≡ written_either once_a nothing }
    ensures parentheses { unrolled (group (branch (letter_a ∷ []))) ≡ then once_a nothing }
{}

// Escapes, and the characters that stand for themselves.
fn characters()
    ensures escaped { AllByRecursion (λ c. Shapes (codes "\\" ++ (c ∷ [])) (branch (sign c ∷ []))) (codes
        "()*+-.?[\\]^{|}") }
    ensures line_feed { Shapes (codes "\\n") (branch (sign 10 ∷ [])) }
    ensures carriage_return { Shapes (codes "\\r") (branch (sign 13 ∷ [])) }
    ensures tab { Shapes (codes "\\t") (branch (sign 9 ∷ [])) }
    ensures no_escapes { AllByRecursion (λ c. IsNoPattern (codes "\\" ++ (c ∷ []))) (codes
        "abdeswxuvpPNRT019/,:;<=>_ ") }
    ensures bare { AllByRecursion (λ c. Shapes (c ∷ []) (branch (sign c ∷ []))) (codes "aZ09^$-,/ !~&_") }
    ensures not_bare { AllByRecursion (λ c. IsNoPattern (c ∷ [])) (codes "()*+?[\\]{}") }
    ensures surrogates { AllByRecursion (λ c. IsNoPattern (c ∷ [])) (55296 ∷ 57343 ∷ 1114112 ∷ []) }
    ensures beside_surrogates { AllByRecursion (λ c. Shapes (c ∷ []) (branch (sign c ∷ []))) (55295 ∷
        57344 ∷ 1114111 ∷ []) }
    ensures in_classes { AllByRecursion (λ c. Shapes (codes "[" ++ (c ∷ codes "]")) (branch (letter (class
        false (one c ∷ [])) ∷ [])))
        (codes "()*+.?{|}$,-a") }
    ensures not_in_classes { AllByRecursion (λ c. IsNoPattern (codes "[" ++ (c ∷ codes "]"))) (codes
        "[\\]^") }
    ensures hyphen_and_caret { Shapes (codes "[-^]") (branch (letter (class false (one 45 ∷ one 94 ∷ []))
        ∷ [])) }
    ensures caret_and_hyphen { Shapes (codes "[^-]") (branch (letter (class true (one 45 ∷ [])) ∷ [])) }
    ensures caret_range { Shapes (codes "[^+-^]") (branch (letter (class true (range 43 94 ∷ [])) ∷ [])) }
    ensures range_of_one { Shapes (codes "[a-a]") (branch (letter (class false (range 97 97 ∷ [])) ∷ [])) }
    ensures hyphen_last { Shapes (codes "[a-c-]") (branch (letter (class false (range 97 99 ∷ one 45 ∷
        [])) ∷ [])) }
    ensures category_last { IsNoPattern (codes "[a-\\p{L}]") }
{}

// Quantities.
fn quantities()
    ensures star { Shapes (codes "a*") (branch (repeat 0 None letter_a ∷ [])) }
    ensures question { Shapes (codes "a?") (branch (repeat 0 (Some 1) letter_a ∷ [])) }
    ensures some_letters { Shapes (codes "a+") (branch (plus letter_a ∷ [])) }
    ensures no_copies { Shapes (codes "a{0}") (branch (repeat 0 (Some 0) letter_a ∷ [])) }
    ensures none_to_none { Shapes (codes "a{0,0}") (branch (repeat 0 (Some 0) letter_a ∷ [])) }
    ensures leading_zeros { Shapes (codes "a{007,10}") (branch (repeat 7 (Some 10) letter_a ∷ [])) }
    ensures digits { Shapes (codes "a{46,89}") (branch (repeat 46 (Some 89) letter_a ∷ [])) }
    ensures no_end { Shapes (codes "a{12,}") (branch (repeat 12 None letter_a ∷ [])) }
    ensures refused { AllByRecursion (λ t. IsNoPattern t) (codes "a{}" ∷ codes "a{,}" ∷ codes "a{1,2,}" ∷
        codes "a{a}" ∷ codes "a{:}" ∷ codes "a{/}" ∷ codes "a{1 }"
        ∷ codes "a{-1}" ∷ codes "a+?" ∷ codes "a?+" ∷ codes "a{1}{1}" ∷ codes "(*)" ∷ codes "|+" ∷ []) }
{}

// The limits at their edges.
fn limits()
    ensures greatest_count { InProfile (repeat 0 (Some 1000) letter_a) }
    ensures count_above { InProfile (repeat 0 (Some 1001) letter_a) → ⊥ }
    ensures least_above { InProfile (repeat 1001 None empty) → ⊥ }
    ensures bounds_that_fall { InProfile (repeat 1 (Some 0) letter_a) → ⊥ }
    ensures inside { InProfile (plus (group (seq empty (either (repeat 2 (Some 1) empty) empty)))) → ⊥ }
    ensures deepest { InProfile (in_groups 64 letter_a) }
    ensures too_deep { InProfile (in_groups 65 letter_a) → ⊥ }
    ensures largest { InProfile (repeat 1000 (Some 1000) (repeat 10 (Some 10) letter_a)) }
    ensures too_large { InProfile (seq letter_a (repeat 1000 (Some 1000) (repeat 10 (Some 10) letter_a)))
        → ⊥ }
{}

// What sets of characters hold.
fn sets()
    ensures dot { (in_set dot 9 ≡ true) × (in_set dot 10 ≡ false) × (in_set dot 11 ≡ true)
        × (in_set dot 13 ≡ false) × (in_set dot 0 ≡ true) × (in_set dot 133 ≡ true)
        × (in_set dot 8232 ≡ true) }
    ensures characters { (in_set dot 55295 ≡ true) × (in_set dot 55296 ≡ false)
        × (in_set dot 57343 ≡ false) × (in_set dot 57344 ≡ true) × (in_set dot 1114111 ≡ true)
        × (in_set dot 1114112 ≡ false) }
    ensures lone { (in_set (only 97) 97 ≡ true) × (in_set (only 97) 65 ≡ false)
        × (in_set (only 55296) 55296 ≡ false) }
    ensures ranges { (in_set (class false (range 97 122 ∷ [])) 96 ≡ false)
        × (in_set (class false (range 97 122 ∷ [])) 97 ≡ true)
        × (in_set (class false (range 97 122 ∷ [])) 122 ≡ true)
        × (in_set (class false (range 97 122 ∷ [])) 123 ≡ false) }
    ensures classes { (in_set (class false (one 97 ∷ one 99 ∷ [])) 99 ≡ true)
        × (in_set (class false (one 97 ∷ one 99 ∷ [])) 98 ≡ false)
        × (in_set (class true (one 97 ∷ one 99 ∷ [])) 99 ≡ false)
        × (in_set (class true (one 97 ∷ one 99 ∷ [])) 98 ≡ true)
        × (in_set (class true (one 97 ∷ [])) 55296 ≡ false) }
    ensures categories { (in_set (category false (UppercaseLetter ∷ [])) 65 ≡ true)
        × (in_set (category false (UppercaseLetter ∷ [])) 97 ≡ false)
        × (in_set (category true (UppercaseLetter ∷ [])) 65 ≡ false)
        × (in_set (category true (UppercaseLetter ∷ [])) 97 ≡ true)
        × (in_set (category false (UppercaseLetter ∷ LowercaseLetter ∷ [])) 97 ≡ true) }
    ensures in_classes { (in_set (class false (of_category false (UppercaseLetter ∷ []) ∷ [])) 65 ≡ true)
        × (in_set (class false (of_category true (UppercaseLetter ∷ []) ∷ [])) 65 ≡ false)
        × (in_set (class true (of_category true (UppercaseLetter ∷ []) ∷ [])) 65 ≡ true) }
{}

// Which texts patterns have, and which not.
fn languages()
    ensures nothing { HasOnly empty (codes "" ∷ []) (codes "a" ∷ []) }
    ensures a_character { HasOnly letter_a (codes "a" ∷ []) (codes "" ∷ codes "b" ∷ codes "aa" ∷ []) }
    ensures parentheses { HasOnly (group letter_a) (codes "a" ∷ []) (codes "" ∷ codes "b" ∷ []) }
    ensures in_turn { HasOnly (seq letter_a letter_b) (codes "ab" ∷ []) (codes "a" ∷ codes "b" ∷ codes
        "ba" ∷ []) }
    ensures branches { HasOnly (either letter_a letter_b) (codes "a" ∷ codes "b" ∷ []) (codes "" ∷ codes
        "ab" ∷ []) }
    ensures no_copies { HasOnly (repeat 0 (Some 0) letter_a) (codes "" ∷ []) (codes "a" ∷ []) }
    ensures question { HasOnly (repeat 0 (Some 1) letter_a) (codes "" ∷ codes "a" ∷ []) (codes "aa" ∷ []) }
    ensures one_to_two { HasOnly (repeat 1 (Some 2) letter_a) (codes "a" ∷ codes "aa" ∷ []) (codes "" ∷
        codes "aaa" ∷ []) }
    ensures star { HasOnly (repeat 0 None letter_a) (codes "" ∷ codes "a" ∷ codes "aaa" ∷ []) (codes "ab"
        ∷ []) }
    ensures two_or_more { HasOnly (repeat 2 None letter_a) (codes "aa" ∷ codes "aaa" ∷ []) (codes "" ∷
        codes "a" ∷ []) }
    ensures some_letters { HasOnly (plus letter_a) (codes "a" ∷ codes "aa" ∷ []) (codes "" ∷ codes "ba" ∷
        []) }
    ensures some_nothing { HasOnly (plus empty) (codes "" ∷ []) (codes "a" ∷ []) }
    ensures parts_of_two { HasOnly (repeat 2 (Some 2) (either letter_a (seq letter_a letter_b)))
        (codes "aa" ∷ codes "aba" ∷ codes "aab" ∷ codes "abab" ∷ []) (codes "a" ∷ codes "abb" ∷ []) }
    ensures never { HasOnly (repeat 0 (Some 0) (repeat 1000 (Some 1000) (repeat 1000 (Some 1000) (repeat
        1000 (Some 1000) letter_a))))
        (codes "" ∷ []) (codes "a" ∷ []) }
{}

// Where a part is found.
fn parts()
    ensures before { HasPart letter_a (codes "ab") }
    ensures between { HasPart letter_b (codes "abc") }
    ensures behind { HasPart letter_b (codes "ab") }
    ensures nothing { HasPart empty (codes "ab") }
    ensures not_in_turn { HasPart (seq letter_a letter_b) (codes "ba") → ⊥ }
{}

// The names of general categories.
fn category_names()
    ensures letters { IsCategoryName (codes "L") (LowercaseLetter ∷ ModifierLetter ∷ OtherLetter ∷
        TitlecaseLetter ∷ UppercaseLetter ∷ []) }
    ensures capitals { IsCategoryName (codes "Lu") (UppercaseLetter ∷ []) }
    ensures digits { IsCategoryName (codes "Nd") (DecimalNumber ∷ []) }
    ensures none { AllByRecursion (λ t. IsNoPattern (codes "\\p{" ++ (t ++ codes "}"))) (codes "Cs" ∷
        codes "Lx" ∷ codes "l"
        ∷ codes "LU" ∷ codes "LuA" ∷ codes "IsBasicLatin" ∷ codes "" ∷ codes "Zz" ∷ codes "X" ∷ []) }
{}
