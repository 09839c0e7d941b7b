//! What trees of lines are, and their values.

ghost use Rattle.std.specs.Prelude.{◌≡◌, [], ◌∷◌, ◌++◌, codes, fold, option_map, replicate, pos, negsuc};
ghost use Rattle.std.specs.Prelude.{true, Some, None};
ghost use Rattle.json.specs.Json as grammar;
ghost use Rattle.jp_doc.specs.Json.{null, truth, number, text, array, object, no_items, add_item, no_members};
ghost use Rattle.jp_doc.specs.Json.{add_member};
ghost use Rattle.jp_doc.specs.Tree.{tree_of, text_number, put_member, tree_json};
ghost use Rattle.jp_number.specs.Number.{whole, written};

#[tactic(auto, unfolding(crate::proofs::OnLiterals::documents_on_literals))]
fn trees()
    ensures number_as_it_stands { tree_of (codes "[1.50]")
        ≡ Some (grammar.array (grammar.item (grammar.number (codes "1.50")) grammar.no_items)) }
    ensures above_all_floats { tree_of (codes "-1E999") ≡ Some (grammar.number (codes "-1E999")) }
    ensures name_twice { tree_of (codes "{\"a\":1,\"a\":2}")
        ≡ Some (grammar.object (grammar.member (codes "a") (grammar.number (codes "1"))
        (grammar.member (codes "a") (grammar.number (codes "2")) grammar.no_members))) }
    ensures white_space_around { tree_of (32 ∷ codes "null" ++ 13 ∷ []) ≡ Some grammar.null }
{}

#[tactic(auto, unfolding(crate::proofs::OnLiterals::documents_on_literals))]
fn no_trees()
    ensures open_array { tree_of (codes "[1") ≡ None }
    ensures two_values { tree_of (codes "1 2") ≡ None }
    ensures zero_first { tree_of (codes "01") ≡ None }
    ensures no_digit_behind_the_point { tree_of (codes "5.") ≡ None }
    ensures no_bytes { tree_of [] ≡ None }
{}

#[tactic(auto, unfolding(crate::proofs::OnLiterals::documents_on_literals))]
fn nesting()
    ensures deepest { tree_of (replicate 127 91 ++ replicate 127 93)
        ≡ Some (fold (λ j _. grammar.array (grammar.item j grammar.no_items)) (grammar.array grammar.no_items)
        (replicate 126 grammar.null)) }
    ensures too_deep { tree_of (replicate 128 91 ++ replicate 128 93) ≡ None }
{}

#[tactic(auto, unfolding(crate::proofs::OnLiterals::documents_on_literals))]
fn numbers_of_texts()
    ensures zero { text_number (codes "0") ≡ whole (pos 0) }
    ensures negative { text_number (codes "-12") ≡ whole (negsuc 11) }
    ensures greatest { text_number (codes "18446744073709551615") ≡ whole (pos 18446744073709551615) }
    ensures least { text_number (codes "-9223372036854775808") ≡ whole (negsuc 9223372036854775807) }
    ensures above_the_greatest { text_number (codes "18446744073709551616")
        ≡ written (codes "18446744073709551616") }
    ensures fraction { text_number (codes "1.0") ≡ written (codes "1.0") }
    ensures minus_zero { text_number (codes "-0") ≡ written (codes "-0") }
    ensures above_all_floats { text_number (codes "1E400") ≡ written (codes "1E400") }
{}

#[tactic(auto, unfolding(crate::proofs::OnLiterals::documents_on_literals))]
fn members_that_are_put()
    ensures first { put_member (codes "b") null no_members ≡ add_member (codes "b") null no_members }
    ensures before { put_member (codes "a") null (add_member (codes "b") null no_members)
        ≡ add_member (codes "a") null (add_member (codes "b") null no_members) }
    ensures behind { put_member (codes "c") null (add_member (codes "b") null no_members)
        ≡ add_member (codes "b") null (add_member (codes "c") null no_members) }
    ensures in_its_place { put_member (codes "b") (truth true) (add_member (codes "b") null no_members)
        ≡ add_member (codes "b") (truth true) no_members }
{}

#[tactic(auto, unfolding(crate::proofs::OnLiterals::documents_on_literals))]
fn values_of_trees()
    ensures empty_object { option_map tree_json (tree_of (codes "{}")) ≡ Some (object no_members) }
    ensures text_value { option_map tree_json (tree_of (codes "\"a\\nb\""))
        ≡ Some (text (97 ∷ 10 ∷ 98 ∷ [])) }
    ensures last_of_a_name { option_map tree_json (tree_of (codes "{\"a\":1,\"b\":null,\"a\":2}"))
        ≡ Some (object (add_member (codes "a") (number (whole (pos 2)))
        (add_member (codes "b") null no_members))) }
    ensures nested_objects { option_map tree_json (tree_of (codes "{\"b\":{\"d\":[-2],\"c\":true},\"a\":{}}"))
        ≡ Some (object (add_member (codes "a") (object no_members)
        (add_member (codes "b") (object (add_member (codes "c") (truth true)
        (add_member (codes "d") (array (add_item (number (whole (negsuc 1))) no_items)) no_members)))
        no_members))) }
    ensures fraction_covered { option_map tree_json (tree_of (codes "{\"a\":1.5,\"a\":1}"))
        ≡ Some (object (add_member (codes "a") (number (whole (pos 1))) no_members)) }
    ensures no_float_covered { option_map tree_json (tree_of (codes "{\"a\":1e999,\"a\":1}"))
        ≡ Some (object (add_member (codes "a") (number (whole (pos 1))) no_members)) }
{}
