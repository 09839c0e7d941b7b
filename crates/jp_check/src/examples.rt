//! Worked examples of the definitions.

ghost use Rattle.std.specs.Prelude.{◌≡◌, [], ◌∷◌, codes, replicate, Some, None, true};
ghost use Rattle.jp_tree.specs.Tree as tree;
ghost use Rattle.jp_tree.specs.declared.fault.QueryFault.TheVariants.{Fraction, Range, IllTyped};
ghost use Rattle.jp_check.specs.LiteralPatterns.{literal_patterns};
ghost use Rattle.jp_check.specs.Samples.{IsValid, IsRefused, IsValidIn, IsRefusedIn};
ghost use Rattle.jp_number.specs.declared.numbers.Numbers.TheVariants.{Decimals};
ghost use Rattle.jp_types.specs.Samples.{selecting, filtered, below_a, behind_zero};
ghost use Rattle.jp_types.specs.Samples.{either, both};
ghost use Rattle.jp_types.specs.Samples.{current_with, member_a, too_far, far_node, far};
ghost use Rattle.jp_types.specs.Samples.{equals, num, a_equals, tested, equals_number, above_number};
ghost use Rattle.jp_types.specs.Samples.{unknown, unknown_call, matching, match_call};
ghost use Rattle.jp_types.specs.Samples.{it, each, its_a, a_text, a_number, has_a, a_call};

/// Indexes at their limits and beyond, wherever they stand.
fn indexes()
    ensures greatest { IsValid (selecting (tree.index (codes "9007199254740991"))) }
    ensures beyond_greatest { IsRefused (selecting too_far) Range }
    ensures least { IsValid (selecting (tree.index (codes "-9007199254740991"))) }
    ensures beyond_least { IsRefused (selecting (tree.index (codes "-9007199254740992"))) Range }
    ensures in_second_segment { IsRefused (below_a too_far) Range }
    ensures in_second_selector { IsRefused (behind_zero too_far) Range }
    ensures in_a_test { IsRefused (filtered far) Range }
    ensures digits_of_a_name { IsValid (selecting (tree.name (codes "9007199254740992"))) }
{}

/// Each number of a slice at its limit and beyond.
fn slices()
    ensures greatest { IsValid (selecting (tree.slice (Some (codes "9007199254740991"))
        (Some (codes "9007199254740991")) (Some (codes "9007199254740991")))) }
    ensures least { IsValid (selecting (tree.slice (Some (codes "-9007199254740991"))
        (Some (codes "-9007199254740991")) (Some (codes "-9007199254740991")))) }
    ensures first { IsRefused (selecting (tree.slice (Some (codes "9007199254740992")) None None)) Range }
    ensures past { IsRefused (selecting (tree.slice None (Some (codes "9007199254740992")) None)) Range }
    ensures step { IsRefused (selecting (tree.slice None None (Some (codes "-9007199254740992")))) Range }
    ensures none { IsValid (selecting (tree.slice None None None)) }
{}

/// Number literals: fractions, exponents, lengths.
fn literals()
    ensures fraction { IsRefused (a_equals (codes "1.5")) Fraction }
    ensures exponent { IsRefused (a_equals (codes "1e3")) Fraction }
    ensures capital_exponent { IsRefused (a_equals (codes "1E3")) Fraction }
    ensures whole { IsValid (a_equals (codes "1")) }
    ensures minus_zero { IsValid (a_equals (codes "-0")) }
    ensures longest { IsValid (a_equals (replicate 38 57)) }
    ensures longest_negative { IsValid (a_equals (45 ∷ replicate 38 57)) }
    ensures too_long { IsRefused (a_equals (replicate 39 57)) Range }
    ensures in_an_argument { IsRefused (equals_number (codes "length") (a_number (codes "1.5") ∷ [])
        (codes "1")) Fraction }
    ensures on_the_left { IsRefused (filtered (equals (num (codes "1.5")) (tree.single member_a))) Fraction }
    ensures text_of_a_fraction { IsValid (filtered
        (equals (tree.single member_a) (tree.literal (tree.text (codes "1.5"))))) }
{}

/// Number literals and indexes where literals may be all numbers.
#[tactic(auto, unfolding(crate::proofs::OnLiterals::queries_on_literals))]
fn decimal_literals()
    ensures fraction { IsValidIn Decimals (a_equals (codes "1.5")) }
    ensures exponent { IsValidIn Decimals (a_equals (codes "-1E+400")) }
    ensures longer_than_whole { IsValidIn Decimals (a_equals (replicate 39 57)) }
    ensures longest_exponent { IsValidIn Decimals (a_equals (codes "1e999999999")) }
    ensures too_long_exponent { IsRefusedIn Decimals (a_equals (codes "1e1000000000")) Range }
    ensures far_index { IsRefusedIn Decimals (selecting too_far) Range }
    ensures range_before_type { IsRefusedIn Decimals (either far unknown) Range }
    ensures type_of_a_fraction { IsRefusedIn Decimals
        (equals_number (codes "nope") (it ∷ []) (codes "1.5")) IllTyped }
{}

/// The order of the faults: fractions, then ranges, then types.
fn order_of_faults()
    ensures fraction_before_type { IsRefused (equals_number (codes "nope") (it ∷ []) (codes "1.5")) Fraction }
    ensures range_before_type { IsRefused (equals_number (codes "nope") (it ∷ []) (replicate 39 57)) Range }
    ensures fraction_before_range { IsRefused (either far (equals (tree.single member_a) (num (codes "1.5"))))
        Fraction }
{}

/// Numbers are looked for in each part of an expression.
fn numbers_in_expressions()
    ensures second_of_any { IsRefused (either (tree.test member_a) far) Range }
    ensures second_of_all { IsRefused (both (tree.test member_a) far) Range }
    ensures negated { IsRefused (filtered (tree.negation far)) Range }
    ensures on_the_left { IsRefused (filtered (equals (tree.single far_node) (num (codes "1")))) Range }
    ensures on_the_right { IsRefused (filtered (equals (num (codes "1")) (tree.single far_node))) Range }
    ensures in_an_argument { IsRefused (equals_number (codes "count") (tree.query_argument far_node ∷ [])
        (codes "1")) Range }
    ensures in_a_test { IsRefused (tested (codes "match")
        (tree.query_argument far_node ∷ a_text (codes "a") ∷ [])) Range }
    ensures in_a_second_argument { IsRefused (tested (codes "match") (it ∷ tree.query_argument far_node ∷ []))
        Range }
    ensures in_a_call_in_a_call { IsRefused (equals_number (codes "length")
        (a_call (codes "count") (tree.query_argument far_node ∷ []) ∷ []) (codes "1")) Range }
    ensures in_a_logical_argument { IsRefused
        (equals_number (codes "count") (tree.logical_argument far ∷ []) (codes "1")) Range }
{}

/// Types are looked at in each part of a query.
fn types_in_expressions()
    ensures in_second_segment { IsRefused (below_a (tree.filter unknown)) IllTyped }
    ensures in_second_selector { IsRefused (behind_zero (tree.filter unknown)) IllTyped }
    ensures first_of_any { IsRefused (either unknown (tree.test member_a)) IllTyped }
    ensures second_of_any { IsRefused (either (tree.test member_a) unknown) IllTyped }
    ensures second_of_all { IsRefused (both (tree.test member_a) unknown) IllTyped }
    ensures negated { IsRefused (filtered (tree.negation unknown)) IllTyped }
    ensures in_a_test { IsRefused (filtered (tree.test (filtered unknown))) IllTyped }
    ensures on_the_left { IsRefused (filtered (equals (tree.single (filtered unknown)) (num (codes "1"))))
        IllTyped }
    ensures on_the_right { IsRefused (filtered (equals (num (codes "1")) (tree.value_call unknown_call)))
        IllTyped }
    ensures in_an_argument { IsRefused (equals_number (codes "count")
        (tree.query_argument (current_with (tree.filter unknown ∷ [])) ∷ []) (codes "1")) IllTyped }
    ensures in_a_second_argument { IsRefused (tested (codes "match")
        (it ∷ a_call (codes "length") (each ∷ []) ∷ [])) IllTyped }
    ensures in_a_call_in_a_call { IsRefused (equals_number (codes "length")
        (a_call (codes "length") (each ∷ []) ∷ []) (codes "1")) IllTyped }
{}

/// Calls that are not well-typed.
fn ill_typed()
    ensures value_as_test { IsRefused (tested (codes "length") (its_a ∷ [])) IllTyped }
    ensures value_by_itself { IsRefused (tested (codes "value") (its_a ∷ [])) IllTyped }
    ensures count_by_itself { IsRefused (tested (codes "count") (its_a ∷ [])) IllTyped }
    ensures many_nodes_for_value { IsRefused (above_number (codes "length") (each ∷ []) (codes "1"))
        IllTyped }
    ensures unknown_function { IsRefused (tested (codes "nope") (it ∷ [])) IllTyped }
    ensures function_true { IsRefused (tested (codes "true") []) IllTyped }
    ensures no_such_function { IsRefused (tested (codes "min") (its_a ∷ it ∷ [])) IllTyped }
    ensures comparison_of_logical { IsRefused (filtered (equals (tree.value_call (match_call (codes "a")))
        (tree.literal (tree.truth true)))) IllTyped }
    ensures logical_for_nodes { IsRefused (equals_number (codes "count") (has_a ∷ []) (codes "1")) IllTyped }
    ensures literal_for_nodes { IsRefused (equals_number (codes "count") (a_number (codes "1") ∷ [])
        (codes "1")) IllTyped }
    ensures value_for_nodes { IsRefused (equals_number (codes "count")
        (a_call (codes "value") (its_a ∷ []) ∷ []) (codes "1")) IllTyped }
    ensures no_argument { IsRefused (equals_number (codes "length") [] (codes "1")) IllTyped }
    ensures too_few_arguments { IsRefused (tested (codes "match") (its_a ∷ [])) IllTyped }
    ensures too_many_arguments { IsRefused (equals_number (codes "length") (it ∷ it ∷ []) (codes "1"))
        IllTyped }
    ensures many_for_a_pattern { IsRefused (tested (codes "match") (it ∷ each ∷ [])) IllTyped }
    ensures literal_for_logical { IsRefused (tested (codes "xor")
        (tree.literal_argument (tree.truth true) ∷ its_a ∷ [])) IllTyped }
    ensures one_for_two { IsRefused (tested (codes "xor") (its_a ∷ [])) IllTyped }
    ensures value_for_logical { IsRefused (tested (codes "xor")
        (its_a ∷ a_call (codes "length") (it ∷ []) ∷ [])) IllTyped }
    ensures nodes_compared { IsRefused (equals_number (codes "distinct") (its_a ∷ []) (codes "1")) IllTyped }
    ensures nodes_for_value { IsRefused (equals_number (codes "length")
        (a_call (codes "distinct") (its_a ∷ []) ∷ []) (codes "1")) IllTyped }
    ensures literal_for_distinct { IsRefused (equals_number (codes "count")
        (a_call (codes "distinct") (a_number (codes "1") ∷ []) ∷ []) (codes "1")) IllTyped }
    ensures search_over_nodes { IsRefused (tested (codes "search") (each ∷ a_text (codes "a") ∷ []))
        IllTyped }
{}

/// Calls and tests that are well-typed.
fn well_typed()
    ensures count_of_many { IsValid (above_number (codes "count") (each ∷ []) (codes "1")) }
    ensures value_of_many { IsValid (above_number (codes "value") (each ∷ []) (codes "1")) }
    ensures test_of_two_names { IsValid (filtered
        (tree.test (current_with (tree.name (codes "a") ∷ tree.name (codes "b") ∷ [])))) }
    ensures length_of_literal { IsValid (equals_number (codes "length") (a_number (codes "1") ∷ [])
        (codes "1")) }
    ensures length_of_count { IsValid (equals_number (codes "length") (a_call (codes "count") (it ∷ []) ∷ [])
        (codes "1")) }
    ensures match_with_value { IsValid (tested (codes "match") (it ∷ a_call (codes "value")
        (tree.query_argument (selecting (tree.name (codes "p"))) ∷ []) ∷ [])) }
    ensures match_as_test { IsValid (filtered (matching (codes "a"))) }
    ensures one_of_two_queries { IsValid (tested (codes "xor") (its_a ∷ each ∷ [])) }
    ensures one_of_two_expressions { IsValid (tested (codes "xor") (has_a
        ∷ tree.logical_argument (equals (tree.single member_a) (num (codes "1"))) ∷ [])) }
    ensures one_of_two_calls { IsValid (tested (codes "xor") (tree.call_argument (match_call (codes "a"))
        ∷ a_call (codes "xor") (its_a ∷ each ∷ []) ∷ [])) }
    ensures distinct_as_test { IsValid (tested (codes "distinct") (each ∷ [])) }
    ensures distinct_of_distinct { IsValid (equals_number (codes "count") (a_call (codes "distinct")
        (a_call (codes "distinct") (each ∷ []) ∷ []) ∷ []) (codes "2")) }
    ensures search_as_test { IsValid (tested (codes "search") (it ∷ a_text (codes "a") ∷ [])) }
{}

/// Which arguments are literal patterns.
fn patterns()
    ensures of_match { literal_patterns (filtered (matching (codes "a"))) ≡ codes "a" ∷ [] }
    ensures of_search { literal_patterns (tested (codes "search") (it ∷ a_text (codes "b") ∷ []))
        ≡ codes "b" ∷ [] }
    ensures not_the_first { literal_patterns (tested (codes "search") (a_text (codes "a") ∷ it ∷ [])) ≡ [] }
    ensures not_of_other_functions { literal_patterns
        (equals_number (codes "length") (a_text (codes "a") ∷ []) (codes "1")) ≡ [] }
    ensures not_a_number { literal_patterns (tested (codes "match") (it ∷ a_number (codes "1") ∷ [])) ≡ [] }
    ensures not_a_comparison { literal_patterns
        (filtered (equals (tree.single member_a) (tree.literal (tree.text (codes "a"))))) ≡ [] }
{}

/// Literal patterns are found in each part of a query, in the order of its text.
fn patterns_in_expressions()
    ensures in_second_segment { literal_patterns (below_a (tree.filter (matching (codes "a"))))
        ≡ codes "a" ∷ [] }
    ensures in_second_selector { literal_patterns (behind_zero (tree.filter (matching (codes "a"))))
        ≡ codes "a" ∷ [] }
    ensures of_any { literal_patterns (either (matching (codes "a")) (matching (codes "b")))
        ≡ codes "a" ∷ codes "b" ∷ [] }
    ensures of_all { literal_patterns (both (matching (codes "a")) (tree.negation (matching (codes "b"))))
        ≡ codes "a" ∷ codes "b" ∷ [] }
    ensures of_both_sides { literal_patterns (filtered (equals (tree.single (filtered (matching (codes "a"))))
        (tree.value_call (match_call (codes "b"))))) ≡ codes "a" ∷ codes "b" ∷ [] }
    ensures of_a_test { literal_patterns (filtered (tree.test (filtered (matching (codes "a")))))
        ≡ codes "a" ∷ [] }
    ensures of_a_query { literal_patterns (equals_number (codes "count")
        (tree.query_argument (current_with (tree.filter (matching (codes "a")) ∷ [])) ∷ []) (codes "1"))
        ≡ codes "a" ∷ [] }
    ensures of_each_argument { literal_patterns (tested (codes "f")
        (tree.logical_argument (matching (codes "a")) ∷ tree.call_argument (match_call (codes "b")) ∷ []))
        ≡ codes "a" ∷ codes "b" ∷ [] }
    ensures outer_before_inner { literal_patterns (tested (codes "match")
        (tree.call_argument (match_call (codes "b")) ∷ a_text (codes "a") ∷ []))
        ≡ codes "a" ∷ codes "b" ∷ [] }
{}
