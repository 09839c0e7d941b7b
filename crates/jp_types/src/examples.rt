//! Worked examples of the definitions.

ghost use Rattle.std.specs.Prelude.{◌≡◌, [], ◌∷◌, codes, pos, negsuc, replicate, Some, None, true, false};
ghost use Rattle.jp_tree.specs.Tree as tree;
ghost use Rattle.jp_types.specs.Faults.{faults_of, joined};
ghost use Rattle.jp_types.specs.Functions as functions;
ghost use Rattle.jp_types.specs.Functions.{function_named, parameters, result_type};
ghost use Rattle.jp_types.specs.Functions.{value_type, logical_type, nodes_type};
ghost use Rattle.jp_number.specs.Number.{whole, written};
ghost use Rattle.jp_number.specs.declared.numbers.Numbers.TheVariants.{Whole, Decimals};
ghost use Rattle.jp_types.specs.Numbers.{literal_number, position, whole_number, number_value};
ghost use Rattle.jp_types.specs.Numbers.{is_whole, is_short_in, is_in_range_in};
ghost use Rattle.jp_types.specs.Typing.{fits, query_typed, serves_as};
ghost use Rattle.jp_types.specs.Samples.{match_call, each, its_a, has_a, xor_with, xor_behind, unknown};
ghost use Rattle.jp_types.specs.Samples.{unknown_call, calling, equals, num, member_a, filtered, matching};

/// Which arguments fit which parameter, and what may stand where a type is asked for.
fn uses()
    ensures literal_for_value { fits value_type (tree.literal_argument tree.null) ≡ true }
    ensures singular_for_value { fits value_type its_a ≡ true }
    ensures many_for_value { fits value_type each ≡ false }
    ensures logical_for_value { fits value_type has_a ≡ false }
    ensures query_for_nodes { fits nodes_type each ≡ true }
    ensures literal_for_nodes { fits nodes_type (tree.literal_argument tree.null) ≡ false }
    ensures logical_for_nodes { fits nodes_type has_a ≡ false }
    ensures query_for_logical { fits logical_type each ≡ true }
    ensures logical_for_logical { fits logical_type has_a ≡ true }
    ensures literal_for_logical { fits logical_type (tree.literal_argument (tree.truth true)) ≡ false }
    ensures match_for_logical { fits logical_type (tree.call_argument (match_call (codes "a"))) ≡ true }
    ensures match_for_value { fits value_type (tree.call_argument (match_call (codes "a"))) ≡ false }
    ensures nodes_as_logical { serves_as logical_type (Some nodes_type) ≡ true }
    ensures nodes_as_nodes { serves_as nodes_type (Some nodes_type) ≡ true }
    ensures nodes_as_value { serves_as value_type (Some nodes_type) ≡ false }
    ensures value_as_logical { serves_as logical_type (Some value_type) ≡ false }
    ensures value_as_nodes { serves_as nodes_type (Some value_type) ≡ false }
    ensures logical_as_nodes { serves_as nodes_type (Some logical_type) ≡ false }
    ensures unknown { serves_as logical_type None ≡ false }
{}

/// The table of the functions: those of RFC 9535 (2.4.4 to 2.4.8), and this project's own.
fn table_of_functions()
    ensures length { (function_named (codes "length") ≡ Some functions.length_function)
        × (parameters functions.length_function ≡ value_type ∷ [])
        × (result_type functions.length_function ≡ value_type) }
    ensures count { (function_named (codes "count") ≡ Some functions.count_function)
        × (parameters functions.count_function ≡ nodes_type ∷ [])
        × (result_type functions.count_function ≡ value_type) }
    ensures whole_match { (function_named (codes "match") ≡ Some functions.match_function)
        × (parameters functions.match_function ≡ value_type ∷ value_type ∷ [])
        × (result_type functions.match_function ≡ logical_type) }
    ensures search { (function_named (codes "search") ≡ Some functions.search_function)
        × (parameters functions.search_function ≡ value_type ∷ value_type ∷ [])
        × (result_type functions.search_function ≡ logical_type) }
    ensures value { (function_named (codes "value") ≡ Some functions.value_function)
        × (parameters functions.value_function ≡ nodes_type ∷ [])
        × (result_type functions.value_function ≡ value_type) }
    ensures xor { (function_named (codes "xor") ≡ Some functions.xor_function)
        × (parameters functions.xor_function ≡ logical_type ∷ logical_type ∷ [])
        × (result_type functions.xor_function ≡ logical_type) }
    ensures distinct { (function_named (codes "distinct") ≡ Some functions.distinct_function)
        × (parameters functions.distinct_function ≡ nodes_type ∷ [])
        × (result_type functions.distinct_function ≡ nodes_type) }
    ensures no_other { (function_named (codes "lengt") ≡ None) × (function_named (codes "Count") ≡ None)
        × (function_named [] ≡ None) }
{}

/// The rules hold inside a logical argument too, wherever a call stands in it.
fn types_in_logical_arguments()
    ensures known { query_typed (xor_with (matching (codes "a"))) ≡ true }
    ensures in_the_first { query_typed (xor_with unknown) ≡ false }
    ensures in_the_second { query_typed (xor_behind unknown) ≡ false }
    ensures negated { query_typed (xor_with (tree.negation unknown)) ≡ false }
    ensures second_of_any { query_typed (xor_with (tree.any
        (tree.logicals (tree.test member_a ∷ unknown ∷ [])))) ≡ false }
    ensures second_of_all { query_typed (xor_with (tree.all
        (tree.logicals (tree.test member_a ∷ unknown ∷ [])))) ≡ false }
    ensures on_the_left { query_typed (xor_with (equals (tree.value_call unknown_call) (num (codes "1"))))
        ≡ false }
    ensures on_the_right { query_typed (xor_with (equals (num (codes "1")) (tree.value_call unknown_call)))
        ≡ false }
    ensures in_a_test { query_typed (xor_with (tree.test (filtered unknown))) ≡ false }
    ensures in_a_call { query_typed (xor_with (tree.test_call
        (calling (codes "xor") (tree.logical_argument unknown ∷ its_a ∷ [])))) ≡ false }
    ensures value_as_test { query_typed (xor_with (tree.test_call (calling (codes "length") (its_a ∷ []))))
        ≡ false }
    ensures logical_as_value { query_typed (xor_with (equals (tree.value_call (match_call (codes "a")))
        (num (codes "1")))) ≡ false }
    ensures many_for_value { query_typed (xor_with (tree.test_call
        (calling (codes "search") (each ∷ its_a ∷ [])))) ≡ false }
{}

/// What written numbers are.
fn written_numbers()
    ensures zero { whole_number (codes "0") ≡ pos 0 }
    ensures minus_zero { whole_number (codes "-0") ≡ pos 0 }
    ensures positive { whole_number (codes "1203") ≡ pos 1203 }
    ensures negative { whole_number (codes "-17") ≡ negsuc 16 }
{}

/// Which literals are whole, and which number each one is.
fn numbers_of_literals()
    ensures whole { (is_whole (codes "-17") ≡ true) × (number_value (codes "-17") ≡ whole (negsuc 16)) }
    ensures minus_zero { number_value (codes "-0") ≡ whole (pos 0) }
    ensures fraction { (is_whole (codes "1.0") ≡ false)
        × (number_value (codes "1.0") ≡ written (codes "1.0")) }
    ensures exponent { (is_whole (codes "1e2") ≡ false)
        × (number_value (codes "1E+2") ≡ written (codes "1E+2")) }
    ensures of_38_digits { is_whole (45 ∷ replicate 38 57) ≡ true }
    ensures of_39_digits { (is_whole (replicate 39 57) ≡ false)
        × (number_value (replicate 39 57) ≡ written (replicate 39 57)) }
{}

/// Which literals are short enough.
#[tactic(auto, unfolding(crate::proofs::OnLiterals::literals_on_literals))]
fn lengths_of_literals()
    ensures whole { (is_short_in Whole (replicate 38 57) ≡ true)
        × (is_short_in Whole (replicate 39 57) ≡ false) }
    ensures of_39_digits { is_short_in Decimals (replicate 39 57) ≡ true }
    ensures decimals { is_short_in Decimals (codes "-1.5e-400") ≡ true }
    ensures exponent_of_9_digits { is_short_in Decimals (codes "1e999999999") ≡ true }
    ensures exponent_of_10_digits { (is_short_in Decimals (codes "1e1000000000") ≡ false)
        × (is_short_in Decimals (codes "1E-0000000001") ≡ false) }
    ensures indexes { (is_in_range_in Decimals (position (codes "9007199254740991")) ≡ true)
        × (is_in_range_in Decimals (position (codes "9007199254740992")) ≡ false) }
{}

/// The faults of a part with some numbers, and of two parts together.
#[tactic(auto, unfolding(crate::proofs::OnLiterals::literals_on_literals))]
fn faults()
    ensures none { joined (faults_of [] true) (faults_of [] true) ≡ faults_of [] true }
    ensures fraction { (faults_of (literal_number (codes "1.5") ∷ []) true).fraction ≡ true }
    ensures no_fraction { (faults_of (literal_number (codes "1") ∷ []) true).fraction ≡ false }
    ensures out_of_range { (faults_of (literal_number (replicate 39 57) ∷ []) true).out_of_range ≡ true }
    ensures over_limits { (faults_of (literal_number (codes "1e1000000000") ∷ []) true).over_limits ≡ true }
    ensures within_limits { (faults_of (literal_number (replicate 39 57) ∷ []) true).over_limits ≡ false }
    ensures far_index { (faults_of (position (codes "9007199254740992") ∷ []) true).out_of_range ≡ true }
    ensures far_index_with_decimals { (faults_of (position (codes "9007199254740992") ∷ []) true).over_limits
        ≡ true }
    ensures last_index { (faults_of (position (codes "9007199254740991") ∷ []) true).out_of_range ≡ false }
    ensures ill_typed { (faults_of [] false).ill_typed ≡ true }
    ensures well_typed { (faults_of [] true).ill_typed ≡ false }
    ensures second { joined (faults_of [] true) (faults_of [] false) ≡ faults_of [] false }
    ensures first { joined (faults_of [] false) (faults_of [] true) ≡ faults_of [] false }
{}
