//! Worked examples of the definitions.

ghost use Rattle.std.specs.Prelude.{◌≡◌, [], ◌∷◌, codes, pos, negsuc, replicate, Some, None, true};
ghost use Rattle.std.specs.Prelude.{false};
ghost use Rattle.jp_node.specs.declared.part.Kind.TheVariants.{Null, Truth, Whole};
ghost use Rattle.jp_doc.specs.Json.{null, truth, number, text, object, no_members, add_member};
ghost use Rattle.jp_doc.specs.Location.{node};
ghost use Rattle.jp_tree.specs.Tree as tree;
ghost use Rattle.jp_tree.specs.declared.tree.Operator.TheVariants.{Eq, Ne, Le, Ge, Lt, Gt};
ghost use Rattle.jp_pattern.specs.Tests.{Tests};
ghost use Rattle.jp_types.specs.Functions.{length_function, count_function, match_function, search_function};
ghost use Rattle.jp_types.specs.Functions.{value_function, xor_function, distinct_function};
ghost use Rattle.jp_number.specs.Number.{whole, written};
ghost use Rattle.jp_value.specs.Comparison.{compared};
ghost use Rattle.jp_value.specs.Functions.{called, handed_value, handed_truth, handed_nodes, as_value};
ghost use Rattle.jp_value.specs.Functions.{as_truth, as_nodes};
ghost use Rattle.jp_value.specs.Kinds.{given_value};
ghost use Rattle.jp_value.specs.Literals.{literal_value, written_value};
ghost use Rattle.jp_value.specs.Ordered.{named};
ghost use Rattle.jp_node.specs.Samples.{num, arr, obj, obj2, to, item, nested};

/// What literals, and numbers of slices, stand for.
fn literals()
    ensures number { literal_value (tree.number (codes "-12")) ≡ number (whole (negsuc 11)) }
    ensures minus_zero { literal_value (tree.number (codes "-0")) ≡ num 0 }
    ensures fraction { literal_value (tree.number (codes "1.5")) ≡ number (written (codes "1.5")) }
    ensures exponent { literal_value (tree.number (codes "1e2")) ≡ number (written (codes "1e2")) }
    ensures of_39_digits { literal_value (tree.number (replicate 39 57))
        ≡ number (written (replicate 39 57)) }
    ensures text { literal_value (tree.text (codes "12")) ≡ text (codes "12") }
    ensures truth { literal_value (tree.truth false) ≡ truth false }
    ensures null { literal_value tree.null ≡ null }
    ensures written { written_value (Some (codes "-3")) ≡ Some (negsuc 2) }
    ensures left_out { written_value None ≡ None }
{}

/// `$.a==1.0` and the like: a literal and a number of a document are equal, or in order, by their values.
#[tactic(auto, unfolding(crate::proofs::OnLiterals::numbers_on_literals))]
fn decimal_literals()
    ensures fraction_of_zeros { compared Eq (Some (num 1)) (Some (literal_value (tree.number (codes "1.0"))))
        ≡ true }
    ensures exponent { compared Eq (Some (num 100)) (Some (literal_value (tree.number (codes "1e2"))))
        ≡ true }
    ensures minus_zero { compared Eq (Some (num 0)) (Some (literal_value (tree.number (codes "-0.0"))))
        ≡ true }
    ensures above { compared Gt (Some (num 1)) (Some (literal_value (tree.number (codes "0.99")))) ≡ true }
    ensures other_value { compared Eq (Some (number (written (codes "0.1"))))
        (Some (literal_value (tree.number (codes "0.10000000000000000001")))) ≡ false }
{}

/// The six operators of a nothing and a value, and of values of two kinds.
#[tactic(auto, unfolding(crate::proofs::OnLiterals::numbers_on_literals))]
fn operators()
    ensures nothing_and_null { compared Eq None (Some null) ≡ false }
    ensures nothings { compared Ge None None ≡ true }
    ensures neither_below { compared Lt None None ≡ false }
    ensures two_kinds { compared Le (Some (num 1)) (Some (text (codes "1"))) ≡ false }
    ensures not_equal { compared Ne (Some (num 1)) (Some (text (codes "1"))) ≡ true }
    ensures truths { compared Le (Some (truth false)) (Some (truth true)) ≡ false }
    ensures arrays { compared Eq (Some (arr (num 1 ∷ obj (codes "a") null ∷ [])))
        (Some (arr (num 1 ∷ obj (codes "a") null ∷ []))) ≡ true }
    ensures arrays_in_order { compared Eq (Some (arr (num 1 ∷ num 2 ∷ []))) (Some (arr (num 2 ∷ num 1 ∷ [])))
        ≡ false }
    ensures other_names { compared Eq (Some (obj (codes "a") null)) (Some (obj (codes "b") null)) ≡ false }
    ensures fewer_names { compared Eq (Some (obj (codes "a") null))
        (Some (obj2 (codes "a") null (codes "b") null)) ≡ false }
{}

/// What is given by its kind: nothing, or a value. `null` is a value, and `false` and 0 are values too.
#[tactic(auto, unfolding(crate::proofs::OnLiterals::numbers_on_literals))]
fn given_by_kinds()
    ensures nothing { given_value None ≡ None }
    ensures null { given_value (Some Null) ≡ Some null }
    ensures truth { given_value (Some (Truth false)) ≡ Some (truth false) }
    ensures number { given_value (Some (Whole (pos 0))) ≡ Some (num 0) }
    ensures number_below_zero { given_value (Some (Whole (negsuc 6))) ≡ Some (number (whole (negsuc 6))) }
    ensures nothing_and_null { compared Eq (given_value None) (given_value (Some Null)) ≡ false }
    ensures number_and_truth { compared Eq (given_value (Some (Whole (pos 0))))
        (given_value (Some (Truth false))) ≡ false }
    ensures numbers { compared Lt (given_value (Some (Whole (negsuc 6)))) (given_value (Some (Whole (pos 0))))
        ≡ true }
{}

/// Values that are equal, and values that are not, of each kind.
#[tactic(auto, unfolding(crate::proofs::OnLiterals::numbers_on_literals))]
fn equality()
    ensures nulls { compared Eq (Some null) (Some null) ≡ true }
    ensures null_and_false { compared Eq (Some null) (Some (truth false)) ≡ false }
    ensures truths { compared Eq (Some (truth true)) (Some (truth true)) ≡ true }
    ensures other_truths { compared Eq (Some (truth true)) (Some (truth false)) ≡ false }
    ensures numbers { compared Eq (Some (num 7)) (Some (num 7)) ≡ true }
    ensures other_numbers { compared Eq (Some (num 7)) (Some (number (whole (negsuc 6)))) ≡ false }
    ensures texts { compared Eq (Some (text (codes "ab"))) (Some (text (codes "ab"))) ≡ true }
    ensures text_in_capitals { compared Eq (Some (text (codes "ab"))) (Some (text (codes "aB"))) ≡ false }
    ensures front_of_a_text { compared Eq (Some (text (codes "a"))) (Some (text (codes "ab"))) ≡ false }
    ensures longer_array { compared Eq (Some (arr (num 1 ∷ []))) (Some (arr (num 1 ∷ num 1 ∷ []))) ≡ false }
    ensures shorter_array { compared Eq (Some (arr (num 1 ∷ num 1 ∷ []))) (Some (arr (num 1 ∷ []))) ≡ false }
    ensures empty_ones { compared Eq (Some (arr [])) (Some (object no_members)) ≡ false }
    ensures more_names { compared Eq (Some (obj2 (codes "a") null (codes "b") null))
        (Some (obj (codes "a") null)) ≡ false }
    ensures other_values { compared Eq (Some (obj (codes "a") null)) (Some (obj (codes "a") (num 0)))
        ≡ false }
    ensures second_values { compared Eq (Some (obj2 (codes "a") null (codes "b") (num 1)))
        (Some (obj2 (codes "a") null (codes "b") (num 2))) ≡ false }
{}

/// `<` of numbers by value and of texts by their scalar values, and of nothing else.
#[tactic(auto, unfolding(crate::proofs::OnLiterals::numbers_on_literals))]
fn order()
    ensures numbers { compared Lt (Some (number (whole (negsuc 0)))) (Some (num 0)) ≡ true }
    ensures not_below_itself { compared Lt (Some (num 2)) (Some (num 2)) ≡ false }
    ensures not_above { compared Gt (Some (num 2)) (Some (num 3)) ≡ false }
    ensures above { compared Gt (Some (num 3)) (Some (num 2)) ≡ true }
    ensures below_or_equal { compared Le (Some (num 2)) (Some (num 2)) ≡ true }
    ensures above_or_equal { compared Ge (Some (num 2)) (Some (num 3)) ≡ false }
    ensures longer_text { compared Lt (Some (text (codes "ab"))) (Some (text (codes "b"))) ≡ true }
    ensures front_of_a_text { compared Lt (Some (text (codes "a"))) (Some (text (codes "ab"))) ≡ true }
    ensures same_text { compared Lt (Some (text (codes "a"))) (Some (text (codes "a"))) ≡ false }
    ensures truths { compared Lt (Some (truth false)) (Some (truth true)) ≡ false }
    ensures arrays { compared Lt (Some (arr [])) (Some (arr (num 1 ∷ []))) ≡ false }
    ensures nulls { compared Le (Some null) (Some null) ≡ true }
    ensures nothing_and_number { compared Lt None (Some (num 1)) ≡ false }
{}

/// U+FFFF is below U+1F600, though not in UTF-16.
#[tactic(auto, unfolding(crate::proofs::OnLiterals::texts_on_literals))]
fn order_beyond_sixteen_bits()
    ensures { compared Lt (Some (text (65535 ∷ []))) (Some (text (128512 ∷ []))) ≡ true }
{}

/// What is handed over as a value, as true or false, and as nodes.
fn handed_over()
    ensures value_of_none { as_value (handed_nodes []) ≡ None }
    ensures value_of_nodes { as_value (handed_nodes (node [] null ∷ [])) ≡ Some null }
    ensures value_of_truth { as_value (handed_truth true) ≡ None }
    ensures value_as_it_is { as_value (handed_value (Some null)) ≡ Some null }
    ensures truth_of_none { as_truth (handed_nodes []) ≡ false }
    ensures truth_of_nodes { as_truth (handed_nodes (node [] (truth false) ∷ [])) ≡ true }
    ensures truth_as_it_is { as_truth (handed_truth true) ≡ true }
    ensures truth_of_a_value { as_truth (handed_value (Some (truth true))) ≡ false }
    ensures nodes_as_they_are { as_nodes (handed_nodes (node [] null ∷ [])) ≡ node [] null ∷ [] }
    ensures nodes_of_a_value { as_nodes (handed_value (Some null)) ≡ [] }
{}

/// `xor`: exactly one of two is true, whether a list of nodes or a truth is handed over.
fn one_of_two()
    ensures neither { (t : Tests) → called t xor_function (handed_nodes [] ∷ handed_truth false ∷ [])
        ≡ handed_truth false }
    ensures first { (t : Tests) → called t xor_function
        (handed_nodes (node [] null ∷ []) ∷ handed_truth false ∷ []) ≡ handed_truth true }
    ensures second { (t : Tests) → called t xor_function (handed_nodes [] ∷ handed_truth true ∷ [])
        ≡ handed_truth true }
    ensures both { (t : Tests) → called t xor_function
        (handed_nodes (node [] null ∷ []) ∷ handed_truth true ∷ []) ≡ handed_truth false }
{}

/// `distinct`: the first node of each location, whatever the values are, and however far apart they stand.
fn each_location_once()
    ensures none { (t : Tests) → called t distinct_function (handed_nodes [] ∷ []) ≡ handed_nodes [] }
    ensures first_of_each { (t : Tests) → called t distinct_function
        (handed_nodes (node (item 1 ∷ []) null ∷ node (item 0 ∷ []) null ∷ node (item 1 ∷ []) null ∷ []) ∷ [])
        ≡ handed_nodes (node (item 1 ∷ []) null ∷ node (item 0 ∷ []) null ∷ []) }
    ensures names { (t : Tests) → called t distinct_function (handed_nodes (node (to (codes "a") ∷ []) null
        ∷ node (to (codes "a") ∷ item 0 ∷ []) null ∷ node (to (codes "a") ∷ []) null ∷ []) ∷ [])
        ≡ handed_nodes (node (to (codes "a") ∷ []) null ∷ node (to (codes "a") ∷ item 0 ∷ []) null ∷ []) }
{}

/// What the functions give: lengths, the one value of a list of nodes, and a match as the tests answer it.
fn functions()
    ensures length_of_text { (t : Tests) → called t length_function
        (handed_value (Some (text (codes "abc"))) ∷ []) ≡ handed_value (Some (num 3)) }
    ensures length_in_characters { (t : Tests)
        → called t length_function (handed_value (Some (text (252 ∷ 128512 ∷ []))) ∷ [])
        ≡ handed_value (Some (num 2)) }
    ensures length_of_array { (t : Tests) → called t length_function
        (handed_value (Some (arr (num 5 ∷ num 5 ∷ []))) ∷ []) ≡ handed_value (Some (num 2)) }
    ensures length_of_true { (t : Tests) → called t length_function (handed_value (Some (truth true)) ∷ [])
        ≡ handed_value None }
    ensures count_of_none { (t : Tests) → called t count_function (handed_nodes [] ∷ [])
        ≡ handed_value (Some (num 0)) }
    ensures count_of_two { (t : Tests) → called t count_function
        (handed_nodes (node [] null ∷ node [] null ∷ []) ∷ []) ≡ handed_value (Some (num 2)) }
    ensures value_of_none { (t : Tests) → called t value_function (handed_nodes [] ∷ []) ≡ handed_value None }
    ensures value_of_three { (t : Tests) → called t value_function
        (handed_nodes (node [] null ∷ node [] null ∷ node [] null ∷ []) ∷ []) ≡ handed_value None }
    ensures value_of_a_value { (t : Tests) → called t value_function (handed_value (Some null) ∷ [])
        ≡ handed_value None }
    ensures length_of_object { (t : Tests) → called t length_function (handed_value (Some nested) ∷ [])
        ≡ handed_value (Some (num 2)) }
    ensures length_of_number { (t : Tests) → called t length_function (handed_value (Some (num 3)) ∷ [])
        ≡ handed_value None }
    ensures length_of_nothing { (t : Tests) → called t length_function (handed_value None ∷ [])
        ≡ handed_value None }
    ensures value_of_one { (t : Tests) → called t value_function (handed_nodes (node [] null ∷ []) ∷ [])
        ≡ handed_value (Some null) }
    ensures value_of_two { (t : Tests) → called t value_function
        (handed_nodes (node [] null ∷ node [] null ∷ []) ∷ []) ≡ handed_value None }
    ensures no_pattern_text { (t : Tests) → called t match_function
        (handed_value (Some (text (codes "1"))) ∷ handed_value (Some (num 1)) ∷ []) ≡ handed_truth false }
    ensures no_text { (t : Tests) → called t search_function
        (handed_value None ∷ handed_value (Some (text (codes "a"))) ∷ []) ≡ handed_truth false }
    ensures matching { (t : Tests) → called t match_function
        (handed_value (Some (text (codes "a"))) ∷ handed_value (Some (text (codes "."))) ∷ [])
        ≡ handed_truth (t.is_match (codes "a") (codes ".")) }
    ensures searching { (t : Tests) → called t search_function
        (handed_value (Some (text (codes "a"))) ∷ handed_value (Some (text (codes "."))) ∷ [])
        ≡ handed_truth (t.is_found (codes "a") (codes ".")) }
{}

/// Names and values side by side: what has none beside it counts for nothing.
fn named_values()
    ensures both { named ((codes "a", null) ∷ (codes "b", null) ∷ []) (num 1 ∷ num 2 ∷ [])
        ≡ add_member (codes "a") (num 1) (add_member (codes "b") (num 2) no_members) }
    ensures names_alone { named ((codes "a", null) ∷ []) [] ≡ no_members }
    ensures values_alone { named [] (num 1 ∷ []) ≡ no_members }
{}
