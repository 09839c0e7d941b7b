//! Worked examples of the definitions.

ghost use Rattle.std.specs.Prelude.{◌≡◌, [], ◌∷◌, codes, Some, None, true, false, map};
ghost use Rattle.jp_doc.specs.Json.{null, truth, text, object, no_members};
ghost use Rattle.jp_doc.specs.Location.{node};
ghost use Rattle.jp_tree.specs.Tree as tree;
ghost use Rattle.jp_tree.specs.declared.tree.Operator.TheVariants.{Eq, Le, Ge, Lt, Gt};
ghost use Rattle.jp_tree.specs.declared.tree.Start.TheVariants.{Current};
ghost use Rattle.jp_pattern.specs.Tests.{Tests};
ghost use Rattle.jp_eval.specs.Nodelist.{document_nodes};
ghost use Rattle.jp_node.specs.Samples.{num, arr, obj, obj2, to, item, nested};
ghost use Rattle.jp_eval.specs.Samples.{from_root, bracketed, filtered};
ghost use Rattle.jp_eval.specs.Samples.{current, current_member, member_of_current, number, compares, sliced};
ghost use Rattle.jp_eval.specs.Samples.{kept, five, three_objects};

/// `$..*`: members in rising order, each node before its descendants.
fn descendants()
    ensures every_child_below { (t : Tests) →
        document_nodes t (from_root (tree.descendant (tree.wildcard ∷ []) ∷ [])) nested
        ≡ node (to (codes "a") ∷ []) null
        ∷ node (to (codes "b") ∷ []) (arr (num 1 ∷ obj (codes "c") (num 2) ∷ []))
        ∷ node (to (codes "b") ∷ item 0 ∷ []) (num 1)
        ∷ node (to (codes "b") ∷ item 1 ∷ []) (obj (codes "c") (num 2))
        ∷ node (to (codes "b") ∷ item 1 ∷ to (codes "c") ∷ []) (num 2) ∷ [] }
{}

/// `$[0,0,-1]` and `$[2,-3]` on `[5,6]`: duplicates are kept.
fn indexes()
    ensures twice { (t : Tests) →
        document_nodes t (bracketed (tree.index (codes "0") ∷ tree.index (codes "0") ∷ tree.index (codes "-1")
        ∷ [])) (arr (num 5 ∷ num 6 ∷ []))
        ≡ node (item 0 ∷ []) (num 5) ∷ node (item 0 ∷ []) (num 5) ∷ node (item 1 ∷ []) (num 6) ∷ [] }
    ensures out_of_range { (t : Tests) →
        document_nodes t (bracketed (tree.index (codes "2") ∷ tree.index (codes "-3") ∷ []))
        (arr (num 5 ∷ num 6 ∷ [])) ≡ [] }
{}

/// Slices of `[0,1,2,3,4]`.
fn slices()
    ensures falling { (t : Tests) →
        document_nodes t (bracketed (tree.slice (Some (codes "3")) (Some (codes "0")) (Some (codes "-2"))
        ∷ [])) five
        ≡ node (item 3 ∷ []) (num 3) ∷ node (item 1 ∷ []) (num 1) ∷ [] }
    ensures step_zero { (t : Tests) → document_nodes t
        (bracketed (tree.slice None None (Some (codes "0")) ∷ [])) five ≡ [] }
    ensures reversed { (t : Tests) →
        map (λ n. n.value) (document_nodes t (bracketed (tree.slice None None (Some (codes "-1")) ∷ [])) five)
        ≡ num 4 ∷ num 3 ∷ num 2 ∷ num 1 ∷ num 0 ∷ [] }
    ensures long_step { (t : Tests) →
        document_nodes t (bracketed (tree.slice (Some (codes "1")) None (Some (codes "9007199254740991"))
        ∷ [])) five
        ≡ node (item 1 ∷ []) (num 1) ∷ [] }
    ensures last_two { (t : Tests) →
        map (λ n. n.value) (document_nodes t (bracketed (tree.slice (Some (codes "-2")) None None ∷ [])) five)
        ≡ num 3 ∷ num 4 ∷ [] }
    ensures of_no_array { (t : Tests) → document_nodes t (bracketed (tree.slice None None None ∷ [])) nested
        ≡ [] }
{}

/// `$[?@.a==@.b]` and `$[?@.a<=@.b]` on `[{},{"a":null},{"a":1,"b":1}]`: two nothings are equal.
#[tactic(auto, unfolding(jp_number::proofs::OnLiterals::numbers_on_literals))]
fn nothings()
    ensures equal { (t : Tests) →
        map (λ n. n.location) (document_nodes t
        (filtered (compares (current_member (codes "a")) Eq (current_member (codes "b")))) three_objects)
        ≡ (item 0 ∷ []) ∷ (item 2 ∷ []) ∷ [] }
    ensures not_above { (t : Tests) →
        map (λ n. n.location) (document_nodes t
        (filtered (compares (current_member (codes "a")) Le (current_member (codes "b")))) three_objects)
        ≡ (item 0 ∷ []) ∷ (item 2 ∷ []) ∷ [] }
    ensures values { (t : Tests) →
        map (λ n. n.value) (document_nodes t (filtered
        (compares (current_member (codes "a")) Eq (current_member (codes "b")))) three_objects)
        ≡ object no_members ∷ obj2 (codes "a") (num 1) (codes "b") (num 1) ∷ [] }
{}

/// `$[?count(@['a','a'])==2]` on `[{"a":1}]`: the node is counted twice.
#[tactic(auto, unfolding(jp_number::proofs::OnLiterals::numbers_on_literals))]
fn counts()
    ensures twice { (t : Tests) →
        document_nodes t (filtered (compares
        (tree.value_call (tree.call (codes "count")
        (tree.arguments (tree.query_argument (tree.query_from Current
        (tree.child (tree.name (codes "a") ∷ tree.name (codes "a") ∷ []) ∷ [])) ∷ []))))
        Eq (tree.literal (tree.number (codes "2"))))) (arr (obj (codes "a") (num 1) ∷ []))
        ≡ node (item 0 ∷ []) (obj (codes "a") (num 1)) ∷ [] }
{}

/// `$[?@.a&&!@.b||@.c==1]` on `[{"a":0},{"a":0,"b":0},{"b":0,"c":1}]`, and `$.a[?@==$.b]` on
/// `{"a":[1,2],"b":2}`.
#[tactic(auto, unfolding(jp_number::proofs::OnLiterals::numbers_on_literals))]
fn logic()
    ensures parts { (t : Tests) →
        map (λ n. n.location) (document_nodes t (filtered (tree.any (tree.logicals (
        tree.all (tree.logicals (tree.test (member_of_current (codes "a")) ∷ tree.negation
        (tree.test (member_of_current (codes "b"))) ∷ []))
        ∷ compares (current_member (codes "c")) Eq (tree.literal (tree.number (codes "1"))) ∷ []))))
        (arr (obj (codes "a") (num 0) ∷ obj2 (codes "a") (num 0) (codes "b") (num 0) ∷ obj2 (codes "b")
        (num 0) (codes "c") (num 1) ∷ [])))
        ≡ (item 0 ∷ []) ∷ (item 2 ∷ []) ∷ [] }
    ensures against_the_root { (t : Tests) →
        document_nodes t (from_root (tree.child (tree.name (codes "a") ∷ [])
        ∷ tree.child (tree.filter (compares current Eq
        (tree.single (from_root (tree.child (tree.name (codes "b") ∷ []) ∷ [])))) ∷ []) ∷ []))
        (obj2 (codes "a") (arr (num 1 ∷ num 2 ∷ [])) (codes "b") (num 2))
        ≡ node (to (codes "a") ∷ item 1 ∷ []) (num 2) ∷ [] }
{}

/// `$[?@>=null]` on `[null,1]`, `$[?@<'b']` on `["a","b",1]`, `$[?@.a==-0]` on `[{"a":0}]`.
#[tactic(auto, unfolding(jp_number::proofs::OnLiterals::numbers_on_literals))]
fn comparisons()
    ensures null_with_null { (t : Tests) →
        document_nodes t (filtered (compares current Ge (tree.literal tree.null))) (arr (null ∷ num 1 ∷ []))
        ≡ node (item 0 ∷ []) null ∷ [] }
    ensures texts { (t : Tests) →
        document_nodes t (filtered (compares current Lt (tree.literal (tree.text (codes "b")))))
        (arr (text (codes "a") ∷ text (codes "b") ∷ num 1 ∷ []))
        ≡ node (item 0 ∷ []) (text (codes "a")) ∷ [] }
    ensures minus_zero { (t : Tests) →
        document_nodes t (filtered (compares (current_member (codes "a")) Eq
        (tree.literal (tree.number (codes "-0"))))) (arr (obj (codes "a") (num 0) ∷ []))
        ≡ node (item 0 ∷ []) (obj (codes "a") (num 0)) ∷ [] }
    ensures above_64_bits { (t : Tests) →
        map (λ n. n.location) (document_nodes t
        (filtered (compares current Lt (tree.literal
        (tree.number (codes "99999999999999999999999999999999999999")))))
        (arr (num 9223372036854775807 ∷ num 18446744073709551615 ∷ [])))
        ≡ (item 0 ∷ []) ∷ (item 1 ∷ []) ∷ [] }
    ensures above_63_bits { (t : Tests) →
        map (λ n. n.location) (document_nodes t
        (filtered (compares current Gt (tree.literal (tree.number (codes "9223372036854775807")))))
        (arr (num 9223372036854775807 ∷ num 18446744073709551615 ∷ [])))
        ≡ (item 1 ∷ []) ∷ [] }
{}

/// `$..[0,0]` on `[[1],[2]]`: node after node, and selector after selector at each.
fn below_with_two_selectors()
    ensures in_order { (t : Tests) →
        map (λ n. n.location) (document_nodes t
        (from_root (tree.descendant (tree.index (codes "0") ∷ tree.index (codes "0") ∷ []) ∷ []))
        (arr (arr (num 1 ∷ []) ∷ arr (num 2 ∷ []) ∷ [])))
        ≡ (item 0 ∷ []) ∷ (item 0 ∷ []) ∷ (item 0 ∷ item 0 ∷ []) ∷ (item 0 ∷ item 0 ∷ [])
        ∷ (item 1 ∷ item 0 ∷ []) ∷ (item 1 ∷ item 0 ∷ []) ∷ [] }
{}

/// `$`, `$.a`, and names and indexes where the value is of another kind.
fn first_steps()
    ensures root { (t : Tests) → document_nodes t (from_root []) (arr []) ≡ node [] (arr []) ∷ [] }
    ensures member { (t : Tests) → document_nodes t (bracketed (tree.name (codes "a") ∷ [])) nested
        ≡ node (to (codes "a") ∷ []) null ∷ [] }
    ensures no_member { (t : Tests) → document_nodes t (bracketed (tree.name (codes "c") ∷ [])) nested ≡ [] }
    ensures name_of_an_array { (t : Tests) → document_nodes t (bracketed (tree.name (codes "a") ∷ [])) five
        ≡ [] }
    ensures index_of_an_object { (t : Tests) → document_nodes t (bracketed (tree.index (codes "0") ∷ []))
        nested ≡ [] }
    ensures children_of_a_number { (t : Tests) → document_nodes t (bracketed (tree.wildcard ∷ [])) (num 1)
        ≡ [] }
    ensures far_index { (t : Tests) → document_nodes t (bracketed (tree.index (codes "4294967296") ∷ []))
        (arr (num 1 ∷ [])) ≡ [] }
{}

/// `$..a` on `{"a":{"a":1}}`, `$['b',*]` on an object, and a filter on one: members in the order of their
/// names.
#[tactic(auto, unfolding(jp_number::proofs::OnLiterals::numbers_on_literals))]
fn members()
    ensures at_each_level { (t : Tests) →
        document_nodes t (from_root (tree.descendant (tree.name (codes "a") ∷ []) ∷ []))
        (obj (codes "a") (obj (codes "a") (num 1)))
        ≡ node (to (codes "a") ∷ []) (obj (codes "a") (num 1)) ∷ node (to (codes "a") ∷ to (codes "a") ∷ [])
        (num 1) ∷ [] }
    ensures second_name { (t : Tests) →
        map (λ n. n.location) (document_nodes t (bracketed (tree.name (codes "b") ∷ tree.wildcard ∷ []))
        nested)
        ≡ (to (codes "b") ∷ []) ∷ (to (codes "a") ∷ []) ∷ (to (codes "b") ∷ []) ∷ [] }
    ensures filtered { (t : Tests) →
        document_nodes t (filtered (compares current Eq (number (codes "2"))))
        (obj2 (codes "a") (num 1) (codes "b") (num 2))
        ≡ node (to (codes "b") ∷ []) (num 2) ∷ [] }
    ensures of_no_children { (t : Tests) → document_nodes t (filtered (compares current Eq current))
        (text (codes "a")) ≡ [] }
{}

/// Indexes from the end, and the two ends of an array.
fn ends_of_arrays()
    ensures first_from_the_end { (t : Tests) → document_nodes t (bracketed (tree.index (codes "-5") ∷ []))
        five ≡ node (item 0 ∷ []) (num 0) ∷ [] }
    ensures before_the_first { (t : Tests) → document_nodes t (bracketed (tree.index (codes "-6") ∷ [])) five
        ≡ [] }
    ensures last { (t : Tests) → document_nodes t (bracketed (tree.index (codes "4") ∷ [])) five
        ≡ node (item 4 ∷ []) (num 4) ∷ [] }
    ensures behind_the_last { (t : Tests) → document_nodes t (bracketed (tree.index (codes "5") ∷ [])) five
        ≡ [] }
{}

/// More slices of `[0,1,2,3,4]`: each bound is left out or kept, and steps of more than one.
fn slices_by_steps()
    ensures rising { (t : Tests) → sliced t (Some (codes "1")) (Some (codes "4")) (Some (codes "2"))
        ≡ num 1 ∷ num 3 ∷ [] }
    ensures one { (t : Tests) → sliced t (Some (codes "1")) (Some (codes "3")) None ≡ num 1 ∷ num 2 ∷ [] }
    ensures end_left_out { (t : Tests) → sliced t (Some (codes "0")) (Some (codes "2")) (Some (codes "2"))
        ≡ num 0 ∷ [] }
    ensures from_the_end { (t : Tests) → sliced t (Some (codes "-1")) (Some (codes "-4")) (Some (codes "-2"))
        ≡ num 4 ∷ num 2 ∷ [] }
    ensures down_to { (t : Tests) → sliced t (Some (codes "4")) (Some (codes "2")) (Some (codes "-1"))
        ≡ num 4 ∷ num 3 ∷ [] }
    ensures down_by_two { (t : Tests) → sliced t None None (Some (codes "-2")) ≡ num 4 ∷ num 2 ∷ num 0 ∷ [] }
    ensures none_upward { (t : Tests) → sliced t (Some (codes "3")) (Some (codes "1")) None ≡ [] }
    ensures none_downward { (t : Tests) → sliced t (Some (codes "1")) (Some (codes "3")) (Some (codes "-1"))
        ≡ [] }
    ensures beyond { (t : Tests) → sliced t (Some (codes "-9")) (Some (codes "9")) (Some (codes "4"))
        ≡ num 0 ∷ num 4 ∷ [] }
{}

/// `!`, literals of each kind, and `@` and `$` inside a filter of a filter.
#[tactic(auto, unfolding(jp_number::proofs::OnLiterals::numbers_on_literals))]
fn tests()
    ensures negated { (t : Tests) → kept t (tree.negation (tree.test (member_of_current (codes "a"))))
        ≡ (item 0 ∷ []) ∷ [] }
    ensures negated_comparison { (t : Tests) → kept t
        (tree.negation (compares (current_member (codes "a")) Eq (number (codes "1"))))
        ≡ (item 0 ∷ []) ∷ (item 1 ∷ []) ∷ [] }
    ensures null_is_a_value { (t : Tests) → kept t (tree.test (member_of_current (codes "a")))
        ≡ (item 1 ∷ []) ∷ (item 2 ∷ []) ∷ [] }
    ensures literal_null { (t : Tests) → kept t
        (compares (current_member (codes "a")) Eq (tree.literal tree.null)) ≡ (item 1 ∷ []) ∷ [] }
    ensures literal_true { (t : Tests) →
        document_nodes t (filtered (compares current Eq (tree.literal (tree.truth true))))
        (arr (truth true ∷ truth false ∷ num 1 ∷ []))
        ≡ node (item 0 ∷ []) (truth true) ∷ [] }
    ensures literal_false { (t : Tests) →
        document_nodes t (filtered (compares (tree.literal (tree.truth false)) Eq current))
        (arr (truth true ∷ truth false ∷ null ∷ []))
        ≡ node (item 1 ∷ []) (truth false) ∷ [] }
    ensures one_in_another { (t : Tests) →
        map (λ n. n.location) (document_nodes t
        (from_root (tree.child (tree.name (codes "b") ∷ []) ∷ tree.child (tree.filter (tree.test
        (tree.query_from Current (tree.child
        (tree.filter (compares current Eq (tree.single (bracketed (tree.name (codes "a") ∷ [])))) ∷ [])
        ∷ []))) ∷ []) ∷ []))
        (obj2 (codes "a") (num 2) (codes "b") (arr (arr (num 1 ∷ []) ∷ arr (num 2 ∷ []) ∷ []))))
        ≡ (to (codes "b") ∷ item 1 ∷ []) ∷ [] }
{}

/// `$[?xor(@.a,@.b)]` on `[{},{"a":1},{"a":1,"b":1},{"b":null}]`.
fn one_of_two()
    ensures items { (t : Tests) →
        map (λ n. n.location) (document_nodes t (filtered (tree.test_call (tree.call (codes "xor")
        (tree.arguments (tree.query_argument (member_of_current (codes "a"))
        ∷ tree.query_argument (member_of_current (codes "b")) ∷ [])))))
        (arr (object no_members ∷ obj (codes "a") (num 1) ∷ obj2 (codes "a") (num 1) (codes "b") (num 1)
        ∷ obj (codes "b") null ∷ [])))
        ≡ (item 1 ∷ []) ∷ (item 3 ∷ []) ∷ [] }
{}

/// `$[?count(distinct(@['b','a','b']))==2]` on `[{"a":1,"b":1}]`.
#[tactic(auto, unfolding(jp_number::proofs::OnLiterals::numbers_on_literals))]
fn each_location_once()
    ensures counted { (t : Tests) →
        map (λ n. n.location) (document_nodes t (filtered (compares (tree.value_call
        (tree.call (codes "count")
        (tree.arguments (tree.call_argument (tree.call (codes "distinct") (tree.arguments
        (tree.query_argument (tree.query_from Current (tree.child (tree.name (codes "b")
        ∷ tree.name (codes "a") ∷ tree.name (codes "b") ∷ []) ∷ [])) ∷ []))) ∷ []))))
        Eq (number (codes "2")))) (arr (obj2 (codes "a") (num 1) (codes "b") (num 1) ∷ [])))
        ≡ (item 0 ∷ []) ∷ [] }
{}
