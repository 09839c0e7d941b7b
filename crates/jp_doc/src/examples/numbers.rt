//! What lines are read as, by the numbers that a document may have.

ghost use Rattle.std.specs.Prelude.{◌≡◌, ◌<◌, [], ◌∷◌, ◌++◌, codes, replicate, length, pos, negsuc};
ghost use Rattle.std.specs.Prelude.{true, false, None, Some, Ok, Err};
ghost use Rattle.json.specs.Json as grammar;
ghost use Rattle.jp_doc.specs.Json.{null, number, array, object, no_items, add_item, no_members, add_member};
ghost use Rattle.jp_doc.specs.Json.{item_list};
ghost use Rattle.jp_doc.specs.Reading.{max_items};
ghost use Rattle.jp_number.specs.declared.numbers.Numbers.TheVariants.{Whole, Decimals};
ghost use Rattle.jp_doc.specs.ReadingIn.{has_long_number, items_have_long_number, document_of};
ghost use Rattle.jp_doc.specs.ReadingIn.{tree_reading, or_else, reading_in};
ghost use Rattle.jp_doc.specs.Tree.{tree_items};
ghost use Rattle.jp_doc.specs.declared.fault.DocFault.TheVariants.{LongLine, Unreadable, NotWhole};
ghost use Rattle.jp_doc.specs.declared.fault.DocFault.TheVariants.{LongNumber, LongArray};
ghost use Rattle.jp_number.specs.Number.{whole, written};

#[tactic(auto, unfolding(crate::proofs::OnLiterals::documents_on_literals))]
fn lines_with_decimals()
    ensures whole_numbers { reading_in Decimals (codes "[1,-2]")
        ≡ Ok (array (add_item (number (whole (pos 1))) (add_item (number (whole (negsuc 1))) no_items))) }
    ensures fraction_covered { reading_in Decimals (codes "{\"a\":1.5,\"a\":1}")
        ≡ Ok (object (add_member (codes "a") (number (whole (pos 1))) no_members)) }
    ensures fraction { reading_in Decimals (codes "[9.90]")
        ≡ Ok (array (add_item (number (written (codes "9.90"))) no_items)) }
    ensures no_value { reading_in Decimals (codes "[1") ≡ Err Unreadable }
    ensures no_utf8 { reading_in Decimals (34 ∷ 255 ∷ 34 ∷ []) ≡ Err Unreadable }
    ensures too_deep { reading_in Decimals (replicate 128 91 ++ replicate 128 93) ≡ Err Unreadable }
    ensures with_whole_numbers { reading_in Whole (codes "1.5") ≡ Err NotWhole }
{}

// A number that no float comes near to is a number of the line by the grammar alone.
#[tactic(auto, unfolding(crate::proofs::OnLiterals::documents_on_literals))]
fn numbers_above_all_floats()
    ensures with_whole_numbers { reading_in Whole (codes "1e999") ≡ Err Unreadable }
    ensures with_decimals { reading_in Decimals (codes "1e999") ≡ Ok (number (written (codes "1e999"))) }
    ensures long_exponent { reading_in Decimals (codes "1e0000000001") ≡ Err LongNumber }
    ensures behind_a_text { tree_reading (codes "[\"1\",1e0000000001]") ≡ Err LongNumber }
{}

#[tactic(auto, unfolding(crate::proofs::OnLiterals::documents_on_literals))]
fn numbers_in_trees()
    ensures whole_number { has_long_number (grammar.number (codes "18446744073709551616")) ≡ false }
    ensures exponent { has_long_number (grammar.number (codes "-1.5E-000000001")) ≡ false }
    ensures long_exponent { has_long_number (grammar.number (codes "1e0000000001")) ≡ true }
    ensures in_the_last_item { has_long_number (grammar.array (grammar.item grammar.null
        (grammar.item (grammar.number (codes "1e0000000001")) grammar.no_items))) ≡ true }
    ensures covered { has_long_number (grammar.object
        (grammar.member (codes "a") (grammar.number (codes "1e0000000001"))
        (grammar.member (codes "a") grammar.null grammar.no_members))) ≡ true }
    ensures in_the_last_member { has_long_number (grammar.object (grammar.member (codes "a") grammar.null
        (grammar.member (codes "b") (grammar.number (codes "1e0000000001")) grammar.no_members))) ≡ true }
    ensures no_number { has_long_number (grammar.string (codes "1e0000000001")) ≡ false }
{}

// The tests of a tree in their order: its numbers, wherever they stand, and then the arrays of its value.
#[tactic(auto, unfolding(crate::proofs::OnLiterals::documents_on_literals))]
fn tests_of_a_tree()
    ensures none { document_of None ≡ Err Unreadable }
    ensures value { document_of (Some grammar.null) ≡ Ok null }
    ensures number { document_of (Some (grammar.number (codes "1e0000000001"))) ≡ Err LongNumber }
    ensures short_array { document_of (Some (grammar.array grammar.no_items)) ≡ Ok (array no_items) }
    ensures long_array { (js : grammar.Items) → items_have_long_number js ≡ false
        → max_items < length (item_list (tree_items js))
        → document_of (Some (grammar.array js)) ≡ Err LongArray }
    ensures numbers_first { (js : grammar.Items) → items_have_long_number js ≡ true
        → document_of (Some (grammar.array js)) ≡ Err LongNumber }
{}

fn what_comes_first()
    ensures value { or_else (Ok null) (Err NotWhole) ≡ Ok null }
    ensures long_line { or_else (Err LongLine) (Ok null) ≡ Err LongLine }
    ensures not_whole { or_else (Err NotWhole) (Ok null) ≡ Ok null }
    ensures long_number { or_else (Err NotWhole) (Err LongNumber) ≡ Err LongNumber }
    ensures unreadable { or_else (Err Unreadable) (Err Unreadable) ≡ Err Unreadable }
    ensures long_array { or_else (Err LongArray) (Err LongArray) ≡ Err LongArray }
{}
