//! What lines are read as.

ghost use Rattle.std.specs.Prelude.{◌≡◌, ℕ, [], ◌∷◌, ◌++◌, List, codes, fold, length, replicate, pos, negsuc};
ghost use Rattle.std.specs.Prelude.{true, false, Float, Some, None, Ok, Err};
ghost use Rattle.serde_json.specs.Data as crate_data;
ghost use Rattle.serde_json.specs.Written.{items_have_float};
ghost use Rattle.jp_doc.specs.Json.{null, truth, number, text, array, object, item_list, items_of};
ghost use Rattle.jp_doc.specs.Json.{no_items, add_item, no_members, add_member};
ghost use Rattle.jp_number.specs.Number.{whole};
ghost use Rattle.jp_doc.specs.Reading.{has_long_array, items_have_long_array, fault_of};
ghost use Rattle.jp_doc.specs.Reading.{crate_reading, document_from, reading};
ghost use Rattle.jp_doc.specs.declared.fault.DocFault.TheVariants.{LongLine, Unreadable, NotWhole, LongArray};

#[tactic(auto, unfolding(crate::proofs::OnLiterals::documents_on_literals))]
fn read_values()
    ensures member { reading (codes "{\"a\":1}")
        ≡ Ok (object (add_member (codes "a") (number (whole (pos 1))) no_members)) }
    ensures null_value { reading (codes "null") ≡ Ok null }
    ensures false_value { reading (codes "false") ≡ Ok (truth false) }
    ensures empty_array { reading (codes "[]") ≡ Ok (array no_items) }
    ensures empty_object { reading (codes "{}") ≡ Ok (object no_members) }
    ensures negative_number { reading (codes "-3") ≡ Ok (number (whole (negsuc 2))) }
    ensures white_space_around { reading (32 ∷ codes "true" ++ 13 ∷ []) ≡ Ok (truth true) }
    ensures least_number { reading (codes "-9223372036854775808")
        ≡ Ok (number (whole (negsuc 9223372036854775807))) }
    ensures greatest_number { reading (codes "18446744073709551615")
        ≡ Ok (number (whole (pos 18446744073709551615))) }
{}

#[tactic(auto, unfolding(crate::proofs::OnLiterals::documents_on_literals))]
fn read_texts()
    ensures short_escape { reading (codes "\"a\\nb\"") ≡ Ok (text (97 ∷ 10 ∷ 98 ∷ [])) }
    ensures pair_of_surrogates { reading (codes "\"\\ud83d\\ude00\"") ≡ Ok (text (128512 ∷ [])) }
    ensures four_bytes { reading (34 ∷ 240 ∷ 159 ∷ 152 ∷ 128 ∷ 34 ∷ []) ≡ Ok (text (128512 ∷ [])) }
    ensures lone_surrogate { reading (codes "\"\\ud83d\"") ≡ Err Unreadable }
{}

#[tactic(auto, unfolding(crate::proofs::OnLiterals::documents_on_literals))]
fn read_members()
    ensures rising_order { reading (codes "{\"b\":null,\"a\":[1,2]}")
        ≡ Ok
        (object (add_member (codes "a") (array (add_item (number (whole (pos 1))) (add_item (number (whole
        (pos 2))) no_items)))
        (add_member (codes "b") null no_members))) }
    ensures last_of_a_name { reading (codes "{\"a\":1,\"a\":2}")
        ≡ Ok (object (add_member (codes "a") (number (whole (pos 2))) no_members)) }
    ensures name_of_four_bytes { reading (123 ∷ 34 ∷ 240 ∷ 159 ∷ 152 ∷ 128 ∷ codes "\":1}")
        ≡ Ok (object (add_member (128512 ∷ []) (number (whole (pos 1))) no_members)) }
{}

#[tactic(auto, unfolding(crate::proofs::OnLiterals::documents_on_literals))]
fn unreadable_lines()
    ensures open_object { reading (codes "{") ≡ Err Unreadable }
    ensures open_text { reading (codes "\"a") ≡ Err Unreadable }
    ensures two_values { reading (codes "1 2") ≡ Err Unreadable }
    ensures no_utf8 { reading (255 ∷ []) ≡ Err Unreadable }
    ensures no_utf8_in_a_text { reading (34 ∷ 255 ∷ 34 ∷ []) ≡ Err Unreadable }
    ensures no_utf8_in_a_name { reading (123 ∷ 34 ∷ 255 ∷ codes "\":1}") ≡ Err Unreadable }
    ensures no_bytes { reading [] ≡ Err Unreadable }
    ensures byte_order_mark { reading (239 ∷ 187 ∷ 191 ∷ codes "1") ≡ Err Unreadable }
    ensures open_array_with_a_fraction { reading (codes "[1.5") ≡ Err Unreadable }
    ensures above_all_floats { reading (codes "1e999") ≡ Err Unreadable }
    ensures nothing_read { crate_reading (34 ∷ 255 ∷ 34 ∷ []) ≡ None }
{}

#[tactic(auto, unfolding(crate::proofs::OnLiterals::documents_on_literals))]
fn numbers_that_are_not_whole()
    ensures fraction { reading (codes "1.5") ≡ Err NotWhole }
    ensures fraction_of_zeros { reading (codes "1.0") ≡ Err NotWhole }
    ensures deep_fraction { reading (codes "[[1],{\"a\":2.5}]") ≡ Err NotWhole }
    ensures exponent { reading (codes "1e3") ≡ Err NotWhole }
    ensures above_the_greatest { reading (codes "18446744073709551616") ≡ Err NotWhole }
    ensures below_the_least { reading (codes "-9223372036854775809") ≡ Err NotWhole }
    ensures negative_zero { reading (codes "-0") ≡ Err NotWhole }
{}

#[tactic(auto, unfolding(crate::proofs::OnLiterals::documents_on_literals))]
fn nesting()
    ensures deepest { reading (replicate 127 91 ++ replicate 127 93)
        ≡ Ok (fold (λ v _. array (add_item v no_items)) (array no_items) (replicate 126 null)) }
    ensures too_deep { reading (replicate 128 91 ++ replicate 128 93) ≡ Err Unreadable }
{}

// Arrays that are too long, where an array may have two items.

fn long_arrays()
    ensures two_items { has_long_array 2 (array (add_item null (add_item null no_items))) ≡ false }
    ensures three_items { has_long_array 2 (array (add_item null (add_item null (add_item null no_items))))
        ≡ true }
    ensures no_item { has_long_array 0 (array no_items) ≡ false }
    ensures one_item { has_long_array 0 (array (add_item null no_items)) ≡ true }
    ensures in_the_first_item { has_long_array 1
        (array (add_item (array (add_item null (add_item null no_items))) no_items))
        ≡ true }
    ensures in_the_last_item { has_long_array 2 (array (add_item null (add_item
        (array (add_item null (add_item null (add_item null no_items)))) no_items))) ≡ true }
    ensures in_a_member { has_long_array 0
        (object (add_member (codes "a") (array (add_item null no_items)) no_members)) ≡ true }
    ensures in_the_last_member { has_long_array 0 (object (add_member (codes "a") null
        (add_member (codes "b") (array (add_item null no_items)) no_members))) ≡ true }
{}

fn values_with_no_long_array()
    ensures members { has_long_array 1
        (object (add_member (codes "a") null (add_member (codes "b") null no_members))) ≡ false }
    ensures text_value { has_long_array 0 (text (codes "ab")) ≡ false }
    ensures number { has_long_array 0 (number (whole (pos 7))) ≡ false }
    ensures truth_value { has_long_array 0 (truth true) ≡ false }
    ensures null_value { has_long_array 0 null ≡ false }
{}

// What is wrong with what the JSON crate has read: numbers first.
fn first_faults()
    ensures none { fault_of 1 (crate_data.array (crate_data.item crate_data.null crate_data.no_items))
        ≡ None }
    ensures long { fault_of 0 (crate_data.array (crate_data.item crate_data.null crate_data.no_items))
        ≡ Some LongArray }
    ensures not_whole { (x : Float) → fault_of 1 (crate_data.number (crate_data.float x)) ≡ Some NotWhole }
    ensures both { (x : Float) → fault_of 0 (crate_data.array (crate_data.item
        (crate_data.number (crate_data.float x)) crate_data.no_items)) ≡ Some NotWhole }
    ensures unread { document_from None ≡ Err Unreadable }
    ensures number_not_whole { (x : Float) → document_from (Some (crate_data.number (crate_data.float x)))
        ≡ Err NotWhole }
{}

// The limits themselves: 268,435,456 bytes in a line, 16,777,216 items in an array.

fn line_limit()
    ensures at { (line : List ℕ) → length line ≡ 268435456 → ¬ (reading line ≡ Err LongLine) }
    ensures above { (line : List ℕ) → length line ≡ 268435457 → reading line ≡ Err LongLine }
{}

fn array_limit()
    ensures at { (ds : crate_data.Items) → items_have_float ds ≡ false
        → items_have_long_array 16777216 (items_of ds) ≡ false → length (item_list (items_of ds)) ≡ 16777216
        → document_from (Some (crate_data.array ds)) ≡ Ok (array (items_of ds)) }
    ensures above { (ds : crate_data.Items) → items_have_float ds ≡ false → length (item_list (items_of ds))
        ≡ 16777217
        → document_from (Some (crate_data.array ds)) ≡ Err LongArray }
{}
