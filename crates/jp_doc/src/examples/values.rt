//! Values, their texts, and names in rising order.

ghost use Rattle.std.specs.Prelude.{◌≡◌, [], ◌∷◌, codes, pos, negsuc, true, false, Some, None};
ghost use Rattle.std.specs.declared.cmp.Ordering.TheVariants.{Less, Equal, Greater};
ghost use Rattle.serde_json.specs.Data as crate_data;
ghost use Rattle.jp_doc.specs.DocumentValue.{whole_in};
ghost use Rattle.jp_doc.specs.Height.{height};
ghost use Rattle.jp_doc.specs.Json.{null, truth, number, text, array, object, items, item_list, text_eq};
ghost use Rattle.jp_doc.specs.Json.{text_cmp};
ghost use Rattle.jp_doc.specs.Json.{no_items, add_item, no_members, add_member, json_of, data_of};
ghost use Rattle.jp_number.specs.Number.{whole};
ghost use Rattle.jp_doc.specs.Rising.{IsRising, IsTextBelow, NamesAreUtf8};

fn equal_texts()
    ensures same { text_eq (codes "ab") (codes "ab") ≡ true }
    ensures empty { text_eq [] [] ≡ true }
    ensures other { text_eq (codes "ab") (codes "aB") ≡ false }
    ensures longer { text_eq (codes "a") (codes "ab") ≡ false }
    ensures shorter { text_eq (codes "ab") (codes "a") ≡ false }
{}

#[tactic(auto, unfolding(crate::proofs::OnLiterals::documents_on_literals))]
fn ordered_texts()
    ensures same { text_cmp (codes "ab") (codes "ab") ≡ Equal }
    ensures below { text_cmp (codes "B") (codes "a") ≡ Less }
    ensures above { text_cmp (codes "b") (codes "ab") ≡ Greater }
    ensures beginning { text_cmp (codes "a") (codes "ab") ≡ Less }
    ensures empty { text_cmp [] (codes "a") ≡ Less }
    ensures by_scalar_value { text_cmp (65535 ∷ []) (65536 ∷ []) ≡ Less }
{}

fn items_of_arrays()
    ensures items { items (null ∷ truth true ∷ []) ≡ add_item null (add_item (truth true) no_items) }
    ensures list { item_list (add_item null (add_item (truth true) no_items)) ≡ null ∷ truth true ∷ [] }
    ensures none { items [] ≡ no_items }
    ensures no_list { item_list no_items ≡ [] }
{}

// What the JSON crate reads, as a value, and back.
#[tactic(auto, unfolding(crate::proofs::OnLiterals::documents_on_literals))]
fn values_of_the_crate()
    ensures unsigned { json_of (crate_data.number (crate_data.unsigned 7)) ≡ number (whole (pos 7)) }
    ensures negative { json_of (crate_data.number (crate_data.negative (negsuc 2)))
        ≡ number (whole (negsuc 2)) }
    ensures four_bytes { json_of (crate_data.string (240 ∷ 159 ∷ 152 ∷ 128 ∷ [])) ≡ text (128512 ∷ []) }
    ensures unsigned_back { data_of (number (whole (pos 7))) ≡ crate_data.number (crate_data.unsigned 7) }
    ensures negative_back { data_of (number (whole (negsuc 2)))
        ≡ crate_data.number (crate_data.negative (negsuc 2)) }
    ensures four_bytes_back { data_of (text (128512 ∷ [])) ≡ crate_data.string (240 ∷ 159 ∷ 152 ∷ 128 ∷ []) }
    ensures name_back { data_of (object (add_member (233 ∷ []) (truth false) no_members))
        ≡ crate_data.object
        (crate_data.member (195 ∷ 169 ∷ []) (crate_data.boolean false) crate_data.no_members) }
{}

fn heights()
    ensures scalar { height (text (codes "ab")) ≡ 0 }
    ensures empty { height (array no_items) ≡ 1 }
    ensures highest_item { height (array (add_item (array no_items) (add_item null no_items))) ≡ 2 }
    ensures member { height (object (add_member (codes "a") (object no_members) no_members)) ≡ 2 }
{}

fn numbers_in_values()
    ensures number { whole_in (number (whole (negsuc 2))) ≡ Some (negsuc 2) }
    ensures text_of_digits { whole_in (text (codes "3")) ≡ None }
    ensures array_of_a_number { whole_in (array (add_item (number (whole (pos 3))) no_items)) ≡ None }
    ensures object_of_a_number { whole_in (object (add_member (codes "a") (number (whole
        (pos 3))) no_members))
        ≡ None }
    ensures truth_value { whole_in (truth true) ≡ None }
    ensures null_value { whole_in null ≡ None }
{}

// Names in rising order.

#[tactic(auto, unfolding(crate::proofs::OnLiterals::documents_on_literals))]
fn rising_names()
    ensures in_order { IsRising (object (add_member (codes "a") null
        (add_member (codes "ab") null (add_member (codes "b") null no_members)))) }
    ensures by_scalar_value { IsRising
        (object (add_member (65535 ∷ []) null (add_member (65536 ∷ []) null no_members))) }
    ensures no_names { IsRising (object no_members) × IsRising (array no_items) × IsRising null
        × IsRising (truth true)
        × IsRising (number (whole (pos 1))) × IsRising (text (codes "ba")) }
{}

#[tactic(auto, unfolding(crate::proofs::OnLiterals::documents_on_literals))]
fn names_that_do_not_rise()
    ensures out_of_order { ¬ IsRising
        (object (add_member (codes "b") null (add_member (codes "a") null no_members))) }
    ensures one_name_twice { ¬ IsRising
        (object (add_member (codes "a") null (add_member (codes "a") null no_members))) }
    ensures further_on { ¬ IsRising (object (add_member (codes "a") null
        (add_member (codes "c") null (add_member (codes "b") null no_members)))) }
    ensures in_an_item { ¬ IsRising (array (add_item
        (object (add_member (codes "b") null (add_member (codes "a") null no_members))) no_items)) }
    ensures in_the_last_item { ¬ IsRising (array (add_item null (add_item
        (object (add_member (codes "b") null (add_member (codes "a") null no_members))) no_items))) }
    ensures in_a_member { ¬ IsRising (object (add_member (codes "a")
        (object (add_member (codes "b") null (add_member (codes "a") null no_members))) no_members)) }
    ensures not_below_itself { ¬ IsTextBelow (codes "a") (codes "a") }
{}

#[tactic(auto, unfolding(crate::proofs::OnLiterals::documents_on_literals))]
fn names_of_utf8()
    ensures two_bytes { NamesAreUtf8
        (crate_data.member (195 ∷ 169 ∷ []) crate_data.null crate_data.no_members) }
{}
