//! Worked examples of the definitions.

ghost use Rattle.std.specs.Prelude.{◌≡◌, [], ◌∷◌, ◌++◌, codes, pos, negsuc, replicate, true, false};
ghost use Rattle.std.specs.Prelude.{Some, None, Ok, Err};
ghost use Rattle.json.specs.Json as tree;
ghost use Rattle.json.specs.Lex.{tokens};
ghost use Rattle.json.specs.Token.{begin_array, end_array, end_object, number, key, string};
ghost use Rattle.jp_doc.specs.Json.{null, truth, number, text, array, object};
ghost use Rattle.jp_doc.specs.Json.{no_items, add_item, no_members, add_member};
ghost use Rattle.jp_doc.specs.ReadingIn.{tree_reading};
ghost use Rattle.jp_doc.specs.declared.fault.DocFault.TheVariants.{Unreadable, LongNumber};
ghost use Rattle.jp_number.specs.Number.{whole, written};
ghost use Rattle.jp_flat.specs.Digits.{whole_value};
ghost use Rattle.jp_flat.specs.Flat.{value_at};
ghost use Rattle.jp_flat.specs.inner.Nesting.{nests_from};
ghost use Rattle.jp_flat.specs.inner.Plain.{is_flat};
ghost use Rattle.jp_flat.specs.inner.Rows.{are_short, are_within, pass_answer, pass_fault};
ghost use Rattle.jp_flat.specs.Gathered.{AreAbove, NamesRise};
ghost use Rattle.jp_flat.specs.Members.{put_all, last_of, entries_at};
ghost use Rattle.jp_flat.specs.Value.{text_in, number_in, item_count, IsNoArray, IsNoObject};

#[tactic(auto, unfolding(crate::proofs::OnLiterals::flat_on_literals))]
fn numbers_of_texts()
    ensures zero { whole_value (codes "0") ≡ pos 0 }
    ensures negative { whole_value (codes "-12") ≡ negsuc 11 }
    ensures greatest { whole_value (codes "18446744073709551615") ≡ pos 18446744073709551615 }
    ensures least { whole_value (codes "-9223372036854775808") ≡ negsuc 9223372036854775807 }
{}

#[tactic(auto, unfolding(crate::proofs::OnLiterals::flat_on_literals))]
fn values_that_tokens_begin_with()
    ensures number { value_at (number (codes "-3") ∷ []) ≡ number (whole (negsuc 2)) }
    ensures text_value { value_at (string (codes "ab") ∷ []) ≡ text (codes "ab") }
    ensures empty_array { value_at (begin_array ∷ end_array ∷ []) ≡ array no_items }
    ensures first_alone { value_at (number (codes "1") ∷ number (codes "2") ∷ []) ≡ number (whole (pos 1)) }
    ensures line { value_at (tokens (codes "{\"b\":[true],\"a\":null}"))
        ≡ object (add_member (codes "a") null
        (add_member (codes "b") (array (add_item (truth true) no_items)) no_members)) }
    ensures last_of_a_name { value_at (tokens (codes "{\"a\":1,\"a\":2}"))
        ≡ object (add_member (codes "a") (number (whole (pos 2))) no_members) }
    ensures none { value_at (end_array ∷ []) ≡ null }
{}

#[tactic(auto, unfolding(crate::proofs::OnLiterals::flat_on_literals))]
fn what_is_flat()
    ensures number { is_flat (tokens (codes "-3")) ≡ true }
    ensures nineteen_digits { is_flat (tokens (codes "9999999999999999999")) ≡ true }
    ensures greatest { is_flat (tokens (codes "18446744073709551615")) ≡ true }
    ensures least { is_flat (tokens (codes "-9223372036854775808")) ≡ true }
    ensures array_of_texts { is_flat (tokens (codes "[\"a\",[]]")) ≡ true }
    ensures above_the_greatest { is_flat (tokens (codes "18446744073709551616")) ≡ true }
    ensures minus_zero { is_flat (tokens (codes "-0")) ≡ true }
    ensures fraction { is_flat (tokens (codes "[1,2.5]")) ≡ true }
    ensures exponent { is_flat (tokens (codes "1e3")) ≡ true }
{}

#[tactic(auto, unfolding(crate::proofs::OnLiterals::flat_on_literals))]
fn what_is_not_flat()
    ensures long_exponent { is_flat (tokens (codes "[1e0000000001]")) ≡ false }
    ensures no_number { is_flat (number (codes "01") ∷ []) ≡ false }
    ensures open_array { is_flat (begin_array ∷ []) ≡ false }
    ensures nothing { is_flat [] ≡ false }
{}

// What a pass over the tokens tells of a line by the grammar alone.
#[tactic(auto, unfolding(crate::proofs::OnLiterals::flat_on_literals))]
fn what_a_pass_tells()
    ensures deepest { nests_from 0 (tokens (replicate 127 91 ++ replicate 127 93)) ≡ true }
    ensures too_deep { nests_from 0 (tokens (replicate 128 91 ++ replicate 128 93)) ≡ false }
    ensures side_by_side { nests_from 126 (tokens (codes "[[],{}]")) ≡ false }
    ensures one_behind_the_other { nests_from 126 (begin_array ∷ end_array ∷ begin_array ∷ end_array ∷ [])
        ≡ true }
    ensures fraction { nests_from 0 (tokens (codes "[1.5]")) ≡ true }
    ensures short_numbers { are_short (tokens (codes "[1,{\"a\":-2.5e3}]")) ≡ true }
    ensures long_behind_a_text { are_short (tokens (codes "[\"1\",1e0000000001]")) ≡ false }
    ensures long_in_a_text { are_short (tokens (codes "\"1e0000000001\"")) ≡ true }
    ensures above_all_floats { are_short (number (codes "1e999") ∷ []) ≡ true }
{}

// The answer that comes of it: nesting first, then numbers.
#[tactic(auto, unfolding(crate::proofs::OnLiterals::flat_on_literals))]
fn what_a_pass_answers()
    ensures value { pass_answer (number (codes "7") ∷ []) (tree.number (codes "7"))
        ≡ Ok (number (whole (pos 7))) }
    ensures fraction { pass_answer (number (codes "1.5") ∷ []) (tree.number (codes "1.5"))
        ≡ Ok (number (written (codes "1.5"))) }
    ensures long_number { pass_answer (number (codes "1e0000000001") ∷ []) tree.null ≡ Err LongNumber }
    ensures too_deep { pass_answer (number (codes "1.5") ∷ replicate 128 begin_array) tree.null
        ≡ Err Unreadable }
{}

// What a line is read as by the grammar alone.
#[tactic(auto, unfolding(crate::proofs::OnLiterals::flat_on_literals))]
fn lines_by_the_grammar()
    ensures fraction { tree_reading (codes "9.90") ≡ Ok (number (written (codes "9.90"))) }
    ensures exponent { tree_reading (codes "1e2") ≡ Ok (number (written (codes "1e2"))) }
    ensures minus_zero { tree_reading (codes "-0") ≡ Ok (number (written (codes "-0"))) }
    ensures whole_number { tree_reading (codes "-7") ≡ Ok (number (whole (negsuc 6))) }
    ensures leading_zero { tree_reading (codes "01") ≡ Err Unreadable }
    ensures long_exponent { tree_reading (codes "1e0000000001") ≡ Err LongNumber }
{}

// The fault that a pass over the tokens finds.
#[tactic(auto, unfolding(crate::proofs::OnLiterals::flat_on_literals))]
fn faults_that_a_pass_finds()
    ensures none { pass_fault (tokens (codes "[1.5,-0]")) ≡ None }
    ensures long_number { pass_fault (tokens (codes "[1e0000000001,1]")) ≡ Some LongNumber }
    ensures too_deep { pass_fault (replicate 128 begin_array) ≡ Some Unreadable }
    ensures nesting_first { pass_fault (number (codes "1e0000000001") ∷ replicate 128 begin_array)
        ≡ Some Unreadable }
    ensures within { are_within (number (codes "1e999999999") ∷ []) ≡ true }
{}

#[tactic(auto, unfolding(crate::proofs::OnLiterals::flat_on_literals))]
fn members_put_together()
    ensures all { put_all ((codes "b", null) ∷ (codes "a", truth true) ∷ (codes "b", truth false) ∷ [])
        no_members ≡ add_member (codes "a") (truth true) (add_member (codes "b") (truth false) no_members) }
    ensures last { last_of (codes "a") ((codes "a", null) ∷ (codes "b", null) ∷ (codes "a", truth true) ∷ [])
        None ≡ Some (truth true) }
    ensures none { last_of (codes "c") ((codes "a", null) ∷ []) None ≡ None }
    ensures of_a_line { entries_at
        (key (codes "b") ∷ number (codes "1") ∷ key (codes "a") ∷ number (codes "2") ∷ end_object ∷ [])
        ≡ (codes "b", number (whole (pos 1))) ∷ (codes "a", number (whole (pos 2))) ∷ [] }
    ensures of_an_empty_object { entries_at (end_object ∷ []) ≡ [] }
{}

#[tactic(auto, unfolding(crate::proofs::OnLiterals::flat_on_literals))]
fn names_that_rise()
    ensures none { NamesRise no_members }
    ensures in_order { NamesRise (add_member (codes "a") null (add_member (codes "ab") null
        (add_member (codes "b") null no_members))) }
    ensures out_of_order { ¬ NamesRise
        (add_member (codes "b") null (add_member (codes "a") null no_members)) }
    ensures twice { ¬ NamesRise (add_member (codes "a") null (add_member (codes "a") null no_members)) }
    ensures not_above { ¬ AreAbove (codes "b") (add_member (codes "c") null
        (add_member (codes "a") null no_members)) }
{}

fn what_values_are()
    ensures text_value { text_in (text (codes "a")) ≡ Some (codes "a") }
    ensures no_text { text_in (number (whole (pos 1))) ≡ None }
    ensures number_value { number_in (number (written (codes "1.0"))) ≡ Some (written (codes "1.0")) }
    ensures no_number { number_in (text (codes "1")) ≡ None }
    ensures two_items { item_count (array (add_item null (add_item (array no_items) no_items))) ≡ 2 }
    ensures no_items_in_an_object { item_count (object (add_member (codes "a") null no_members)) ≡ 0 }
    ensures no_array { IsNoArray (object no_members) × IsNoArray null }
    ensures an_array { ¬ IsNoArray (array no_items) }
    ensures no_object { IsNoObject (array no_items) × IsNoObject (truth true) }
    ensures an_object { ¬ IsNoObject (object no_members) }
{}
