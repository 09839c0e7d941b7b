//! Where locations lead (RFC 9535, 1.1).

ghost use Rattle.std.specs.Prelude.{◌≡◌, [], ◌∷◌, codes, pos, true, Some, None};
ghost use Rattle.jp_doc.specs.Json.{null, truth, number, text, array, object, no_items, add_item, no_members};
ghost use Rattle.jp_doc.specs.Json.{add_member};
ghost use Rattle.jp_number.specs.Number.{whole};
ghost use Rattle.jp_doc.specs.Location.{name, index, node, step_of, value_at};
ghost use Rattle.jp_doc.specs.declared.location.Step.TheVariants.{Index};

fn locations()
    ensures root { value_at [] (number (whole (pos 7))) ≡ Some (number (whole (pos 7))) }
    ensures member { value_at (name (codes "b") ∷ [])
        (object (add_member (codes "a") null (add_member (codes "b") (truth true) no_members)))
        ≡ Some (truth true) }
    ensures first_item { value_at (index 0
        ∷ []) (array (add_item null (add_item (number (whole (pos 7))) no_items)))
        ≡ Some null }
    ensures item { value_at (index 1
        ∷ []) (array (add_item null (add_item (number (whole (pos 7))) no_items)))
        ≡ Some (number (whole (pos 7))) }
    ensures member_of_an_item { value_at (index 0 ∷ name (codes "a") ∷ [])
        (array (add_item (object (add_member (codes "a") (number (whole (pos 7))) no_members)) no_items))
        ≡ Some (number (whole (pos 7))) }
    ensures item_of_a_member { value_at (name (codes "a") ∷ index 0 ∷ [])
        (object (add_member (codes "a") (array (add_item (number (whole (pos 7))) no_items)) no_members))
        ≡ Some (number (whole (pos 7))) }
    ensures step_of_the_code { step_of (Index 3) ≡ index 3 }
    ensures node_there { (node (index 1 ∷ []) null).location ≡ index 1 ∷ [] }
    ensures node_value { (node (index 1 ∷ []) null).value ≡ null }
{}

fn locations_that_lead_nowhere()
    ensures no_such_name { value_at (name (codes "c") ∷ [])
        (object (add_member (codes "a") null (add_member (codes "b") null no_members))) ≡ None }
    ensures name_in_capitals { value_at (name (codes "A") ∷ [])
        (object (add_member (codes "a") null no_members)) ≡ None }
    ensures past_the_end { value_at (index 2 ∷ []) (array (add_item null (add_item null no_items))) ≡ None }
    ensures step_into_a_number { value_at (index 0 ∷ []) (number (whole (pos 7))) ≡ None }
    ensures step_into_a_text { value_at (index 0 ∷ []) (text (codes "a")) ≡ None }
    ensures name_in_a_text { value_at (name (codes "a") ∷ []) (text (codes "a")) ≡ None }
    ensures name_in_an_array { value_at (name (codes "0") ∷ []) (array (add_item null no_items)) ≡ None }
    ensures index_in_an_object { value_at (index 0 ∷ []) (object (add_member (codes "0") null no_members))
        ≡ None }
    ensures below_a_missing_member { value_at (name (codes "b") ∷ index 0 ∷ [])
        (object (add_member (codes "a") null no_members)) ≡ None }
{}
