//! What is inside of a value, the members of a list, and values of kinds.

ghost use Rattle.std.specs.Prelude.{◌≡◌, [], ◌∷◌, codes, negsuc, true};
ghost use Rattle.jp_doc.specs.Json.{null, truth, number, text, array, object, no_items, add_item};
ghost use Rattle.jp_doc.specs.Json.{no_members, add_member};
ghost use Rattle.jp_number.specs.Number.{whole};
ghost use Rattle.jp_node.specs.Inside.{items_inside, members_inside, kind_value, IsScalar, IsInside};
ghost use Rattle.jp_node.specs.Members.{members};
ghost use Rattle.jp_node.specs.declared.part.Inside.TheVariants.{Nothing};
ghost use Rattle.jp_node.specs.declared.part.Kind.TheVariants.{Null, Truth, Whole};

fn members_of_a_list()
    ensures none { members [] ≡ no_members }
    ensures two { members ((codes "a", null) ∷ (codes "b", truth true) ∷ [])
        ≡ add_member (codes "a") null (add_member (codes "b") (truth true) no_members) }
{}

fn what_is_inside()
    ensures items { items_inside (array (add_item null no_items)) ≡ add_item null no_items }
    ensures none_of_an_object { items_inside (object (add_member (codes "a") null no_members)) ≡ no_items }
    ensures no_items_of_a_text { items_inside (text (codes "[1]")) ≡ no_items }
    ensures members { members_inside (object (add_member (codes "a") null no_members))
        ≡ add_member (codes "a") null no_members }
    ensures no_members_of_an_array { members_inside (array (add_item null no_items)) ≡ no_members }
    ensures no_members_of_null { members_inside null ≡ no_members }
{}

fn values_without_an_inside()
    ensures number { IsScalar (number (whole (negsuc 2))) }
    ensures empty_array { ¬ IsScalar (array no_items) }
    ensures empty_object { ¬ IsScalar (object no_members) }
    ensures nothing { IsInside Nothing (text (codes "a")) }
{}

fn kinds()
    ensures null_value { kind_value Null ≡ null }
    ensures truth_value { kind_value (Truth true) ≡ truth true }
    ensures number { kind_value (Whole (negsuc 2)) ≡ number (whole (negsuc 2)) }
{}
