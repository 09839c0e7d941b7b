//! Children and descendants, on `{"a":null,"b":[1,{"c":2}]}` and `[5,6]`.

ghost use Rattle.std.specs.Prelude.{◌≡◌, [], ◌∷◌, codes, pos};
ghost use Rattle.jp_doc.specs.Json.{null, number, object, no_members, add_member};
ghost use Rattle.jp_doc.specs.Location.{node, name, index};
ghost use Rattle.jp_number.specs.Number.{whole};
ghost use Rattle.jp_node.specs.Nodes as nodes;
ghost use Rattle.jp_node.specs.Samples.{listed, nested, five_six};

/// Members in rising order of their names, items in theirs; a number has none.
fn children()
    ensures members { nodes.children (node [] nested)
        ≡ node (name (codes "a") ∷ []) null ∷ node (name (codes "b") ∷ []) listed ∷ [] }
    ensures items { nodes.children (node (name (codes "b") ∷ []) five_six)
        ≡ node (name (codes "b") ∷ index 0 ∷ []) (number (whole (pos 5)))
        ∷ node (name (codes "b") ∷ index 1 ∷ []) (number (whole (pos 6))) ∷ [] }
    ensures none { nodes.children (node [] (number (whole (pos 1)))) ≡ [] }
{}

/// The node itself, and then, child by child, those of each child.
fn descendants()
    ensures nested { nodes.descendants (node [] nested)
        ≡ node [] nested
        ∷ node (name (codes "a") ∷ []) null
        ∷ node (name (codes "b") ∷ []) listed
        ∷ node (name (codes "b") ∷ index 0 ∷ []) (number (whole (pos 1)))
        ∷ node (name (codes "b") ∷ index 1 ∷ [])
        (object (add_member (codes "c") (number (whole (pos 2))) no_members))
        ∷ node (name (codes "b") ∷ index 1 ∷ name (codes "c") ∷ []) (number (whole (pos 2))) ∷ [] }
    ensures alone { nodes.descendants (node (index 3 ∷ []) (number (whole (pos 1))))
        ≡ node (index 3 ∷ []) (number (whole (pos 1))) ∷ [] }
{}

/// The child at a step, if there is one, and the items at some places, each as often as it is named.
fn steps()
    ensures named { nodes.child (name (codes "a")) (node [] nested) ≡ node (name (codes "a") ∷ []) null ∷ [] }
    ensures missing { nodes.child (name (codes "c")) (node [] nested) ≡ [] }
    ensures of_no_array { nodes.child (index 0) (node [] nested) ≡ [] }
    ensures items { nodes.items_at (node [] five_six) (1 ∷ 2 ∷ 0 ∷ 1 ∷ [])
        ≡ node (index 1 ∷ []) (number (whole (pos 6))) ∷ node (index 0 ∷ []) (number (whole (pos 5)))
        ∷ node (index 1 ∷ []) (number (whole (pos 6))) ∷ [] }
{}
