//! Laws of the definitions, each the contract of a function that does nothing.

ghost use Rattle.std.specs.Prelude.{◌≡◌, ◌∷◌, ◌<◌, ℕ, ℤ, pos, negsuc, int_lt, ◌≤ℤ◌, ◌<ℤ◌, IsTrue, Option};
ghost use Rattle.std.specs.Prelude.{Some, true, false};
ghost use Rattle.std.specs.List.{AllByRecursion, flat_map};
ghost use Rattle.jp_doc.specs.Location.{Node};
ghost use Rattle.jp_node.specs.Nodes.{children, descendants as descendants_of};
ghost use Rattle.jp_node.specs.Slice.{slice_bounds, slice_indexes, RisesFrom, FallsBelow};

/// A node's descendants are the node and then those of each of its children.
pub fn descendants()
    ensures { (n : Node) → descendants_of n ≡ n ∷ flat_map descendants_of (children n) }
{}

/// The indexes of a slice lie within the array; they rise strictly for a positive step, and fall strictly for
/// a negative one.
/// Its bounds lie within the array too, so no index beyond the array meets them.
pub fn slice()
    ensures within { (first past step : Option ℤ) (len : ℕ)
        → AllByRecursion (λ i. i < len) (slice_indexes (slice_bounds first past step len) len) }
    ensures rising { (first past : Option ℤ) (step : ℤ) (len : ℕ) → IsTrue (int_lt (pos 0) step)
        → RisesFrom 0 (slice_indexes (slice_bounds first past (Some step) len) len) }
    ensures falling { (first past : Option ℤ) (step : ℤ) (len : ℕ) → IsTrue (int_lt step (pos 0))
        → FallsBelow len (slice_indexes (slice_bounds first past (Some step) len) len) }
    ensures bounds_of_rising { (first past : Option ℤ) (step : ℤ) (len : ℕ) → int_lt step (pos 0) ≡ false
        → (pos 0 ≤ℤ (slice_bounds first past (Some step) len).lower)
        × ((slice_bounds first past (Some step) len).upper ≤ℤ pos len) }
    ensures bounds_of_falling { (first past : Option ℤ) (step : ℤ) (len : ℕ) → int_lt step (pos 0) ≡ true
        → (negsuc 0 ≤ℤ (slice_bounds first past (Some step) len).lower)
        × ((slice_bounds first past (Some step) len).upper <ℤ pos len) }
{}
