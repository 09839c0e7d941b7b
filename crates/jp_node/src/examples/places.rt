//! The places of indexes and slices in an array.

ghost use Rattle.std.specs.Prelude.{◌≡◌, [], ◌∷◌, pos, negsuc, Some, None};
ghost use Rattle.jp_node.specs.Index.{place_of};
ghost use Rattle.jp_node.specs.Places.{from_place, later};
ghost use Rattle.jp_node.specs.Slice.{slice_bounds};

/// Indexes in an array with five items, and in one with none: from the front, from the end, and beyond.
fn places()
    ensures first { place_of (pos 0) 5 ≡ 0 ∷ [] }
    ensures last { place_of (pos 4) 5 ≡ 4 ∷ [] }
    ensures behind_the_last { place_of (pos 5) 5 ≡ [] }
    ensures last_from_the_end { place_of (negsuc 0) 5 ≡ 4 ∷ [] }
    ensures first_from_the_end { place_of (negsuc 4) 5 ≡ 0 ∷ [] }
    ensures before_the_first { place_of (negsuc 5) 5 ≡ [] }
    ensures of_nothing { place_of (pos 0) 0 ≡ [] }
    ensures of_nothing_from_the_end { place_of (negsuc 0) 0 ≡ [] }
{}

/// The bounds of slices of an array with five items, and with none.
fn bounds()
    ensures falling { slice_bounds (Some (pos 3)) (Some (pos 0)) (Some (negsuc 1)) 5
        ≡ record { lower = pos 0; upper = pos 3; step = negsuc 1 } }
    ensures reversed { slice_bounds None None (Some (negsuc 0)) 5
        ≡ record { lower = negsuc 0; upper = pos 4; step = negsuc 0 } }
    ensures step_zero { slice_bounds None None (Some (pos 0)) 5
        ≡ record { lower = pos 0; upper = pos 5; step = pos 0 } }
    ensures from_the_end { slice_bounds (Some (negsuc 1)) None None 5
        ≡ record { lower = pos 3; upper = pos 5; step = pos 1 } }
    ensures outside { slice_bounds (Some (negsuc 8)) (Some (pos 9)) None 5
        ≡ record { lower = pos 0; upper = pos 5; step = pos 1 } }
    ensures of_nothing { slice_bounds None None (Some (negsuc 0)) 0
        ≡ record { lower = negsuc 0; upper = negsuc 0; step = negsuc 0 } }
{}

/// The indexes of `[1::2]` and of `[::-2]` in an array with five items, from one of them on.
fn one_after_another()
    ensures rising { later (slice_bounds (Some (pos 1)) None (Some (pos 2)) 5) 5 1 ≡ 3 ∷ [] }
    ensures last { later (slice_bounds (Some (pos 1)) None (Some (pos 2)) 5) 5 3 ≡ [] }
    ensures falling { later (slice_bounds None None (Some (negsuc 1)) 5) 5 4 ≡ 2 ∷ 0 ∷ [] }
    ensures from { from_place (slice_bounds None None (Some (negsuc 1)) 5) 5 (Some 2) ≡ 2 ∷ 0 ∷ [] }
    ensures none { from_place (slice_bounds None None (Some (negsuc 1)) 5) 5 None ≡ [] }
    ensures step_zero { later (slice_bounds None None (Some (pos 0)) 5) 5 1 ≡ [] }
{}
