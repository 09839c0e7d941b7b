//! Worked examples of the definitions.

ghost use Rattle.std.specs.Prelude.{◌≡◌, ℕ, List, [], ◌∷◌, Contains};
ghost use Rattle.jp_board.specs.declared.view.View.{View};
ghost use Rattle.jp_board.specs.Events.{BoardState, claim, report, look, split, join};
ghost use Rattle.jp_board.specs.Events.{May, LeadTo, after_claim, first_state, found_by};
ghost use Rattle.jp_board.specs.Lawful.{IsLawful};
ghost use Rattle.jp_board.specs.Together.{all_claims, all_reports, all_looks};
ghost use Rattle.jp_board.specs.Together.{times_told, seats_stood_for, numbers_below};
ghost use Rattle.jp_board.specs.Views.{fresh, less_one, one_of, joined, spent};
ghost use Rattle.jp_board.specs.Views.{with_claim, with_told, with_report, with_look, once_told};
ghost use Rattle.jp_board.specs.inner.Samples.{worked, told_twice, claimed_twice, skipped, told_early, risen};
ghost use Rattle.jp_board.specs.inner.Samples.{invented};

// What a seat knows after each kind of step, on a board of two pieces and three seats.

fn seats()
    ensures claimed { after_claim (fresh 2 3 1) 1 ≡ worked (1 ∷ []) [] [] 0 }
    ensures claimed_behind { with_claim (worked (0 ∷ []) [] [] 0) 1 ≡ worked (0 ∷ 1 ∷ []) [] [] 0 }
    ensures told { after_claim (fresh 2 3 1) 2 ≡ worked [] [] [] 1 }
    ensures told_later { after_claim (worked [] [] [] 1) 3 ≡ worked [] [] [] 2 }
    ensures told_once { once_told (worked [] [] [] 0) ≡ worked [] [] [] 1 }
    ensures reported { with_report (worked (0 ∷ 1 ∷ []) (1 ∷ []) [] 0) 0
        ≡ worked (0 ∷ 1 ∷ []) (1 ∷ 0 ∷ []) [] 0 }
    ensures looked { with_look (worked [] [] (2 ∷ []) 0) 1 ≡ worked [] [] (2 ∷ 1 ∷ []) 0 }
    ensures cut { less_one (fresh 2 3 3) ≡ fresh 2 3 2 }
    ensures cut_off { one_of (fresh 2 3 3) ≡ fresh 2 3 1 }
    ensures joined { (joined (worked (0 ∷ []) (0 ∷ []) (2 ∷ []) 1) (worked (1 ∷ []) [] (0 ∷ []) 1)).claims
        ≡ 0 ∷ 1 ∷ [] }
    ensures joined_reports { (joined (worked [] (0 ∷ []) [] 0) (worked [] (1 ∷ []) [] 0)).reports
        ≡ 0 ∷ 1 ∷ [] }
    ensures joined_looks { (joined (worked [] [] (2 ∷ []) 0) (worked [] [] (0 ∷ []) 0)).looks ≡ 2 ∷ 0 ∷ [] }
    ensures joined_seats { (joined (fresh 2 3 2) (fresh 2 3 1)).stands_for ≡ 3 }
    ensures joined_told { (joined (worked [] [] [] 1) (worked [] [] [] 1)).told ≡ 2 }
    ensures spent_seats { spent.stands_for ≡ 0 }
{}

fn views_together()
    ensures claims { all_claims (worked (0 ∷ 2 ∷ []) [] [] 0 ∷ worked (1 ∷ []) [] [] 0 ∷ [])
        ≡ 0 ∷ 2 ∷ 1 ∷ [] }
    ensures reports { all_reports (worked (0 ∷ []) (0 ∷ []) [] 0 ∷ worked (1 ∷ []) (1 ∷ []) [] 0 ∷ [])
        ≡ 0 ∷ 1 ∷ [] }
    ensures looks { all_looks (worked [] [] (2 ∷ []) 0 ∷ worked [] [] (1 ∷ []) 0 ∷ []) ≡ 2 ∷ 1 ∷ [] }
    ensures told { times_told (worked [] [] [] 1 ∷ worked [] [] [] 1 ∷ []) ≡ 2 }
    ensures seats { seats_stood_for (fresh 2 3 2 ∷ fresh 2 3 1 ∷ []) ≡ 3 }
    ensures numbers { numbers_below 3 ≡ 0 ∷ 1 ∷ 2 ∷ [] }
    ensures no_numbers { numbers_below 0 ≡ [] }
{}

fn words()
    ensures claim_finds_next { (s : BoardState) → found_by (claim 0) s ≡ s.next }
    ensures report_finds_least { (s : BoardState) → found_by (report 0 1) s ≡ s.least }
    ensures look_finds_least { (s : BoardState) → found_by (look 0) s ≡ s.least }
    ensures split_finds_next { (s : BoardState) → found_by (split 0) s ≡ s.next }
    ensures join_finds_next { (s : BoardState) → found_by (join 0 1) s ≡ s.next }
{}

// A seat is cut off, each of the two claims a piece and the second reports its own, the first looks and is
// told that none is left, and the two are joined.
#[tactic(auto, using(crate::proofs::Runs::one_run))]
fn run()
    ensures { LeadTo (join 0 1 ∷ claim 0 ∷ look 0 ∷ report 1 1 ∷ claim 1 ∷ claim 0 ∷ split 0 ∷ [])
        (first_state 2 2)
        (record {
          next = 3;
          least = 1;
          views = record {
            pieces = 2;
            made = 2;
            stands_for = 2;
            claims = 0 ∷ 1 ∷ [];
            reports = 1 ∷ [];
            looks = 1 ∷ [];
            told = 1;
          } ∷ spent ∷ [];
        }) }
{}

fn steps_that_may_not_be()
    ensures claim_of_the_told { ¬ May (claim 0) (worked [] [] [] 1) }
    ensures report_of_the_unclaimed { ¬ May (report 0 1) (worked (0 ∷ []) [] [] 0) }
    ensures look_of_the_spent { ¬ May (look 0) spent }
    ensures split_of_a_worker { ¬ May (split 0) (worked (0 ∷ []) [] [] 0) }
    ensures join_with_itself { ¬ May (join 0 0) (fresh 2 3 1) }
{}

// States of a board of two pieces and one seat that are not lawful.

fn states_that_are_not_lawful()
    ensures one_piece_claimed_twice { ¬ IsLawful 2 1 claimed_twice }
    ensures a_piece_skipped { ¬ IsLawful 2 1 skipped }
    ensures told_before_all_are_claimed { ¬ IsLawful 2 1 told_early }
    ensures told_twice_for_one_seat { ¬ IsLawful 2 1 told_twice }
    ensures least_above_a_look { ¬ IsLawful 2 1 risen }
    ensures least_that_nobody_reported { ¬ IsLawful 2 1 invented }
{}
