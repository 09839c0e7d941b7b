//! Laws of the states of a board and of its events, and of what a tally says.

ghost use Rattle.std.specs.Prelude.{◌≡◌, ℕ, ◌+◌, ◌<◌, ◌≤◌, List, [], length, Contains};
ghost use Rattle.jp_board.specs.declared.view.View.{View};
ghost use Rattle.jp_board.specs.Events.{BoardState, Event, Happens, LeadTo, IsReached, first_state};
ghost use Rattle.jp_board.specs.Lawful.{IsLawful};
ghost use Rattle.jp_board.specs.Limits.{max_pieces, max_seats};
ghost use Rattle.jp_board.specs.Tally.{Tallies};
ghost use Rattle.jp_board.specs.Together.{all_claims, all_reports, times_told};

/// The first state of a board is lawful.
#[tactic(auto, using(crate::proofs::Parts::first_lawful))]
pub fn first_state_is_lawful()
    ensures { (pieces made : ℕ) → pieces ≤ max_pieces → made ≤ max_seats
        → IsLawful pieces made (first_state pieces made) }
{}

/// Each event, a claim, a report, a look, a split or a join, leads from a lawful state to a lawful one. So
/// do any events, one after another, and so each state that they reach is lawful.
pub fn events_keep_lawful()
    ensures one { (pieces made : ℕ) (e : Event) (s t : BoardState) → IsLawful pieces made s → Happens e s t
        → IsLawful pieces made t }
    ensures some { (pieces made : ℕ) (es : List Event) (s t : BoardState) → IsLawful pieces made s
        → LeadTo es s t
        → IsLawful pieces made t }
    ensures reached { (pieces made : ℕ) (s : BoardState) → pieces ≤ max_pieces → made ≤ max_seats
        → IsReached pieces made s
        → IsLawful pieces made s }
{}

/// In a lawful state the word `next` is at most the number of pieces and 64 more, so that no claim makes it
/// wrap; and `least` is at most the number of pieces.
pub fn words_in_range()
    ensures next { (pieces made : ℕ) (s : BoardState) → IsLawful pieces made s → s.next ≤ pieces + max_seats }
    ensures least { (pieces made : ℕ) (s : BoardState) → IsLawful pieces made s → s.least ≤ pieces }
{}

/// Of a tally: `least` is the least report, or the number of pieces where nothing was reported; and what was
/// reported is below `claimed`.
pub fn least_of_a_tally()
    ensures reported { (pieces claimed least x : ℕ) (views : List View) → Tallies pieces claimed least views
        → Contains (all_reports views) x → Contains (all_reports views) least }
    ensures lowest { (pieces claimed least x : ℕ) (views : List View) → Tallies pieces claimed least views
        → Contains (all_reports views) x → least ≤ x }
    ensures none { (pieces claimed least : ℕ) (views : List View) → Tallies pieces claimed least views
        → all_reports views ≡ [] → least ≡ pieces }
    ensures below { (pieces claimed least x : ℕ) (views : List View) → Tallies pieces claimed least views
        → Contains (all_reports views) x → x < claimed }
{}

/// Of a tally: the claims are the numbers below `claimed`, as many as these, and all pieces are claimed
/// where any seat was told that none is left.
pub fn claims_of_a_tally()
    ensures each { (pieces claimed least x : ℕ) (views : List View) → Tallies pieces claimed least views
        → x < claimed → Contains (all_claims views) x }
    ensures below { (pieces claimed least x : ℕ) (views : List View) → Tallies pieces claimed least views
        → Contains (all_claims views) x → x < claimed }
    ensures once { (pieces claimed least : ℕ) (views : List View) → Tallies pieces claimed least views
        → length (all_claims views) ≡ claimed }
    ensures all { (pieces claimed least x : ℕ) (views : List View) → Tallies pieces claimed least views
        → 0 < times_told views → x < pieces → Contains (all_claims views) x }
{}
