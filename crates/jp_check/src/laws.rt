//! Laws of the definitions, each the contract of a function that does nothing.

ghost use Rattle.std.specs.Prelude.{◌≡◌, ◌≤◌, ◌↔◌, ◌&&◌, Result, Ok, Err, true, false};
ghost use Rattle.jp_number.specs.declared.numbers.Numbers.{Numbers};
ghost use Rattle.jp_number.specs.declared.numbers.Numbers.TheVariants.{Decimals};
ghost use Rattle.jp_tree.specs.Tree.{Text, Query, Logical};
ghost use Rattle.jp_tree.specs.Spelling.{Spells};
ghost use Rattle.jp_tokens.specs.Depth.{bracket_depth, max_depth};
ghost use Rattle.jp_tree.specs.declared.fault.QueryFault.{QueryFault};
ghost use Rattle.jp_tree.specs.declared.fault.QueryFault.TheVariants.{TooDeep, Syntax, Fraction, Range};
ghost use Rattle.jp_tree.specs.declared.fault.QueryFault.TheVariants.{IllTyped, Memory};
ghost use Rattle.jp_types.specs.Numbers.{are_whole, has_fraction, in_range_in};
ghost use Rattle.jp_types.specs.Typing.{query_typed};
ghost use Rattle.jp_check.specs.Verdict.{verdict_of, verdict_in, IsAccepted, IsAcceptedIn, IsVerdictIn};
ghost use Rattle.jp_check.specs.Filter.{IsFilterVerdictIn};

/// A tree is accepted where it has no fraction that is refused, its numbers are in range and it is
/// well-typed, and then as it is. Where literals may be all numbers, no fraction is refused.
#[tactic(auto, using(crate::proofs::Verdicts::accepts, crate::proofs::Verdicts::accepts_only))]
pub fn accepted_tree()
    ensures accepted { (numbers : Numbers) (q : Query) → (are_whole numbers && has_fraction q) ≡ false
        → in_range_in numbers q ≡ true → query_typed q ≡ true → verdict_in numbers q ≡ Ok q }
    ensures only { (numbers : Numbers) (q p : Query) → verdict_in numbers q ≡ Ok p → (p ≡ q)
        × ((are_whole numbers && has_fraction q) ≡ false) × (in_range_in numbers q ≡ true)
        × (query_typed q ≡ true) }
{}

/// Each refusal of a tree is told only where those before it do not apply, and no other is told of a tree.
pub fn refused_tree()
    ensures fraction { (numbers : Numbers) (q : Query) → verdict_in numbers q ≡ Err Fraction
        ↔ ((are_whole numbers && has_fraction q) ≡ true) }
    ensures range { (numbers : Numbers) (q : Query) → verdict_in numbers q ≡ Err Range
        ↔ (((are_whole numbers && has_fraction q) ≡ false) × (in_range_in numbers q ≡ false)) }
    ensures ill_typed { (numbers : Numbers) (q : Query) → verdict_in numbers q ≡ Err IllTyped
        ↔ (((are_whole numbers && has_fraction q) ≡ false) × (in_range_in numbers q ≡ true)
        × (query_typed q ≡ false)) }
    ensures no_other { (numbers : Numbers) (q : Query) → (verdict_in numbers q ≡ Err TooDeep → ⊥)
        × (verdict_in numbers q ≡ Err Syntax → ⊥) × (verdict_in numbers q ≡ Err Memory → ⊥) }
{}

/// A text is accepted with a tree exactly where its brackets are nested at most 64 deep and it spells the
/// tree, which has no fraction that is refused, whose numbers are in range, and which is well-typed.
#[tactic(auto, using(crate::proofs::Verdicts::accepts_text))]
pub fn accepted_text()
    ensures { (numbers : Numbers) (t : Text) (q : Query) → IsAcceptedIn numbers t q
        ↔ ((bracket_depth t ≤ max_depth) × Spells t q × ((are_whole numbers && has_fraction q) ≡ false)
        × (in_range_in numbers q ≡ true) × (query_typed q ≡ true)) }
{}

/// A text has at most one verdict: what is accepted is not refused, and a refusal has one fault.
#[tactic(auto, using(crate::proofs::OneVerdict::one_verdict))]
pub fn one_verdict()
    ensures { (numbers : Numbers) (t : Text) (r s : Result Query QueryFault) → IsVerdictIn numbers t r
        → IsVerdictIn numbers t s → r ≡ s }
{}

/// What is accepted where literals are whole is accepted, as the same tree, where they may be all numbers.
#[tactic(auto, using(crate::proofs::WithDecimals::tree_accepted, crate::proofs::WithDecimals::text_accepted))]
pub fn accepted_with_decimals()
    ensures tree { (q : Query) → verdict_of q ≡ Ok q → verdict_in Decimals q ≡ Ok q }
    ensures text { (t : Text) (q : Query) → IsAccepted t q → IsAcceptedIn Decimals t q }
{}

/// A text has at most one verdict as a filter.
#[tactic(auto, using(crate::proofs::FilterVerdicts::one_filter_verdict))]
pub fn one_filter_verdict()
    ensures { (numbers : Numbers) (t : Text) (r s : Result Logical QueryFault)
        → IsFilterVerdictIn numbers t r → IsFilterVerdictIn numbers t s → r ≡ s }
{}
