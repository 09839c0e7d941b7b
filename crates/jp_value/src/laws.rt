//! Laws of the definitions, each the contract of a function that does nothing.

ghost use Rattle.std.specs.Prelude.{◌≡◌, ◌↔◌, ◌||◌, IsTrue, List, Option, Some, None, false};
ghost use Rattle.std.specs.Cmp.{IsEquivalence};
ghost use Rattle.std.specs.List.{AllPairs, list_any};
ghost use Rattle.jp_pattern.specs.Tests.{AreRight};
ghost use Rattle.jp_doc.specs.Json.{Text, Json, Members, object};
ghost use Rattle.jp_doc.specs.Location.{Location, Node, member_at};
ghost use Rattle.jp_doc.specs.NumbersWithin.{HasWholeNumbers};
ghost use Rattle.jp_doc.specs.Rising.{MembersRise};
ghost use Rattle.jp_value.specs.Comparison.{eq, lt, le};
ghost use Rattle.jp_value.specs.Functions.{same_location, same_place, distinct};
ghost use Rattle.jp_value.specs.RightTests.{tests};

/// `==` is an equivalence; of values in which all numbers are whole it is equality, where two texts may write
/// one number; it holds of two nothings; `a <= b` is `a < b` or `a == b`.
pub fn comparison()
    ensures equivalence { IsEquivalence eq }
    ensures equality { (v w : Json) → HasWholeNumbers v → HasWholeNumbers w
        → IsTrue (eq (Some v) (Some w)) ↔ (v ≡ w) }
    ensures reflexive { (v : Json) → IsTrue (eq (Some v) (Some v)) }
    ensures nothings { IsTrue (eq None None) }
    ensures below_or_equal { (a b : Option Json) → le a b ≡ (lt a b || eq a b) }
{}

/// Objects whose names rise, as those of a document do, are equal exactly where each name has equal values in
/// both, or stands in neither.
#[tactic(auto, using(crate::proofs::MembersByName::objects_by_name))]
pub fn objects()
    ensures { (ms ns : Members) → MembersRise ms → MembersRise ns
        → IsTrue (eq (Some (object ms)) (Some (object ns)))
        ↔ ((k : Text) → IsTrue (eq (member_at k ms) (member_at k ns))) }
{}

/// Two locations are the same, step by step, exactly where they are equal.
#[tactic(auto, using(crate::proofs::SamePlaces::same_is_equal))]
pub fn locations()
    ensures { (l m : Location) → IsTrue (same_location l m) ↔ (l ≡ m) }
{}

/// What `distinct` leaves of nodes has no two at one location, and has each location of theirs.
#[tactic(auto, using(crate::proofs::SamePlaces::each_once, crate::proofs::SamePlaces::each_there))]
pub fn distinct_nodes()
    ensures once { (ns : List Node) → AllPairs (λ m n. same_place m n ≡ false) (distinct ns) }
    ensures each { (ns : List Node) (n : Node) → list_any (same_place n) (distinct ns)
        ≡ list_any (same_place n) ns }
{}

/// The tests that the contracts of `match` and `search` name answer as the language of a pattern says (RFC
/// 9535, 2.4.6 and 2.4.7).
#[tactic(auto, using(crate::specs::RightTests::are_right))]
pub fn right_tests()
    ensures { AreRight tests }
{}
