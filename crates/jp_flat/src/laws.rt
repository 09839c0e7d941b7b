//! Laws of the definitions, each proved for every list of members and every value of a flat document.

ghost use Rattle.std.specs.Prelude.{◌≡◌, List, None};
ghost use Rattle.jp_doc.specs.Json.{Text, Json, Members, object, no_members};
ghost use Rattle.jp_doc.specs.Location.{member_at};
ghost use Rattle.jp_doc.specs.Rising.{IsRising};
ghost use Rattle.jp_doc.specs.Tree.{put_member};
ghost use Rattle.jp_flat.specs.Gathered.{NamesRise};
ghost use Rattle.jp_flat.specs.Members.{put_all, last_of};
ghost use Rattle.jp_flat.specs.Value.{flat_value, members_value, entries};
ghost use Rattle.jp_flat.specs.declared.value.FlatMembers.{FlatMembers};
ghost use Rattle.jp_flat.specs.declared.value.FlatValue.{FlatValue};

/// The object of the members that are left is that of these members, put together in the order of the line.
#[tactic(auto, using(crate::proofs::InsideObject::members_are))]
pub fn object_of_the_line()
    ensures { (m : FlatMembers) → members_value m ≡ object (put_all (entries m) no_members) }
{}

/// Of a name that comes more than once, the last member stays.
#[tactic(auto, using(crate::proofs::Entries::last_found))]
pub fn last_of_a_name()
    ensures { (k : Text) (es : List (Text × Json)) → member_at k (put_all es no_members) ≡ last_of k es None }
{}

/// Members that are put together rise, so that each name stands once.
#[tactic(auto, using(crate::proofs::Rising::all_rise, crate::proofs::Rising::rise_put))]
pub fn names_rise()
    ensures one { (k : Text) (v : Json) (ms : Members) → NamesRise ms → NamesRise (put_member k v ms) }
    ensures all { (es : List (Text × Json)) (ms : Members) → NamesRise ms → NamesRise (put_all es ms) }
{}

/// Members that rise, and in which each name has its last value, are those put together: there are no others.
pub fn only_members()
    ensures { (ms : Members) (es : List (Text × Json)) → NamesRise ms
        → ((k : Text) → member_at k ms ≡ last_of k es None) → ms ≡ put_all es no_members }
{}

/// What is true of every value of a flat document, as it is of those of `Document::read`.
#[tactic(auto, using(crate::proofs::Kept::value_rises))]
pub fn values_of_flat_documents()
    ensures rising_names { (v : FlatValue) → IsRising (flat_value v) }
{}
