//! Laws of the definitions, each proved for every line, location and document.

ghost use Rattle.std.specs.Prelude.{◌≡◌, ℕ, ◌<◌, ◌≤◌, false, not, ◌==◌, IsTrue, List, [], ◌∷◌, ◌++◌, length};
ghost use Rattle.std.specs.Prelude.{Some, None, Ok, Err, option_and_then, option_map, slice_get, Vec, String};
ghost use Rattle.std.specs.Prelude.{IfSome};
ghost use Rattle.std.specs.declared.alloc.Global.{Global};
ghost use Rattle.std.specs.BTreeMap.{BTreeMap};
ghost use Rattle.std.specs.List.{All, list_all, concat};
ghost use Rattle.std.specs.Str.{IsUtf8};
ghost use Rattle.std.specs.Cmp.Lexicographic.{slice_cmp};
ghost use Rattle.std.specs.Ordering.{nat_cmp};
ghost use Rattle.json.specs.Json as grammar;
ghost use Rattle.json.specs.Tree.{HasNumbers};
ghost use Rattle.serde_json.specs.Data.{Data, Members, depth, put};
ghost use Rattle.serde_json.specs.Written.{has_float};
ghost use Rattle.serde_json.specs.View.{view};
ghost use Rattle.serde_json.specs.declared.value.Value.{Value, Array, Object};
ghost use Rattle.jp_doc.specs.DocumentValue.{IsDocumentValue};
ghost use Rattle.jp_doc.specs.Json.{Text, text_cmp, Json, json_of, members_of, value_of, data_of};
ghost use Rattle.jp_doc.specs.Lines.{all_lines, lines, line_count};
ghost use Rattle.jp_doc.specs.Feeding.{cut, last_line, nothing_fed, lines_of_pieces, after_pieces};
ghost use Rattle.jp_doc.specs.Joined.{joined};
ghost use Rattle.jp_doc.specs.Height.{height};
ghost use Rattle.jp_doc.specs.Location.{Step, Location, location_of, step_of, child_at, value_at};
ghost use Rattle.jp_doc.specs.NumbersWithin.{AllNumbers, HasWholeNumbers, HasJsonNumbers};
ghost use Rattle.jp_doc.specs.Reading.{max_line, max_items, has_long_array, crate_reading, reading};
ghost use Rattle.jp_number.specs.declared.numbers.Numbers.{Numbers};
ghost use Rattle.jp_number.specs.declared.numbers.Numbers.TheVariants.{Decimals};
ghost use Rattle.jp_doc.specs.ReadingIn.{tree_reading, reading_in};
ghost use Rattle.jp_doc.specs.Rising.{IsRising, MembersRise, NamesAreUtf8};
ghost use Rattle.jp_doc.specs.Tree.{tree_of, tree_json};
ghost use Rattle.jp_number.specs.Number.{IsShort};
ghost use Rattle.jp_doc.specs.declared.location.Location as code;
ghost use Rattle.jp_doc.specs.declared.fault.DocFault.{DocFault};
ghost use Rattle.jp_doc.specs.declared.fault.DocFault.TheVariants.{LongLine, Unreadable, NotWhole};
ghost use Rattle.jp_doc.specs.declared.fault.DocFault.TheVariants.{LongNumber, LongArray, Memory};

/// Bytes that are cut after a line feed have the lines of the first part, and then those of the second.
#[tactic(auto, using(crate::proofs::LineLaws::lines_of_both))]
pub fn lines_end_whole()
    ensures { (a b : List ℕ) → all_lines ((a ++ 10 ∷ []) ++ b) ≡ all_lines (a ++ 10 ∷ []) ++ all_lines b }
{}

/// No line holds a line feed, and the lines with a line feed behind each are the bytes again, or the bytes
/// and one more line feed where these don't end in one.
#[tactic(auto, using(crate::proofs::LineLaws::joined_whole, crate::proofs::LineLaws::joined_open))]
pub fn no_line_feed_in_a_line()
    ensures no_line_feed { (bytes : List ℕ)
        → IsTrue (list_all (list_all (λ b. not (b == 10))) (all_lines bytes)) }
    ensures ended { (a : List ℕ) → joined (all_lines (a ++ 10 ∷ [])) ≡ a ++ 10 ∷ [] }
    ensures not_ended { (a : List ℕ) (c : ℕ) → (c == 10) ≡ false → joined (all_lines (a ++ c ∷ []))
        ≡ (a ++ c ∷ []) ++ 10 ∷ [] }
{}

/// The fault of a line that is too long, and of no other.
pub fn long_line()
    ensures refused { (line : List ℕ) → max_line < length line → reading line ≡ Err LongLine }
    ensures no_other { (line : List ℕ) → reading line ≡ Err LongLine → max_line < length line }
{}

/// A line that is read has a tree by the grammar alone, which has the value that is read, also where the last
/// member of a name covers a number that is not whole. A line that has no tree is not read. The numbers of a
/// tree have the texts of numbers (RFC 8259, 6).
pub fn tree_of_a_line()
    ensures value { (line : List ℕ) (v : Json) → reading line ≡ Ok v
        → option_map tree_json (tree_of line) ≡ Some v }
    ensures none { (line : List ℕ) → length line ≤ max_line → tree_of line ≡ None
        → reading line ≡ Err Unreadable }
    ensures numbers { (line : List ℕ) (j : grammar.Json) → tree_of line ≡ Some j → HasNumbers j }
{}

/// A line that is read with whole numbers alone is read so with decimals too, and so is the fault of one that
/// is too long.
pub fn read_with_all_numbers()
    ensures value { (n : Numbers) (line : List ℕ) (v : Json) → reading line ≡ Ok v
        → reading_in n line ≡ Ok v }
    ensures long_line { (n : Numbers) (line : List ℕ) → reading line ≡ Err LongLine
        → reading_in n line ≡ Err LongLine }
{}

/// With decimals the grammar alone tells of a line that is not too long: its value where it has one, and else
/// its fault, where `reading` has one, or where that is no number over the limits.
#[tactic(auto, using(crate::proofs::ReadingInLaws::decided_by_tree))]
pub fn read_by_the_grammar()
    ensures value { (line : List ℕ) (v : Json) → length line ≤ max_line → tree_reading line ≡ Ok v
        → reading_in Decimals line ≡ Ok v }
    ensures fault { (line : List ℕ) (f : DocFault) → length line ≤ max_line → reading line ≡ Err f
        → reading_in Decimals line ≡ tree_reading line }
    ensures other_fault { (line : List ℕ) → length line ≤ max_line → ¬ (tree_reading line ≡ Err LongNumber)
        → reading_in Decimals line ≡ tree_reading line }
{}

/// What is true of every value that is read.
pub fn values_that_are_read()
    ensures short_arrays { (n : Numbers) (line : List ℕ) (v : Json) → reading_in n line ≡ Ok v
        → has_long_array max_items v ≡ false }
    ensures nesting { (n : Numbers) (line : List ℕ) (v : Json) → reading_in n line ≡ Ok v → height v ≤ 127 }
    ensures rising_names { (n : Numbers) (line : List ℕ) (v : Json) → reading_in n line ≡ Ok v → IsRising v }
    ensures numbers { (n : Numbers) (line : List ℕ) (v : Json) → reading_in n line ≡ Ok v
        → HasJsonNumbers v }
    ensures short_numbers { (n : Numbers) (line : List ℕ) (v : Json) → reading_in n line ≡ Ok v
        → AllNumbers IsShort v }
{}

/// What each answer of a reading says of the line: a fault is told only where those before it do not apply.
pub fn first_fault()
    ensures unreadable { (line : List ℕ) → reading line ≡ Err Unreadable → (length line ≤ max_line)
        × (crate_reading line ≡ None) }
    ensures not_whole { (line : List ℕ) → reading line ≡ Err NotWhole
        → (length line ≤ max_line) × (d : Data) × (crate_reading line ≡ Some d) × IsTrue (has_float d) }
    ensures long_array { (line : List ℕ) → reading line ≡ Err LongArray
        → (length line ≤ max_line) × (d : Data) × (crate_reading line ≡ Some d) × (has_float d ≡ false)
        × IsTrue (has_long_array max_items (json_of d)) }
    ensures document { (line : List ℕ) (v : Json) → reading line ≡ Ok v
        → (length line ≤ max_line) × (d : Data) × (crate_reading line ≡ Some d) × (has_float d ≡ false)
        × (has_long_array max_items v ≡ false) × (v ≡ json_of d) }
    ensures no_long_number { (line : List ℕ) → ¬ (reading line ≡ Err LongNumber) }
    ensures no_memory { (line : List ℕ) → ¬ (reading line ≡ Err Memory) }
{}

/// A location's steps lead on from where its first steps lead.
#[tactic(auto, using(crate::proofs::LocationLaws::value_at_both))]
pub fn value_at_further()
    ensures { (a b : Location) (v : Json) → value_at (a ++ b) v
        ≡ option_and_then (value_at b) (value_at a v) }
{}

/// A child is less high than its value.
#[tactic(auto, using(crate::proofs::Below::child_below))]
pub fn children_are_below()
    ensures { (s : Step) (v : Json) → IfSome (child_at s v) (λ w. height w < height v) }
{}

/// A `Location` leads by its steps, one for one.
pub fn steps_of_a_location()
    ensures steps { (l : code.Location) (i : ℕ) → slice_get (location_of l) i
        ≡ option_map step_of (slice_get l.steps.items i) }
{}

/// A member that the JSON crate puts among members whose names rise keeps them rising, where the names are
/// UTF-8.
#[tactic(auto, using(crate::proofs::RisingLaws::rise_put, crate::proofs::RisingLaws::utf8_put))]
pub fn names_rise_on_put()
    ensures rising { (k : List ℕ) (d : Data) (ms : Members) → IsUtf8 k → NamesAreUtf8 ms
        → IsRising (json_of d) → MembersRise (members_of ms) → MembersRise (members_of (put k d ms)) }
    ensures utf8 { (k : List ℕ) (d : Data) (ms : Members) → IsUtf8 k → NamesAreUtf8 ms
        → NamesAreUtf8 (put k d ms) }
{}

/// The lines are those that end in a line feed, and what follows the last line feed if it is not empty.
#[tactic(auto, using(crate::proofs::CutLaws::lines_cut))]
pub fn last_line_is_open()
    ensures { (bytes : List ℕ) → all_lines bytes ≡ (cut bytes).ended ++ last_line (cut bytes).open_line }
{}

/// What `feed` hands out for pieces that come one after another, and then `finish`, is the lines of the
/// pieces joined; and the count is theirs.
pub fn lines_in_pieces()
    ensures handed_out { (pieces : List (List ℕ)) → lines_of_pieces nothing_fed pieces
        ≡ lines (concat pieces) }
    ensures count { (pieces : List (List ℕ)) → (after_pieces nothing_fed pieces).count
        ≡ line_count (concat pieces) }
    ensures none_open { (pieces : List (List ℕ)) → (after_pieces nothing_fed pieces).open_line ≡ [] }
{}

/// A value of the JSON crate with no float is what its abstract value gives back.
#[tactic(auto, using(crate::proofs::BackLaws::value_back))]
pub fn value_gives_back()
    ensures { (v : Value) → has_float (view v) ≡ false → data_of (value_of v) ≡ view v }
{}

/// The numbers of a document are whole, and whole numbers are numbers of RFC 8259 (6).
#[tactic(auto, using(crate::proofs::NumberLaws::json_is_whole, crate::proofs::NumberLaws::json_numbers))]
pub fn numbers_of_documents()
    ensures read { (line : List ℕ) (v : Json) → reading line ≡ Ok v → HasWholeNumbers v }
    ensures crate_values { (v : Value) → HasWholeNumbers (value_of v) }
    ensures json { (v : Json) → HasWholeNumbers v → HasJsonNumbers v }
{}

/// The order of texts by the bytes of their UTF-8 is that by their scalar values.
#[tactic(auto, using(crate::proofs::OrderLaws::text_order))]
pub fn text_order()
    ensures { (s t : Text) → text_cmp s t ≡ slice_cmp nat_cmp s t }
{}

/// The items and the members of a value of a document are values of the document.
pub fn values_inside()
    ensures items { (vs : Vec Value Global) → IsDocumentValue (Array vs) → All IsDocumentValue vs.items }
    ensures members { (ms : BTreeMap (String Global) Value) → IsDocumentValue (Object ms)
        → All (λ m. IsDocumentValue m.1) ms.entries }
{}

/// What is true of every value of a document.
pub fn values_of_documents()
    ensures whole_numbers { (v : Value) → IsDocumentValue v → has_float (view v) ≡ false }
    ensures short_arrays { (v : Value) → IsDocumentValue v → has_long_array max_items (value_of v) ≡ false }
    ensures nesting { (v : Value) → IsDocumentValue v → depth (view v) ≤ 127 }
    ensures rising_names { (v : Value) → IsDocumentValue v → IsRising (value_of v) }
{}
