//! Laws of the definitions.

ghost use Rattle.std.specs.Prelude.{◌≡◌, ◌≤◌, ◌⊎◌, ℕ, suc, not, ◌↔◌, IsTrue, IsFalse, [], ◌∷◌, ◌++◌, length};
ghost use Rattle.jp_tree.specs.declared.tree.Start.{Start};
ghost use Rattle.jp_tree.specs.declared.tree.Start.TheVariants.{Root};
ghost use Rattle.jp_tree.specs.Tree.{Text, Query, Segments, Call, query, test, test_call};
ghost use Rattle.jp_tree.specs.Characters.{is_blank, is_bare, is_scalar};
ghost use Rattle.jp_tree.specs.Parts.{Each};
ghost use Rattle.jp_tree.specs.Strings.{IsString};
ghost use Rattle.jp_tree.specs.Spelling.{Spells, LogicalIs, QueryIs, CallIs, begins_with};
ghost use Rattle.jp_tokens.specs.Depth.{bracket_depth, open_brackets};

/// A spelled query starts at the root (RFC 9535, 2.2), and its text begins with `$`.
pub fn starts_at_root()
    ensures start { (t : Text) (start : Start) (ss : Segments) → Spells t (query start ss) → start ≡ Root }
    ensures text { (t : Text) (q : Query) → Spells t q → IsTrue (begins_with 36 t) }
{}

/// No blank stands at the end of a text that spells a query (RFC 9535, 2.1.1).
pub fn ends_in_no_blank()
    ensures { (t : Text) (c : ℕ) (q : Query) → Spells (t ++ c ∷ []) q → IsFalse (is_blank c) }
{}

/// Characters that need no escape between quotes of a kind spell themselves there (RFC 9535, 2.3.1).
pub fn bare_characters()
    ensures double { (t : Text) → Each (is_bare 34) t → IsString (34 ∷ t ++ 34 ∷ []) t }
    ensures single { (t : Text) → Each (is_bare 39) t → IsString (39 ∷ t ++ 39 ∷ []) t }
{}

/// A string literal has one value at most, which holds only scalar values (RFC 9535, 2.3.1).
pub fn string_values()
    ensures one { (t value other : Text) → IsString t value → IsString t other → value ≡ other }
    ensures scalar { (t value : Text) → IsString t value → Each is_scalar value }
{}

/// A logical expression that is a test or a call, and that no parenthesis begins, is that query or that call
/// by itself (RFC 9535, 2.3.5.1).
pub fn arguments_stand_alone()
    ensures query { (levels : ℕ) (t : Text) (q : Query) →
        (LogicalIs (suc levels) t (test q) × IsTrue (not (begins_with 40 t)))
        ↔ QueryIs (LogicalIs levels) t q }
    ensures call { (levels : ℕ) (t : Text) (c : Call) →
        (LogicalIs (suc levels) t (test_call c) × IsTrue (not (begins_with 40 t)))
        ↔ CallIs (LogicalIs levels) t c }
{}

/// The bracket depth of a front of a text is at most that of the text, and no more brackets are open
/// at its end.
pub fn fronts_are_no_deeper()
    ensures front { (s t : Text) → bracket_depth s ≤ bracket_depth (s ++ t) }
    ensures open { (t : Text) → open_brackets t ≤ bracket_depth t }
    ensures length { (t : Text) → bracket_depth t ≤ length t }
{}

/// A text spells at most one tree, and whether it spells one is decided (RFC 9535, 2.1).
pub fn one_tree()
    ensures at_most_one { (t : Text) (p q : Query) → Spells t p → Spells t q → p ≡ q }
    ensures one_or_none { (t : Text) → ((q : Query) × Spells t q) ⊎ ((q : Query) → Spells t q → ⊥) }
{}
