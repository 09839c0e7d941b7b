//! Laws of the definitions.

ghost use Rattle.std.specs.Prelude.{◌≡◌, ◌↔◌, ◌⊎◌, ℕ, IsTrue, true, false, not, List, []};
ghost use Rattle.std.specs.List.{AllByRecursion};
ghost use Rattle.unicode.specs.declared.properties.GeneralCategory.{GeneralCategory};
ghost use Rattle.jp_pattern.specs.Pattern.{Text, Element, Pattern, category, class, group, either};
ghost use Rattle.jp_pattern.specs.CharSets.{is_scalar, in_set};
ghost use Rattle.jp_pattern.specs.Shape.{Shapes};
ghost use Rattle.jp_pattern.specs.Profile.{InProfile, size};
ghost use Rattle.jp_pattern.specs.Language.{Member, Matches, Found};
ghost use Rattle.jp_automaton.specs.Held.{pattern_of};
ghost use Rattle.jp_pattern.specs.Tests.{Tests, AreRight};

use jp_automaton::Pattern as Held;

/// A text has at most one tree, and it is decided whether it has one.
pub fn one_tree()
    ensures at_most_one { (text : Text) (p q : Pattern) → Shapes text p → Shapes text q → p ≡ q }
    ensures one_or_none { (text : Text) → ((p : Pattern) × Shapes text p) ⊎ ((p : Pattern) → Shapes text p
        → ⊥) }
{}

/// What is negated holds every other character.
pub fn negated_holds_the_others()
    ensures of_class { (elements : List Element) (c : ℕ) → IsTrue (is_scalar c) → in_set (class true
        elements) c ≡ not
        (in_set (class false elements) c) }
    ensures of_category { (categories : List GeneralCategory) (c : ℕ) → IsTrue (is_scalar c) → in_set
        (category true
        categories) c ≡ not (in_set (category false categories) c) }
{}

/// What a pattern has consists of characters.
pub fn members_are_characters()
    ensures { (p : Pattern) (t : Text) → Member p t → AllByRecursion (λ c. IsTrue (is_scalar c)) t }
{}

/// Parentheses change no language.
pub fn language_of_group()
    ensures { (p : Pattern) (t : Text) → Member (group p) t ↔ Member p t }
{}

/// The language of branches is the union of theirs.
pub fn language_of_either()
    ensures { (p q : Pattern) (t : Text) → Member (either p q) t ↔ (Member p t ⊎ Member q t) }
{}

/// A pattern of size 0 has the empty text alone.
pub fn language_of_size_zero()
    ensures { (p : Pattern) (t : Text) → InProfile p → size p ≡ 0 → (Member p t ↔ (t ≡ [])) }
{}

/// What matches is found, and where the empty text matches, every text is found.
pub fn matches_is_found()
    ensures whole { (text pattern_text : Text) → Matches text pattern_text → Found text pattern_text }
    ensures nothing { (text pattern_text : Text) → Matches [] pattern_text → Found text pattern_text }
{}

/// A pattern that was read keeps within the limits: its counts, its depth and its size.
pub fn held_in_profile(pattern: &Held)
    ensures { InProfile (pattern_of pattern.now) }
{}

/// There are tests that answer as the language says, so what is said of all of them is said of some.
pub fn right_tests_exist()
    ensures { (t : Tests) × AreRight t }
{}
