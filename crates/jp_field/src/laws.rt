//! Laws of the definitions, each the contract of a function that does nothing.

ghost use Rattle.std.specs.Prelude.{◌≡◌, ℕ, List, Some, option_to_list, map};
ghost use Rattle.jp_doc.specs.Json.{Json};
ghost use Rattle.jp_doc.specs.Location.{Node};
ghost use Rattle.jp_tree.specs.Singular.{is_singular};
ghost use Rattle.jp_tree.specs.Tree.{Query, Segments, Text, query};
ghost use Rattle.jp_tree.specs.declared.fault.QueryFault.{QueryFault};
ghost use Rattle.jp_tree.specs.declared.tree.Start.{Start};
ghost use Rattle.jp_tree.specs.declared.tree.Start.TheVariants.{Current};
ghost use Rattle.jp_pattern.specs.Tests.{Tests};
ghost use Rattle.jp_eval.specs.Nodelist.{nodelist};
ghost use Rattle.jp_output.specs.Rows.{Path, field_value};
ghost use Rattle.std.specs.Prelude.{is_some};
ghost use Rattle.jp_field.specs.FieldText.{AreFields, IsFieldRefused, IsFieldText, path_in, path_of};

/// The value of a field is that of the node in the nodelist of its query, where `@` is the node that has the
/// field (RFC 9535, 2.3.5): one where there is a value, and none where there is none.
pub fn values_of_nodelists()
    ensures { (t : Tests) (root : Json) (ss : Segments) (path : Path) (n : Node) → path_in ss ≡ Some path
        → map (λ m. m.value) (nodelist t root (query Current ss) n)
        ≡ option_to_list (field_value path n.value) }
{}

/// A query has steps exactly where it is singular (RFC 9535, 2.3.5.1).
pub fn singular_queries()
    ensures { (q : Query) → is_some (path_of q) ≡ is_singular q }
{}

/// A text is one field at most, and is not refused then; and so are texts.
pub fn one_field()
    ensures one { (t : Text) (f g : Path) → IsFieldText t f → IsFieldText t g → f ≡ g }
    ensures not_refused { (t : Text) (f : Path) (fault : QueryFault) → IsFieldText t f
        → IsFieldRefused t fault → ⊥ }
    ensures each { (ts : List (List ℕ)) (fs gs : List Path) → AreFields ts fs → AreFields ts gs → fs ≡ gs }
{}
