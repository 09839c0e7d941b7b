//! Laws of the definitions, each the contract of a function that does nothing.

ghost use Rattle.std.specs.Prelude.{◌≡◌, ◌++◌, List, Some};
ghost use Rattle.std.specs.List.{AllByRecursion};
ghost use Rattle.jp_doc.specs.Json.{Json};
ghost use Rattle.jp_doc.specs.Location.{Node, value_at};
ghost use Rattle.jp_doc.specs.NumbersWithin.{HasWholeNumbers, HasJsonNumbers};
ghost use Rattle.jp_doc.specs.Rising.{IsRising};
ghost use Rattle.jp_tree.specs.Tree.{Query, Segment, segments, query_from};
ghost use Rattle.jp_tree.specs.declared.tree.Start.{Start};
ghost use Rattle.jp_tree.specs.declared.tree.Start.TheVariants.{Root};
ghost use Rattle.jp_pattern.specs.Tests.{Tests};
ghost use Rattle.jp_eval.specs.Nodelist.{nodelist, through, document_nodes};

/// The nodelist of a query with more segments behind it is what these make of its nodelist.
pub fn further_segments()
    ensures { (t : Tests) (root : Json) (start : Start) (ss more : List Segment) (current : Node) →
        nodelist t root (query_from start (ss ++ more)) current
        ≡ through t root (segments more) (nodelist t root (query_from start ss) current) }
{}

/// What a query from the root selects does not depend on the current node.
pub fn root_queries()
    ensures { (t : Tests) (root : Json) (ss : List Segment) (current other : Node) →
        nodelist t root (query_from Root ss) current ≡ nodelist t root (query_from Root ss) other }
{}

/// In a document whose objects have each name once, a location in the nodelist leads to the value that it is
/// listed with.
pub fn nodes_stand_there()
    ensures { (t : Tests) (q : Query) (root : Json) → IsRising root →
        AllByRecursion (λ n. value_at n.location root ≡ Some n.value) (document_nodes t q root) }
{}

/// Where all numbers of a document are whole, or are those of RFC 8259 (6), so are those within the value of
/// each node in the nodelist.
pub fn numbers_of_nodes()
    ensures whole { (t : Tests) (q : Query) (root : Json) → HasWholeNumbers root →
        AllByRecursion (λ n. HasWholeNumbers n.value) (document_nodes t q root) }
    ensures json { (t : Tests) (q : Query) (root : Json) → HasJsonNumbers root →
        AllByRecursion (λ n. HasJsonNumbers n.value) (document_nodes t q root) }
{}
