//! Laws of the definitions, each the contract of a function that does nothing.

ghost use Rattle.std.specs.Prelude.{◌≡◌, ◌≤◌, ℕ, List, [], ◌∷◌, Some, Ok};
ghost use Rattle.std.specs.List.{AllByRecursion};
ghost use Rattle.jp_doc.specs.Json.{Json};
ghost use Rattle.jp_doc.specs.Document.{document_value};
ghost use Rattle.jp_doc.specs.declared.document.Document.{Document};
ghost use Rattle.jp_number.specs.declared.numbers.Numbers.{Numbers};
ghost use Rattle.jp_doc.specs.ReadingIn.{reading_in};
ghost use Rattle.jp_doc.specs.Rising.{IsRising};
ghost use Rattle.jp_doc.specs.Location.{Location, Node, node, value_at};
ghost use Rattle.jp_pattern.specs.Tests.{Tests};
ghost use Rattle.jp_eval.specs.Nodelist.{document_nodes};
ghost use Rattle.jp_tree.specs.Tree.{Query};
ghost use Rattle.jp_tree.specs.Spelling.{Spells};
ghost use Rattle.jp_tokens.specs.Depth.{bracket_depth};
ghost use Rattle.jp_check.specs.Verdict.{IsAccepted};
ghost use Rattle.jp_node.specs.Path.{path_text};
ghost use Rattle.jp_path.specs.PathQuery.{path_query, AreIndexes, AreSteps};

/// The query of a path selects just the node at its location, in every document that has one there.
pub fn path_selects_its_node()
    ensures { (t : Tests) (at : Location) (root v : Json) → AreIndexes at → value_at at root ≡ Some v
        → document_nodes t (path_query at) root ≡ node at v ∷ [] }
{}

/// The text of a path spells the path's query, with one bracket open at most, and is accepted with it.
pub fn path_spells_its_query()
    ensures depth { (at : Location) → AreSteps at → bracket_depth (path_text at) ≤ 1 }
    ensures spells { (at : Location) → AreSteps at → Spells (path_text at) (path_query at) }
    ensures accepted { (at : Location) → AreSteps at → IsAccepted (path_text at) (path_query at) }
    ensures only { (at : Location) (q : Query) → AreSteps at → Spells (path_text at) q → q ≡ path_query at }
{}

/// Where a location leads to a value, the text of its path is accepted with a query whose nodelist is that
/// one node, and each query that the text is accepted with has that nodelist.
pub fn path_text_selects_its_node()
    ensures accepted { (t : Tests) (at : Location) (root v : Json) → AreSteps at → value_at at root ≡ Some v
        → (q : Query) × IsAccepted (path_text at) q × (document_nodes t q root ≡ node at v ∷ []) }
    ensures each { (t : Tests) (at : Location) (root v : Json) (q : Query) → AreSteps at
        → value_at at root ≡ Some v → IsAccepted (path_text at) q → document_nodes t q root ≡ node at v ∷ [] }
{}

/// For each document and each node of it, the verdict of the text of the node's path is accepted with a query
/// whose nodelist on that document is that one node; and so for each node that a query selects, whose path is
/// printed. The steps that lead to a node are such as the other laws speak of.
pub fn printed_paths()
    ensures selected { (t : Tests) (d : Document) (at : Location) (v : Json)
        → value_at at (document_value d) ≡ Some v → (q : Query) × IsAccepted (path_text at) q
        × (document_nodes t q (document_value d) ≡ node at v ∷ []) }
    ensures printed { (t : Tests) (d : Document) (p : Query) → AllByRecursion (λ n. (q : Query)
        × IsAccepted (path_text n.location) q × (document_nodes t q (document_value d) ≡ n ∷ []))
        (document_nodes t p (document_value d)) }
    ensures steps { (d : Document) (at : Location) (v : Json) → value_at at (document_value d) ≡ Some v
        → AreSteps at }
{}

/// The same of each line that is read as a document, whoever reads it and whatever numbers it may have: the
/// text of each path that a query prints of it is accepted with a query whose nodelist on what the line is
/// read as is just the node. The names there rise, and the steps that lead to a node are such as the other
/// laws speak of.
pub fn printed_lines()
    ensures selected { (t : Tests) (n : Numbers) (line : List ℕ) (root : Json) (at : Location) (v : Json)
        → reading_in n line ≡ Ok root → value_at at root ≡ Some v → (q : Query)
        × IsAccepted (path_text at) q × (document_nodes t q root ≡ node at v ∷ []) }
    ensures printed { (t : Tests) (n : Numbers) (line : List ℕ) (root : Json) (p : Query)
        → reading_in n line ≡ Ok root → AllByRecursion (λ m. (q : Query)
        × IsAccepted (path_text m.location) q × (document_nodes t q root ≡ m ∷ []))
        (document_nodes t p root) }
    ensures steps { (n : Numbers) (line : List ℕ) (root : Json) (at : Location) (v : Json)
        → reading_in n line ≡ Ok root → value_at at root ≡ Some v → AreSteps at }
    ensures rising { (n : Numbers) (line : List ℕ) (root : Json) → reading_in n line ≡ Ok root
        → IsRising root }
{}
