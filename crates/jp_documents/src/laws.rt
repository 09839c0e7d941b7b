//! Laws of the definitions, each proved for all bytes.

ghost use Rattle.std.specs.Prelude.{◌≡◌, ℕ, Some, List, [], ◌∷◌, ◌++◌, ◌||◌, true, length};
ghost use Rattle.std.specs.List.{concat, list_all, enumerate_from};
ghost use Rattle.json.specs.Json.{Json};
ghost use Rattle.jp_doc.specs.Feeding.{nothing_fed, numbered};
ghost use Rattle.jp_doc.specs.Tree.{tree_of};
ghost use Rattle.jp_documents.specs.Documents.{all_documents, cut, documents};
ghost use Rattle.jp_documents.specs.Documents.{is_blank_byte, is_opening, is_quote};
ghost use Rattle.jp_documents.specs.Feeding.{documents_of_pieces, after_pieces};
ghost use Rattle.jp_documents.specs.Whole.{IsJsonText, IsOneDocument, begins};

/// A JSON text is one document, with nothing but blanks around it, however deep it is nested; and what has a
/// tree by the grammar, as all that is read has, is a JSON text.
#[tactic(auto, using(crate::proofs::JsonLaws::json_text, crate::proofs::JsonLaws::text_of_a_tree))]
pub fn json_text_is_one_document()
    ensures one { (text : List ℕ) → IsJsonText text → IsOneDocument text }
    ensures read { (text : List ℕ) (tree : Json) → tree_of text ≡ Some tree → IsJsonText text }
{}

/// What stands behind a JSON text is cut for itself, where it begins with a blank, an opening bracket or a
/// quote.
#[tactic(auto, using(crate::proofs::JsonLaws::json_texts))]
pub fn json_texts_in_a_row()
    ensures { (a b : List ℕ) (x : ℕ) → IsJsonText a
        → (is_blank_byte x || (is_opening x || is_quote x)) ≡ true
        → all_documents (a ++ x ∷ b) ≡ all_documents a ++ all_documents (x ∷ b) }
{}

/// Where nothing is open behind some bytes, as behind a closing bracket, what follows is cut for itself.
#[tactic(auto, using(crate::proofs::FeedLaws::behind_nothing_open))]
pub fn behind_nothing_open()
    ensures { (a b : List ℕ) → (cut a).open_line ≡ []
        → all_documents (a ++ b) ≡ all_documents a ++ all_documents b }
{}

/// Bytes are cut alike in one piece and in two, where those of the open document are cut again with the
/// second, and so are their documents; and what is open, cut again, is open.
pub fn cut_in_two()
    ensures both { (a b : List ℕ) → cut (a ++ b) ≡ record {
      ended = (cut a).ended ++ (cut ((cut a).open_line ++ b)).ended;
      open_line = (cut ((cut a).open_line ++ b)).open_line;
    } }
    ensures documents { (a b : List ℕ) → all_documents (a ++ b)
        ≡ (cut a).ended ++ all_documents ((cut a).open_line ++ b) }
    ensures still_open { (a : List ℕ) → cut (cut a).open_line
        ≡ record { ended = []; open_line = (cut a).open_line } }
{}

/// What `feed` hands out for pieces that come one after another, and then `finish`, is the documents of the
/// pieces joined; and the count is theirs.
#[tactic(auto, using(crate::proofs::FeedLaws::pieces_documents, crate::proofs::FeedLaws::pieces_count))]
pub fn documents_in_pieces()
    ensures handed_out { (pieces : List (List ℕ)) → documents_of_pieces nothing_fed pieces
        ≡ documents (concat pieces) }
    ensures count { (pieces : List (List ℕ)) → (after_pieces nothing_fed pieces).count
        ≡ length (all_documents (concat pieces)) }
{}

/// No document is blank, nor begins with a blank: so none is left out where blank lines are, and no number is
/// skipped.
#[tactic(auto, using(crate::proofs::BeginLaws::documents_begin, crate::proofs::BeginLaws::all_numbered))]
pub fn no_document_is_blank()
    ensures begin { (bytes : List ℕ) → list_all begins (all_documents bytes) ≡ true }
    ensures numbers { (n : ℕ) (bytes : List ℕ) → numbered n (all_documents bytes)
        ≡ enumerate_from n (all_documents bytes) }
{}
