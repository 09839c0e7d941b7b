//! Laws of the definitions, each the contract of a function that does nothing.

ghost use Rattle.std.specs.Prelude.{◌≡◌, ◌+◌, ◌↔◌, ℕ, List, [], ◌++◌, None, Some};
ghost use Rattle.jp_number.specs.declared.numbers.Numbers.{Numbers};
ghost use Rattle.jp_number.specs.declared.numbers.Numbers.TheVariants.{Whole, Decimals};
ghost use Rattle.jp_doc.specs.Lines.{Line, lines};
ghost use Rattle.jp_doc.specs.declared.fault.DocFault.{DocFault};
ghost use Rattle.jp_documents.specs.Documents as over_lines;
ghost use Rattle.jp_tree.specs.Tree.{Text};
ghost use Rattle.jp_pattern.specs.Tests.{Tests, AreRight};
ghost use Rattle.jp_output.specs.Layouts.{laid_out};
ghost use Rattle.jp_output.specs.OutputForm.{node_lines};
ghost use Rattle.jp_output.specs.Rows.{Path};
ghost use Rattle.jp_output.specs.declared.layout.Ending.{Ending};
ghost use Rattle.jp_output.specs.declared.layout.Layout.{Layout};
ghost use Rattle.jp_answer.specs.Answer.{Answer, answer_by};
ghost use Rattle.jp_answer.specs.Faults.{first_fault};
ghost use Rattle.jp_answer.specs.FilteredQuery.{FilteredQuery};
ghost use Rattle.jp_answer.specs.Policy.{policy};
ghost use Rattle.jp_answer.specs.declared.on_fault.OnFault.{OnFault};
ghost use Rattle.jp_answer.specs.declared.on_fault.OnFault.TheVariants.{Stop};
ghost use Rattle.jp_run.specs.Answered.{IsAnswerBy, IsAnswerTo};
ghost use Rattle.jp_run.specs.AskedTexts.{AskedTexts, AreAcceptedIn, query_alone};
ghost use Rattle.jp_run.specs.Cutting.{Numbering, cut, documents, from_one, last_number};
ghost use Rattle.jp_run.specs.Forms.{form_of};
ghost use Rattle.jp_run.specs.Manner.{Manner, manner, manner_behind};
ghost use Rattle.jp_run.specs.Selecting.{SelectsNothing};
ghost use Rattle.jp_run.specs.declared.cutting.Cutting.TheVariants.{Lines, Documents};
ghost use Rattle.jp_run.specs.declared.output.Output.{Output};
ghost use Rattle.jp_run.specs.declared.output.Output.TheVariants.{Nodes};

/// The answer to a query's text over a stream of lines, in the form of nodes behind no name, is the answer in
/// output lines, whether or not it keeps going, and whichever numbers it has; and where numbers are whole and
/// it does not keep going, the answer that ends at the first faulty line.
pub fn forms()
    ensures stops { (text : Text) (ending : Ending) (fields : List Path) (input : List ℕ) (a : Answer)
        → IsAnswerBy (manner (from_one Lines) (form_of Nodes (laid_out [] ending fields)) (policy Whole Stop))
        (query_alone text) input a
        → IsAnswerTo text input a }
    ensures nodes { (n : Numbers) (k : OnFault) (asked : AskedTexts) (ending : Ending)
        (fields : List Path) (input : List ℕ) (a : Answer)
        → IsAnswerBy (manner (from_one Lines) (form_of Nodes (laid_out [] ending fields)) (policy n k))
        asked input a
        → (q : FilteredQuery) × AreAcceptedIn n asked q
        × ((t : Tests) → AreRight t → answer_by node_lines (policy n k) t q (lines input) ≡ a) }
{}

/// Where no document of the input is faulty by whole numbers alone, the answer with decimals is the same, in
/// every form, in any layout, whether or not it keeps going, however the input is cut and numbered.
/// So a run that meets no faulty document writes the same with them.
pub fn same_with_decimals()
    ensures { (n : Numbering) (output : Output) (layout : Layout) (k : OnFault) (asked : AskedTexts)
        (input : List ℕ) (a : Answer) → first_fault Whole (documents n input) ≡ None
        → IsAnswerBy (manner n (form_of output layout) (policy Whole k)) asked input a
        → IsAnswerBy (manner n (form_of output layout) (policy Decimals k)) asked input a }
{}

/// Where no line is faulty an answer has no byte exactly where no node of any document is selected: in every
/// form, in any layout, whichever numbers it has, whether or not it keeps going.
pub fn nothing_selected()
    ensures { (output : Output) (layout : Layout) (n : Numbers) (k : OnFault) (t : Tests) (q : FilteredQuery)
        (ls : List Line) → first_fault n ls ≡ None
        → ((answer_by (form_of output layout) (policy n k) t q ls).bytes ≡ []) ↔ SelectsNothing n t q ls }
{}

/// Parts that are numbered from 1 are the lines of `jp_doc`, or the documents of `jp_documents`.
pub fn numbered_from_one()
    ensures lines { (input : List ℕ) → documents (from_one Lines) input ≡ lines input }
    ensures documents { (input : List ℕ) → documents (from_one Documents) input
        ≡ over_lines.documents input }
{}

/// An input that is cut in two where nothing is open, as behind the end of a line: the answer to it is that
/// to the first part where this stops, and else that and then the answer to the second part, numbered behind
/// the parts of the first; in every form, by every policy, however it is cut and numbered.
///
/// So a large file can be answered in parts, each by a run of its own that is told the number of its first
/// line: the answers one after another are the answer to the file. And the last number of the whole is that
/// of the second part.
pub fn parts()
    ensures goes_on { (going : Manner) (asked : AskedTexts) (xs ys : List ℕ) (a b : Answer)
        → (cut going.numbering.cutting xs).open_line ≡ [] → a.stopped ≡ None
        → IsAnswerBy going asked xs a → IsAnswerBy (manner_behind going xs) asked ys b
        → IsAnswerBy going asked (xs ++ ys) (record {
          bytes = a.bytes ++ b.bytes;
          stopped = b.stopped;
          faulty = a.faulty + b.faulty;
        }) }
    ensures stops { (going : Manner) (asked : AskedTexts) (xs ys : List ℕ) (a : Answer) (s : ℕ × DocFault)
        → (cut going.numbering.cutting xs).open_line ≡ [] → a.stopped ≡ Some s
        → IsAnswerBy going asked xs a → IsAnswerBy going asked (xs ++ ys) a }
    ensures numbers { (going : Manner) (xs ys : List ℕ) → (cut going.numbering.cutting xs).open_line ≡ []
        → last_number going.numbering (xs ++ ys) ≡ last_number (manner_behind going xs).numbering ys }
{}
