//! Laws of the definitions, each the contract of a function that does nothing.

ghost use Rattle.std.specs.Prelude.{◌≡◌, ◌≢◌, ◌↔◌, ℕ, false, List, [], ◌∷◌, ◌++◌, length};
ghost use Rattle.std.specs.List.{AllByRecursion, fold, flat_map};
ghost use Rattle.serde_json.specs.View.{view};
ghost use Rattle.serde_json.specs.Written.{has_float, compact_text};
ghost use Rattle.serde_json.specs.declared.value.Value.{Value};
ghost use Rattle.jp_doc.specs.Json.{Text, Json, text, value_of, data_of};
ghost use Rattle.jp_doc.specs.Lines.{Line};
ghost use Rattle.jp_doc.specs.Location.{Location, Node, node};
ghost use Rattle.jp_doc.specs.NumbersWithin.{HasWholeNumbers, HasJsonNumbers};
ghost use Rattle.jp_doc.specs.declared.fault.DocFault.{DocFault};
ghost use Rattle.jp_output.specs.FaultLine.{fault_line};
ghost use Rattle.jp_output.specs.Fields.{times, HasThreeFields, AreLinesOfThree, IsOneLine, third_fields};
ghost use Rattle.jp_output.specs.Fields.{HasFourFields, AreLinesOfFour, IsFieldName, NodesHaveJsonNumbers};
ghost use Rattle.jp_output.specs.Fields.{IsEndedOnceBy, lines_ended_by};
ghost use Rattle.jp_output.specs.NumberedLines.{of_documents, lines_of_documents, AreNumberedAbove};
ghost use Rattle.jp_output.specs.NumberedLines.{first_fields, lines_numbered};
ghost use Rattle.jp_output.specs.OutputForm.{node_lines, node_lines_behind, value_lines, text_lines};
ghost use Rattle.jp_output.specs.OutputForm.{input_lines, row_lines, values_ended_by};
ghost use Rattle.jp_output.specs.OutputLine.{value_text, node_line, put_line, value_line, ended_by};
ghost use Rattle.jp_output.specs.RawText.{raw_text, HasNoNull, NodesHaveNoNull};
ghost use Rattle.jp_output.specs.Rows.{Path, row_line};
ghost use Rattle.jp_output.specs.UnquotedText.{text_line, unquoted_text};

/// The compact text of a value whose numbers are whole is the text that the JSON crate writes of it, and so
/// of each value of the crate whose numbers are.
pub fn text_of_the_crate()
    ensures of_a_value { (v : Json) → HasWholeNumbers v → value_text v ≡ compact_text (data_of v) }
    ensures of_a_crate_value { (v : Value) → has_float (view v) ≡ false
        → value_text (value_of v) ≡ compact_text (view v) }
{}

/// An output line has three fields, of whatever node whose numbers are those of RFC 8259 (as all numbers of a
/// document are), and so has a fault line: two tabs, and one line feed, which is the last byte. So the lines
/// of several nodes can be cut at line feeds and each line at its tabs, and there are as many as nodes.
pub fn three_fields()
    ensures node { (number : ℕ) (n : Node) → HasJsonNumbers n.value → HasThreeFields (node_line number n) }
    ensures fault { (number : ℕ) (f : DocFault) → HasThreeFields (fault_line number f) }
    ensures nodes { (number : ℕ) (ns : List Node) → NodesHaveJsonNumbers ns
        → AreLinesOfThree (flat_map (node_line number) ns) }
    ensures one_each { (number : ℕ) (ns : List Node) → NodesHaveJsonNumbers ns
        → times 10 (flat_map (node_line number) ns) ≡ length ns }
{}

/// With no bytes for a head the form of output lines behind a head is that of output lines.
pub fn no_head()
    ensures { node_lines_behind [] ≡ node_lines }
{}

/// A line of three fields has four behind a name, which has no tab and no line feed, and a tab: three tabs,
/// and one line feed, which is the last byte. So have all lines of the form of output lines behind a name and
/// a tab, of whatever nodes whose numbers are those of RFC 8259, and of a faulty line. There are as many as
/// nodes.
pub fn four_fields()
    ensures behind_a_name { (name line : List ℕ) → IsFieldName name → HasThreeFields line
        → HasFourFields (name ++ 9 ∷ line) }
    ensures nodes { (name : List ℕ) (l : Line) (ns : List Node) → IsFieldName name → NodesHaveJsonNumbers ns
        → AreLinesOfFour ((node_lines_behind (name ++ 9 ∷ [])).of_document l ns) }
    ensures fault { (name : List ℕ) (number : ℕ) (f : DocFault) → IsFieldName name
        → HasFourFields ((node_lines_behind (name ++ 9 ∷ [])).of_fault number f) }
    ensures one_each { (name : List ℕ) (l : Line) (ns : List Node) → IsFieldName name
        → NodesHaveJsonNumbers ns
        → times 10 ((node_lines_behind (name ++ 9 ∷ [])).of_document l ns) ≡ length ns }
{}

/// The lines that a visitor writes of several nodes are those of each in turn, each behind the head, and all
/// behind what stood there.
#[tactic(auto, using(crate::specs::inner::Taken::lines_fold))]
pub fn lines_of_nodes()
    ensures { (head : List ℕ) (number : ℕ) (bytes : List ℕ) (ns : List Node)
        → fold put_line (head, number, bytes) ns
        ≡ (head, number, bytes ++ flat_map (λ n. head ++ node_line number n) ns) }
{}

/// The form of values has the third fields of the form of output lines, of whatever nodes, in their order and
/// each as often, as `cut -f3` gives them. Each is one line, and there are as many as nodes.
pub fn values_are_third_fields()
    ensures third { (l : Line) (ns : List Node) → NodesHaveJsonNumbers ns → value_lines.of_document l ns
        ≡ third_fields (node_lines.of_document l ns) }
    ensures one_line { (n : Node) → HasJsonNumbers n.value → IsOneLine (value_line n) }
    ensures one_each { (l : Line) (ns : List Node) → NodesHaveJsonNumbers ns
        → times 10 (value_lines.of_document l ns) ≡ length ns }
{}

/// In the form of texts each value is one line, and different texts have different lines, wherever they
/// stand. There are as many lines as nodes.
pub fn texts_read_back()
    ensures different { (at from : Location) (s t : Text)
        → text_line (node at (text s)) ≡ text_line (node from (text t)) → s ≡ t }
    ensures one_line { (n : Node) → HasJsonNumbers n.value → IsOneLine (text_line n) }
    ensures one_each { (l : Line) (ns : List Node) → NodesHaveJsonNumbers ns
        → times 10 (text_lines.of_document l ns) ≡ length ns }
{}

/// The forms of values and of texts with U+0000 for the ending are those with a line feed, line for line, but
/// that the byte 0 stands in the place of each line feed. It ends each text and stands nowhere else in it, so
/// there are as many as nodes.
pub fn values_ended_by_null()
    ensures values { (l : Line) (ns : List Node) → NodesHaveJsonNumbers ns
        → (values_ended_by 0 value_text).of_document l ns ≡ lines_ended_by 0 (value_lines.of_document l ns) }
    ensures texts { (l : Line) (ns : List Node) → NodesHaveJsonNumbers ns
        → (values_ended_by 0 unquoted_text).of_document l ns ≡ lines_ended_by 0
        (text_lines.of_document l ns) }
    ensures one_value { (n : Node) → HasJsonNumbers n.value → IsEndedOnceBy 0 (ended_by 0 value_text n) }
    ensures one_text { (n : Node) → HasJsonNumbers n.value → IsEndedOnceBy 0 (ended_by 0 unquoted_text n) }
    ensures values_counted { (l : Line) (ns : List Node) → NodesHaveJsonNumbers ns
        → times 0 ((values_ended_by 0 value_text).of_document l ns) ≡ length ns }
    ensures texts_counted { (l : Line) (ns : List Node) → NodesHaveJsonNumbers ns
        → times 0 ((values_ended_by 0 unquoted_text).of_document l ns) ≡ length ns }
{}

/// In the form of raw texts with U+0000 for the ending a text is written as it is, and one byte 0 behind it,
/// and nothing else is. Where U+0000 stands in no text that byte stands nowhere else in it, so there are as
/// many as nodes.
pub fn raw_ended_by_null()
    ensures as_they_are { (l : Line) (ns : List Node) → (values_ended_by 0 raw_text).of_document l ns
        ≡ flat_map (λ n. raw_text n.value ++ 0 ∷ []) ns }
    ensures one_text { (n : Node) → HasJsonNumbers n.value → HasNoNull n.value
        → IsEndedOnceBy 0 (ended_by 0 raw_text n) }
    ensures counted { (l : Line) (ns : List Node) → NodesHaveJsonNumbers ns → NodesHaveNoNull ns
        → times 0 ((values_ended_by 0 raw_text).of_document l ns) ≡ length ns }
{}

/// A row has one tab fewer than fields, and one line feed, which is the last byte, of whatever node whose
/// numbers are those of RFC 8259 (as all numbers of a document are), also where a text has tabs and line
/// feeds, and where a field has no value. So rows can be cut at line feeds and each at its tabs, and there are
/// as many as nodes.
pub fn rows()
    ensures tabs { (f : Path) (fs : List Path) (n : Node) → HasJsonNumbers n.value
        → times 9 (row_line (f ∷ fs) n) ≡ length fs }
    ensures one_line { (fs : List Path) (n : Node) → HasJsonNumbers n.value → IsOneLine (row_line fs n) }
    ensures one_each { (fs : List Path) (l : Line) (ns : List Node) → NodesHaveJsonNumbers ns
        → times 10 ((row_lines fs).of_document l ns) ≡ length ns }
{}

/// The form of input lines has the line, once, of a document of which a node is selected, and nothing of
/// another: so it has the lines whose numbers stand in the form of output lines.
pub fn lines_with_nodes()
    ensures once { (l : Line) (ns : List Node) → ns ≢ []
        → input_lines.of_document l ns ≡ l.1 ++ 10 ∷ [] }
    ensures none { (l : Line) → input_lines.of_document l [] ≡ [] }
    ensures same_lines { (l : Line) (ns : List Node) → (input_lines.of_document l ns ≡ [])
        ↔ (node_lines.of_document l ns ≡ []) }
{}

/// Over several documents whose numbers rise, the form of input lines has exactly the lines whose numbers
/// stand as first fields in the form of output lines, each once, in their order, as they came.
pub fn lines_of_first_fields()
    ensures { (ds : List (Line × List Node)) → AreNumberedAbove 0 (lines_of_documents ds)
        → AllByRecursion (λ d. NodesHaveJsonNumbers d.1) ds
        → of_documents input_lines ds
        ≡ lines_numbered (first_fields (of_documents node_lines ds)) (lines_of_documents ds) }
{}
