//! Worked examples of the definitions.

ghost use Rattle.std.specs.Prelude.{◌≡◌, ℕ, [], ◌∷◌, ◌++◌, codes, pos, negsuc, true, false, Vec};
ghost use Rattle.std.specs.declared.alloc.Global.{Global};
ghost use Rattle.jp_doc.specs.Json.{null, truth, number, text, array, object, items, no_members, add_member};
ghost use Rattle.jp_doc.specs.Location.{Node, name, index, node};
ghost use Rattle.jp_doc.specs.declared.fault.DocFault.TheVariants.{LongLine, Unreadable, NotWhole};
ghost use Rattle.jp_doc.specs.declared.fault.DocFault.TheVariants.{LongNumber, LongArray};
ghost use Rattle.jp_number.specs.Number.{whole};
ghost use Rattle.jp_output.specs.Chunks.{bytes_in};
ghost use Rattle.jp_output.specs.FaultLine.{fault_line};
ghost use Rattle.jp_output.specs.Fields.{times, HasThreeFields, HasFourFields, IsFieldName, IsOneLine};
ghost use Rattle.jp_output.specs.Fields.{third_field, third_fields, IsEndedOnceBy, lines_ended_by};
ghost use Rattle.jp_output.specs.NumberedLines.{first_field, first_fields, lines_numbered};
ghost use Rattle.jp_output.specs.OutputForm.{node_lines, node_lines_behind, value_lines, text_lines};
ghost use Rattle.jp_output.specs.OutputForm.{raw_lines, input_lines, values_ended_by};
ghost use Rattle.jp_output.specs.OutputLine.{value_text, line_text, value_line};
ghost use Rattle.jp_output.specs.RawText.{raw_text, HasNoNull};
ghost use Rattle.jp_output.specs.UnquotedText.{unquoted_text, text_line};

/// Compact texts: of each kind of value, with no space between its parts, items and members as they stand.
#[tactic(auto, unfolding(crate::proofs::OnLiterals::lines_on_literals))]
fn compact_texts()
    ensures null_value { value_text null ≡ codes "null" }
    ensures true_value { value_text (truth true) ≡ codes "true" }
    ensures false_value { value_text (truth false) ≡ codes "false" }
    ensures zero { value_text (number (whole (pos 0))) ≡ codes "0" }
    ensures least_number { value_text (number (whole (negsuc 9223372036854775807)))
        ≡ codes "-9223372036854775808" }
    ensures greatest_number { value_text (number (whole (pos 18446744073709551615)))
        ≡ codes "18446744073709551615" }
    ensures empty_text { value_text (text []) ≡ codes "\"\"" }
    ensures escapes { value_text (text (34 ∷ 92 ∷ 47 ∷ 9 ∷ 31 ∷ 127 ∷ []))
        ≡ codes "\"\\\"\\\\/\\t\\u001f" ++ 127 ∷ codes "\"" }
    ensures text_in_utf8 { value_text (text (233 ∷ 128512 ∷ []))
        ≡ 34 ∷ 195 ∷ 169 ∷ 240 ∷ 159 ∷ 152 ∷ 128 ∷ 34 ∷ [] }
    ensures one_item { value_text (array (items (number (whole (pos 7)) ∷ []))) ≡ codes "[7]" }
    ensures three_items { value_text (array (items (number (whole (pos 2)) ∷ number (whole (pos 1))
        ∷ number (whole (pos 2)) ∷ [])))
        ≡ codes "[2,1,2]" }
    ensures nested { value_text (array (items (array (items []) ∷ array (items (null ∷ [])) ∷ [])))
        ≡ codes "[[],[null]]" }
    ensures one_member { value_text (object (add_member (codes "a\"b") (text (codes "c")) no_members))
        ≡ codes "{\"a\\\"b\":\"c\"}" }
    ensures three_members { value_text (object (add_member [] null (add_member (codes "a") (truth true)
        (add_member (codes "b") (object no_members) no_members))))
        ≡ codes "{\"\":null,\"a\":true,\"b\":{}}" }
{}

/// Output lines: the document's number, the path and the value's compact text, with tabs between.
#[tactic(auto, unfolding(crate::proofs::OnLiterals::lines_on_literals))]
fn output_lines()
    ensures number { line_text 1 (name (codes "a") ∷ []) (number (whole (pos 1)))
        ≡ codes "1" ++ 9 ∷ codes "$['a']" ++ 9 ∷ codes "1" ++ 10 ∷ [] }
    ensures null_of_line_three { line_text 3 (name (codes "a") ∷ []) null
        ≡ codes "3" ++ 9 ∷ codes "$['a']" ++ 9 ∷ codes "null" ++ 10 ∷ [] }
    ensures empty_array { line_text 1 [] (array (items []))
        ≡ codes "1" ++ 9 ∷ codes "$" ++ 9 ∷ codes "[]" ++ 10 ∷ [] }
    ensures false_of_line_zero { line_text 0 [] (truth false)
        ≡ codes "0" ++ 9 ∷ codes "$" ++ 9 ∷ codes "false" ++ 10 ∷ [] }
    ensures empty_object { line_text 1 [] (object no_members)
        ≡ codes "1" ++ 9 ∷ codes "$" ++ 9 ∷ codes "{}" ++ 10 ∷ [] }
    ensures two_items { line_text 1 [] (array (items (null ∷ null ∷ [])))
        ≡ codes "1" ++ 9 ∷ codes "$" ++ 9 ∷ codes "[null,null]" ++ 10 ∷ [] }
    ensures two_members { line_text 1 [] (object
        (add_member (codes "a") null (add_member (codes "b") null no_members)))
        ≡ codes "1" ++ 9 ∷ codes "$" ++ 9 ∷ codes "{\"a\":null,\"b\":null}" ++ 10 ∷ [] }
    ensures compact { line_text 10 (index 0 ∷ [])
        (array (items (number (whole (negsuc 4)) ∷ text (codes "a\"b") ∷ truth true ∷ object
        (add_member (codes "c") (number (whole (pos 2))) no_members) ∷ [])))
        ≡ codes "10" ++ 9 ∷ codes "$[0]" ++ 9 ∷ codes "[-5,\"a\\\"b\",true,{\"c\":2}]" ++ 10 ∷ [] }
    ensures path_in_utf8 { line_text 1 (name (128512 ∷ []) ∷ []) (number (whole (pos 1)))
        ≡ codes "1" ++ 9 ∷ codes "$['" ++ 240 ∷ 159 ∷ 152 ∷ 128 ∷ codes "']" ++ 9 ∷ codes "1" ++ 10 ∷ [] }
{}

/// Fault lines: the line's number, `!` and the kind of the fault, with tabs between.
#[tactic(auto, unfolding(crate::proofs::OnLiterals::lines_on_literals))]
fn fault_lines()
    ensures unreadable { fault_line 2 Unreadable ≡ codes "2" ++ 9 ∷ codes "!" ++ 9 ∷ codes "unreadable"
        ++ 10 ∷ [] }
    ensures not_whole { fault_line 4 NotWhole ≡ codes "4" ++ 9 ∷ codes "!" ++ 9 ∷ codes "not whole"
        ++ 10 ∷ [] }
    ensures long_number { fault_line 5 LongNumber ≡ codes "5" ++ 9 ∷ codes "!" ++ 9 ∷ codes "long number"
        ++ 10 ∷ [] }
    ensures long_array { fault_line 7 LongArray ≡ codes "7" ++ 9 ∷ codes "!" ++ 9 ∷ codes "long array"
        ++ 10 ∷ [] }
    ensures long_line { fault_line 7 LongLine ≡ codes "7" ++ 9 ∷ codes "!" ++ 9 ∷ codes "long line"
        ++ 10 ∷ [] }
{}

/// How often a byte stands among others; a line whose name and text have a tab and a line feed; and what has
/// not three fields.
#[tactic(auto, unfolding(crate::proofs::OnLiterals::lines_on_literals))]
fn three_fields()
    ensures none { times 9 [] ≡ 0 }
    ensures twice { times 9 (9 ∷ 97 ∷ 9 ∷ 10 ∷ []) ≡ 2 }
    ensures escapes { line_text 1 (name (9 ∷ 10 ∷ []) ∷ []) (text (9 ∷ 10 ∷ []))
        ≡ codes "1" ++ 9 ∷ codes "$['\\t\\n']" ++ 9 ∷ codes "\"\\t\\n\"" ++ 10 ∷ [] }
    ensures two_fields { ¬ HasThreeFields (codes "1" ++ 9 ∷ codes "$" ++ 10 ∷ []) }
    ensures line_feed_within { ¬ HasThreeFields (9 ∷ 10 ∷ 9 ∷ 10 ∷ []) }
    ensures not_ended { ¬ HasThreeFields (9 ∷ 9 ∷ 10 ∷ 97 ∷ []) }
{}

/// Third fields: of a line with three, with four and with one; and of two lines that are the same.
fn third()
    ensures of_three { third_field (codes "1" ++ 9 ∷ codes "$" ++ 9 ∷ codes "2") ≡ codes "2" }
    ensures of_four { third_field (codes "1" ++ 9 ∷ codes "$" ++ 9 ∷ codes "2" ++ 9 ∷ codes "3") ≡ codes "2" }
    ensures of_one { third_field (codes "1") ≡ [] }
    ensures twice { third_fields (codes "1" ++ 9 ∷ codes "$" ++ 9 ∷ codes "2" ++ 10 ∷ codes "1" ++ 9 ∷
        codes "$" ++ 9 ∷ codes "2" ++ 10 ∷ []) ≡ codes "2" ++ 10 ∷ codes "2" ++ 10 ∷ [] }
{}

/// First fields, and the lines that they number: of a number that stands twice, and of one that begins as
/// another does.
#[tactic(auto, unfolding(crate::proofs::OnLiterals::lines_on_literals))]
fn numbered_lines()
    ensures no_tab { first_field (codes "1") ≡ codes "1" }
    ensures of_each { first_fields (codes "1" ++ 9 ∷ codes "$" ++ 10 ∷ codes "12" ++ 9 ∷ codes "$" ++ 10 ∷ [])
        ≡ codes "1" ∷ codes "12" ∷ [] }
    ensures twice { lines_numbered (codes "2" ∷ codes "2" ∷ []) ((1, codes "a") ∷ (2, codes "b") ∷ [])
        ≡ codes "b" ++ 10 ∷ [] }
    ensures longer { lines_numbered (codes "12" ∷ []) ((1, codes "a") ∷ (2, codes "b") ∷ (12, codes "c") ∷ [])
        ≡ codes "c" ++ 10 ∷ [] }
    ensures none { lines_numbered [] ((1, codes "a") ∷ []) ≡ [] }
{}

/// Values and texts on lines of their own. A text within an array keeps its quotes.
#[tactic(auto, unfolding(crate::proofs::OnLiterals::lines_on_literals))]
fn values_and_texts()
    ensures value { value_line (node (name (codes "a") ∷ []) (text (codes "a\"b")))
        ≡ codes "\"a\\\"b\"" ++ 10 ∷ [] }
    ensures text { text_line (node (name (codes "a") ∷ []) (text (codes "a\"b"))) ≡ codes "a\"b" ++ 10 ∷ [] }
    ensures backslash { unquoted_text (text (codes "a\\\"b")) ≡ codes "a\\\\\"b" }
    ensures line_feed { text_line (node [] (text (codes "a" ++ 10 ∷ codes "b"))) ≡ codes "a\\nb" ++ 10 ∷ [] }
    ensures control { unquoted_text (text (31 ∷ [])) ≡ codes "\\u001f" }
    ensures empty_text { text_line (node [] (text [])) ≡ 10 ∷ [] }
    ensures text_in_utf8 { unquoted_text (text (128512 ∷ [])) ≡ 240 ∷ 159 ∷ 152 ∷ 128 ∷ [] }
    ensures number { text_line (node [] (number (whole (negsuc 4)))) ≡ codes "-5" ++ 10 ∷ [] }
    ensures in_an_array { unquoted_text (array (items (text (codes "a") ∷ []))) ≡ codes "[\"a\"]" }
    ensures within { ¬ IsOneLine (10 ∷ 97 ∷ 10 ∷ []) }
    ensures not_ended { ¬ IsOneLine (10 ∷ 97 ∷ []) }
{}

/// Texts as they are: a quotation mark, a backslash, a line feed; within an array they are as ever.
#[tactic(auto, unfolding(crate::proofs::OnLiterals::lines_on_literals))]
fn raw_texts()
    ensures quote { raw_text (text (codes "a\"b")) ≡ codes "a\"b" }
    ensures backslash { raw_text (text (codes "a\\b")) ≡ codes "a\\b" }
    ensures line_feed { raw_text (text (97 ∷ 10 ∷ 98 ∷ [])) ≡ 97 ∷ 10 ∷ 98 ∷ [] }
    ensures text_in_utf8 { raw_text (text (128512 ∷ [])) ≡ 240 ∷ 159 ∷ 152 ∷ 128 ∷ [] }
    ensures number { raw_text (number (whole (negsuc 4))) ≡ codes "-5" }
    ensures in_an_array { raw_text (array (items (text (codes "a") ∷ []))) ≡ codes "[\"a\"]" }
    ensures line { raw_lines.of_document (3, codes "7") (node [] (text (codes "a")) ∷ node [] (text []) ∷ [])
        ≡ codes "a" ++ 10 ∷ 10 ∷ [] }
    ensures faulty { raw_lines.of_fault 3 Unreadable ≡ [] }
{}

/// Values, texts and raw texts with U+0000 for the ending: a text that is empty, one that holds a line feed,
/// and one that holds U+0000, which stands raw as it is; and lines whose line feeds are replaced.
#[tactic(auto, unfolding(crate::proofs::OnLiterals::lines_on_literals))]
fn ended_by_null()
    ensures values { (values_ended_by 0 value_text).of_document (3, codes "7")
        (node [] (text (97 ∷ 10 ∷ [])) ∷ node [] (text []) ∷ node [] (text (0 ∷ [])) ∷ [])
        ≡ codes "\"a\\n\"" ++ 0 ∷ codes "\"\"" ++ 0 ∷ codes "\"\\u0000\"" ++ 0 ∷ [] }
    ensures texts { (values_ended_by 0 unquoted_text).of_document (3, codes "7")
        (node [] (text (97 ∷ 10 ∷ [])) ∷ node [] (text []) ∷ node [] (text (0 ∷ [])) ∷ [])
        ≡ codes "a\\n" ++ 0 ∷ 0 ∷ codes "\\u0000" ++ 0 ∷ [] }
    ensures raw { (values_ended_by 0 raw_text).of_document (3, codes "7")
        (node [] (text (97 ∷ 10 ∷ [])) ∷ node [] (text []) ∷ node [] (text (0 ∷ [])) ∷ [])
        ≡ 97 ∷ 10 ∷ 0 ∷ 0 ∷ 0 ∷ 0 ∷ [] }
    ensures faulty { (values_ended_by 0 raw_text).of_fault 3 Unreadable ≡ [] }
    ensures replaced { lines_ended_by 0 (97 ∷ 10 ∷ 10 ∷ 98 ∷ 10 ∷ []) ≡ 97 ∷ 0 ∷ 0 ∷ 98 ∷ 0 ∷ [] }
    ensures once { ¬ IsEndedOnceBy 0 (0 ∷ 97 ∷ 0 ∷ []) }
    ensures last { ¬ IsEndedOnceBy 0 (0 ∷ 97 ∷ []) }
    ensures no_null { HasNoNull (text (codes "a")) }
    ensures null { ¬ HasNoNull (text (97 ∷ 0 ∷ [])) }
{}

/// The forms of line 3, with two nodes that are the same: the line ends with a carriage return.
#[tactic(auto, unfolding(crate::proofs::OnLiterals::lines_on_literals))]
fn forms()
    ensures nodes { node_lines.of_document (3, codes "7" ++ 13 ∷ []) (node [] (text (codes "7")) ∷ [])
        ≡ codes "3" ++ 9 ∷ codes "$" ++ 9 ∷ codes "\"7\"" ++ 10 ∷ [] }
    ensures values { value_lines.of_document (3, codes "7" ++ 13 ∷ [])
        (node [] (text (codes "7")) ∷ node [] (text (codes "7")) ∷ [])
        ≡ codes "\"7\"" ++ 10 ∷ codes "\"7\"" ++ 10 ∷ [] }
    ensures texts { text_lines.of_document (3, codes "7" ++ 13 ∷ [])
        (node [] (text (codes "7")) ∷ node [] (text (codes "7")) ∷ [])
        ≡ codes "7" ++ 10 ∷ codes "7" ++ 10 ∷ [] }
    ensures lines { (n : Node) → input_lines.of_document (3, codes "7" ++ 13 ∷ []) (n ∷ n ∷ [])
        ≡ codes "7" ++ 13 ∷ 10 ∷ [] }
    ensures no_node { input_lines.of_document (3, codes "7" ++ 13 ∷ []) [] ≡ [] }
    ensures faulty_value { value_lines.of_fault 3 Unreadable ≡ [] }
    ensures faulty_text { text_lines.of_fault 3 Unreadable ≡ [] }
    ensures faulty_line { input_lines.of_fault 3 Unreadable ≡ [] }
{}

/// Lines behind a name and a tab, of two nodes, of none and of a faulty line; what has not four fields; and
/// which names can be fields.
#[tactic(auto, unfolding(crate::proofs::OnLiterals::lines_on_literals))]
fn heads()
    ensures nodes { (node_lines_behind (codes "a b" ++ 9 ∷ [])).of_document (3, codes "7")
        (node [] (text (codes "7")) ∷ node (index 0 ∷ []) null ∷ [])
        ≡ codes "a b" ++ 9 ∷ codes "3" ++ 9 ∷ codes "$" ++ 9 ∷ codes "\"7\"" ++ 10 ∷
        codes "a b" ++ 9 ∷ codes "3" ++ 9 ∷ codes "$[0]" ++ 9 ∷ codes "null" ++ 10 ∷ [] }
    ensures no_node { (node_lines_behind (codes "a b" ++ 9 ∷ [])).of_document (3, codes "7") [] ≡ [] }
    ensures faulty { (node_lines_behind (codes "a b" ++ 9 ∷ [])).of_fault 3 Unreadable
        ≡ codes "a b" ++ 9 ∷ codes "3" ++ 9 ∷ codes "!" ++ 9 ∷ codes "unreadable" ++ 10 ∷ [] }
    ensures three_tabs { ¬ HasFourFields (9 ∷ 9 ∷ 10 ∷ []) }
    ensures not_ended { ¬ HasFourFields (9 ∷ 9 ∷ 9 ∷ 10 ∷ 97 ∷ []) }
    ensures name { IsFieldName (codes "a b") }
    ensures empty_name { IsFieldName [] }
    ensures tab_within { ¬ IsFieldName (97 ∷ 9 ∷ []) }
    ensures line_feed_within { ¬ IsFieldName (97 ∷ 10 ∷ []) }
{}

/// Bytes in chunks: of none, of one, and of three, where one stands twice.
fn chunks()
    ensures none { bytes_in [] ≡ [] }
    ensures one { (c : Vec ℕ Global) → bytes_in (c ∷ []) ≡ c.items ++ [] }
    ensures in_order { (c d : Vec ℕ Global) → bytes_in (c ∷ d ∷ c ∷ [])
        ≡ c.items ++ (d.items ++ (c.items ++ [])) }
{}
