//! Laws of the definitions, each the contract of a function that does nothing.

ghost use Rattle.std.specs.Prelude.{◌≡◌, ◌<◌, ◌+◌, ◌^◌, ◌++◌, ℕ, None, List, [], length, map};
ghost use Rattle.std.specs.List.{concat};
ghost use Rattle.jp_number.specs.declared.numbers.Numbers.{Numbers};
ghost use Rattle.jp_number.specs.declared.numbers.Numbers.TheVariants.{Whole, Decimals};
ghost use Rattle.jp_doc.specs.Json.{Json};
ghost use Rattle.jp_doc.specs.Lines.{Line, lines, line_count};
ghost use Rattle.jp_doc.specs.NumbersWithin.{HasJsonNumbers};
ghost use Rattle.jp_tree.specs.Tree.{Query};
ghost use Rattle.jp_pattern.specs.Tests.{Tests};
ghost use Rattle.jp_output.specs.Fields.{times, AreLinesOfThree};
ghost use Rattle.jp_output.specs.NumberedLines.{AreNumberedAbove, first_fields, lines_numbered};
ghost use Rattle.jp_output.specs.OutputForm.{OutputForm, node_lines, input_lines};
ghost use Rattle.jp_answer.specs.Answer.{answer, answer_by, joined, document_lines, whole, FollowsStop};
ghost use Rattle.jp_answer.specs.Answer.{stream_answer, stream_whole};
ghost use Rattle.jp_answer.specs.Faults.{first_fault};
ghost use Rattle.jp_answer.specs.FilteredQuery.{FilteredQuery, chosen_lines, selected_nodes};
ghost use Rattle.jp_answer.specs.FilteredQuery.{unfiltered};
ghost use Rattle.jp_answer.specs.Policy.{policy, passed_in};
ghost use Rattle.jp_answer.specs.Streams.{AreWholeLines, line_feeds, AreBlocks, placed_blocks, in_turn};
ghost use Rattle.jp_answer.specs.declared.on_fault.OnFault.{OnFault};
ghost use Rattle.jp_answer.specs.declared.on_fault.OnFault.TheVariants.{Stop};
ghost use Rattle.jp_answer.specs.declared.policy.LinePolicy.{LinePolicy};

/// The answer to lines and further lines is the answer to the first where that ends at a faulty line, and
/// else the two one after another: in every form, by every policy. So it is the same in whatever pieces the
/// lines are taken.
pub fn pieces()
    ensures { (f : OutputForm) (k : LinePolicy) (t : Tests) (q : FilteredQuery) (a b : List Line)
        → answer_by f k t q (a ++ b) ≡ joined (answer_by f k t q a) (answer_by f k t q b) }
{}

/// A stream that is cut between two lines: the answer to whole lines and what follows them is that to the
/// lines, and then that to as many line feeds as there are lines, followed by the rest; in every form, by
/// every policy.
///
/// So a large file can be answered in blocks, each by a process of its own that is given as many line feeds
/// first as the blocks before it have lines: the answers one after another, each number kept, are the answer
/// to the file. Each block but the last ends in a line feed.
pub fn streams()
    ensures answer { (f : OutputForm) (k : LinePolicy) (t : Tests) (q : FilteredQuery) (a b : List ℕ)
        → AreWholeLines a → answer_by f k t q (lines (a ++ b))
        ≡ joined (answer_by f k t q (lines a)) (answer_by f k t q (lines (line_feeds (line_count a) ++ b))) }
    ensures blocks { (f : OutputForm) (k : LinePolicy) (t : Tests) (q : FilteredQuery) (bs : List (List ℕ))
        → AreBlocks bs → answer_by f k t q (lines (concat bs))
        ≡ in_turn (map (λ b. answer_by f k t q (lines b)) (placed_blocks 0 bs)) }
    ensures count { (a b : List ℕ) → AreWholeLines a → line_count (a ++ b) ≡ line_count a + line_count b }
{}

/// The bytes of an answer, by either policy, are lines of three fields, one after another: two tabs in each,
/// and one line feed, its last byte. A document has as many of them as nodes, where its numbers are those of
/// RFC 8259 (6), as all that are read are.
pub fn three_fields()
    ensures answer { (k : LinePolicy) (t : Tests) (q : FilteredQuery) (ls : List Line)
        → AreLinesOfThree (answer_by node_lines k t q ls).bytes }
    ensures one_each { (t : Tests) (q : FilteredQuery) (number : ℕ) (root : Json) → HasJsonNumbers root
        → times 10 (document_lines t q number root) ≡ length (selected_nodes t root q) }
{}

/// The answer in the form of input lines has exactly the lines whose numbers stand as first fields in the
/// answer in output lines, each once, in their order, as they came: of lines whose numbers rise, and so of a
/// stream. Each answer stops at the first faulty line.
pub fn lines_of_first_fields()
    ensures lines { (n : Numbers) (t : Tests) (q : FilteredQuery) (ls : List Line) → AreNumberedAbove 0 ls
        → (answer_by input_lines (policy n Stop) t q ls).bytes
        ≡ lines_numbered (first_fields (answer_by node_lines (policy n Stop) t q ls).bytes) ls }
    ensures stream { (n : Numbers) (t : Tests) (q : FilteredQuery) (bytes : List ℕ)
        → line_count bytes < 2 ^ 64
        → (answer_by input_lines (policy n Stop) t q (lines bytes)).bytes
        ≡ lines_numbered (first_fields (answer_by node_lines (policy n Stop) t q (lines bytes)).bytes)
        (lines bytes) }
{}

/// The two policies agree up to the first faulty line: the bytes of the answer that keeps going are those of
/// the answer that ends there, and then nothing where that has not ended, else a rest that begins with the
/// fault line of the line at which it ends. So of an answer that keeps going, what stands before that fault
/// line is the answer.
pub fn stops_before()
    ensures lines { (t : Tests) (q : Query) (ls : List Line) → (rest : List ℕ)
        × ((whole t q ls).bytes ≡ (answer t q ls).bytes ++ rest) × FollowsStop (answer t q ls).stopped rest }
    ensures streams { (t : Tests) (q : Query) (bytes : List ℕ) → (rest : List ℕ)
        × ((stream_whole t q bytes).bytes ≡ (stream_answer t q bytes).bytes ++ rest)
        × FollowsStop (stream_answer t q bytes).stopped rest }
{}

/// An answer that ends at the first faulty line passes none.
pub fn none_passed_before()
    ensures { (n : Numbers) (ls : List Line) → passed_in (policy n Stop) ls ≡ 0 }
{}

/// Where no line is faulty by whole numbers alone, the answer with decimals is the same, in every form, and
/// no line is faulty with them either. So decimals change nothing of an answer that meets no faulty line.
pub fn same_with_decimals()
    ensures answer { (f : OutputForm) (k : OnFault) (t : Tests) (q : FilteredQuery) (ls : List Line)
        → first_fault Whole ls ≡ None
        → answer_by f (policy Decimals k) t q ls ≡ answer_by f (policy Whole k) t q ls }
    ensures no_fault { (ls : List Line) → first_fault Whole ls ≡ None → first_fault Decimals ls ≡ None }
    ensures none_passed { (k : OnFault) (ls : List Line) → first_fault Whole ls ≡ None
        → passed_in (policy Decimals k) ls ≡ 0 }
{}

/// The answer of a query of the documents that a filter chooses is that of the query to the lines of these
/// documents and the faulty ones, with their numbers: in every form that says nothing of a document without
/// nodes, as each of the five does, and by every policy.
pub fn chosen_answers()
    ensures { (f : OutputForm) (k : LinePolicy) (t : Tests) (q : FilteredQuery) (ls : List Line)
        → ((l : Line) → f.of_document l [] ≡ []) → answer_by f k t q ls
        ≡ answer_by f k t (unfiltered q.query) (chosen_lines k.numbers t q.filter ls) }
{}
