//! Worked examples of the definitions, from the bytes that come in to the bytes that go out.

ghost use Rattle.std.specs.Prelude.{◌≡◌, [], ◌∷◌, ◌++◌, codes, Some, None};
ghost use Rattle.jp_number.specs.declared.numbers.Numbers.TheVariants.{Whole};
ghost use Rattle.jp_doc.specs.declared.fault.DocFault.TheVariants.{Unreadable, NotWhole};
ghost use Rattle.jp_tree.specs.Tree as tree;
ghost use Rattle.jp_tree.specs.declared.tree.Start.TheVariants.{Root};
ghost use Rattle.jp_pattern.specs.Tests.{Tests};
ghost use Rattle.jp_answer.specs.Answer.{stream_answer, stream_whole};
ghost use Rattle.jp_answer.specs.Faults.{first_fault};
ghost use Rattle.jp_answer.specs.Streams.{placed_blocks, AreBlocks};

/// `$.a` on the lines `{"a":1}`, an empty one and `{"a":null}`.
#[tactic(auto, unfolding(crate::proofs::OnLiterals::runs_on_literals))]
fn blank_line_between()
    ensures lines { (t : Tests) →
        stream_answer t (tree.query_from Root (tree.child (tree.name (codes "a") ∷ []) ∷ []))
        (codes "{\"a\":1}" ++ 10 ∷ 10 ∷ codes "{\"a\":null}" ++ 10 ∷ [])
        ≡ record {
          bytes = codes "1" ++ 9 ∷ codes "$['a']" ++ 9 ∷ codes "1" ++ 10 ∷ codes "3" ++ 9 ∷ codes
              "$['a']" ++ 9 ∷ codes "null" ++ 10 ∷ [];
          stopped = None;
          faulty = 0;
        } }
    ensures no_last_line_feed { (t : Tests) →
        stream_answer t (tree.query_from Root (tree.child (tree.name (codes "a") ∷ []) ∷ []))
        (codes "{\"a\":1}" ++ 10 ∷ 10 ∷ codes "{\"a\":null}")
        ≡ record {
          bytes = codes "1" ++ 9 ∷ codes "$['a']" ++ 9 ∷ codes "1" ++ 10 ∷ codes "3" ++ 9 ∷ codes
              "$['a']" ++ 9 ∷ codes "null" ++ 10 ∷ [];
          stopped = None;
          faulty = 0;
        } }
    ensures carriage_returns { (t : Tests) →
        stream_answer t (tree.query_from Root (tree.child (tree.name (codes "a") ∷ []) ∷ []))
        (codes "{\"a\":1}" ++ 13 ∷ 10 ∷ 13 ∷ 10 ∷ codes "{\"a\":null}" ++ 13 ∷ 10 ∷ [])
        ≡ record {
          bytes = codes "1" ++ 9 ∷ codes "$['a']" ++ 9 ∷ codes "1" ++ 10 ∷ codes "3" ++ 9 ∷ codes
              "$['a']" ++ 9 ∷ codes "null" ++ 10 ∷ [];
          stopped = None;
          faulty = 0;
        } }
{}

/// The second of two blocks: `$.a` on `{"a":2}` behind one line feed, where the first block has one line.
#[tactic(auto, unfolding(crate::proofs::OnLiterals::runs_on_literals))]
fn second_block()
    ensures placed { placed_blocks 0 ((codes "{\"a\":1}" ++ 10 ∷ []) ∷ (codes "{\"a\":2}" ++ 10 ∷ []) ∷ [])
        ≡ (codes "{\"a\":1}" ++ 10 ∷ []) ∷ (10 ∷ codes "{\"a\":2}" ++ 10 ∷ []) ∷ [] }
    ensures lines { (t : Tests) →
        stream_answer t (tree.query_from Root (tree.child (tree.name (codes "a") ∷ []) ∷ []))
        (10 ∷ codes "{\"a\":2}" ++ 10 ∷ [])
        ≡ record {
          bytes = codes "2" ++ 9 ∷ codes "$['a']" ++ 9 ∷ codes "2" ++ 10 ∷ [];
          stopped = None;
          faulty = 0;
        } }
    ensures blank_lines { placed_blocks 0 ((10 ∷ 10 ∷ 97 ∷ 10 ∷ []) ∷ [] ∷ (98 ∷ []) ∷ [])
        ≡ (10 ∷ 10 ∷ 97 ∷ 10 ∷ []) ∷ (10 ∷ 10 ∷ 10 ∷ []) ∷ (10 ∷ 10 ∷ 10 ∷ 98 ∷ []) ∷ [] }
    ensures cut_within_a_line { ¬ AreBlocks ((97 ∷ []) ∷ (98 ∷ 10 ∷ []) ∷ []) }
{}

/// `$` on no input, and on `[]`.
#[tactic(auto, unfolding(crate::proofs::OnLiterals::runs_on_literals))]
fn whole_documents()
    ensures empty_input { (t : Tests) → stream_answer t (tree.query_from Root []) []
        ≡ record { bytes = []; stopped = None; faulty = 0 } }
    ensures empty_array { (t : Tests) → stream_answer t (tree.query_from Root []) (codes "[]" ++ 10 ∷ [])
        ≡ record {
          bytes = codes "1" ++ 9 ∷ codes "$" ++ 9 ∷ codes "[]" ++ 10 ∷ [];
          stopped = None;
          faulty = 0;
        } }
{}

/// `$.a` on the lines `{"a":1}`, `{`, `{"a":2}`, `{"a":1.5}`: the second line ends the answer; with it away,
/// the third does.
#[tactic(auto, unfolding(crate::proofs::OnLiterals::runs_on_literals))]
fn faulty_lines()
    ensures unreadable { (t : Tests) →
        stream_answer t (tree.query_from Root (tree.child (tree.name (codes "a") ∷ []) ∷ []))
        (codes "{\"a\":1}" ++ 10 ∷ codes "{" ++ 10 ∷ codes "{\"a\":2}" ++ 10 ∷ codes "{\"a\":1.5}" ++ 10 ∷ [])
        ≡ record {
          bytes = codes "1" ++ 9 ∷ codes "$['a']" ++ 9 ∷ codes "1" ++ 10 ∷ [];
          stopped = Some
              (2, Unreadable);
          faulty = 0;
        } }
    ensures not_whole { (t : Tests) →
        stream_answer t (tree.query_from Root (tree.child (tree.name (codes "a") ∷ []) ∷ []))
        (codes "{\"a\":1}" ++ 10 ∷ codes "{\"a\":2}" ++ 10 ∷ codes "{\"a\":1.5}" ++ 10 ∷ [])
        ≡ record {
          bytes = codes "1" ++ 9 ∷ codes "$['a']" ++ 9 ∷ codes "1" ++ 10 ∷ codes "2" ++ 9 ∷ codes
              "$['a']" ++ 9 ∷ codes "2" ++ 10 ∷ [];
          stopped = Some (3, NotWhole);
          faulty = 0;
        } }
{}

/// The lines `[]`, `{` and `1.5`, with the numbers 1, 3 and 4.
#[tactic(auto, unfolding(crate::proofs::OnLiterals::runs_on_literals))]
fn first_faults()
    ensures second { first_fault Whole ((1, codes "[]") ∷ (3, codes "{") ∷ (4, codes "1.5") ∷ [])
        ≡ Some (3, Unreadable) }
    ensures last { first_fault Whole ((1, codes "[]") ∷ (4, codes "1.5") ∷ []) ≡ Some (4, NotWhole) }
    ensures none { first_fault Whole ((1, codes "[]") ∷ []) ≡ None }
{}

/// `$.a` on the lines `{"a":1}`, `{`, `{"a":2}`, `{"a":1.5}`, and on `{` alone, where the answer keeps going.
#[tactic(auto, unfolding(crate::proofs::OnLiterals::runs_on_literals))]
fn faulty_lines_passed()
    ensures four_lines { (t : Tests) →
        stream_whole t (tree.query_from Root (tree.child (tree.name (codes "a") ∷ []) ∷ []))
        (codes "{\"a\":1}" ++ 10 ∷ codes "{" ++ 10 ∷ codes "{\"a\":2}" ++ 10 ∷ codes "{\"a\":1.5}" ++ 10 ∷ [])
        ≡ record {
          bytes = codes "1" ++ 9 ∷ codes "$['a']" ++ 9 ∷ codes "1" ++ 10 ∷ codes "2"
              ++ 9 ∷ codes "!" ++ 9 ∷ codes "unreadable" ++ 10 ∷ codes "3"
              ++ 9 ∷ codes "$['a']" ++ 9 ∷ codes "2" ++ 10 ∷ codes "4"
              ++ 9 ∷ codes "!" ++ 9 ∷ codes "not whole" ++ 10 ∷ [];
          stopped = None;
          faulty = 2;
        } }
    ensures one_line { (t : Tests) →
        stream_whole t (tree.query_from Root (tree.child (tree.name (codes "a") ∷ []) ∷ []))
        (codes "{")
        ≡ record {
          bytes = codes "1" ++ 9 ∷ codes "!" ++ 9 ∷ codes "unreadable" ++ 10 ∷ [];
          stopped = None;
          faulty = 1;
        } }
{}
