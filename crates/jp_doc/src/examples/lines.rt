//! Lines, by their line feeds.
//!
//! The codes are 10 for a line feed, 13 for a carriage return, 9 for a tab and 32 for a space.

ghost use Rattle.std.specs.Prelude.{◌≡◌, [], ◌∷◌, ◌++◌, codes, true, false};
ghost use Rattle.jp_doc.specs.Lines.{all_lines, is_blank, lines, line_count};
ghost use Rattle.jp_doc.specs.Joined.{joined};

fn numbered_lines()
    ensures empty_between { lines (codes "a" ++ 10 ∷ 10 ∷ codes "b" ++ 10 ∷ [])
        ≡ (1, codes "a") ∷ (3, codes "b") ∷ [] }
    ensures empty_between_count { line_count (codes "a" ++ 10 ∷ 10 ∷ codes "b" ++ 10 ∷ []) ≡ 3 }
    ensures no_last_line_feed { lines (codes "a" ++ 10 ∷ 10 ∷ codes "b")
        ≡ (1, codes "a") ∷ (3, codes "b") ∷ [] }
    ensures no_last_line_feed_count { line_count (codes "a" ++ 10 ∷ 10 ∷ codes "b") ≡ 3 }
    ensures one_line { lines (codes "ab") ≡ (1, codes "ab") ∷ [] }
    ensures blank_last_line { lines (codes "a" ++ 10 ∷ 32 ∷ []) ≡ (1, codes "a") ∷ [] }
    ensures blank_last_line_count { line_count (codes "a" ++ 10 ∷ 32 ∷ []) ≡ 2 }
{}

fn carriage_returns()
    ensures before_line_feeds { lines (codes "a" ++ 13 ∷ 10 ∷ 13 ∷ 10 ∷ codes "b" ++ 13 ∷ 10 ∷ [])
        ≡ (1, codes "a" ++ 13 ∷ []) ∷ (3, codes "b" ++ 13 ∷ []) ∷ [] }
    ensures before_line_feeds_count { line_count (codes "a" ++ 13 ∷ 10 ∷ 13 ∷ 10 ∷ codes "b" ++ 13 ∷ 10 ∷ [])
        ≡ 3 }
    ensures inside_a_line { lines (codes "a" ++ 13 ∷ codes "b" ++ 10 ∷ [])
        ≡ (1, codes "a" ++ 13 ∷ codes "b") ∷ [] }
{}

fn blank_lines()
    ensures empty_input { lines [] ≡ [] }
    ensures empty_input_count { line_count [] ≡ 0 }
    ensures one_line_feed { lines (10 ∷ []) ≡ [] }
    ensures one_line_feed_count { line_count (10 ∷ []) ≡ 1 }
    ensures white_space { lines (32 ∷ 9 ∷ 13 ∷ 10 ∷ codes "1") ≡ (2, codes "1") ∷ [] }
    ensures white_space_count { line_count (32 ∷ 9 ∷ 13 ∷ 10 ∷ codes "1") ≡ 2 }
{}

fn blank_bytes()
    ensures no_byte { is_blank [] ≡ true }
    ensures space { is_blank (32 ∷ []) ≡ true }
    ensures tab { is_blank (9 ∷ []) ≡ true }
    ensures carriage_return { is_blank (13 ∷ []) ≡ true }
    ensures all_of_them { is_blank (32 ∷ 9 ∷ 13 ∷ []) ≡ true }
    ensures no_form_feed { is_blank (12 ∷ []) ≡ false }
    ensures no_vertical_tab { is_blank (11 ∷ []) ≡ false }
    ensures no_null { is_blank (0 ∷ []) ≡ false }
    ensures no_line_feed { is_blank (10 ∷ []) ≡ false }
    ensures no_break_space { is_blank (194 ∷ 160 ∷ []) ≡ false }
    ensures a_letter_first { is_blank (codes "a ") ≡ false }
    ensures a_letter_last { is_blank (codes " a") ≡ false }
{}

fn bytes_in_lines()
    ensures no_last_empty_line { all_lines (codes "a" ++ 10 ∷ []) ≡ codes "a" ∷ [] }
    ensures last_line { all_lines (codes "a" ++ 10 ∷ codes "bc") ≡ codes "a" ∷ codes "bc" ∷ [] }
    ensures empty_lines { all_lines (10 ∷ 10 ∷ codes "a") ≡ [] ∷ [] ∷ codes "a" ∷ [] }
    ensures together_again { joined (codes "a" ∷ [] ∷ codes "bc" ∷ [])
        ≡ codes "a" ++ 10 ∷ 10 ∷ codes "bc" ++ 10 ∷ [] }
    ensures no_line { joined [] ≡ [] }
{}
