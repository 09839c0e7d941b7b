//! Worked examples of the definitions.

ghost use Rattle.std.specs.Prelude.{◌≡◌, [], ◌∷◌, codes, take, drop};
ghost use Rattle.jp_doc.specs.Feeding.{fed, fed_lines, finished_lines, nothing_fed};
ghost use Rattle.jp_buffer.specs.Buffered.{nothing_buffered, nothing_buffered_behind, total_bytes};
ghost use Rattle.jp_buffer.specs.inner.Waiting.{bytes_of, lines_in};

fn nothing_yet()
    ensures count { nothing_buffered.progress.count ≡ 0 }
    ensures open_line { nothing_buffered.progress.open_line ≡ [] }
    ensures lines { nothing_buffered.lines ≡ [] }
    ensures first_feed { fed_lines nothing_buffered.progress (codes "a\n\nb") ≡ (1, codes "a") ∷ [] }
    ensures last_line { finished_lines (fed nothing_fed (codes "a\n\nb")) ≡ (3, codes "b") ∷ [] }
{}

/// Two lines have ended before the first piece.
fn nothing_yet_behind_two()
    ensures count { (nothing_buffered_behind 2).progress.count ≡ 2 }
    ensures open_line { (nothing_buffered_behind 2).progress.open_line ≡ [] }
    ensures lines { (nothing_buffered_behind 2).lines ≡ [] }
    ensures first_feed { fed_lines (nothing_buffered_behind 2).progress (codes "a\n\nb")
        ≡ (3, codes "a") ∷ [] }
    ensures last_line { finished_lines (fed (nothing_buffered_behind 2).progress (codes "a\n\nb"))
        ≡ (5, codes "b") ∷ [] }
    ensures none { nothing_buffered_behind 0 ≡ nothing_buffered }
{}

fn bytes_of_lines()
    ensures none { total_bytes [] ≡ 0 }
    ensures two { total_bytes ((1, codes "ab") ∷ (4, codes "c") ∷ []) ≡ 3 }
{}

fn lines_one_behind_another()
    ensures none { lines_in (codes "abc") [] ≡ [] }
    ensures two { lines_in (codes "abc")
        (record { number = 1; len = 2 } ∷ record { number = 4; len = 1 } ∷ [])
        ≡ (1, codes "ab") ∷ (4, codes "c") ∷ [] }
    ensures last { lines_in (drop 2 (codes "abc")) (record { number = 4; len = 1 } ∷ [])
        ≡ (4, codes "c") ∷ [] }
    ensures first { lines_in (take 2 (codes "abc")) (record { number = 1; len = 2 } ∷ [])
        ≡ (1, codes "ab") ∷ [] }
    ensures together { bytes_of (record { number = 1; len = 2 } ∷ record { number = 4; len = 1 } ∷ []) ≡ 3 }
{}
